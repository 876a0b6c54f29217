//! The exports of tables from 32-bit numbers to 32-bit numbers, FxHashFn.
//!
//! Statuses have the names of include/odht.h without `ODHT_`. An error of the header or length is a
//! number from 1 to 7. Load factors are in percent of slots. docs/FORMAT.md describes the bytes.
//! docs/PROOFS.md, "Calls for C", lists what is proved.
//!
//! Generated from lists/shapes.txt and crates/odht_c/exports/shape.rt.in by make generate.
ghost use Rattle.std.specs.Prelude.{◌≡◌, Some};
ghost use Rattle.odht_raw.specs.Frame.{IsAccepted};
ghost use Rattle.odht_header.specs.Refusals.{view_refusal, check_refusal, check_refusal_by};
ghost use Rattle.odht_calls.specs.Statuses.{status_or_ok};
ghost use Rattle.odht_calls.specs.Reads.{GetAnswers, GetAllAnswers, LenAnswers, SizesAnswers};
ghost use Rattle.odht_calls.specs.Prefixes.{TableLenAnswers};
ghost use Rattle.odht_calls.specs.Places.{PlaceAnswers};
ghost use Rattle.odht_calls.specs.Walks.{WalkAnswers};
ghost use Rattle.odht_calls.specs.Views.{OpenViewAnswers, ViewGetAnswers, ViewGetAllAnswers};
ghost use Rattle.odht_calls.specs.Views.{ViewLenAnswers};
ghost use Rattle.odht_calls.specs.Orders.{OrderAnswers};
ghost use Rattle.odht_calls.specs.Writes.{BytesNeededAnswers, InitAnswers, InsertAnswers};
ghost use Rattle.odht_calls.specs.Writes.{InsertAllAnswers};
ghost use Rattle.odht_calls.specs.Grows.{GrowAnswers};
ghost use Rattle.odht_calls.specs.Builds.{BuildAnswers, BuildGrowingAnswers};

use odht::bytes::BorrowedMut;
use odht::config::{Coded, Config};
use odht::configs::U32ToU32 as Shape;
use odht::layout::Fixed;
use odht_calls::status::BAD_LENGTHS;
use odht_calls::view::{self, View};
use odht_calls::{build, places, read, write};
use std::alloc::Global;

// The lengths of keys and values, and the hash function.
type Sizes = Fixed<<Shape as Config>::EncodedKey, <Shape as Config>::EncodedValue>;

type Hash = <Shape as Config>::H;

/// Writes the length in bytes of a new table for that number of items to `len`, and returns 0.
/// Returns `BAD_PERCENT` if the load factor is not from 1 to 100 percent. Returns `CAPACITY` if no
/// slot count is large enough or the length does not fit `usize`. Then `len` is unchanged.
#[unsafe(no_mangle)]
pub extern "C" fn odht_u32_u32_bytes_needed(
    max_item_count: usize,
    max_load_factor_percent: u8,
    len: &mut usize,
) -> u32
    ensures { BytesNeededAnswers ⟦<Shape as Coded>⟧.coding max_item_count max_load_factor_percent
        len.old result len.new }
{
    let sizes = Sizes::new();
    write::bytes_needed::<Sizes, Hash>(sizes, max_item_count, max_load_factor_percent, len)
}

/// Makes an empty table for that number of items in the bytes, and returns 0. The former content
/// of the bytes does not matter. Returns `BAD_PERCENT`, `CAPACITY`, or `INIT_LENGTH` if the table
/// needs another length. Then the bytes are unchanged. Makes one pass over the bytes.
#[unsafe(no_mangle)]
pub extern "C" fn odht_u32_u32_init(
    bytes: &mut [u8],
    max_item_count: usize,
    max_load_factor_percent: u8,
) -> u32
    ensures { InitAnswers ⟦<Shape as Coded>⟧.coding max_item_count max_load_factor_percent
        bytes.old result bytes.new }
{
    let sizes = Sizes::new();
    write::init::<Sizes, Hash>(sizes, bytes, max_item_count, max_load_factor_percent)
}

/// Returns 0 if the bytes can be opened. Otherwise returns the number of the first error,
/// 1 to 9: too few bytes, or an error of the header, the length or the first ten slots. Takes
/// constant time.
#[unsafe(no_mangle)]
pub extern "C" fn odht_u32_u32_open(bytes: &[u8]) -> u32
    ensures { result ≡ status_or_ok (view_refusal ⟦<Shape as Coded>⟧.coding.format bytes.now) }
{
    read::open::<Sizes, Hash>(Sizes::new(), bytes)
}

/// Returns 0 exactly if the bytes are valid. Otherwise returns the number of the first error of
/// the whole check, 1 to 16. Makes one pass over the slots. For each occupied slot, reads the
/// control bytes of its key's probe order up to that slot.
#[unsafe(no_mangle)]
pub extern "C" fn odht_u32_u32_check(bytes: &[u8]) -> u32
    ensures { result ≡ status_or_ok (check_refusal ⟦<Shape as Coded>⟧.coding.format bytes.now) }
{
    read::check::<Sizes, Hash>(Sizes::new(), bytes, None)
}

/// Works like `check`, with a bound for searches. Returns 0 exactly if the bytes are valid and
/// each home has a free slot in the first `groups` groups of its probe order. Then no search reads
/// more groups. Otherwise returns the first error of the whole check, or `SEARCH_TOO_LONG`, which
/// comes before `UNREACHABLE`. For each slot, reads at most `groups` groups of sixteen control
/// bytes for the bound, and at most `groups` for the search.
#[unsafe(no_mangle)]
pub extern "C" fn odht_u32_u32_check_within(bytes: &[u8], groups: usize) -> u32
    ensures { let F = ⟦<Shape as Coded>⟧.coding.format
        in result ≡ status_or_ok (check_refusal_by F (Some groups) bytes.now) }
{
    read::check::<Sizes, Hash>(Sizes::new(), bytes, Some(groups))
}

/// Works like `open`, and writes the slot of the first error to `slot`. With an error of the
/// header or length, and with status 0, it writes `NO_SLOT`, the largest number. Takes constant
/// time.
#[unsafe(no_mangle)]
pub extern "C" fn odht_u32_u32_open_at(bytes: &[u8], slot: &mut usize) -> u32
    ensures { PlaceAnswers (view_refusal ⟦<Shape as Coded>⟧.coding.format bytes.now) result
        slot.new }
{
    places::open_at::<Sizes, Hash>(Sizes::new(), bytes, slot)
}

/// Works like `check`, and writes the slot of the first error to `slot`: that of an entry, of a
/// control byte or of an unreachable key. With `MIRROR_MISMATCH` it writes the index of the
/// mirror's byte. With any other error, and with status 0, it writes `NO_SLOT`, the largest
/// number. The cost is that of `check`.
#[unsafe(no_mangle)]
pub extern "C" fn odht_u32_u32_check_at(bytes: &[u8], slot: &mut usize) -> u32
    ensures { PlaceAnswers (check_refusal ⟦<Shape as Coded>⟧.coding.format bytes.now) result
        slot.new }
{
    places::check_at::<Sizes, Hash>(Sizes::new(), bytes, None, slot)
}

/// Works like `check_within`, and writes the slot of the first error to `slot`, as `check_at`
/// does. With `SEARCH_TOO_LONG` it writes the slot where the searches begin. The cost is that of
/// `check_within`.
#[unsafe(no_mangle)]
pub extern "C" fn odht_u32_u32_check_within_at(bytes: &[u8], groups: usize, slot: &mut usize) -> u32
    ensures { let F = ⟦<Shape as Coded>⟧.coding.format
        in PlaceAnswers (check_refusal_by F (Some groups) bytes.now) result slot.new }
{
    places::check_at::<Sizes, Hash>(Sizes::new(), bytes, Some(groups), slot)
}

/// Inserts a key with its value. Returns 0 if the key was new. If the key was present, replaces
/// its value, writes the former one to `former` and returns `REPLACED`. Returns `FULL` if the key
/// is absent and the table is at its maximum, or an error of the header or length. Then nothing is
/// changed. A view of the bytes remains usable, whatever the status.
#[unsafe(no_mangle)]
pub extern "C" fn odht_u32_u32_insert(
    bytes: &mut [u8],
    key: u32,
    value: u32,
    former: &mut u32,
) -> u32
    ensures answers { InsertAnswers ⟦<Shape as Coded>⟧.coding bytes.old key value
        former.old result bytes.new former.new }
    ensures accepted { let F = ⟦<Shape as Coded>⟧.coding.format
        in IsAccepted F bytes.old → IsAccepted F bytes.new }
{
    let mut store = BorrowedMut::new(bytes);
    write::insert::<Shape, BorrowedMut<'_>>(&mut store, &key, &value, former)
}

/// Inserts the key and the value at each index, in order, up to the first `FULL`. Writes the
/// number of inserted pairs to `accepted`. Returns 0 if all are inserted, and `FULL` if not.
/// Returns `BAD_LENGTHS` if the numbers of keys and values differ, or an error of the header or
/// length. Then nothing is changed. A view of the bytes remains usable, whatever the status.
#[unsafe(no_mangle)]
pub extern "C" fn odht_u32_u32_insert_all(
    bytes: &mut [u8],
    keys: &[u32],
    values: &[u32],
    accepted: &mut usize,
) -> u32
    ensures answers { InsertAllAnswers ⟦<Shape as Coded>⟧.coding bytes.old keys.now values.now
        accepted.old result bytes.new accepted.new }
    ensures accepted { let F = ⟦<Shape as Coded>⟧.coding.format
        in IsAccepted F bytes.old → IsAccepted F bytes.new }
{
    if values.len() != keys.len() {
        return BAD_LENGTHS;
    }
    write::insert_all::<Shape>(bytes, keys, values, accepted)
}

/// Writes the value of a key to `value`, and returns 0. Returns `ABSENT` if the key is absent, or
/// an error of the header or length. Then `value` is unchanged.
#[unsafe(no_mangle)]
pub extern "C" fn odht_u32_u32_get(bytes: &[u8], key: u32, value: &mut u32) -> u32
    ensures { GetAnswers ⟦<Shape as Coded>⟧.coding bytes.now key value.old result value.new }
{
    read::get::<Shape>(bytes, &key, value)
}

/// Looks up many keys, and returns 0. If the key at an index is present, writes 1 to `found` and
/// its value to `values` at that index. If it is absent, writes 0 to `found` and leaves the value
/// unchanged. Returns `BAD_LENGTHS` if the arrays have different lengths, or an error of the header
/// or length. Then nothing is written.
#[unsafe(no_mangle)]
pub extern "C" fn odht_u32_u32_get_all(
    bytes: &[u8],
    keys: &[u32],
    values: &mut [u32],
    found: &mut [u8],
) -> u32
    ensures { GetAllAnswers ⟦<Shape as Coded>⟧.coding bytes.now keys.now
        values.old found.old result values.new found.new }
{
    if values.len() != keys.len() || found.len() != keys.len() {
        return BAD_LENGTHS;
    }
    read::get_all::<Shape>(bytes, keys, values, found)
}

/// Writes the header's item count to `item_count`, and returns 0. With an error of the header or
/// length, `item_count` is unchanged.
#[unsafe(no_mangle)]
pub extern "C" fn odht_u32_u32_len(bytes: &[u8], item_count: &mut usize) -> u32
    ensures { LenAnswers ⟦<Shape as Coded>⟧.coding bytes.now item_count.old result item_count.new }
{
    read::len::<Sizes, Hash>(Sizes::new(), bytes, item_count)
}

/// Writes the header's slot count, the maximum number of items for it, and the header's load
/// factor in percent, rounded down. Returns 0. With an error of the header or length, nothing is
/// written.
#[unsafe(no_mangle)]
pub extern "C" fn odht_u32_u32_sizes(
    bytes: &[u8],
    slot_count: &mut usize,
    max_item_count: &mut usize,
    max_load_factor_percent: &mut u8,
) -> u32
    ensures { SizesAnswers ⟦<Shape as Coded>⟧.coding.format bytes.now
        slot_count.old max_item_count.old max_load_factor_percent.old result
        slot_count.new max_item_count.new max_load_factor_percent.new }
{
    read::sizes::<Sizes, Hash>(
        Sizes::new(),
        bytes,
        slot_count,
        max_item_count,
        max_load_factor_percent,
    )
}

/// Computes the length in bytes of the table at the start of the bytes from its header, writes it
/// to `len`, and returns 0. Reads no slot, and nothing after the table. Returns an error of the
/// header, or `WRONG_LENGTH` if there are fewer bytes than the table needs. Then `len` is
/// unchanged.
#[unsafe(no_mangle)]
pub extern "C" fn odht_u32_u32_table_len(bytes: &[u8], len: &mut usize) -> u32
    ensures { TableLenAnswers ⟦<Shape as Coded>⟧.coding.format bytes.now len.old result len.new }
{
    read::table_len::<Sizes, Hash>(Sizes::new(), bytes, len)
}

/// Writes keys and values to the arrays, in slot order from the slot `cursor` on, until the arrays
/// are full or no pair is left. Writes their number to `item_count`, and the slot to continue at
/// to `cursor`. The first call starts with a `cursor` of 0. Returns 0 if no pair is left, and
/// `TOO_SMALL` if there are more. Returns `BAD_LENGTHS` if the arrays have different lengths, or an
/// error of the header or length. Then nothing is written.
#[unsafe(no_mangle)]
pub extern "C" fn odht_u32_u32_walk(
    bytes: &[u8],
    cursor: &mut usize,
    keys: &mut [u32],
    values: &mut [u32],
    item_count: &mut usize,
) -> u32
    ensures { WalkAnswers ⟦<Shape as Coded>⟧.coding bytes.now
        cursor.old keys.old values.old item_count.old result cursor.new keys.new values.new
        item_count.new }
{
    if values.len() != keys.len() {
        return BAD_LENGTHS;
    }
    read::walk::<Shape>(bytes, cursor, keys, values, item_count)
}

/// Opens the bytes as `open` does, makes `view` a view of them, and returns 0. Otherwise returns
/// an error of the header, the length or the first ten slots, 1 to 9. Then `view` is unchanged.
#[unsafe(no_mangle)]
pub extern "C" fn odht_u32_u32_open_view<'a>(bytes: &'a [u8], view: &mut View<'a>) -> u32
    ensures { OpenViewAnswers ⟦<Shape as Coded>⟧.coding.format
        bytes.entry view.old.bytes result view.new.bytes }
{
    view::open::<Sizes, Hash>(Sizes::new(), bytes, view)
}

/// Writes the value of a key in an opened table to `value`, and returns 0. Returns `ABSENT` if the
/// key is absent. Then `value` is unchanged. The header is not checked: the caller ensures that the
/// view's bytes are accepted, as they are after `open_view`.
#[unsafe(no_mangle)]
pub extern "C" fn odht_u32_u32_view_get(view: &View<'_>, key: u32, value: &mut u32) -> u32
    requires accepted { IsAccepted ⟦<Shape as Coded>⟧.coding.format view.now.bytes.now }
    ensures { ViewGetAnswers ⟦<Shape as Coded>⟧.coding view.now.bytes.now key value.old
        result value.new }
{
    view::get(&view::table::<Shape>(view), &key, value)
}

/// Looks up many keys in an opened table, and returns 0. Writes to `values` and `found` as
/// `get_all` does. Returns `BAD_LENGTHS` if the arrays have different lengths. Then nothing is
/// written. The header is not checked: the caller ensures that the view's bytes are accepted, as
/// they are after `open_view`.
#[unsafe(no_mangle)]
pub extern "C" fn odht_u32_u32_view_get_all(
    view: &View<'_>,
    keys: &[u32],
    values: &mut [u32],
    found: &mut [u8],
) -> u32
    requires accepted { IsAccepted ⟦<Shape as Coded>⟧.coding.format view.now.bytes.now }
    ensures { ViewGetAllAnswers ⟦<Shape as Coded>⟧.coding view.now.bytes.now keys.now
        values.old found.old result values.new found.new }
{
    if values.len() != keys.len() || found.len() != keys.len() {
        return BAD_LENGTHS;
    }
    view::get_all(&view::table::<Shape>(view), keys, values, found)
}

/// Returns the item count in the header of an opened table. If the bytes are valid, this is the
/// number of items. Nothing is checked: the caller ensures that the view's bytes are accepted, as
/// they are after `open_view`.
#[unsafe(no_mangle)]
pub extern "C" fn odht_u32_u32_view_len(view: &View<'_>) -> usize
    requires accepted { IsAccepted ⟦<Shape as Coded>⟧.coding.format view.now.bytes.now }
    ensures { ViewLenAnswers ⟦<Shape as Coded>⟧.coding view.now.bytes.now result }
{
    view::table::<Shape>(view).len()
}

/// Writes the occupied slots to `out`, in an order in which inserts make the table, and returns 0.
/// To make exactly these bytes, insert the pairs of these slots in this order into an empty table
/// of the same slot count and load factor. Returns `UNMADE` if no list of inserts makes the table.
/// Then the content of `out` is unspecified. Returns the first error of the whole check, 1 to 16,
/// or `BAD_LENGTHS` if the length of `out` is not the number of items. Then `out` is unchanged.
///
/// Makes the whole check, and then passes over the items. There is at most one pass more than there
/// are items that wait for the insert of an item in a later slot. Each pass ends with a sort of the
/// items that are left. Allocates nothing.
#[unsafe(no_mangle)]
pub extern "C" fn odht_u32_u32_insert_order(bytes: &[u8], out: &mut [usize]) -> u32
    ensures { OrderAnswers ⟦<Shape as Coded>⟧.coding bytes.now out.old result out.new }
{
    read::insert_order::<Sizes, Hash>(Sizes::new(), bytes, out, &mut [])
}

/// Writes a larger copy of the table in `bytes` to the start of `out`, its length in bytes to
/// `len`, and returns 0. The copy has the same load factor, and slots for twice the number of
/// items, and for at least one. The pairs are placed in slot order (docs/FORMAT.md, "Growth"). The
/// rest of `out` is unchanged. Returns `TOO_SMALL` if `out` is shorter than the copy. Then only
/// `len` is written. Returns an error of the header or length, or `LOAD_FACTOR_TOO_SMALL` if the
/// header's load factor is below one percent. Returns `CAPACITY` if no slot count is large enough
/// or the length does not fit `usize`. With these errors nothing is written. Makes one pass over
/// both tables, and hashes each key once. Allocates nothing.
#[unsafe(no_mangle)]
pub extern "C" fn odht_u32_u32_grow(bytes: &[u8], out: &mut [u8], len: &mut usize) -> u32
    ensures { GrowAnswers ⟦<Shape as Coded>⟧.coding bytes.now out.old len.old result out.new
        len.new }
{
    write::grow::<Sizes, Hash>(Sizes::new(), bytes, out, len)
}

/// Makes a table for the number of pairs at the start of `out`, and inserts the key and the value
/// at each index in order. Writes the table's length in bytes to `len`, and returns 0. Of equal
/// keys the last value counts. The rest of `out` is unchanged. Returns `TOO_SMALL` if `out` is
/// shorter than the table. Then only `len` is written. Returns `BAD_LENGTHS` if the numbers of keys
/// and values differ, or `BAD_PERCENT` if the load factor is not from 1 to 100 percent. Returns
/// `CAPACITY` only if no slot count is large enough or the length does not fit `usize`. With these
/// errors nothing is written. Makes one pass over the bytes, and one insert for each pair.
/// Allocates nothing.
#[unsafe(no_mangle)]
pub extern "C" fn odht_u32_u32_build(
    keys: &[u32],
    values: &[u32],
    max_load_factor_percent: u8,
    out: &mut [u8],
    len: &mut usize,
) -> u32
    ensures { BuildAnswers ⟦<Shape as Coded>⟧.coding keys.now values.now max_load_factor_percent
        out.old len.old result out.new len.new }
{
    if values.len() != keys.len() {
        return BAD_LENGTHS;
    }
    build::collected::<Shape>(keys, values, max_load_factor_percent, out, len)
}

/// Inserts the key and the value at each index, in order, into a table in allocated memory. The
/// table starts with sixteen slots at 87 percent, and grows. Then copies it to the start of `out`,
/// writes its length in bytes to `len`, and returns 0. Of equal keys the last value counts. The
/// rest of `out` is unchanged. Returns `TOO_SMALL` if `out` is shorter than the table. Then only
/// `len` is written. Returns `BAD_LENGTHS` if the numbers of keys and values differ, or `MEMORY` if
/// an allocation fails or no table is large enough. Then nothing is written. Makes one insert for
/// each pair, the growths, and one copy of the table.
#[unsafe(no_mangle)]
pub extern "C" fn odht_u32_u32_build_growing(
    alloc: Global,
    keys: &[u32],
    values: &[u32],
    out: &mut [u8],
    len: &mut usize,
) -> u32
    ensures { BuildGrowingAnswers ⟦<Shape as Coded>⟧.coding keys.now values.now
        out.old len.old result out.new len.new }
{
    if values.len() != keys.len() {
        return BAD_LENGTHS;
    }
    build::grown::<Shape>(alloc, keys, values, out, len)
}
