//! The exports of dynamic tables. The caller passes the lengths of keys and values, and the hash
//! function, as a layout. In arrays, keys and values follow each other without gaps.
//!
//! Statuses have the names of include/odht.h without `ODHT_`. Each call except `layout_of` returns
//! `BAD_LAYOUT` if no hash function has the number in the layout, or if the keys are shorter than
//! it needs. Then nothing is written. `BAD_PERCENT` rejects load factors that are not from 1 to 100
//! percent. `CAPACITY`: no slot count is large enough, or the length does not fit `usize`.
ghost use Rattle.std.specs.Prelude.{◌≡◌, length, Some};
ghost use Rattle.odht_header.specs.Refusals.{view_refusal, check_refusal, check_refusal_by};
ghost use Rattle.odht_raw.specs.Frame.{IsAccepted};
ghost use Rattle.odht_calls.specs.Statuses.{status_or_ok};
ghost use Rattle.odht_calls.specs.Layouts.{AnyAnswers, DynAnswers};
ghost use Rattle.odht_calls.specs.Layouts.{ContainsAnswers, LayoutAnswers, any_coding};
ghost use Rattle.odht_calls.specs.Orders.{ScratchAnswers};
ghost use Rattle.odht_calls.specs.Places.{PlaceAnswers};
ghost use Rattle.odht_calls.specs.Pieces.{AnyWalkAnswers, AnyGetAllAnswers, AnyInsertAllAnswers};
ghost use Rattle.odht_calls.specs.Pieces.{AnyBuildAnswers, AnyBuildGrowingAnswers};
ghost use Rattle.odht_calls.specs.Prefixes.{TableLenAnswers};
ghost use Rattle.odht_calls.specs.Reads.{GetAnswers, LenAnswers, SizesAnswers};
ghost use Rattle.odht_calls.specs.Writes.{BytesNeededAnswers, InitAnswers, InsertAnswers};
ghost use Rattle.odht_calls.specs.Grows.{GrowAnswers};

use odht::hash::HashFn;
use odht::layout::Layout;
use odht_calls::any::build::{build, build_growing};
use odht_calls::any::read::{contains, get, get_all, layout_of, walk};
use odht_calls::any::write::{insert, insert_all};
use odht_calls::any::{AnyLayout, FX, UNHASH, XXH64, has_hash};
use odht_calls::places::{check_at, open_at};
use odht_calls::read::{check, insert_order, len, open, sizes, table_len};
use odht_calls::status::BAD_LAYOUT;
use odht_calls::write::{bytes_needed, grow, init};
use std::alloc::Global;

/// Calls a function for the hash function of a layout, which is its last type parameter, with the
/// lengths of the layout in front of these arguments. BAD_LAYOUT where there is no such hash
/// function, or it needs longer keys.
macro_rules! with_hash {
    ($layout:expr, $function:ident $(::<$lengths:ident>)? ($($argument:expr),* $(,)?)) => {{
        let layout = $layout;
        let lengths = odht::dynamic::Layout {
            key_len: layout.key_len,
            value_len: layout.value_len,
        };
        if has_hash(layout, FX, odht::FxHashFn::MIN_LEN) {
            $function::<$($lengths,)? odht::FxHashFn>(lengths, $($argument),*)
        } else if has_hash(layout, UNHASH, odht::UnHashFn::MIN_LEN) {
            $function::<$($lengths,)? odht::UnHashFn>(lengths, $($argument),*)
        } else if has_hash(layout, XXH64, odht::Xxh64HashFn::MIN_LEN) {
            $function::<$($lengths,)? odht::Xxh64HashFn>(lengths, $($argument),*)
        } else {
            BAD_LAYOUT
        }
    }};
}

pub(crate) mod views;

/// Writes the length in bytes of a new table for that number of items to `len`, and returns 0.
/// With `BAD_PERCENT` and `CAPACITY`, `len` is unchanged.
#[unsafe(no_mangle)]
pub extern "C" fn odht_any_bytes_needed(
    layout: &AnyLayout,
    max_item_count: usize,
    max_load_factor_percent: u8,
    len: &mut usize,
) -> u32
    ensures { AnyAnswers layout.now result (len.new ≡ len.old)
        (λ c. BytesNeededAnswers c max_item_count max_load_factor_percent len.old result len.new) }
{
    with_hash!(
        *layout,
        bytes_needed::<Layout>(max_item_count, max_load_factor_percent, len)
    )
}

/// Makes an empty table for that number of items in the bytes, and returns 0. The former content
/// of the bytes does not matter. Returns `BAD_PERCENT`, `CAPACITY`, or `INIT_LENGTH` if the table
/// needs another length. Then the bytes are unchanged. Makes one pass over the bytes.
#[unsafe(no_mangle)]
pub extern "C" fn odht_any_init(
    layout: &AnyLayout,
    bytes: &mut [u8],
    max_item_count: usize,
    max_load_factor_percent: u8,
) -> u32
    ensures { AnyAnswers layout.now result (bytes.new ≡ bytes.old)
        (λ c. InitAnswers c max_item_count max_load_factor_percent bytes.old result bytes.new) }
{
    with_hash!(
        *layout,
        init::<Layout>(bytes, max_item_count, max_load_factor_percent)
    )
}

/// Returns 0 if the bytes can be opened. Otherwise returns the number of the first error: too few
/// bytes, or an error of the header, the length or the first ten slots. Takes constant time.
#[unsafe(no_mangle)]
pub extern "C" fn odht_any_open(layout: &AnyLayout, bytes: &[u8]) -> u32
    ensures { AnyAnswers layout.now result (Unit {0})
        (λ c. result ≡ status_or_ok (view_refusal c.format bytes.now)) }
{
    with_hash!(*layout, open::<Layout>(bytes))
}

/// Returns 0 exactly if the bytes are valid. Otherwise returns the number of the first error of
/// the whole check. Makes one pass over the slots. For each occupied slot, reads the control bytes
/// of its key's probe order up to that slot.
#[unsafe(no_mangle)]
pub extern "C" fn odht_any_check(layout: &AnyLayout, bytes: &[u8]) -> u32
    ensures { AnyAnswers layout.now result (Unit {0})
        (λ c. result ≡ status_or_ok (check_refusal c.format bytes.now)) }
{
    with_hash!(*layout, check::<Layout>(bytes, None))
}

/// Works like `check`, with a bound for searches. Returns 0 exactly if the bytes are valid and
/// each home has a free slot in the first `groups` groups of its probe order. Then no search reads
/// more groups. Otherwise returns the first error of the whole check, or `SEARCH_TOO_LONG`, which
/// comes before `UNREACHABLE`. For each slot, reads at most `groups` groups of sixteen control
/// bytes for the bound, and at most `groups` for the search.
#[unsafe(no_mangle)]
pub extern "C" fn odht_any_check_within(layout: &AnyLayout, bytes: &[u8], groups: usize) -> u32
    ensures { AnyAnswers layout.now result (Unit {0})
        (λ c. result ≡ status_or_ok (check_refusal_by c.format (Some groups) bytes.now)) }
{
    with_hash!(*layout, check::<Layout>(bytes, Some(groups)))
}

/// Works like `open`, and writes the slot of the first error to `slot`. With an error of the
/// header or length, and with status 0, it writes `NO_SLOT`, the largest number. With `BAD_LAYOUT`,
/// `slot` is unchanged. Takes constant time.
#[unsafe(no_mangle)]
pub extern "C" fn odht_any_open_at(layout: &AnyLayout, bytes: &[u8], slot: &mut usize) -> u32
    ensures { AnyAnswers layout.now result (slot.new ≡ slot.old)
        (λ c. PlaceAnswers (view_refusal c.format bytes.now) result slot.new) }
{
    with_hash!(*layout, open_at::<Layout>(bytes, slot))
}

/// Works like `check`, and writes the slot of the first error to `slot`: that of an entry, of a
/// control byte or of an unreachable key. With `MIRROR_MISMATCH` it writes the index of the
/// mirror's byte. With any other error, and with status 0, it writes `NO_SLOT`, the largest
/// number. With `BAD_LAYOUT`, `slot` is unchanged. The cost is that of `check`.
#[unsafe(no_mangle)]
pub extern "C" fn odht_any_check_at(layout: &AnyLayout, bytes: &[u8], slot: &mut usize) -> u32
    ensures { AnyAnswers layout.now result (slot.new ≡ slot.old)
        (λ c. PlaceAnswers (check_refusal c.format bytes.now) result slot.new) }
{
    with_hash!(*layout, check_at::<Layout>(bytes, None, slot))
}

/// Works like `check_within`, and writes the slot of the first error to `slot`, as `check_at`
/// does. With `SEARCH_TOO_LONG` it writes the slot where the searches begin.
#[unsafe(no_mangle)]
pub extern "C" fn odht_any_check_within_at(
    layout: &AnyLayout,
    bytes: &[u8],
    groups: usize,
    slot: &mut usize,
) -> u32
    ensures { AnyAnswers layout.now result (slot.new ≡ slot.old)
        (λ c. PlaceAnswers (check_refusal_by c.format (Some groups) bytes.now) result slot.new) }
{
    with_hash!(*layout, check_at::<Layout>(bytes, Some(groups), slot))
}

/// Writes the header's item count to `item_count`, and returns 0. With an error of the header or
/// length, `item_count` is unchanged.
#[unsafe(no_mangle)]
pub extern "C" fn odht_any_len(layout: &AnyLayout, bytes: &[u8], item_count: &mut usize) -> u32
    ensures { AnyAnswers layout.now result (item_count.new ≡ item_count.old)
        (λ c. LenAnswers c bytes.now item_count.old result item_count.new) }
{
    with_hash!(*layout, len::<Layout>(bytes, item_count))
}

/// Writes the header's slot count, the maximum number of items for it, and the header's load factor
/// in percent, rounded down. Returns 0. With an error of the header or length, nothing is written.
#[unsafe(no_mangle)]
pub extern "C" fn odht_any_sizes(
    layout: &AnyLayout,
    bytes: &[u8],
    slot_count: &mut usize,
    max_item_count: &mut usize,
    max_load_factor_percent: &mut u8,
) -> u32
    ensures { let Same = (slot_count.new ≡ slot_count.old)
        × (max_item_count.new ≡ max_item_count.old)
        × (max_load_factor_percent.new ≡ max_load_factor_percent.old)
        in AnyAnswers layout.now result Same (λ c. SizesAnswers c.format bytes.now
        slot_count.old max_item_count.old max_load_factor_percent.old result
        slot_count.new max_item_count.new max_load_factor_percent.new) }
{
    with_hash!(
        *layout,
        sizes::<Layout>(bytes, slot_count, max_item_count, max_load_factor_percent)
    )
}

/// Computes the length in bytes of the table at the start of the bytes from its header, writes it
/// to `len`, and returns 0. Reads no slot, and nothing after the table. Returns an error of the
/// header, or `WRONG_LENGTH` if there are fewer bytes than the table needs. Then `len` is
/// unchanged.
#[unsafe(no_mangle)]
pub extern "C" fn odht_any_table_len(layout: &AnyLayout, bytes: &[u8], len: &mut usize) -> u32
    ensures { AnyAnswers layout.now result (len.new ≡ len.old)
        (λ c. TableLenAnswers c.format bytes.now len.old result len.new) }
{
    with_hash!(*layout, table_len::<Layout>(bytes, len))
}

/// Writes the lengths of keys and values in the header to `layout`, and returns 0. The number of
/// the hash function is unchanged. With an error of the header or length, `layout` is unchanged.
#[unsafe(no_mangle)]
pub extern "C" fn odht_any_layout_of(bytes: &[u8], layout: &mut AnyLayout) -> u32
    ensures { LayoutAnswers bytes.now layout.old result layout.new }
{
    layout_of(bytes, layout)
}

/// Writes the value of a key to `value`, and returns 0. Returns `ABSENT` if the key is absent,
/// `BAD_LENGTHS` if the key or `value` does not have the layout's length, or an error of the header
/// or length. Then `value` is unchanged.
#[unsafe(no_mangle)]
pub extern "C" fn odht_any_get(
    layout: &AnyLayout,
    bytes: &[u8],
    key: &[u8],
    value: &mut [u8],
) -> u32
    ensures { let Long = (length key.now ≡ layout.now.key_len)
        × (length value.old ≡ layout.now.value_len)
        in AnyAnswers layout.now result (value.new ≡ value.old)
        (λ c. DynAnswers Long result (value.new ≡ value.old)
        (GetAnswers c bytes.now key.now value.old result value.new)) }
{
    with_hash!(*layout, get(bytes, key, value))
}

/// Returns 0 if the key is present, and `ABSENT` if it is absent. Returns `BAD_LENGTHS` if the key
/// does not have the layout's length, or an error of the header or length.
#[unsafe(no_mangle)]
pub extern "C" fn odht_any_contains(layout: &AnyLayout, bytes: &[u8], key: &[u8]) -> u32
    ensures { AnyAnswers layout.now result (Unit {0})
        (λ c. DynAnswers (length key.now ≡ layout.now.key_len) result (Unit {0})
        (ContainsAnswers c bytes.now key.now result)) }
{
    with_hash!(*layout, contains(bytes, key))
}

/// Looks up `count` keys, and returns 0. If the key at an index is present, writes 1 to `found` and
/// its value to `values` at that index. If it is absent, writes 0 to `found` and leaves the value
/// unchanged. Returns `BAD_LENGTHS` if the length of `keys`, `values` or `found` is not that of
/// `count` items, or an error of the header or length. Then nothing is written.
#[unsafe(no_mangle)]
pub extern "C" fn odht_any_get_all(
    layout: &AnyLayout,
    bytes: &[u8],
    count: usize,
    keys: &[u8],
    values: &mut [u8],
    found: &mut [u8],
) -> u32
    ensures { AnyGetAllAnswers layout.now bytes.now
        count keys.now values.old found.old result values.new found.new }
{
    with_hash!(*layout, get_all(bytes, count, keys, values, found))
}

/// Writes keys and values to the arrays, in slot order from the slot `cursor` on, until `room`
/// pairs are written or no pair is left. Writes their number to `item_count`, and the slot to
/// continue at to `cursor`. The first call starts with a `cursor` of 0. Returns 0 if no pair is
/// left, and `TOO_SMALL` if there are more. Returns `BAD_LENGTHS` if the length of `keys` or
/// `values` is not that of `room` items, or an error of the header or length. Then nothing is
/// written.
#[unsafe(no_mangle)]
pub extern "C" fn odht_any_walk(
    layout: &AnyLayout,
    bytes: &[u8],
    cursor: &mut usize,
    room: usize,
    keys: &mut [u8],
    values: &mut [u8],
    item_count: &mut usize,
) -> u32
    ensures { AnyWalkAnswers layout.now bytes.now
        cursor.old room keys.old values.old item_count.old result cursor.new keys.new values.new
        item_count.new }
{
    with_hash!(*layout, walk(bytes, cursor, room, keys, values, item_count))
}

/// Writes the occupied slots to `out`, in an order in which inserts make the table, and returns 0.
/// To make exactly these bytes, insert the pairs of these slots in this order into an empty table
/// of the same slot count and load factor. Returns `UNMADE` if no list of inserts makes the table.
/// Then the content of `out` is unspecified. Returns the first error of the whole check, or
/// `BAD_LENGTHS` if the length of `out` is not the number of items. Then `out` and `scratch` are
/// unchanged.
///
/// `scratch` is memory for the search. Its content before the call does not matter, and after 0 and
/// `UNMADE` it is unspecified. Makes the whole check. With at least three numbers of scratch for
/// each slot, the time of the search is proportional to the slots, and to the groups of the longest
/// search of each home. With fewer it makes the passes of the shapes' calls. Allocates nothing.
#[unsafe(no_mangle)]
pub extern "C" fn odht_any_insert_order(
    layout: &AnyLayout,
    bytes: &[u8],
    out: &mut [usize],
    scratch: &mut [usize],
) -> u32
    ensures { AnyAnswers layout.now result ((out.new ≡ out.old) × (scratch.new ≡ scratch.old))
        (λ c. ScratchAnswers c bytes.now out.old scratch.old result out.new scratch.new) }
{
    with_hash!(*layout, insert_order::<Layout>(bytes, out, scratch))
}

/// Inserts a key with its value. Returns 0 if the key was new. If the key was present, replaces its
/// value, writes the former one to `former` and returns `REPLACED`. Returns `FULL` if the key is
/// absent and the table is at its maximum, or an error of the header or length. Returns
/// `BAD_LENGTHS` if the key, the value or `former` does not have the layout's length. With these
/// nothing is changed. A view of the bytes remains usable, whatever the status.
#[unsafe(no_mangle)]
pub extern "C" fn odht_any_insert(
    layout: &AnyLayout,
    bytes: &mut [u8],
    key: &[u8],
    value: &[u8],
    former: &mut [u8],
) -> u32
    ensures answers { let Long = (length key.now ≡ layout.now.key_len)
        × (length value.now ≡ layout.now.value_len)
        × (length former.old ≡ layout.now.value_len)
        in let Same = (bytes.new ≡ bytes.old) × (former.new ≡ former.old)
        in AnyAnswers layout.now result Same (λ c. DynAnswers Long result Same
        (InsertAnswers c bytes.old key.now value.now former.old result bytes.new former.new)) }
    ensures accepted { let F = (any_coding layout.now).format
        in IsAccepted F bytes.old → IsAccepted F bytes.new }
{
    with_hash!(*layout, insert(bytes, key, value, former))
}

/// Inserts `count` pairs in order, up to the first `FULL`. Writes the number of inserted pairs to
/// `accepted`. Returns 0 if all are inserted, and `FULL` if not. Returns `BAD_LENGTHS` if the
/// length of `keys` or `values` is not that of `count` items, or an error of the header or length.
/// Then nothing is changed. A view of the bytes remains usable, whatever the status. Makes one
/// insert for each pair. If keys and values have no bytes, all pairs are equal: only the first is
/// inserted.
#[unsafe(no_mangle)]
pub extern "C" fn odht_any_insert_all(
    layout: &AnyLayout,
    bytes: &mut [u8],
    count: usize,
    keys: &[u8],
    values: &[u8],
    accepted: &mut usize,
) -> u32
    ensures answers { AnyInsertAllAnswers layout.now bytes.old
        count keys.now values.now accepted.old result bytes.new accepted.new }
    ensures accepted { let F = (any_coding layout.now).format
        in IsAccepted F bytes.old → IsAccepted F bytes.new }
{
    with_hash!(*layout, insert_all(bytes, count, keys, values, accepted))
}

/// Writes a larger copy of the table to the start of `out`, its length in bytes to `len`, and
/// returns 0. The rest of `out` is unchanged. Returns `TOO_SMALL` if `out` is shorter than the
/// copy. Then only `len` is written. Returns an error of the header or length, or `CAPACITY`, or
/// `LOAD_FACTOR_TOO_SMALL` if the header's load factor is below one percent. Then nothing is
/// written. Makes one pass over both tables, and hashes each key once. Allocates nothing.
#[unsafe(no_mangle)]
pub extern "C" fn odht_any_grow(
    layout: &AnyLayout,
    bytes: &[u8],
    out: &mut [u8],
    len: &mut usize,
) -> u32
    ensures { AnyAnswers layout.now result ((out.new ≡ out.old) × (len.new ≡ len.old))
        (λ c. GrowAnswers c bytes.now out.old len.old result out.new len.new) }
{
    with_hash!(*layout, grow::<Layout>(bytes, out, len))
}

/// Makes a table for `count` items at the start of `out`, inserts the pairs in order, writes the
/// table's length in bytes to `len`, and returns 0. Of equal keys the last value counts. The rest
/// of `out` is unchanged. Returns `TOO_SMALL` if `out` is shorter than the table. Then only `len`
/// is written. Returns `BAD_LENGTHS` if the length of `keys` or `values` is not that of `count`
/// items, `BAD_PERCENT` or `CAPACITY`. Then nothing is written. Makes one pass over the bytes, and
/// one insert for each pair. Allocates nothing.
#[unsafe(no_mangle)]
pub extern "C" fn odht_any_build(
    layout: &AnyLayout,
    count: usize,
    keys: &[u8],
    values: &[u8],
    max_load_factor_percent: u8,
    out: &mut [u8],
    len: &mut usize,
) -> u32
    ensures { AnyBuildAnswers layout.now count keys.now values.now max_load_factor_percent
        out.old len.old result out.new len.new }
{
    let percent = max_load_factor_percent;
    with_hash!(*layout, build(count, keys, values, percent, out, len))
}

/// Inserts `count` pairs, in order, into a table in allocated memory, which starts with sixteen
/// slots at 87 percent and grows. Then copies it to the start of `out`, writes its length in bytes
/// to `len`, and returns 0. Of equal keys the last value counts. The rest of `out` is unchanged.
/// Returns `TOO_SMALL` if `out` is shorter than the table. Then only `len` is written. Returns
/// `BAD_LENGTHS` if the length of `keys` or `values` is not that of `count` items, or `MEMORY` if
/// an allocation fails or no table is large enough. Then nothing is written. Makes one insert for
/// each pair, the growths, and one copy of the table. If keys and values have no bytes, all pairs
/// are equal: only the first is inserted.
#[unsafe(no_mangle)]
pub extern "C" fn odht_any_build_growing(
    alloc: Global,
    layout: &AnyLayout,
    count: usize,
    keys: &[u8],
    values: &[u8],
    out: &mut [u8],
    len: &mut usize,
) -> u32
    ensures { AnyBuildGrowingAnswers layout.now count keys.now values.now out.old len.old result
        out.new len.new }
{
    with_hash!(*layout, build_growing(alloc, count, keys, values, out, len))
}
