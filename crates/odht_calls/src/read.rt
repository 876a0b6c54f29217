//! The calls that read the bytes of a table. Those that take no key are for lengths that are types
//! or numbers, the others for every configuration.
ghost use Rattle.std.specs.Prelude.{◌≡◌, length, IfOk};
ghost use Rattle.std.specs.Result.{result_err};
ghost use Rattle.odht_raw.specs.Words.{check_refusal_by, checked, format_of, opening_refusal};
ghost use Rattle.odht_raw.specs.Words.{view_refusal};
ghost use Rattle.odht_raw.specs.PartLengths.{ArePairLengths};
ghost use Rattle.odht_calls.specs.Orders.{ScratchAnswersOf};
ghost use Rattle.odht_calls.specs.Reads.{GetAnswers, GetAllAnswers, LenAnswersOf, SizesAnswers};
ghost use Rattle.odht_calls.specs.Prefixes.{TableLenAnswers};
ghost use Rattle.odht_calls.specs.Statuses.{status_or_ok};
ghost use Rattle.odht_calls.specs.Walks.{WalkAnswers};

use crate::status::{BAD_LENGTHS, OK, TOO_SMALL, UNMADE, status_of};
use crate::view::{self, View};
use odht::HashTable;
use odht::bytes::Borrowed;
use odht::config::{Coded, Config};
use odht::error::Error;
use odht::hash::HashFn;
use odht::layout::{Layout, Lengths};
use odht::load::max_item_count_for;
use odht::memory_layout::{
    Header, check_by_header, check_opening_in, check_parts, dynamic_table_len, is_accepted,
    parts_in,
};

/// The number of the first error of bytes whose header or length does not fit; OK where both do.
/// It is a function of its own, so that a call that finds the header as it is to be has no code
/// for errors.
#[inline(never)]
pub(crate) fn refused<C: Config>(bytes: &[u8]) -> u32
    ensures { result ≡ status_or_ok (opening_refusal ⟦<C as Coded>⟧.coding.format bytes.now) }
{
    match HashTable::<C, Borrowed<'_>>::from_raw_bytes_by_header(Borrowed::new(bytes)) {
        Ok(_) => OK,
        Err(refused) => status_of(&refused),
    }
}

/// Writes the value of a key to `value`. ABSENT and errors leave `value` unchanged.
#[inline]
pub fn get<C: Config>(bytes: &[u8], key: &C::Key, value: &mut C::Value) -> u32
    ensures { GetAnswers ⟦<C as Coded>⟧.coding bytes.now key.now value.old result value.new }
{
    if !is_accepted::<C>(bytes) {
        return refused::<C>(bytes);
    }
    view::get(&view::table::<C>(&View { bytes }), key, value)
}

/// Looks up many keys: at the index of a key that is found, its value is written to `values` and 1
/// to `found`; at any other index 0 is written to `found`. An error leaves both unchanged.
#[inline]
pub fn get_all<C: Config>(
    bytes: &[u8],
    keys: &[C::Key],
    values: &mut [C::Value],
    found: &mut [u8],
) -> u32
    requires values { length values.old ≡ length keys.now }
    requires found { length found.old ≡ length keys.now }
    ensures { GetAllAnswers ⟦<C as Coded>⟧.coding bytes.now keys.now
        values.old found.old result values.new found.new }
{
    if !is_accepted::<C>(bytes) {
        return refused::<C>(bytes);
    }
    let table = view::table::<C>(&View { bytes });
    view::get_all(&table, keys, values, found)
}

/// Writes the keys and values in the slots from `cursor` on to the arrays, in slot order, as many
/// as fit, and to `item_count` how many. `cursor` is then the slot of the first pair that did not
/// fit (TOO_SMALL), or the slot count where none is left (OK). An error leaves everything
/// unchanged.
#[inline]
pub fn walk<C: Config>(
    bytes: &[u8],
    cursor: &mut usize,
    keys: &mut [C::Key],
    values: &mut [C::Value],
    item_count: &mut usize,
) -> u32
    requires { length values.old ≡ length keys.old }
    ensures { WalkAnswers ⟦<C as Coded>⟧.coding bytes.now
        cursor.old keys.old values.old item_count.old result cursor.new keys.new values.new
        item_count.new }
{
    if !is_accepted::<C>(bytes) {
        return refused::<C>(bytes);
    }
    let table = view::table::<C>(&View { bytes });
    let mut written = 0;
    for (slot, (key, value)) in table.iter_from(*cursor) {
        if written >= keys.len() {
            *cursor = slot;
            *item_count = written;
            return TOO_SMALL;
        }
        keys[written] = key;
        values[written] = value;
        written += 1;
    }
    *cursor = Header::of(bytes).slot_count();
    *item_count = written;
    OK
}

/// The header of bytes whose header and length fit, or the first error. Reads no slot.
#[inline(always)]
pub(crate) fn header_of<L: Lengths, H: HashFn>(
    lengths: L,
    bytes: &[u8],
) -> Result<Header<'_>, Error>
    requires { ArePairLengths H.MIN_LEN (L.key_len lengths) (L.value_len lengths) }
    ensures ok { IfOk result (λ header. header ≡ bytes.now) }
    ensures err { let F = format_of (L.key_len lengths) (L.value_len lengths) H.hash
        in result_err result ≡ opening_refusal F bytes.now }
{
    match check_by_header(bytes, Layout::of_lengths(lengths)) {
        Ok(()) => Ok(Header::of(bytes)),
        Err(refused) => Err(refused),
    }
}

/// OK where the header, the length and the first ten slots are accepted, else the number of the
/// first error.
#[inline(always)]
pub fn open<L: Lengths, H: HashFn>(lengths: L, bytes: &[u8]) -> u32
    requires { ArePairLengths H.MIN_LEN (L.key_len lengths) (L.value_len lengths) }
    ensures { let F = format_of (L.key_len lengths) (L.value_len lengths) H.hash
        in result ≡ status_or_ok (view_refusal F bytes.now) }
{
    match check_opening_in::<L, H>(bytes, lengths) {
        Ok(()) => OK,
        Err(refused) => status_of(&refused),
    }
}

/// The first error of the whole check, with a bound of searches where there is one.
#[inline(always)]
pub(crate) fn whole<L: Lengths, H: HashFn>(
    lengths: L,
    bytes: &[u8],
    groups: Option<usize>,
) -> Result<(), Error>
    requires { ArePairLengths H.MIN_LEN (L.key_len lengths) (L.value_len lengths) }
    ensures { let F = format_of (L.key_len lengths) (L.value_len lengths) H.hash
        in result ≡ checked (check_refusal_by F groups bytes.now) }
{
    check_opening_in::<L, H>(bytes, lengths)?;
    check_parts::<L, H>(bytes, lengths, groups)
}

/// OK where the bytes are valid and, if there is a bound, each home has a control byte that counts
/// as free among the first `groups` groups of its probe order, so that no search reads more; else
/// the number of the first error of the whole check with this bound.
#[inline(always)]
pub fn check<L: Lengths, H: HashFn>(lengths: L, bytes: &[u8], groups: Option<usize>) -> u32
    requires { ArePairLengths H.MIN_LEN (L.key_len lengths) (L.value_len lengths) }
    ensures { let F = format_of (L.key_len lengths) (L.value_len lengths) H.hash
        in result ≡ status_or_ok (check_refusal_by F groups bytes.now) }
{
    match whole::<L, H>(lengths, bytes, groups) {
        Ok(()) => OK,
        Err(refused) => status_of(&refused),
    }
}

/// Writes the header's item count to `item_count`. An error leaves it unchanged.
#[inline]
pub fn len<L: Lengths, H: HashFn>(lengths: L, bytes: &[u8], item_count: &mut usize) -> u32
    requires { ArePairLengths H.MIN_LEN (L.key_len lengths) (L.value_len lengths) }
    ensures { let F = format_of (L.key_len lengths) (L.value_len lengths) H.hash
        in LenAnswersOf F bytes.now item_count.old result item_count.new }
{
    match header_of::<L, H>(lengths, bytes) {
        Ok(header) => {
            *item_count = header.item_count();
            OK
        }
        Err(refused) => status_of(&refused),
    }
}

/// Writes the slot count, the maximum item count and the load factor in percent of slots, rounded
/// down, by the header. An error leaves all three unchanged.
#[inline]
pub fn sizes<L: Lengths, H: HashFn>(
    lengths: L,
    bytes: &[u8],
    slot_count: &mut usize,
    max_item_count: &mut usize,
    max_load_factor_percent: &mut u8,
) -> u32
    requires { ArePairLengths H.MIN_LEN (L.key_len lengths) (L.value_len lengths) }
    ensures { SizesAnswers (format_of (L.key_len lengths) (L.value_len lengths) H.hash) bytes.now
        slot_count.old max_item_count.old max_load_factor_percent.old result
        slot_count.new max_item_count.new max_load_factor_percent.new }
{
    let header = match header_of::<L, H>(lengths, bytes) {
        Ok(header) => header,
        Err(refused) => return status_of(&refused),
    };
    let slots = header.slot_count();
    let factor = header.max_load_factor();
    *slot_count = slots;
    *max_item_count = max_item_count_for(slots, factor);
    *max_load_factor_percent = factor.to_percent() as u8;
    OK
}

/// Writes to `len` how many bytes the table at the front of the bytes has, by its header; what
/// follows is not looked at, nor is any slot. An error leaves `len` unchanged: one of the header,
/// or of fewer bytes than the table has.
#[inline]
pub fn table_len<L: Lengths, H: HashFn>(lengths: L, bytes: &[u8], len: &mut usize) -> u32
    requires { ArePairLengths H.MIN_LEN (L.key_len lengths) (L.value_len lengths) }
    ensures { TableLenAnswers (format_of (L.key_len lengths) (L.value_len lengths) H.hash) bytes.now
        len.old result len.new }
{
    match dynamic_table_len(bytes, Layout::of_lengths(lengths)) {
        Ok(found) => {
            *len = found;
            OK
        }
        Err(refused) => status_of(&refused),
    }
}

/// Writes to `out` the occupied slots in an order in which inserts of their pairs make the table.
/// UNMADE where there is none: what `out` then holds is unspecified. Errors of the whole check and
/// BAD_LENGTHS leave `out` and `scratch` unchanged.
///
/// With three numbers of scratch for each slot, or more, it takes time in proportion to the slots,
/// and to the groups that the longest search of each home reads; with fewer, the steps of
/// `RawTable::insert_order`. What `scratch` then holds is unspecified.
#[inline]
pub fn insert_order<L: Lengths, H: HashFn>(
    lengths: L,
    bytes: &[u8],
    out: &mut [usize],
    scratch: &mut [usize],
) -> u32
    requires { ArePairLengths H.MIN_LEN (L.key_len lengths) (L.value_len lengths) }
    ensures { let F = format_of (L.key_len lengths) (L.value_len lengths) H.hash
        in ScratchAnswersOf F bytes.now out.old scratch.old result out.new scratch.new }
{
    if let Err(refused) = whole::<L, H>(lengths, bytes, None) {
        return status_of(&refused);
    }
    if out.len() != Header::of(bytes).item_count() {
        return BAD_LENGTHS;
    }
    if parts_in::<L, H>(bytes, lengths).insert_order_with(out, scratch) {
        OK
    } else {
        UNMADE
    }
}
