//! The calls that write the bytes of a table. Those that take no key are for lengths that are types
//! or numbers, the others for every configuration.
ghost use Rattle.std.specs.Prelude.{◌≡◌, length};
ghost use Rattle.odht_base.specs.Format.{format_of};
ghost use Rattle.odht_raw.specs.DynParts.{bytes_coding};
ghost use Rattle.odht_raw.specs.Frame.{IsAccepted};
ghost use Rattle.odht_raw.specs.PartLengths.{ArePairLengths};
ghost use Rattle.odht_raw.specs.Stored.{AreLengths};
ghost use Rattle.odht_calls.specs.Grows.{GrowAnswersOf};
ghost use Rattle.odht_calls.specs.Writes.{BytesNeededAnswersOf, InitAnswersOf};
ghost use Rattle.odht_calls.specs.Writes.{InsertAnswers, InsertAllAnswers, IsListAnswered};

use crate::read::{header_of, refused};
use crate::status::{
    BAD_PERCENT, CAPACITY, INIT_LENGTH, LOAD_FACTOR_TOO_SMALL, OK, REPLACED, TOO_SMALL, status_of,
};
use odht::HashTable;
use odht::bytes::ByteStoreMut;
use odht::config::{Coded, Config};
use odht::error::Error;
use odht::growth::{grow_parts, grown_len_of};
use odht::hash::HashFn;
use odht::items::{Encoded, EncodedItems, Zipped};
use odht::layout::{Fixed, Layout, Lengths};
use odht::load::{Factor, Percent};
use odht::memory_layout::{Header, LEAST_FACTOR, init_parts, insert_items_in, is_accepted};
use std::marker::PhantomData;

/// The lengths of a configuration.
pub(crate) type Sizes<C> = Fixed<<C as Config>::EncodedKey, <C as Config>::EncodedValue>;

/// The keys and values of two slices, at each index.
pub(crate) type Pairs<'a, C> = Encoded<
    'a,
    C,
    Zipped<'a, 'a, <C as Config>::Key, <C as Config>::Value>,
>;

/// Writes to `len` how many bytes a new table for that many items has. BAD_PERCENT and CAPACITY
/// leave `len` unchanged.
pub fn bytes_needed<L: Lengths, H: HashFn>(
    lengths: L,
    max_item_count: usize,
    max_load_factor_percent: u8,
    len: &mut usize,
) -> u32
    requires { ArePairLengths H.MIN_LEN (L.key_len lengths) (L.value_len lengths) }
    ensures { let F = format_of (L.key_len lengths) (L.value_len lengths) H.hash
        in BytesNeededAnswersOf F max_item_count max_load_factor_percent len.old result len.new }
{
    let Some(percent) = Percent::new(max_load_factor_percent) else {
        return BAD_PERCENT;
    };
    let factor = Factor::from_percent(percent.value());
    match Layout::of_lengths(lengths).table_for(max_item_count, factor) {
        Some((_, needed)) => {
            *len = needed;
            OK
        }
        None => CAPACITY,
    }
}

/// Makes an empty table for that many items in the bytes, whatever they hold. BAD_PERCENT, CAPACITY
/// and INIT_LENGTH leave them unchanged.
pub fn init<L: Lengths, H: HashFn>(
    lengths: L,
    bytes: &mut [u8],
    max_item_count: usize,
    max_load_factor_percent: u8,
) -> u32
    requires { ArePairLengths H.MIN_LEN (L.key_len lengths) (L.value_len lengths) }
    ensures { let F = format_of (L.key_len lengths) (L.value_len lengths) H.hash
        in InitAnswersOf F max_item_count max_load_factor_percent bytes.old result bytes.new }
{
    let Some(percent) = Percent::new(max_load_factor_percent) else {
        return BAD_PERCENT;
    };
    let factor = Factor::from_percent(percent.value());
    let Some((slot_count, needed)) = Layout::of_lengths(lengths).table_for(max_item_count, factor)
    else {
        return CAPACITY;
    };
    if bytes.len() != needed {
        return INIT_LENGTH;
    }
    init_parts(bytes, lengths, slot_count, 0, factor);
    OK
}

/// Gives the key this value. A value that it had before is written to `former`. An error leaves
/// the store and `former` unchanged.
#[inline(always)]
pub fn insert<C: Config, M: ByteStoreMut>(
    store: &mut M,
    key: &C::Key,
    value: &C::Value,
    former: &mut C::Value,
) -> u32
    ensures answer { InsertAnswers ⟦<C as Coded>⟧.coding (M.bytes store.old) key.now value.now
        former.old result (M.bytes store.new) former.new }
    ensures accepted { let F = ⟦<C as Coded>⟧.coding.format
        in IsAccepted F (M.bytes store.old) → IsAccepted F (M.bytes store.new) }
    ensures same_store { store.new ≡ M.holding store.old (M.bytes store.new) }
{
    if !is_accepted::<C>(store.bytes()) {
        return refused::<C>(store.bytes());
    }
    let mut table = HashTable::<C, &mut M>::from_raw_bytes_unchecked(store);
    let answer = table.insert(key, value);
    let _store = table.into_data();
    match answer {
        Ok(Some(old)) => {
            *former = old;
            REPLACED
        }
        Ok(None) => OK,
        Err(refused) => status_of(&refused),
    }
}

/// Inserts the pairs in order, up to the first whose insert fails with FULL, and writes to
/// `accepted` how many were inserted. An error of the header or length leaves everything
/// unchanged.
#[inline(always)]
pub fn insert_all<C: Config>(
    bytes: &mut [u8],
    keys: &[C::Key],
    values: &[C::Value],
    accepted: &mut usize,
) -> u32
    requires { length values.now ≡ length keys.now }
    ensures answer { InsertAllAnswers ⟦<C as Coded>⟧.coding bytes.old keys.now values.now
        accepted.old result bytes.new accepted.new }
    ensures accepted { let F = ⟦<C as Coded>⟧.coding.format
        in IsAccepted F bytes.old → IsAccepted F bytes.new }
{
    if !is_accepted::<C>(bytes) {
        return refused::<C>(bytes);
    }
    let pairs = Zipped::new(keys, values);
    let items: Pairs<'_, C> = Encoded {
        items: &pairs,
        config: PhantomData,
    };
    insert_items::<Sizes<C>, C::H, Pairs<'_, C>>(Fixed::new(), bytes, items, accepted)
}

/// Inserts items in their order into bytes whose header and length fit, up to the first for which
/// there is no room (FULL), and writes to `accepted` how many were inserted. Every item fits.
#[inline(always)]
pub(crate) fn insert_items<L: Lengths, H: HashFn, I: EncodedItems>(
    lengths: L,
    bytes: &mut [u8],
    items: I,
    accepted: &mut usize,
) -> u32
    requires pair { ArePairLengths H.MIN_LEN (L.key_len lengths) (L.value_len lengths) }
    requires accepted { IsAccepted (format_of (L.key_len lengths) (L.value_len lengths) H.hash)
        bytes.old }
    requires lengths { AreLengths (L.key_len lengths) (L.value_len lengths) (I.key_len items)
        (I.value_len items) }
    ensures { let F = format_of (L.key_len lengths) (L.value_len lengths) H.hash
        in IsListAnswered (I.fits items) (bytes_coding F) bytes.old (I.items items) result bytes.new
        accepted.new }
{
    let slots = Header::of(bytes).slot_count();
    let count = items.count();
    let inserted = insert_items_in::<L, H, I>(bytes, slots, lengths, items, 0);
    *accepted = inserted;
    if inserted < count {
        return status_of(&Error::Full);
    }
    OK
}

/// Writes the table that the one in `bytes` grows into to the front of `out`, and its length in
/// bytes to `len`. TOO_SMALL leaves `out` unchanged, any other error leaves both unchanged.
#[inline]
pub fn grow<L: Lengths, H: HashFn>(lengths: L, bytes: &[u8], out: &mut [u8], len: &mut usize) -> u32
    requires { ArePairLengths H.MIN_LEN (L.key_len lengths) (L.value_len lengths) }
    ensures { GrowAnswersOf (format_of (L.key_len lengths) (L.value_len lengths) H.hash) bytes.now
        out.old len.old result out.new len.new }
{
    let header = match header_of::<L, H>(lengths, bytes) {
        Ok(header) => header,
        Err(refused) => return status_of(&refused),
    };
    if header.max_load_factor().0 < LEAST_FACTOR {
        return LOAD_FACTOR_TOO_SMALL;
    }
    let Some(needed) = grown_len_of::<L, H>(bytes, lengths) else {
        return CAPACITY;
    };
    *len = needed;
    if out.len() < needed {
        return TOO_SMALL;
    }
    grow_parts::<L, H>(bytes, lengths, &mut out[..needed]);
    OK
}
