//! Inserts into the bytes of a table: the parts are written, and last the item count. The lengths
//! of keys and values are types or numbers.
ghost use Rattle.std.specs.Prelude.{◌≡◌, ◌≤◌, ◌<◌, length, map, option_map, IfOk, ⊤};
ghost use Rattle.odht_raw.specs.Words.{format_of, header_slots, IsImage, Table};
ghost use Rattle.odht_raw.specs.EndWrites.{IsKeyEnd, IsEndWrite};
ghost use Rattle.odht_raw.specs.FormerWrites.{IsOneInto};
ghost use Rattle.odht_raw.specs.Formers.{former_of};
ghost use Rattle.odht_raw.specs.Frame.{IsAccepted, IsFramed};
ghost use Rattle.odht_raw.specs.PartLengths.{ArePairLengths};
ghost use Rattle.odht_raw.specs.Runs.{HasLengthsAt, IsEncodedRun, IsOnePlaced};
ghost use Rattle.odht_raw.specs.Stored.{AreLengths};
ghost use Rattle.odht_raw.specs.SearchResults.{MatchSearchResult};
ghost use Rattle.odht_raw.specs.DynParts.{bytes_coding, parts_format};

use super::allocation::{prove_bytes, write_count};
use super::opening::cut;
use super::{HEADER_SIZE, Header, parts_in};
use crate::bytes::ByteArray;
use crate::config::{Coded, Config};
use crate::error::Error;
use crate::hash::HashFn;
use crate::items::{EncodedItems, ItemBytes, encode_pair};
use crate::layout::{Fixed, Layout, Lengths};
use crate::raw_table::{Parts, Search, ShortBytes, insert_run, is_found, write_at_end};
use crate::swisstable_group_query::Group;

// Writes the pair where the search for its key ended, which comes with the key's tag, and counts
// a new entry. Returns whether it wrote: not, with nothing changed, where the key is new and the
// header's item count is its maximum or more, or no slot is free. The caller's error is `Full`
// then. The slot count is that of the header, which the caller has read.
//
// The clause names the key's former value as if it were returned, for the callers that read it.
#[inline(always)]
fn insert_in<L: Lengths, H: HashFn>(
    bytes: &mut [u8],
    slots: usize,
    lengths: L,
    key: &[u8],
    value: &[u8],
    end: (Search, u8),
) -> bool
    requires accepted { IsAccepted (format_of (L.key_len lengths) (L.value_len lengths) H.hash)
        bytes.old }
    requires slots { slots ≡ header_slots bytes.old }
    requires pair { ArePairLengths H.MIN_LEN (L.key_len lengths) (L.value_len lengths) }
    requires key { length key.now ≡ L.key_len lengths }
    requires value { length value.now ≡ L.value_len lengths }
    requires end { let F = format_of (L.key_len lengths) (L.value_len lengths) H.hash
        in IsKeyEnd F bytes.old key.now end }
    ensures { let F = format_of (L.key_len lengths) (L.value_len lengths) H.hash
        in IsEndWrite (bytes_coding F) bytes.old key.now value.now end.0 result bytes.new }
{
    prove_bytes(bytes);
    prove_bytes(key);
    prove_bytes(value);
    let at = HEADER_SIZE + slots * lengths.entry_len();
    let (table, control) = bytes.split_at_mut(at);
    let (front, entries) = table.split_at_mut(HEADER_SIZE);
    // The room is that up to the maximum item count.
    let header = Header::of(front);
    let count = header.item_count();
    let room = header.max_load_factor().apply(slots).saturating_sub(count);
    if !write_at_end::<L, H>(control, entries, slots, lengths, key, value, end, room) {
        return false;
    }
    if is_found(end.0) {
        return true;
    }
    write_count(front, count + 1);
    true
}

/// Gives the key this value in the bytes of a table, and returns its former one. `Full`, with
/// nothing changed, where the search does not find the key and the header's item count is its
/// maximum or more, or where it finds neither the key nor a free slot. A new entry raises the item
/// count by one. The key is hashed once.
pub fn insert_dynamic<H: HashFn>(
    bytes: &mut [u8],
    layout: Layout,
    key: &[u8],
    value: &[u8],
) -> Result<Option<ShortBytes>, Error>
    requires accepted { IsAccepted (format_of layout.key_len layout.value_len H.hash) bytes.old }
    requires hashes { H.MIN_LEN ≤ layout.key_len }
    requires key { length key.now ≡ layout.key_len }
    requires value { length value.now ≡ layout.value_len }
    ensures placed { let c = bytes_coding (format_of layout.key_len layout.value_len H.hash)
        in (P : Table)
        → IsImage c.format P bytes.old
        → IfOk result (λ old. IsOnePlaced c P key.now value.now old bytes.new) }
    ensures framed { let c = bytes_coding (format_of layout.key_len layout.value_len H.hash)
        in IsFramed c bytes.old key.now value.now result bytes.new }
    ensures accepted { IsAccepted (format_of layout.key_len layout.value_len H.hash) bytes.new }
    ensures len { length bytes.new ≡ length bytes.old }
{
    let parts = parts_in::<Layout, H>(&*bytes, layout);
    let slots = parts.len();
    let end = parts.insert_end(key);
    let former = parts.short_value_at(end.0);
    if insert_in::<Layout, H>(bytes, slots, layout, key, value, end) {
        Ok(former)
    } else {
        Err(Error::Full)
    }
}

/// `insert_dynamic`, which writes a former value to `former`. Returns whether there is one. Where
/// there is none, and on an error, `former` is unchanged.
#[inline(always)]
pub fn insert_dynamic_into<H: HashFn>(
    bytes: &mut [u8],
    layout: Layout,
    key: &[u8],
    value: &[u8],
    former: &mut [u8],
) -> Result<bool, Error>
    requires accepted { IsAccepted (format_of layout.key_len layout.value_len H.hash) bytes.old }
    requires hashes { H.MIN_LEN ≤ layout.key_len }
    requires key { length key.now ≡ layout.key_len }
    requires value { length value.now ≡ layout.value_len }
    requires former { length former.old ≡ layout.value_len }
    ensures inserted { let c = bytes_coding (format_of layout.key_len layout.value_len H.hash)
        in IsOneInto c bytes.old key.now value.now former.old result bytes.new former.new }
    ensures accepted { IsAccepted (format_of layout.key_len layout.value_len H.hash) bytes.new }
    ensures len { length bytes.new ≡ length bytes.old }
{
    let parts = parts_in::<Layout, H>(&*bytes, layout);
    let slots = parts.len();
    let end = parts.insert_end(key);
    let had = parts.copy_value_at(end.0, former);
    let written = insert_in::<Layout, H>(bytes, slots, layout, key, value, end);
    if written { Ok(had) } else { Err(Error::Full) }
}

/// Inserts items that are bytes in their order, up to the first whose key or value has another
/// length than those of the table, or for which `insert_dynamic` returns `Full`. Returns how many
/// were inserted. Each new entry raises the item count by one.
///
/// It costs what [`Allocation::insert_items`](super::Allocation::insert_items) costs.
#[inline(always)]
pub fn insert_items_dynamic<'a, H: HashFn>(
    bytes: &mut [u8],
    layout: Layout,
    items: &'a [(&'a [u8], &'a [u8])],
) -> usize
    requires accepted { IsAccepted (format_of layout.key_len layout.value_len H.hash) bytes.old }
    requires hashes { H.MIN_LEN ≤ layout.key_len }
    ensures { let c = bytes_coding (format_of layout.key_len layout.value_len H.hash)
        in let pairs = map (λ item. (item.0.now, item.1.now)) items.now
        in IsEncodedRun (HasLengthsAt layout.key_len layout.value_len pairs) c bytes.old pairs 0
        result bytes.new }
{
    let slots = Header::of(bytes).slot_count();
    let items = ItemBytes { layout, items };
    insert_items_in::<Layout, H, ItemBytes<'_>>(bytes, slots, layout, items, 0)
}

/// Inserts the items from index `from` on in their order, up to the first that does not fit, or
/// for which an insert returns `Full`, in bytes of that many slots. Returns the index after the
/// last item that was inserted. It reads the item count once, and writes it once.
#[inline(always)]
pub fn insert_items_in<L: Lengths, H: HashFn, I: EncodedItems>(
    bytes: &mut [u8],
    slots: usize,
    lengths: L,
    items: I,
    from: usize,
) -> usize
    requires accepted { IsAccepted (format_of (L.key_len lengths) (L.value_len lengths) H.hash)
        bytes.old }
    requires slots { slots ≡ header_slots bytes.old }
    requires pair { ArePairLengths H.MIN_LEN (L.key_len lengths) (L.value_len lengths) }
    requires lengths { AreLengths (L.key_len lengths) (L.value_len lengths) (I.key_len items)
        (I.value_len items) }
    requires from { from ≤ length (I.items items) }
    ensures { let F = format_of (L.key_len lengths) (L.value_len lengths) H.hash
        in IsEncodedRun (I.fits items) (bytes_coding F) bytes.old (I.items items) from result
        bytes.new }
{
    prove_bytes(bytes);
    let at = HEADER_SIZE + slots * lengths.entry_len();
    let (table, control) = bytes.split_at_mut(at);
    let (front, entries) = table.split_at_mut(HEADER_SIZE);
    let header = Header::of(front);
    let count = header.item_count();
    let room = header.max_load_factor().apply(slots).saturating_sub(count);
    let (end, added) = insert_run::<L, H, I>(control, entries, slots, lengths, items, from, room);
    write_count(front, count + added);
    end
}

/// `insert_dynamic` of a key and a value of a configuration, by a group search of the caller's
/// choice, in bytes of that many slots.
#[inline(always)]
pub(crate) fn insert_typed<C: Config, Q: Group>(
    bytes: &mut [u8],
    slots: usize,
    key: &C::Key,
    value: &C::Value,
) -> Result<Option<C::Value>, Error>
    requires accepted { IsAccepted ⟦<C as Coded>⟧.coding.format bytes.old }
    requires slots { slots ≡ header_slots bytes.old }
    ensures placed { let c = ⟦<C as Coded>⟧.coding
        in (P : Table)
        → IsImage c.format P bytes.old
        → IfOk result (λ old. IsOnePlaced c P key.now value.now old bytes.new) }
    ensures framed { let c = ⟦<C as Coded>⟧.coding
        in IsFramed c bytes.old key.now value.now result bytes.new }
    ensures accepted { IsAccepted ⟦<C as Coded>⟧.coding.format bytes.new }
    ensures len { length bytes.new ≡ length bytes.old }
{
    let (key, value) = encode_pair::<C>(key, value);
    let (key, value) = (key.as_slice(), value.as_slice());
    let lengths: Fixed<C::EncodedKey, C::EncodedValue> = Fixed::new();
    let parts = cut::<Fixed<C::EncodedKey, C::EncodedValue>, C::H>(&*bytes, slots, lengths);
    let end = parts.search_end::<Q>(key);
    let former = former_value::<C>(&parts, end.0);
    if insert_in::<Fixed<C::EncodedKey, C::EncodedValue>, C::H>(
        bytes, slots, lengths, key, value, end,
    ) {
        Ok(former)
    } else {
        Err(Error::Full)
    }
}

// The value where a search ended, if it found the key.
#[inline(always)]
fn former_value<C: Config>(
    parts: &Parts<'_, Fixed<C::EncodedKey, C::EncodedValue>, C::H>,
    end: Search,
) -> Option<C::Value>
    requires slot { MatchSearchResult end (λ i. i < parts.now.parts.entries.slots) (λ i. ⊤) ⊤ }
    requires len { parts.now.value_len ≡ C.EncodedValue.LEN }
    ensures { let c = ⟦<C as Coded>⟧.coding
        in result ≡ option_map c.value_of
        (former_of (parts_format parts.now C.H.hash) parts.now.parts.entries.bytes end) }
{
    match parts.value_at(end) {
        Some(value) => Some(C::decode_value(&C::EncodedValue::from_slice(value))),
        None => None,
    }
}
