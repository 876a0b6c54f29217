//! Growth: a table with the slots for twice as many items, or for more, written into larger bytes.
ghost use Rattle.odht.specs.Tables.{InTable, OfTable};
ghost use Rattle.std.specs.Prelude.{◌≡◌, All, IfSome, length};
ghost use Rattle.odht_base.specs.Image.{image_len};
ghost use Rattle.odht_base.specs.Decoded.{header_count, header_factor, decoded_table};
ghost use Rattle.odht_base.specs.Format.{format_of};
ghost use Rattle.odht_base.specs.Insert.{grown_slots};
ghost use Rattle.odht_base.specs.Load.{IsSlotCount};
ghost use Rattle.odht_base.specs.Table.{Table};
ghost use Rattle.odht_base.specs.Valid.{IsPartsOf, IsValidBytes};
ghost use Rattle.odht_raw.specs.DynParts.{HasLengthsOf, bytes_coding};
ghost use Rattle.odht_raw.specs.Frame.{IsAccepted};
ghost use Rattle.odht_raw.specs.PartLengths.{ArePairLengths, ArePartLengths};
ghost use Rattle.odht.specs.Growths.{grown_len, table_len, HasGrownLen};
ghost use Rattle.odht.specs.Reserves.{IsMove, IsMoveFor};
ghost use Rattle.odht.specs.Growths.{IsWritten, IsGrownFrom, IsGrownLayout, IsRoomFor, IsPlacing};
ghost use Rattle.std.specs.Prelude.{◌≤◌, Ok, Err, IfOk, IfErr, OnErr, MatchOption};
ghost use Rattle.odht.specs.Plain.{IsPlainReserve};

use crate::bytes::ByteStore;
use crate::config::{Coded, Config};
use crate::error::Error;
use crate::hash::HashFn;
use crate::hash_table::HashTable;
use crate::layout::{Fixed, Layout, Lengths};
use crate::load::{Factor, max_item_count_for};
use crate::memory_layout::{self, HEADER_SIZE, Header, clear_entries, parts_in};
use crate::raw_table::{PartPairs, write_new};
use crate::swisstable_group_query::GroupQuery;
use std::alloc::Global;

impl<C: Config, D: ByteStore> HashTable<C, D> {
    /// Returns the length in bytes of the table that this one grows into. That table has the slots
    /// for twice the header's item count, and for at least one item, at the same load factor.
    /// Returns `None` exactly if no slot count is large enough, or the length exceeds `usize::MAX`.
    /// docs/FORMAT.md, "Growth", specifies the rule.
    ///
    /// The load factor of valid bytes is at least 655 65536ths of the slots, one percent rounded
    /// down. A smaller one is used as it is. For 0 no slot count is large enough, so the result is
    /// `None`.
    ///
    /// The count is the header's. In bytes that were not checked it may be any number: check them,
    /// or bound the length, before you allocate.
    pub fn grown_len(&self) -> Option<usize>
        ensures by_header { result ≡ grown_len ⟦<C as Coded>⟧.coding.format (D.bytes self.now) }
        ensures on_valid { InTable ⟦<C as Coded>⟧.coding (D.bytes self.now)
            (λ c P. result ≡ table_len c.format (grown_slots P)) }
    {
        let lengths: Fixed<C::EncodedKey, C::EncodedValue> = Fixed::new();
        grown_len_of::<Fixed<C::EncodedKey, C::EncodedValue>, C::H>(self.raw_bytes(), lengths)
    }

    /// Writes the table that this one grows into to `out`, over any bytes that are there. `out`
    /// must have [`HashTable::grown_len`] bytes. The pairs are placed in slot order into the slots
    /// for twice as many items, and for at least one, at the same load factor. The owned table
    /// grows in this way at its maximum (docs/FORMAT.md, "Growth").
    ///
    /// It makes one pass over `out`, and one over the slots of this table. It hashes each item
    /// once, and compares no key.
    ///
    /// On any bytes the new header has the item count and the load factor of this one. The pairs
    /// of the walk are placed as long as a slot is free. The contract does not state this.
    pub fn grow_into(&self, out: &mut [u8])
        requires { HasGrownLen ⟦<C as Coded>⟧.coding.format (D.bytes self.now) out.old }
        ensures { IsGrownFrom ⟦<C as Coded>⟧.coding.format (D.bytes self.now) out.new }
    {
        let lengths: Fixed<C::EncodedKey, C::EncodedValue> = Fixed::new();
        grow_parts::<Fixed<C::EncodedKey, C::EncodedValue>, C::H>(self.raw_bytes(), lengths, out);
    }
}

/// `grown_len` of the bytes of a table. All tables, and the calls for C, grow by these functions.
/// The lengths of keys and values are types or numbers.
pub fn grown_len_of<L: Lengths, H: HashFn>(bytes: &[u8], lengths: L) -> Option<usize>
    requires accepted { IsAccepted (format_of (L.key_len lengths) (L.value_len lengths) H.hash)
        bytes.now }
    requires pair { ArePairLengths H.MIN_LEN (L.key_len lengths) (L.value_len lengths) }
    ensures by_header { result
        ≡ grown_len (format_of (L.key_len lengths) (L.value_len lengths) H.hash) bytes.now }
    ensures on_valid { let F = format_of (L.key_len lengths) (L.value_len lengths) H.hash
        in OfTable F bytes.now (λ P. result ≡ table_len F (grown_slots P)) }
{
    match grown_sizes::<L, H>(bytes, lengths) {
        Some((_, len)) => Some(len),
        None => None,
    }
}

// The slot count and the length in bytes of the table that the one in the bytes grows into. None
// exactly where no slot count is enough, or the length passes `usize`.
#[inline(always)]
fn grown_sizes<L: Lengths, H: HashFn>(bytes: &[u8], lengths: L) -> Option<(usize, usize)>
    requires accepted { IsAccepted (format_of (L.key_len lengths) (L.value_len lengths) H.hash)
        bytes.now }
    requires pair { ArePairLengths H.MIN_LEN (L.key_len lengths) (L.value_len lengths) }
    ensures { IsGrownLayout (format_of (L.key_len lengths) (L.value_len lengths) H.hash) bytes.now
        result }
{
    let header = Header::of(bytes);
    let factor = header.max_load_factor();
    let Some(twice) = header.item_count().checked_mul(2) else {
        return None;
    };
    if factor.0 == 0 {
        return None;
    }
    Layout::of_lengths(lengths).table_for(twice.max(1), factor)
}

/// `grow_into` of the bytes of a table. `out` has the length that [`grown_len_of`] returns.
pub fn grow_parts<L: Lengths, H: HashFn>(bytes: &[u8], lengths: L, out: &mut [u8])
    requires accepted { IsAccepted (format_of (L.key_len lengths) (L.value_len lengths) H.hash)
        bytes.now }
    requires pair { ArePairLengths H.MIN_LEN (L.key_len lengths) (L.value_len lengths) }
    requires len { HasGrownLen (format_of (L.key_len lengths) (L.value_len lengths) H.hash)
        bytes.now out.old }
    ensures { IsGrownFrom (format_of (L.key_len lengths) (L.value_len lengths) H.hash) bytes.now
        out.new }
{
    let Some((slot_count, _)) = grown_sizes::<L, H>(bytes, lengths) else {
        // `out` has the length of the grown table.
        unreachable!()
    };
    clear_entries(out, lengths, slot_count);
    move_parts::<L, H>(bytes, lengths, slot_count, out);
}

/// The bytes of the table that the one in the bytes grows into, in new memory. None where the
/// allocator gives no memory for it, or it would be too large.
#[inline(never)]
pub(crate) fn grown_bytes<L: Lengths, H: HashFn>(
    alloc: Global,
    bytes: &[u8],
    lengths: L,
) -> Option<Vec<u8>>
    requires accepted { IsAccepted (format_of (L.key_len lengths) (L.value_len lengths) H.hash)
        bytes.now }
    requires pair { ArePairLengths H.MIN_LEN (L.key_len lengths) (L.value_len lengths) }
    ensures { let F = format_of (L.key_len lengths) (L.value_len lengths) H.hash
        in IfSome result (λ v. IsGrownFrom F bytes.now v.items) }
{
    let (slot_count, len) = grown_sizes::<L, H>(bytes, lengths)?;
    let grown = moved_bytes::<L, H>(alloc, bytes, lengths, slot_count, len)?;
    Some(grown)
}

// The pairs of the table in the bytes, placed in slot order into that many slots in new memory.
// `len` is the length for them. The new header has the item count and the load factor of the
// table. None where the allocator gives no memory.
#[inline(always)]
fn moved_bytes<L: Lengths, H: HashFn>(
    alloc: Global,
    bytes: &[u8],
    lengths: L,
    slot_count: usize,
    len: usize,
) -> Option<Vec<u8>>
    requires accepted { IsAccepted (format_of (L.key_len lengths) (L.value_len lengths) H.hash)
        bytes.now }
    requires pair { ArePairLengths H.MIN_LEN (L.key_len lengths) (L.value_len lengths) }
    requires slots { IsSlotCount slot_count }
    requires len { let F = format_of (L.key_len lengths) (L.value_len lengths) H.hash
        in len ≡ image_len F slot_count }
    ensures moved { let F = format_of (L.key_len lengths) (L.value_len lengths) H.hash
        in IfSome result (λ v. IsMove F bytes.now slot_count v.items) }
    ensures count { IfSome result (λ v. header_count v.items ≡ header_count bytes.now) }
    ensures factor { IfSome result (λ v. header_factor v.items ≡ header_factor bytes.now) }
{
    let Ok(mut out) = vec![in alloc; 0; len] else {
        return None;
    };
    move_parts::<L, H>(bytes, lengths, slot_count, out.as_mut_slice());
    Some(out)
}

// Writes the pairs of the table in the bytes, placed in slot order into that many slots, into
// bytes whose entries are zeros. The new header has the item count and the load factor of the
// table.
fn move_parts<L: Lengths, H: HashFn>(bytes: &[u8], lengths: L, slot_count: usize, out: &mut [u8])
    requires accepted { IsAccepted (format_of (L.key_len lengths) (L.value_len lengths) H.hash)
        bytes.now }
    requires pair { ArePairLengths H.MIN_LEN (L.key_len lengths) (L.value_len lengths) }
    requires slots { IsSlotCount slot_count }
    requires room { IsRoomFor (format_of (L.key_len lengths) (L.value_len lengths) H.hash)
        slot_count out.old }
    ensures moved { IsMove (format_of (L.key_len lengths) (L.value_len lengths) H.hash)
        bytes.now slot_count out.new }
    ensures count { header_count out.new ≡ header_count bytes.now }
    ensures factor { header_factor out.new ≡ header_factor bytes.now }
{
    let header = Header::of(bytes);
    let items = header.item_count();
    let factor = header.max_load_factor();
    let walk = parts_in::<L, H>(bytes, lengths).iter();
    write_walked::<L, H>(out, lengths, slot_count, items, factor, walk);
}

// Writes the table of that many slots with the pairs of the walk into bytes whose entries are
// zeros. The new header gets `item_count`, whatever the walk gives.
fn write_walked<L: Lengths, H: HashFn>(
    bytes: &mut [u8],
    lengths: L,
    slot_count: usize,
    item_count: usize,
    max_load_factor: Factor,
    walk: PartPairs<'_, L, H>,
)
    requires slots { IsSlotCount slot_count }
    requires room { IsRoomFor (format_of (L.key_len lengths) (L.value_len lengths) H.hash)
        slot_count bytes.old }
    requires pair { ArePairLengths H.MIN_LEN (L.key_len lengths) (L.value_len lengths) }
    requires lengths { All (HasLengthsOf (L.key_len lengths) (L.value_len lengths)) walk }
    ensures { let F = format_of (L.key_len lengths) (L.value_len lengths) H.hash
        in IsWritten F slot_count item_count max_load_factor.0 walk.entry bytes.new }
{
    memory_layout::write_empty(bytes, lengths, slot_count, item_count, max_load_factor);
    let at = HEADER_SIZE + slot_count * lengths.entry_len();
    let (table, control) = bytes.split_at_mut(at);
    let (_header, entries) = table.split_at_mut(HEADER_SIZE);
    place_walk::<L, H>(control, entries, lengths, walk);
}

// Places the pairs of a walk in turn into the parts of a table, each as long as a slot is free.
// The clause is for keys that are pairwise distinct and new to the table, as on valid bytes; other
// walks are taken too.
fn place_walk<L: Lengths, H: HashFn>(
    control: &mut [u8],
    entries: &mut [u8],
    lengths: L,
    walk: PartPairs<'_, L, H>,
)
    requires parts { ArePartLengths H.MIN_LEN (L.key_len lengths) (L.value_len lengths)
        (length entries.old) (length control.old) }
    requires lengths { All (HasLengthsOf (L.key_len lengths) (L.value_len lengths)) walk }
    ensures { let F = format_of (L.key_len lengths) (L.value_len lengths) H.hash
        in (P Q : Table) → IsPlacing F P walk.entry Q
        → IsPartsOf F P entries.old control.old → IsPartsOf F Q entries.new control.new }
{
    for (key, value) in walk {
        // There is room for each item of a valid table.
        let _ = write_new::<L, H, GroupQuery>(control, entries, lengths, key, value);
    }
}

/// Room for `additional` more items than the table in valid bytes has. None where it has the room,
/// and no memory is asked for. Otherwise its pairs, placed in slot order into the least slot count
/// that is enough, in new memory. All tables that own their bytes reserve by it.
///
/// Where the room is lacking, `Capacity` exactly where no slot count is enough, or the length
/// passes `usize`; otherwise `Memory` where the allocator gives none.
pub(crate) fn room_for<L: Lengths, H: HashFn>(
    alloc: Global,
    bytes: &[u8],
    lengths: L,
    additional: usize,
) -> Result<Option<Vec<u8>>, Error>
    requires valid { IsValidBytes (format_of (L.key_len lengths) (L.value_len lengths) H.hash)
        bytes.now }
    requires pair { ArePairLengths H.MIN_LEN (L.key_len lengths) (L.value_len lengths) }
    ensures made { let F = format_of (L.key_len lengths) (L.value_len lengths) H.hash
        in let P = decoded_table F bytes.now
        in IfOk result (λ o. MatchOption o
        (IsPlainReserve (bytes_coding F) P additional (Ok tt) P)
        (λ v. IsValidBytes F v.items
        × IsPlainReserve (bytes_coding F) P additional (Ok tt) (decoded_table F v.items))) }
    ensures failed { let F = format_of (L.key_len lengths) (L.value_len lengths) H.hash
        in let P = decoded_table F bytes.now
        in IfErr result (λ e. IsPlainReserve (bytes_coding F) P additional (Err e) P) }
{
    let header = Header::of(bytes);
    let sizes = match sizes_for_more::<H>(Layout::of_lengths(lengths), &header, additional) {
        Ok(sizes) => sizes,
        Err(too_large) => return Err(too_large),
    };
    let Some((slot_count, len)) = sizes else {
        return Ok(None);
    };
    match moved_bytes::<L, H>(alloc, bytes, lengths, slot_count, len) {
        Some(moved) => Ok(Some(moved)),
        None => Err(Error::Memory),
    }
}

// The slot count and the length in bytes of the table that has room for `additional` more items
// than one of these lengths and with this header. Of the header of a valid table: None where that
// one has the room; `Capacity` exactly where it has not, and no slot count is enough, or the
// length passes `usize`.
fn sizes_for_more<H: HashFn>(
    layout: Layout,
    header: &Header<'_>,
    additional: usize,
) -> Result<Option<(usize, usize)>, Error>
    requires { 1 ≤ header_factor header.now }
    ensures sizes { let F = format_of layout.key_len layout.value_len H.hash
        in OfTable F header.now (λ P. IsMoveFor F P additional result) }
    ensures err { OnErr result (result ≡ Err Error.Capacity) }
{
    let item_count = header.item_count();
    let factor = header.max_load_factor();
    let most = max_item_count_for(header.slot_count(), factor);
    if additional <= most.saturating_sub(item_count) {
        return Ok(None);
    }
    let Some(wanted) = item_count.checked_add(additional) else {
        return Err(Error::Capacity);
    };
    match layout.table_for(wanted, factor) {
        Some(sizes) => Ok(Some(sizes)),
        None => Err(Error::Capacity),
    }
}
