//! What writes the bytes of a table: inserts, which write the parts, and last the item count (a
//! single insert where it added an entry, a list in any case); a table that is emptied where it is;
//! and single writes for callers who search themselves: an entry with its tag, only a value, and the
//! item count. No insert calls these: it writes the parts (`write_slot`) and the count
//! (`write_count`).
ghost use Rattle.std.specs.Prelude.{◌≡◌, ◌<◌, ◌≤◌, length, IfOk};
ghost use Rattle.odht_raw.specs.Words.{empty, header_factor, header_slots, image, IsBytes, IsImage};
ghost use Rattle.odht_raw.specs.Words.{IsPairOf, Pair, Table, with_count, with_entry, with_tag};
ghost use Rattle.odht_raw.specs.Words.{with_value};
ghost use Rattle.odht_raw.specs.Frame.{IsAccepted, IsFramed};
ghost use Rattle.odht_raw.specs.Runs.{IsListRun, IsOnePlaced};

use super::Allocation;
use crate::bytes::{ByteArray, ByteStoreMut, write_slice};
use crate::config::{Coded, Config};
use crate::error::Error;
use crate::items::{Encoded, Items};
use crate::layout::Fixed;
use crate::memory_layout::inserts::{insert_items_in, insert_typed};
use crate::memory_layout::{EntryMetadata, HEADER_SIZE, Header, entry_at, init_parts};
use crate::raw_table::write_slot;
use crate::swisstable_group_query::Group;
use odht_header::header::ITEM_COUNT_AT;
use std::marker::PhantomData;

impl<C: Config, M: ByteStoreMut> Allocation<C, M> {
    /// Writes the header's item count. No other byte changes.
    #[inline]
    pub fn set_item_count(&mut self, item_count: usize)
        ensures bytes { M.bytes self.new ≡ with_count (M.bytes self.old) item_count }
        ensures same_store { self.new ≡ M.holding self.old (M.bytes self.new) }
        ensures accepted { IsAccepted ⟦<C as Coded>⟧.coding.format (M.bytes self.new) }
    {
        let store = &mut self.store;
        store.write_at(ITEM_COUNT_AT, &(item_count as u64).to_le_bytes());
    }

    /// Writes the pair into the entry of a slot, and the tag, whatever it is, into its control
    /// byte and, for a slot below 16, its mirror. No other byte changes, the item count neither:
    /// that the key's search ends at this slot, and that the tag is the key's, is the caller's
    /// part. The clause `pair` says that key and value have the lengths of the format.
    #[inline(always)]
    pub fn write_entry(
        &mut self,
        slot: usize,
        key: &C::EncodedKey,
        value: &C::EncodedValue,
        tag: EntryMetadata,
    )
        requires { slot < header_slots (M.bytes self.old) }
        ensures bytes { let F = ⟦<C as Coded>⟧.coding.format
            in let p : Pair = record {
              key = C.EncodedKey.bytes key.now;
              value = C.EncodedValue.bytes value.now;
            }
            in let B = M.bytes self.old
            in M.bytes self.new ≡ with_tag F (header_slots B) (with_entry F B slot p) slot tag }
        ensures same_store { self.new ≡ M.holding self.old (M.bytes self.new) }
        ensures accepted { IsAccepted ⟦<C as Coded>⟧.coding.format (M.bytes self.new) }
        ensures pair { IsPairOf ⟦<C as Coded>⟧.coding.format
            (record { key = C.EncodedKey.bytes key.now; value = C.EncodedValue.bytes value.now }) }
    {
        let store = &mut self.store;
        let bytes = store.bytes_mut();
        let slots = Header::of(bytes).slot_count();
        let (table, control) = bytes.split_at_mut(entry_at::<C>(slots));
        let (_, entries) = table.split_at_mut(HEADER_SIZE);
        let lengths: Fixed<C::EncodedKey, C::EncodedValue> = Fixed::new();
        let (key, value) = (key.as_slice(), value.as_slice());
        write_slot(control, entries, slots, lengths, key, value, tag, slot);
    }

    /// Writes only the value into the entry of a slot. No other byte changes. The clause `value`
    /// says that it has the length of the format.
    #[inline(always)]
    pub fn write_value(&mut self, slot: usize, value: &C::EncodedValue)
        requires { slot < header_slots (M.bytes self.old) }
        ensures bytes { let F = ⟦<C as Coded>⟧.coding.format
            in M.bytes self.new
            ≡ with_value F (M.bytes self.old) slot (C.EncodedValue.bytes value.now) }
        ensures same_store { self.new ≡ M.holding self.old (M.bytes self.new) }
        ensures accepted { IsAccepted ⟦<C as Coded>⟧.coding.format (M.bytes self.new) }
        ensures value { IsBytes C.EncodedValue.LEN (C.EncodedValue.bytes value.now) }
    {
        let store = &mut self.store;
        store.write_at(entry_at::<C>(slot) + C::EncodedKey::LEN, value.as_slice());
    }

    /// Makes each slot free: the bytes are then those of the empty table with the slot count and
    /// the load factor of the header. Each byte is written.
    pub fn clear(&mut self)
        ensures bytes { let B = M.bytes self.old
            in M.bytes self.new
            ≡ image ⟦<C as Coded>⟧.coding.format (empty (header_slots B) (header_factor B)) }
        ensures same_store { self.new ≡ M.holding self.old (M.bytes self.new) }
        ensures accepted { IsAccepted ⟦<C as Coded>⟧.coding.format (M.bytes self.new) }
    {
        let header = self.header();
        let slot_count = header.slot_count();
        let factor = header.max_load_factor();
        let store = &mut self.store;
        let lengths: Fixed<C::EncodedKey, C::EncodedValue> = Fixed::new();
        init_parts(store.bytes_mut(), lengths, slot_count, 0, factor);
    }

    /// Gives the key this value, by a group search of the caller's choice, and returns its former
    /// one. `Full`, with nothing changed, where the search does not find the key and the header's
    /// item count is its maximum or more, or where it finds neither the key nor a free slot. A new
    /// entry raises the item count by one.
    ///
    /// The slot count is read before the search, the rest of the header after it, and the key is
    /// hashed once.
    #[inline(always)]
    pub fn insert_by<Q: Group>(
        &mut self,
        key: &C::Key,
        value: &C::Value,
    ) -> Result<Option<C::Value>, Error>
        ensures placed { let c = ⟦<C as Coded>⟧.coding
            in (P : Table)
            → IsImage c.format P (M.bytes self.old)
            → IfOk result (λ old. IsOnePlaced c P key.now value.now old (M.bytes self.new)) }
        ensures framed { let c = ⟦<C as Coded>⟧.coding
            in IsFramed c (M.bytes self.old) key.now value.now result (M.bytes self.new) }
        ensures same_store { self.new ≡ M.holding self.old (M.bytes self.new) }
        ensures accepted { IsAccepted ⟦<C as Coded>⟧.coding.format (M.bytes self.new) }
    {
        let store = &mut self.store;
        let bytes = store.bytes_mut();
        let slots = Header::of(bytes).slot_count();
        insert_typed::<C, Q>(bytes, slots, key, value)
    }

    /// Inserts the items from index `from` on in their order, up to the first for which
    /// `insert_by` returns `Full`, and returns the index after the last item that was inserted.
    /// Each new entry raises the item count by one.
    ///
    /// The header is read once for the list, and the item count is written once. Each item costs a
    /// search. In tables of 2^20 slots and more the group at the home slot may be read ahead, for
    /// eight keys in turn: these keys are encoded twice, and a new key whose slot was seen free
    /// then needs no further search.
    #[inline(always)]
    pub fn insert_items<I: Items<C::Key, C::Value>>(&mut self, items: &I, from: usize) -> usize
        requires { from ≤ length (I.items items.now) }
        ensures run { let c = ⟦<C as Coded>⟧.coding
            in IsListRun c (M.bytes self.old) (I.items items.now) from result (M.bytes self.new) }
        ensures same_store { self.new ≡ M.holding self.old (M.bytes self.new) }
        ensures accepted { IsAccepted ⟦<C as Coded>⟧.coding.format (M.bytes self.new) }
    {
        let store = &mut self.store;
        let bytes = store.bytes_mut();
        let slots = Header::of(bytes).slot_count();
        let lengths: Fixed<C::EncodedKey, C::EncodedValue> = Fixed::new();
        let items: Encoded<'_, C, I> = Encoded {
            items,
            config: PhantomData,
        };
        insert_items_in::<Fixed<C::EncodedKey, C::EncodedValue>, C::H, Encoded<'_, C, I>>(
            bytes, slots, lengths, items, from,
        )
    }
}

// Writes the item count of a header.
#[inline(always)]
pub(crate) fn write_count(header: &mut [u8], item_count: usize)
    requires { length header.old ≡ 32 }
    ensures { header.new ≡ with_count header.old item_count }
{
    write_slice(header, ITEM_COUNT_AT, &(item_count as u64).to_le_bytes());
}
