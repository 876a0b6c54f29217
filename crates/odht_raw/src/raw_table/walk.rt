//! Walks over the occupied slots, which give keys and values as types or as bytes.
ghost use Rattle.std.specs.Prelude.{◌≡◌, ◌+◌, ◌≤◌, length, All, drop};
ghost use Rattle.std.specs.Iterator.{YieldsFirst, item_count, YieldsFirstBy};
ghost use Rattle.std.specs.List.{filter_map};
ghost use Rattle.odht_base.specs.SlotWalks.{numbered};
ghost use Rattle.odht_raw.specs.Parts.{TableParts, entry_format};
ghost use Rattle.odht_raw.specs.Walks.{items_from, numbered_from};
ghost use Rattle.odht_raw.specs.Checks.{cells_of};
ghost use Rattle.odht_raw.specs.DynParts.{HasLengthsOf, parts_format};

use super::{Entries, Entry, EntryMetadata, Parts};
use crate::bytes::ByteArray;
use crate::hash::HashFn;
use crate::layout::{Layout, Lengths};
use crate::swisstable_group_query::{IndexSet, REFERENCE_GROUP_SIZE, occupied};
use std::iter::FusedIterator;
use std::marker::Model;

/// A walk from a slot on over the slots whose own control byte does not count as free, in slot
/// order: the index of each slot, with its control byte and its entry. A walk that stops at an
/// item can go on later from that item's slot.
///
/// In a contract it is the list of the items that are left. A whole walk reads each control byte
/// once, sixteen at a time.
#[derive(Drop)]
pub struct RawSlots<'a, K: ByteArray, V: ByteArray> {
    control: &'a [EntryMetadata],
    entries: Entries<'a, K, V>,
    base: usize,
    occupied: IndexSet,
    next_slot: usize,
}

impl<'a, K: ByteArray, V: ByteArray> Model for RawSlots<'a, K, V> {
    ghost use Rattle.std.specs.Prelude.{◌≡◌, ◌+◌, ◌≤◌, ◌++◌, ℕ, List, length, map};
    ghost use Rattle.odht_raw.specs.Parts.{TableParts, entry_format};
    ghost use Rattle.odht_raw.specs.Walks.{Item, numbered_of, numbered_from, AreOccupied};

    ghost Value = { List (ℕ × Item K V) };

    ghost view = { λ w.
        let T : TableParts = record { control = w.control.now; entries = w.entries }
        in let F = entry_format K.LEN V.LEN
        in numbered_of K.of_bytes V.of_bytes F T (map (λ i. w.base + i) w.occupied)
        ++ numbered_from K.of_bytes V.of_bytes F T w.next_slot };

    ghost invariant = { λ w. (length w.control.now ≡ w.entries.slots + 16)
        × (w.next_slot ≤ w.entries.slots)
        × AreOccupied (record { control = w.control.now; entries = w.entries }) w.base w.occupied };
}

impl<'a, K: ByteArray, V: ByteArray> RawSlots<'a, K, V> {
    /// The walk from slot `from` on; it gives no item where `from` is past the last slot.
    /// `control` is the control bytes with their mirror.
    #[inline]
    pub fn new(control: &'a [EntryMetadata], entries: Entries<'a, K, V>, from: usize) -> Self
        requires { length control.now ≡ entries.slots + 16 }
        ensures items { let T
            : TableParts = record { control = control.now; entries = entries.entry }
            in result ≡ numbered_from K.of_bytes V.of_bytes (entry_format K.LEN V.LEN) T from }
        ensures few { length result ≤ entries.entry.slots }
    {
        let first = from.min(entries.len());
        RawSlots {
            control,
            entries,
            base: first,
            occupied: IndexSet::empty(),
            next_slot: first,
        }
    }
}

impl<'a, K: ByteArray, V: ByteArray> Iterator for RawSlots<'a, K, V> {
    type Item = (usize, (EntryMetadata, Entry<K, V>));

    ghost next_gives = { YieldsFirst (λ left. left) };

    ghost remaining = { item_count (λ left. left) };

    #[inline]
    fn next(&mut self) -> Option<(usize, (EntryMetadata, Entry<K, V>))> {
        'groups: loop {
            if let Some(index) = self.occupied.take() {
                let slot = self.base + index;
                return Some((slot, (self.control[slot], self.entries.get(slot))));
            }
            if self.next_slot >= self.entries.len() {
                return None;
            }
            self.base = self.next_slot;
            let size = (self.entries.len() - self.base).min(REFERENCE_GROUP_SIZE);
            let control = self.control;
            self.occupied = occupied(&control[self.base..self.base + REFERENCE_GROUP_SIZE], size);
            self.next_slot += size;
        }
    }
}

impl<'a, K: ByteArray, V: ByteArray> FusedIterator for RawSlots<'a, K, V> {}

/// A walk over all slots whose own control byte does not count as free, in slot order: the control
/// byte and the entry of each.
///
/// In a contract it is the list of the items that are left. A whole walk reads each control byte
/// once, sixteen at a time.
#[derive(Drop)]
pub struct RawIter<'a, K: ByteArray, V: ByteArray> {
    slots: RawSlots<'a, K, V>,
}

impl<'a, K: ByteArray, V: ByteArray> Model for RawIter<'a, K, V> {
    ghost use Rattle.std.specs.Prelude.{List, map};
    ghost use Rattle.odht_raw.specs.Walks.{Item};

    ghost Value = { List (Item K V) };

    ghost view = { λ w. map (λ x. x.1) w.slots };
}

impl<'a, K: ByteArray, V: ByteArray> RawIter<'a, K, V> {
    /// The walk over all slots. `control` is the control bytes with their mirror.
    #[inline]
    pub fn new(control: &'a [EntryMetadata], entries: Entries<'a, K, V>) -> Self
        requires { length control.now ≡ entries.slots + 16 }
        ensures items { let T
            : TableParts = record { control = control.now; entries = entries.entry }
            in result ≡ items_from K.of_bytes V.of_bytes (entry_format K.LEN V.LEN) T 0 }
        ensures few { length result ≤ entries.entry.slots }
    {
        RawIter {
            slots: RawSlots::new(control, entries, 0),
        }
    }
}

impl<'a, K: ByteArray, V: ByteArray> Iterator for RawIter<'a, K, V> {
    type Item = (EntryMetadata, Entry<K, V>);

    ghost next_gives = { YieldsFirst (λ left. left) };

    ghost remaining = { item_count (λ left. left) };

    #[inline(always)]
    fn next(&mut self) -> Option<(EntryMetadata, Entry<K, V>)> {
        let (_, item) = self.slots.next()?;
        Some(item)
    }
}

impl<'a, K: ByteArray, V: ByteArray> FusedIterator for RawIter<'a, K, V> {}

/// A walk from a slot on over the slots whose own control byte does not count as free, in slot
/// order: the index of each slot, with its key and its value. A walk that stops at an item can go
/// on later from that item's slot.
///
/// In a contract it is the list of the items that are left, each a slot and its pair. A whole walk
/// reads each control byte once, sixteen at a time.
#[derive(Drop)]
pub struct PartSlots<'a, L: Lengths, H: HashFn> {
    table: Parts<'a, L, H>,
    // The slots alone: a walk over entries of no bytes.
    slots: RawSlots<'a, [u8; 0], [u8; 0]>,
}

/// The walk from a slot on of a table whose lengths are numbers.
pub type DynSlots<'a, H> = PartSlots<'a, Layout, H>;

impl<'a, L: Lengths, H: HashFn> Model for PartSlots<'a, L, H> {
    ghost use Rattle.std.specs.Prelude.{ℕ, ◌<◌, List, map, All};
    ghost use Rattle.odht_base.specs.Table.{Pair};
    ghost use Rattle.odht_raw.specs.DynParts.{read_slot};

    ghost Value = { List (ℕ × Pair) };

    ghost view = { λ w. map (read_slot w.table) w.slots };

    ghost invariant = { λ w. All (λ x. x.0 < w.table.parts.entries.slots) w.slots };
}

impl<'a, L: Lengths, H: HashFn> PartSlots<'a, L, H> {
    /// The walk from slot `from` on; it gives no item where `from` is past the last slot.
    pub fn new(table: Parts<'a, L, H>, from: usize) -> Self
        ensures items { let F = parts_format table.entry H.hash
            in result ≡ numbered from (drop from (cells_of F table.entry.parts)) }
        ensures few { length result ≤ table.entry.parts.entries.slots }
    {
        let none: Entries<'a, [u8; 0], [u8; 0]> = Entries::new(&[], table.len());
        let slots = RawSlots::new(table.controls(), none, from);
        PartSlots { table, slots }
    }
}

impl<'a, L: Lengths, H: HashFn> Iterator for PartSlots<'a, L, H> {
    type Item = (usize, (&'a [u8], &'a [u8]));

    ghost next_gives = { YieldsFirstBy
        (λ x. (x.0, record { key = x.1.0.now; value = x.1.1.now })) (λ left. left) };

    ghost remaining = { item_count (λ left. left) };

    #[inline]
    fn next(&mut self) -> Option<(usize, (&'a [u8], &'a [u8]))> {
        let (slot, _) = self.slots.next()?;
        Some((slot, (self.table.key(slot), self.table.value(slot))))
    }
}

impl<'a, L: Lengths, H: HashFn> FusedIterator for PartSlots<'a, L, H> {}

/// A walk over all slots whose own control byte does not count as free, in slot order: the key and
/// the value of each.
///
/// In a contract it is the list of the pairs that are left. A whole walk reads each control byte
/// once, sixteen at a time.
#[derive(Drop)]
pub struct PartPairs<'a, L: Lengths, H: HashFn> {
    slots: PartSlots<'a, L, H>,
}

/// The walk over all slots of a table whose lengths are numbers.
pub type DynIter<'a, H> = PartPairs<'a, Layout, H>;

impl<'a, L: Lengths, H: HashFn> Model for PartPairs<'a, L, H> {
    ghost use Rattle.std.specs.Prelude.{List, map};
    ghost use Rattle.odht_base.specs.Table.{Pair};

    ghost Value = { List Pair };

    ghost view = { λ w. map (λ x. x.1) w.slots };
}

impl<'a, L: Lengths, H: HashFn> PartPairs<'a, L, H> {
    /// The walk over all slots.
    pub fn new(table: Parts<'a, L, H>) -> Self
        ensures items { let F = parts_format table.entry H.hash
            in result ≡ filter_map (λ c. c) (cells_of F table.entry.parts) }
        ensures lengths { All (HasLengthsOf table.entry.key_len table.entry.value_len) result }
        ensures few { length result ≤ table.entry.parts.entries.slots }
    {
        // For the prover: the entries have the lengths of the slots.
        let _ = table.len();
        PartPairs {
            slots: PartSlots::new(table, 0),
        }
    }
}

impl<'a, L: Lengths, H: HashFn> Iterator for PartPairs<'a, L, H> {
    type Item = (&'a [u8], &'a [u8]);

    ghost next_gives = { YieldsFirstBy
        (λ x. record { key = x.0.now; value = x.1.now }) (λ left. left) };

    ghost remaining = { item_count (λ left. left) };

    #[inline]
    fn next(&mut self) -> Option<(&'a [u8], &'a [u8])> {
        let (_, pair) = self.slots.next()?;
        Some(pair)
    }
}

impl<'a, L: Lengths, H: HashFn> FusedIterator for PartPairs<'a, L, H> {}
