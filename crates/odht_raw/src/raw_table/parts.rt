//! The parts of a table, borrowed to be read. The lengths of keys and values are types or numbers.
ghost use Rattle.std.specs.Prelude.{◌≡◌, ◌+◌, ◌-◌, ◌*◌, ◌^◌, ◌<◌, ◌≤◌, ◌↔◌, All, drop, length};
ghost use Rattle.std.specs.Prelude.{slice_index, IfSome, IsTrue, ⊤, ℕ, List, is_some, option_map};
ghost use Rattle.std.specs.List.{filter_map};
ghost use Rattle.std.specs.Option.{option_copied};
ghost use Rattle.odht_raw.specs.Words.{IsSlotCount, numbered, slot_entry, slot_key, slot_value};
ghost use Rattle.odht_raw.specs.Words.{tag as key_tag};
ghost use Rattle.odht_raw.specs.Checks.{cells_of};
ghost use Rattle.odht_raw.specs.Finds.{IsFind, IsCountedFind};
ghost use Rattle.odht_raw.specs.Formers.{former_of};
ghost use Rattle.odht_raw.specs.PartLengths.{ArePartLengths};
ghost use Rattle.odht_raw.specs.Parts.{entry_format};
ghost use Rattle.odht_raw.specs.SearchResults.{MatchSearchResult};
ghost use Rattle.odht_raw.specs.Searches.{IsSearchEnd};
ghost use Rattle.odht_raw.specs.DynParts.{HasLengthsOf, parts_format, dynamic_parts, AreWhole};
ghost use Rattle.odht_raw.specs.DynParts.{parts_with, stored_of};
ghost use Rattle.odht_raw.specs.FormerWrites.{value_or};

use super::group_search::search_stored;
use super::{EntryMetadata, PartPairs, PartSlots, Scan, Search, ShortBytes, Stored, tag_of};
use crate::bytes::ByteArray;
use crate::hash::HashFn;
use crate::layout::{Fixed, Layout, Lengths};
use crate::swisstable_group_query::{Group, GroupQuery};
use std::marker::{Model, PhantomData};

/// The parts of a table, borrowed to be read: the control bytes with their mirror, and the entries
/// of as many slots. Keys and values are bytes of the right length.
///
/// The searches, the walks and the checks of all tables are those of `Parts`. [`RawTable`] is the
/// same parts with keys and values as types, and [`DynRawTable`] with lengths that are numbers.
///
/// In a contract it is the lengths of keys and values, and the parts.
///
/// [`RawTable`]: super::RawTable
#[derive(Drop)]
pub struct Parts<'a, L: Lengths, H: HashFn> {
    control: &'a [EntryMetadata],
    pub(super) stored: Stored<'a, L>,
    hash: PhantomData<H>,
}

/// The parts of a table whose lengths of keys and values are numbers.
pub type DynRawTable<'a, H> = Parts<'a, Layout, H>;

impl<'a, L: Lengths, H: HashFn> Model for Parts<'a, L, H> {
    ghost use Rattle.odht_raw.specs.DynParts.{DynParts, parts_with, AreWhole};

    ghost Value = { DynParts };

    ghost view = { λ t. parts_with t.stored t.control.now };

    ghost invariant = { λ t. AreWhole H.MIN_LEN (parts_with t.stored t.control.now) };
}

impl<'a, H: HashFn> Parts<'a, Layout, H> {
    /// The table of these parts. No control byte and no entry is checked.
    #[inline(always)]
    pub fn new(
        control: &'a [EntryMetadata],
        entries: &'a [u8],
        slots: usize,
        layout: Layout,
    ) -> Self
        requires slots { IsSlotCount slots }
        requires control { length control.now ≡ slots + 16 }
        requires entries { length entries.now ≡ slots * (layout.key_len + layout.value_len) }
        requires hashes { H.MIN_LEN ≤ layout.key_len }
        ensures { result
            ≡ dynamic_parts layout.key_len layout.value_len slots entries.now control.now }
    {
        Parts::of(control, Stored::new(entries, slots, layout))
    }

    /// The lengths of keys and values.
    #[inline(always)]
    pub fn layout(&self) -> Layout
        ensures key { result.key_len ≡ self.now.key_len }
        ensures value { result.value_len ≡ self.now.value_len }
    {
        self.stored.lengths()
    }
}

impl<'a, L: Lengths, H: HashFn> Parts<'a, L, H> {
    /// The table of these control bytes and entries. Nothing is checked.
    #[inline(always)]
    pub fn of(control: &'a [EntryMetadata], stored: Stored<'a, L>) -> Self
        requires slots { IsSlotCount stored.entries.slots }
        requires control { length control.now ≡ stored.entries.slots + 16 }
        requires hashes { H.MIN_LEN ≤ stored.key_len }
        ensures { result ≡ parts_with stored.entry control.now }
    {
        Parts {
            control,
            stored,
            hash: PhantomData,
        }
    }

    // A second reader of the same parts.
    #[inline(always)]
    pub(super) fn copy(&self) -> Self
        ensures { result ≡ self.now }
    {
        Parts {
            control: self.control,
            stored: self.stored.copy(),
            hash: PhantomData,
        }
    }

    /// The entries.
    #[inline(always)]
    pub fn stored(&self) -> Stored<'a, L>
        ensures { result ≡ stored_of self.now }
    {
        self.stored.copy()
    }

    /// The slots from slot `from` on whose own control byte does not count as free, in slot order,
    /// each with its key and its value. Nothing where `from` is past the last slot.
    pub fn iter_from(&self, from: usize) -> PartSlots<'a, L, H>
        ensures items { let F = parts_format self.now H.hash
            in result ≡ numbered from (drop from (cells_of F self.now.parts)) }
        ensures few { length result ≤ self.now.parts.entries.slots }
    {
        PartSlots::new(self.copy(), from)
    }

    /// The key and the value of each slot whose own control byte does not count as free, in slot
    /// order.
    pub fn iter(&self) -> PartPairs<'a, L, H>
        ensures items { let F = parts_format self.now H.hash
            in result ≡ filter_map (λ c. c) (cells_of F self.now.parts) }
        ensures lengths { All (HasLengthsOf self.now.key_len self.now.value_len) result }
        ensures few { length result ≤ self.now.parts.entries.slots }
    {
        PartPairs::new(self.copy())
    }

    /// The control bytes with their mirror.
    #[inline(always)]
    pub fn controls(&self) -> &'a [EntryMetadata]
        ensures value { result.now ≡ self.now.parts.control }
        ensures len { length result.now ≡ self.now.parts.entries.slots + 16 }
        ensures whole { AreWhole H.MIN_LEN self.now }
    {
        self.control
    }

    /// How many slots there are.
    #[inline(always)]
    pub fn len(&self) -> usize
        ensures value { result ≡ self.now.parts.entries.slots }
        ensures few { result ≤ 2 ^ 63 }
        ensures whole { AreWhole H.MIN_LEN self.now }
    {
        self.stored.slots()
    }

    /// The control byte of a slot, or for an index from the slot count on of its mirror.
    #[inline(always)]
    pub fn control(&self, index: usize) -> EntryMetadata
        requires { index < self.now.parts.entries.slots + 16 }
        ensures { result ≡ slice_index self.now.parts.control index }
    {
        self.control[index]
    }

    /// The entry of a slot: key, then value.
    #[inline(always)]
    pub fn entry(&self, slot: usize) -> &'a [u8]
        requires { slot < self.now.parts.entries.slots }
        ensures value { let F = entry_format self.now.key_len self.now.value_len
            in result.now ≡ slot_entry F self.now.parts.entries.bytes slot }
        ensures len { length result.now ≡ self.now.key_len + self.now.value_len }
    {
        self.stored.entry(slot)
    }

    /// The key of a slot.
    #[inline(always)]
    pub fn key(&self, slot: usize) -> &'a [u8]
        requires { slot < self.now.parts.entries.slots }
        ensures value { let F = entry_format self.now.key_len self.now.value_len
            in result.now ≡ slot_key F self.now.parts.entries.bytes slot }
        ensures len { length result.now ≡ self.now.key_len }
        ensures hashes { H.MIN_LEN ≤ length result.now }
    {
        self.stored.key(slot)
    }

    /// The value of a slot.
    #[inline(always)]
    pub fn value(&self, slot: usize) -> &'a [u8]
        requires { slot < self.now.parts.entries.slots }
        ensures value { let F = entry_format self.now.key_len self.now.value_len
            in result.now ≡ slot_value F self.now.parts.entries.bytes slot }
        ensures len { length result.now ≡ self.now.value_len }
    {
        self.stored.value(slot)
    }

    /// Whether the entry of a slot has this key, which is as long as the keys are.
    #[inline(always)]
    pub(super) fn has_key(&self, slot: usize, key: &[u8]) -> bool
        requires slot { slot < self.now.parts.entries.slots }
        requires key { length key.now ≡ self.now.key_len }
        ensures { let F = entry_format self.now.key_len self.now.value_len
            in IsTrue result ↔ (slot_key F self.now.parts.entries.bytes slot ≡ key.now) }
    {
        self.stored.has_key(slot, key)
    }

    /// The value stored with the key, searched for group by group along the probe order
    /// (docs/FORMAT.md, "Search").
    ///
    /// On the parts of a placed table it is the map's result. On any parts it is a value that is
    /// stored with an equal key. `find_counted` says how many groups that takes.
    #[inline(always)]
    pub fn find(&self, key: &[u8]) -> Option<&'a [u8]>
        requires { length key.now ≡ self.now.key_len }
        ensures { IsFind (parts_format self.now H.hash) (λ b. b) self.now.parts key.now
            (option_copied result) }
    {
        let (value, _) = self.find_counted(key);
        value
    }

    /// `find`, and how many groups were read: on the parts of a placed table those up to the first
    /// slot that is free or holds the key, and on any parts at most all groups. How they are
    /// counted: docs/FORMAT.md, "Search".
    #[inline(always)]
    pub fn find_counted(&self, key: &[u8]) -> (Option<&'a [u8]>, usize)
        requires { length key.now ≡ self.now.key_len }
        ensures { IsCountedFind (parts_format self.now H.hash) (λ b. b) self.now.parts key.now
            (option_copied result.0, result.1) }
    {
        match key.len() {
            4 => self.find_of::<GroupQuery>(&key[..4]),
            8 => self.find_of::<GroupQuery>(&key[..8]),
            16 => self.find_of::<GroupQuery>(&key[..16]),
            20 => self.find_of::<GroupQuery>(&key[..20]),
            32 => self.find_of::<GroupQuery>(&key[..32]),
            _ => self.find_of::<GroupQuery>(key),
        }
    }

    /// `find_counted` by a group search of the caller's choice. It is inlined where the compiler
    /// knows the length of the key, and so hashes and compares it with no loop.
    #[inline(always)]
    pub(super) fn find_of<Q: Group>(&self, key: &[u8]) -> (Option<&'a [u8]>, usize)
        requires { length key.now ≡ self.now.key_len }
        ensures found { IsCountedFind (parts_format self.now H.hash) (λ b. b) self.now.parts key.now
            (option_copied result.0, result.1) }
        ensures len { IfSome result.0 (λ v. length v.now ≡ self.now.value_len) }
    {
        let mut scan = Scan::new(self.controls(), self.len());
        let stored = self.stored();
        let end = search_stored::<L, H, Q>(&mut scan, &stored, key, H::hash(key));
        let groups = scan.groups();
        match end {
            Search::Found(slot) => (Some(self.value(slot)), groups),
            Search::Free(_) => (None, groups),
            Search::Neither => (None, groups),
        }
    }

    /// Where the search for a key that is inserted ends, and the key's tag, by a group search of the
    /// caller's choice. It is inlined where the compiler knows the length of the key, as `find_of`
    /// is.
    #[inline(always)]
    pub(crate) fn search_end<Q: Group>(&self, key: &[u8]) -> (Search, u8)
        requires { length key.now ≡ self.now.key_len }
        ensures end { IsSearchEnd (parts_format self.now H.hash) self.now.parts.entries
            self.now.parts.control key.now result.0 }
        ensures tag { result.1 ≡ key_tag (parts_format self.now H.hash) key.now }
    {
        let mut scan = Scan::new(self.controls(), self.len());
        let stored = self.stored();
        let hash = H::hash(key);
        let end = search_stored::<L, H, Q>(&mut scan, &stored, key, hash);
        (end, tag_of(hash))
    }

    /// The value of the slot where the search for a key ended, if that slot holds the key.
    #[inline(always)]
    pub(crate) fn value_at(&self, end: Search) -> Option<&'a [u8]>
        requires { MatchSearchResult end (λ slot. slot < self.now.parts.entries.slots)
            (λ _. ⊤) ⊤ }
        ensures value { let F = parts_format self.now H.hash
            in option_copied result ≡ former_of F self.now.parts.entries.bytes end }
        ensures found { (k : List ℕ)
            → IsSearchEnd (parts_format self.now H.hash) self.now.parts.entries
            self.now.parts.control k end
            → IsFind (parts_format self.now H.hash) (λ b. b) self.now.parts k
            (option_copied result) }
        ensures len { IfSome result (λ v. length v.now ≡ self.now.value_len) }
    {
        match end {
            Search::Found(slot) => Some(self.value(slot)),
            Search::Free(_) => None,
            Search::Neither => None,
        }
    }

    /// Where the search for a key that is inserted ends, and the key's tag. Keys of some lengths
    /// have a copy of the search each, as in [`Parts::find_counted`].
    #[inline(always)]
    pub(crate) fn insert_end(&self, key: &[u8]) -> (Search, u8)
        requires { length key.now ≡ self.now.key_len }
        ensures end { IsSearchEnd (parts_format self.now H.hash) self.now.parts.entries
            self.now.parts.control key.now result.0 }
        ensures tag { result.1 ≡ key_tag (parts_format self.now H.hash) key.now }
    {
        match key.len() {
            4 => self.search_end::<GroupQuery>(&key[..4]),
            8 => self.search_end::<GroupQuery>(&key[..8]),
            16 => self.search_end::<GroupQuery>(&key[..16]),
            20 => self.search_end::<GroupQuery>(&key[..20]),
            32 => self.search_end::<GroupQuery>(&key[..32]),
            _ => self.search_end::<GroupQuery>(key),
        }
    }

    /// Copies the value of the key that an insert searched for to `to`, where the search found it.
    /// Returns whether it did.
    #[inline(always)]
    pub(crate) fn copy_value_at(&self, end: Search, to: &mut [u8]) -> bool
        requires slot { MatchSearchResult end (λ slot. slot < self.now.parts.entries.slots)
            (λ _. ⊤) ⊤ }
        requires len { length to.old ≡ self.now.value_len }
        ensures told { let F = parts_format self.now H.hash
            in result ≡ is_some (former_of F self.now.parts.entries.bytes end) }
        ensures bytes { let F = parts_format self.now H.hash
            in to.new ≡ value_or (former_of F self.now.parts.entries.bytes end) to.old }
    {
        match self.value_at(end) {
            Some(value) => {
                to.copy_from_slice(value);
                true
            }
            None => false,
        }
    }

    /// The value of the key that an insert searched for, by value, where the search found it.
    #[inline(always)]
    pub(crate) fn short_value_at(&self, end: Search) -> Option<ShortBytes>
        requires { MatchSearchResult end (λ slot. slot < self.now.parts.entries.slots)
            (λ _. ⊤) ⊤ }
        ensures { let F = parts_format self.now H.hash
            in result ≡ former_of F self.now.parts.entries.bytes end }
    {
        // For the prover: a value has at most 255 bytes.
        let _ = self.len();
        match self.value_at(end) {
            Some(value) => Some(ShortBytes::of(value)),
            None => None,
        }
    }
}

/// The parts of a table that is written, to be read.
#[inline(always)]
pub(super) fn read_parts<'a, L: Lengths, H: HashFn>(
    control: &'a [EntryMetadata],
    entries: &'a [u8],
    slots: usize,
    lengths: L,
) -> Parts<'a, L, H>
    requires lengths { ArePartLengths H.MIN_LEN (L.key_len lengths) (L.value_len lengths)
        (length entries.now) (length control.now) }
    requires slots { slots ≡ length control.now - 16 }
    ensures { result
        ≡ dynamic_parts (L.key_len lengths) (L.value_len lengths) (length control.now - 16)
        entries.now control.now }
{
    Parts::of(control, Stored::new(entries, slots, lengths))
}

impl<'a, K: ByteArray, V: ByteArray, H: HashFn> Parts<'a, Fixed<K, V>, H> {
    /// The value of the key that an insert searched for, where the search found it.
    #[inline(always)]
    pub(crate) fn typed_value_at(&self, end: Search) -> Option<V>
        requires slot { MatchSearchResult end (λ slot. slot < self.now.parts.entries.slots)
            (λ _. ⊤) ⊤ }
        requires len { self.now.value_len ≡ V.LEN }
        ensures { let F = parts_format self.now H.hash
            in result ≡ option_map V.of_bytes (former_of F self.now.parts.entries.bytes end) }
    {
        match self.value_at(end) {
            Some(value) => Some(V::from_slice(value)),
            None => None,
        }
    }
}
