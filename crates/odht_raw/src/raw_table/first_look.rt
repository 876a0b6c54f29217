//! The first look of a search. To look up many keys, take the first looks of several keys before
//! the first search ends: then their memory accesses overlap. Inserts of several keys look up their
//! slots ahead for the same reason.
ghost use Rattle.std.specs.Prelude.{◌≡◌, length, IfSome, ◌<◌, is_some};
ghost use Rattle.std.specs.Option.{option_copied};
ghost use Rattle.odht_raw.specs.Words.{format_of, IsPartsOf, Table};
ghost use Rattle.odht_raw.specs.FirstLooks.{first_look_of};
ghost use Rattle.odht_raw.specs.Finds.{IsFind};
ghost use Rattle.odht_raw.specs.DynParts.{parts_format};
ghost use Rattle.odht_raw.specs.SearchResults.{answer};
ghost use Rattle.odht_raw.specs.Searches.{IsSearchEnd};
ghost use Rattle.odht_raw.specs.Expected.{EndsIfFree, IsAhead};
ghost use Rattle.odht_raw.specs.Steps.{IsTaggedEnd};

use super::group_search::{search_next_groups, search_stored};
use super::{Parts, RawTable, Scan, Search, is_empty_or_deleted, tag_of};
use crate::bytes::ByteArray;
use crate::hash::HashFn;
use crate::layout::Lengths;
use crate::swisstable_group_query::{Group, GroupQuery, REFERENCE_GROUP_SIZE, lanes};
use std::marker::Model;

/// The hash of a key, and what the group of control bytes at its home slot has: the matches of the
/// tag, and the first byte that counts as free. It is for the table and the key of which it was
/// taken, and for no others.
#[derive(Drop)]
pub struct FirstLook {
    hash: u32,
    group: lanes::GroupQuery,
}

impl Model for FirstLook {
    ghost use Rattle.odht_raw.specs.FirstLooks.{FirstLookOf};

    ghost Value = { FirstLookOf };

    ghost view = { λ l. record { hash = l.hash; matches = l.group.matches; free = l.group.free } };
}

impl<'a, L: Lengths, H: HashFn> Parts<'a, L, H> {
    /// [`RawTable::first_look`] of a key that is given as bytes.
    #[inline(always)]
    pub fn first_look(&self, key: &[u8]) -> FirstLook
        requires { length key.now ≡ self.now.key_len }
        ensures { result ≡ first_look_of (parts_format self.now H.hash) self.now.parts key.now }
    {
        let mask = self.len() - 1;
        let hash = H::hash(key);
        let home = hash as usize & mask;
        let control = self.controls();
        let bytes = &control[home..home + REFERENCE_GROUP_SIZE];
        FirstLook {
            hash,
            group: lanes::GroupQuery::of(bytes, tag_of(hash)),
        }
    }

    /// [`RawTable::find_from`] of a key that is given as bytes.
    // The first group is not looked at by the function for later ones: keys in a near cache took
    // up to a tenth longer.
    #[inline(always)]
    pub fn find_from(&self, look: FirstLook, key: &[u8]) -> Option<&'a [u8]>
        requires key { length key.now ≡ self.now.key_len }
        requires look { look
            ≡ first_look_of (parts_format self.now H.hash) self.now.parts key.now }
        ensures found { IsFind (parts_format self.now H.hash) (λ b. b) self.now.parts key.now
            (option_copied result) }
        ensures len { IfSome result (λ v. length v.now ≡ self.now.value_len) }
    {
        let mask = self.len() - 1;
        let home = look.hash as usize & mask;
        let FirstLook { hash, mut group } = look;
        'matches: while let Some(index) = group.first_match() {
            let slot = (home + index) & mask;
            if self.has_key(slot, key) {
                return Some(self.value(slot));
            }
            group.drop_match();
        }
        if group.any_empty() {
            return None;
        }
        let stored = self.stored();
        self.value_at(search_next_groups::<L, H>(self.controls(), &stored, key, hash))
    }

    /// The hash of a key, and the slot where a pair with the key is placed, where the first group
    /// search at its home slot finds it; else the slot count: where a key may have to be compared,
    /// or where none of these control bytes counts as free.
    ///
    /// The clause says what such a slot is, not when there is one: the slot count would always be
    /// right, and slower. No entry is read, so the calls for several keys do not depend on one
    /// another.
    #[inline(always)]
    pub(crate) fn expected_slot<Q: Group>(&self, key: &[u8]) -> (u32, usize)
        requires { length key.now ≡ self.now.key_len }
        ensures { IsAhead (parts_format self.now H.hash) self.now.parts.control key.now result }
    {
        let slots = self.len();
        let control = self.controls();
        let mask = slots - 1;
        let hash = H::hash(key);
        let home = hash as usize & mask;
        let group = Q::of(&control[home..home + Q::SIZE], tag_of(hash));
        if group.first_match().is_some() {
            return (hash, slots);
        }
        match group.first_empty() {
            Some(index) => (hash, (home + index) & mask),
            None => (hash, slots),
        }
    }

    /// Where the search for a key with this hash ends, and the key's tag. It was expected to end at
    /// this slot. If there is room and the slot still counts as free, it ends there. Otherwise the
    /// whole search runs: without room, only it finds what comes before the end.
    #[inline(always)]
    pub(crate) fn expected_end(
        &self,
        key: &[u8],
        hash: u32,
        slot: usize,
        room: usize,
    ) -> (Search, u8)
        requires key { length key.now ≡ self.now.key_len }
        requires hash { hash ≡ H.hash key.now }
        ensures placed { let F = parts_format self.now H.hash
            in (P : Table)
            → IsPartsOf F P self.now.parts.entries.bytes self.now.parts.control
            → EndsIfFree F P key.now slot
            → result.0 ≡ answer F P.cells key.now }
        ensures end { IsTaggedEnd (parts_format self.now H.hash) room
            self.now.parts.entries.bytes self.now.parts.control key.now result }
    {
        let control = self.controls();
        if room > 0 && slot < self.len() && is_empty_or_deleted(control[slot]) {
            return (Search::Free(slot), tag_of(hash));
        }
        (self.whole_search(key, hash), tag_of(hash))
    }

    // Where the search for a key with this hash ends. It is not inlined: where a key is placed as
    // expected, this is not called.
    #[inline(never)]
    fn whole_search(&self, key: &[u8], hash: u32) -> Search
        requires key { length key.now ≡ self.now.key_len }
        requires hash { hash ≡ H.hash key.now }
        ensures { IsSearchEnd (parts_format self.now H.hash) self.now.parts.entries
            self.now.parts.control key.now result }
    {
        let mut scan = Scan::new(self.controls(), self.len());
        let stored = self.stored();
        search_stored::<L, H, GroupQuery>(&mut scan, &stored, key, hash)
    }
}

impl<'a, K: ByteArray, V: ByteArray, H: HashFn> RawTable<'a, K, V, H> {
    /// Returns the first look of the search for a key, from which [`RawTable::find_from`]
    /// continues. It hashes the key and reads one group of control bytes, and no entry.
    #[inline(always)]
    pub fn first_look(&self, key: &K) -> FirstLook
        ensures { result ≡ first_look_of (format_of K.LEN V.LEN H.hash) self.now (K.bytes key.now) }
    {
        self.parts().first_look(key.as_slice())
    }

    /// Returns the value of the key, or `None`. `look` must be what [`RawTable::first_look`]
    /// returned for this key in this table. On the parts of a placed table the result is that of
    /// [`RawTable::find`], on any parts a value that is stored with exactly this key.
    ///
    /// It compares the matches of the look in turn. If none has the key and the group has no free
    /// byte, the search continues with the second group.
    #[inline(always)]
    pub fn find_from(&self, look: FirstLook, key: &K) -> Option<V>
        requires { let F = format_of K.LEN V.LEN H.hash
            in look ≡ first_look_of F self.now (K.bytes key.now) }
        ensures { let F = format_of K.LEN V.LEN H.hash
            in IsFind F V.of_bytes self.now (K.bytes key.now) result }
    {
        match self.parts().find_from(look, key.as_slice()) {
            Some(value) => Some(V::from_slice(value)),
            None => None,
        }
    }
}
