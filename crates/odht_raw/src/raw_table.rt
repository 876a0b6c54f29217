//! The parts of a table, control bytes and entries, and searches, inserts and walks in them.
//!
//! A table is *placed* where no key is in two slots, and the search for each key ends at its slot.
//! "On the parts of a placed table" is `IsPartsOf` in a clause: control bytes, mirror and entries
//! are those of such a table.
ghost use Rattle.std.specs.Prelude.{◌≡◌, ◌+◌, ◌-◌, ◌/◌, ◌^◌, ◌<◌, ◌≤◌, length};
ghost use Rattle.odht_raw.specs.Words.{checked, format_of, hashes_refusal, IsSlotCount};
ghost use Rattle.odht_raw.specs.Parts.{entry_format};
ghost use Rattle.odht_raw.specs.Finds.{IsFind, IsCountedFind};
ghost use Rattle.odht_raw.specs.Walks.{items_from};

use crate::bytes::ByteArray;
use crate::error::Error;
use crate::hash::HashFn;
use crate::layout::Fixed;
pub(crate) use crate::swisstable_group_query::is_empty_or_deleted;
use crate::swisstable_group_query::{Group, GroupQuery, REFERENCE_GROUP_SIZE};
use std::marker::Model;

mod bound;
mod check;
mod dump;
mod first_look;
mod group_search;
mod insert_order;
mod linear_order;
mod orders;
mod parts;
mod plain;
mod probe_seq;
mod read_search;
mod runs;
mod scan;
mod search_result;
mod slot_checks;
mod stored;
mod table_mut;
mod walk;
mod writes;

pub(crate) use bound::longer_refusal;
pub(crate) use check::{check_mirror, check_slots};
pub use first_look::FirstLook;
pub use group_search::{search, search_hashed};
pub use parts::{DynRawTable, Parts};
pub use plain::{plain_find, plain_insert};
pub use probe_seq::{GroupProbe, ProbeSeq, probe_order};
pub use read_search::{ReadPlace, search_read};
pub(crate) use runs::insert_run;
pub use scan::Scan;
pub use search_result::Search;
pub use stored::{Entries, Entry, ShortBytes, Stored};
pub use table_mut::RawTableMut;
pub use walk::{DynIter, DynSlots, PartPairs, PartSlots, RawIter, RawSlots};
pub use writes::write_new;
pub(crate) use writes::{is_found, write_at_end, write_slot};

/// A control byte: the tag of an occupied slot, which is below 128, or `FREE`.
pub type EntryMetadata = u8;

/// The control byte of a free slot.
pub const FREE: EntryMetadata = 255;

// How many low bits of a hash are not part of its tag.
const TAG_SHIFT: u32 = 25;

/// The tag of a key with this hash: the seven highest bits of the hash.
#[inline]
pub fn tag_of(hash: u32) -> u8
    ensures { result ≡ hash / 2 ^ 25 }
{
    (hash >> TAG_SHIFT) as u8
}

// How many slots have these control bytes, which end with their mirror.
#[inline(always)]
fn slot_count_of(control: &[EntryMetadata]) -> usize
    requires { 16 ≤ length control.now }
    ensures { result ≡ length control.now - 16 }
{
    control.len() - REFERENCE_GROUP_SIZE
}

/// The parts of a table, borrowed to be read: the control bytes with their mirror, and the entries
/// of as many slots.
#[derive(Drop)]
pub struct RawTable<'a, K: ByteArray, V: ByteArray, H: HashFn> {
    parts: Parts<'a, Fixed<K, V>, H>,
}

impl<'a, K: ByteArray, V: ByteArray, H: HashFn> Model for RawTable<'a, K, V, H> {
    ghost use Rattle.odht_raw.specs.Parts.{TableParts};
    ghost use Rattle.odht_raw.specs.Stored.{AreLengths};

    ghost Value = { TableParts };

    ghost view = { λ t. t.parts.parts };

    ghost invariant = { λ t. AreLengths K.LEN V.LEN t.parts.key_len t.parts.value_len };
}

impl<'a, K: ByteArray, V: ByteArray, H: HashFn> RawTable<'a, K, V, H> {
    /// The table of these parts. No control byte and no entry is checked.
    #[inline]
    pub fn new(control: &'a [EntryMetadata], entries: Entries<'a, K, V>) -> Self
        requires slots { IsSlotCount entries.slots }
        requires control { length control.now ≡ entries.slots + 16 }
        requires hashes { H.MIN_LEN ≤ K.LEN }
        ensures { result ≡ record { control = control.now; entries = entries.entry } }
    {
        RawTable {
            parts: Parts::of(control, entries.stored()),
        }
    }

    // The same parts, with keys and values as bytes.
    #[inline(always)]
    pub(crate) fn parts(&self) -> Parts<'a, Fixed<K, V>, H>
        ensures { result ≡ record { key_len = K.LEN; value_len = V.LEN; parts = self.now } }
    {
        self.parts.copy()
    }

    // The entries.
    #[inline(always)]
    fn entries(&self) -> Entries<'a, K, V>
        ensures { result ≡ self.now.entries }
    {
        Entries::of(self.parts().stored())
    }

    /// The value stored with the key, searched for group by group along the probe order
    /// (docs/FORMAT.md, "Search").
    ///
    /// On the parts of a placed table it is the map's result. On any parts it is a value that is
    /// stored with an equal key. `find_counted` says how many groups that takes.
    #[inline(always)]
    pub fn find(&self, key: &K) -> Option<V>
        ensures { IsFind (format_of K.LEN V.LEN H.hash) V.of_bytes self.now
            (K.bytes key.now) result }
    {
        let (value, _) = self.find_counted(key);
        value
    }

    /// `find`, and how many groups were read: on the parts of a placed table those up to the first
    /// slot that is free or holds the key, and on any parts at most all groups. How they are
    /// counted: docs/FORMAT.md, "Search".
    #[inline(always)]
    pub fn find_counted(&self, key: &K) -> (Option<V>, usize)
        ensures { IsCountedFind (format_of K.LEN V.LEN H.hash) V.of_bytes self.now (K.bytes key.now)
            result }
    {
        self.find_counted_by::<GroupQuery>(key)
    }

    /// `find_counted` by a group search of the caller's choice. On the parts of a placed table all
    /// searches give the same.
    #[inline(always)]
    pub fn find_counted_by<Q: Group>(&self, key: &K) -> (Option<V>, usize)
        ensures { IsCountedFind (format_of K.LEN V.LEN H.hash) V.of_bytes self.now (K.bytes key.now)
            result }
    {
        match self.parts().find_of::<Q>(key.as_slice()) {
            (Some(value), groups) => (Some(V::from_slice(value)), groups),
            (None, groups) => (None, groups),
        }
    }

    /// The control byte and the entry of each slot whose own control byte does not count as free,
    /// in slot order.
    #[inline]
    pub fn iter(&self) -> RawIter<'a, K, V>
        ensures items { result
            ≡ items_from K.of_bytes V.of_bytes (entry_format K.LEN V.LEN) self.now 0 }
        ensures few { length result ≤ self.now.entries.slots }
    {
        RawIter::new(self.parts().controls(), self.entries())
    }

    /// Checks the first `slots_to_check` slots, or all where there are fewer, and returns the
    /// first error: `NonZeroEmpty` of a slot that counts as free, `ControlMismatch` of any other.
    ///
    /// A mismatch can mean that the bytes were written with another hash function.
    #[inline(always)]
    pub fn sanity_check_hashes(&self, slots_to_check: usize) -> Result<(), Error>
        ensures { let F = format_of K.LEN V.LEN H.hash
            in result ≡ checked
            (hashes_refusal F self.now.entries.bytes self.now.control slots_to_check) }
    {
        self.parts().sanity_check_hashes(slots_to_check)
    }
}
