//! Whether two tables are the same map, and whether they have the same bytes.
ghost use Rattle.std.specs.Prelude.{◌≡◌, ◌↔◌, IsTrue, map};
ghost use Rattle.odht_raw.specs.Words.{format_of, IsPartsOf, Table};
ghost use Rattle.odht.specs.Tables.{OfTable, InTable};
ghost use Rattle.odht_raw.specs.Walks.{stored};
ghost use Rattle.odht.specs.Equality.{HasAll, IsSameMap};

use crate::bytes::{ByteArray, ByteStore};
use crate::config::{Coded, Config};
use crate::hash::HashFn;
use crate::hash_table::HashTable;
use crate::hash_table_owned::HashTableOwned;
use crate::raw_table::{RawIter, RawTable};

impl<C: Config, D: ByteStore> HashTable<C, D> {
    /// Whether this table and another have the same keys with the same values, as bytes, whatever
    /// their slot counts, their load factors and the order of their inserts. Of bytes that are not
    /// valid nothing is said: it may be true of any two.
    ///
    /// Where the item counts differ no key is looked up. Otherwise each key of this table is
    /// looked up in the other, up to the first that is absent there or has another value.
    pub fn is_same_map<E: ByteStore>(&self, other: &HashTable<C, E>) -> bool
        ensures { InTable ⟦<C as Coded>⟧.coding (D.bytes self.now)
            (λ c P. OfTable c.format (E.bytes other.now)
            (λ Q. IsTrue result ↔ IsSameMap P Q)) }
    {
        if self.len() != other.len() {
            return false;
        }
        let (control, entries) = self.allocation.data_slices();
        has_all(&other.as_raw(), RawIter::new(control, entries))
    }

    /// Whether this table and another have the same bytes. Tables that are the same map may differ
    /// in theirs.
    ///
    /// One pass over the bytes, up to the first that differ.
    pub fn has_same_bytes<E: ByteStore>(&self, other: &HashTable<C, E>) -> bool
        ensures { IsTrue result ↔ (D.bytes self.now ≡ E.bytes other.now) }
    {
        self.raw_bytes() == other.raw_bytes()
    }
}

impl<C: Config> HashTableOwned<C> {
    /// Like [`HashTable::is_same_map`], of two tables whose bytes are valid.
    pub fn is_same_map(&self, other: &HashTableOwned<C>) -> bool
        ensures { IsTrue result ↔ IsSameMap self.now other.now }
    {
        self.table.is_same_map(&other.table)
    }

    /// Like [`HashTable::has_same_bytes`].
    pub fn has_same_bytes(&self, other: &HashTableOwned<C>) -> bool
        ensures { IsTrue result ↔ (self.now ≡ other.now) }
    {
        self.raw_bytes() == other.raw_bytes()
    }
}

// Whether a table has the key of each item of a walk, with the item's value.
fn has_all<K: ByteArray, V: ByteArray, H: HashFn>(
    table: &RawTable<'_, K, V, H>,
    walk: RawIter<'_, K, V>,
) -> bool
    ensures { let F = format_of K.LEN V.LEN H.hash
        in (Q : Table)
        → IsPartsOf F Q table.now.entries.bytes table.now.control
        → IsTrue result ↔ HasAll Q (map (stored K.bytes V.bytes) walk.entry) }
{
    for (_, entry) in walk {
        let Some(value) = table.find(&entry.key) else {
            return false;
        };
        if !value.equals(&entry.value) {
            return false;
        }
    }
    true
}
