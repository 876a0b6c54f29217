//! The parts of a table, borrowed to be written.
ghost use Rattle.std.specs.Prelude.{◌≡◌, ◌-◌, ◌*◌, ◌+◌, ◌≤◌, length};
ghost use Rattle.odht_base.specs.Load.{IsSlotCount};
ghost use Rattle.odht_raw.specs.PartLengths.{ArePartLengths};

use super::parts::read_parts;
use super::writes::{insert_at, write_new};
use super::{Entries, EntryMetadata, RawTable, slot_count_of};
use crate::bytes::ByteArray;
use crate::error::Error;
use crate::hash::HashFn;
use crate::layout::Fixed;
use crate::swisstable_group_query::{Group, GroupQuery};
use std::fmt;
use std::marker::PhantomData;

/// The parts of a table, borrowed to be written: the control bytes with their mirror, and the
/// bytes of as many entries.
///
/// After the borrow both slices hold what the inserts left in them.
#[derive(Drop)]
pub struct RawTableMut<'c, 'e, K: ByteArray, V: ByteArray, H: HashFn> {
    control: &'c mut [EntryMetadata],
    entries: &'e mut [u8],
    types: PhantomData<(K, V, H)>,
    ghost slots: { IsSlotCount (length control.now - 16) },
    ghost long: { length entries.now ≡ (length control.now - 16) * (K.LEN + V.LEN) },
    ghost hashes: { H.MIN_LEN ≤ K.LEN },
    ghost key_short: { K.LEN ≤ 255 },
    ghost value_short: { V.LEN ≤ 255 },
}

impl<'c, 'e, K: ByteArray, V: ByteArray, H: HashFn> RawTableMut<'c, 'e, K, V, H> {
    ghost use Rattle.odht_raw.specs.PartsMut.{mut_control, mut_entries, control_loan, entries_loan};
    ghost use Rattle.odht_raw.specs.PartsMut.{table_format, pair_of, IsParts, IsMutPlacing};
    ghost use Rattle.odht_raw.specs.PartsInserts.{IsPartsInsert, IsInsertChange};
    ghost use Rattle.odht_base.specs.Table.{Table};

    /// The table of these parts. No control byte and no entry is checked or written.
    #[inline]
    pub fn new(control: &'c mut [EntryMetadata], entries: &'e mut [u8]) -> Self
        requires { ArePartLengths H.MIN_LEN K.LEN V.LEN (length entries.old) (length control.old) }
        ensures control { mut_control result ≡ control.old }
        ensures entries { mut_entries result ≡ entries.old }
        ensures control_loan { control_loan result ≡ control.entry.ghost_name }
        ensures entries_loan { entries_loan result ≡ entries.entry.ghost_name }
    {
        RawTableMut {
            control,
            entries,
            types: PhantomData,
        }
    }

    /// Inserts a pair like `plain_insert`, and returns the former value of the key. It overwrites
    /// the value that is stored with the key, or writes the pair into the first free slot of the
    /// key's probe order.
    ///
    /// On the parts of a placed table it leaves the parts of the table with the pair placed. It
    /// returns `Full`, with nothing changed, exactly if each slot is occupied and none has the key.
    ///
    /// On any parts it overwrites one value that is stored with an equal key, or writes one entry
    /// and its tag into a slot that counted as free. No other byte changes. It returns `Full` only
    /// if each slot counts as occupied and a search slot by slot can end without the key.
    #[inline(always)]
    pub fn insert(&mut self, key: K, value: V) -> Result<Option<V>, Error>
        // On the parts of a placed table.
        ensures placed { let F = table_format self.old in let p = pair_of self.old key value
            in (P : Table) → IsParts P self.old
            → IsPartsInsert F V.of_bytes P p result (mut_entries self.new) (mut_control self.new) }
        // On any parts.
        ensures any { let F = table_format self.old in let p = pair_of self.old key value
            in IsInsertChange F V.of_bytes (mut_entries self.old) (mut_control self.old) p
            result (mut_entries self.new) (mut_control self.new) }
        // Both slices stay borrowed.
        ensures control_loan { control_loan self.new ≡ control_loan self.old }
        ensures entries_loan { entries_loan self.new ≡ entries_loan self.old }
    {
        self.insert_by::<GroupQuery>(key, value)
    }

    /// Like `insert`, by a group search of the caller's choice. On the parts of a placed table all
    /// group searches leave the same parts.
    #[inline(always)]
    pub fn insert_by<Q: Group>(&mut self, key: K, value: V) -> Result<Option<V>, Error>
        // On the parts of a placed table.
        ensures placed { let F = table_format self.old in let p = pair_of self.old key value
            in (P : Table) → IsParts P self.old
            → IsPartsInsert F V.of_bytes P p result (mut_entries self.new) (mut_control self.new) }
        // On any parts.
        ensures any { let F = table_format self.old in let p = pair_of self.old key value
            in IsInsertChange F V.of_bytes (mut_entries self.old) (mut_control self.old) p
            result (mut_entries self.new) (mut_control self.new) }
        // Both slices stay borrowed.
        ensures control_loan { control_loan self.new ≡ control_loan self.old }
        ensures entries_loan { entries_loan self.new ≡ entries_loan self.old }
    {
        let lengths: Fixed<K, V> = Fixed::new();
        let (key, value) = (key.as_slice(), value.as_slice());
        let (control, entries) = (&mut *self.control, &mut *self.entries);
        let slots = slot_count_of(control);
        let parts = read_parts::<Fixed<K, V>, H>(&*control, &*entries, slots, lengths);
        let end = parts.search_end::<Q>(key);
        let former = parts.typed_value_at(end.0);
        insert_at::<Fixed<K, V>, H, V>(control, entries, lengths, key, value, end, former)
    }

    /// Writes the pair into the first free slot of its key's probe order. No key is compared, so
    /// it is for a key that the table does not have.
    ///
    /// On the parts of a placed table that does not have this key it leaves the parts of the table
    /// with the pair placed, and returns `Full`, with nothing changed, exactly where each slot is
    /// occupied. On any parts the entry is written with its tag into the first slot of the order
    /// that counted as free, and no other byte changes; `Full` is returned only where each slot
    /// counts as occupied.
    #[inline(always)]
    pub fn place(&mut self, key: K, value: V) -> Result<(), Error>
        ensures { IsMutPlacing self.old key value result self.new }
    {
        self.place_by::<GroupQuery>(key, value)
    }

    /// `place` by a group search of the caller's choice. On the parts of a placed table all
    /// searches leave the same parts.
    #[inline(always)]
    pub fn place_by<Q: Group>(&mut self, key: K, value: V) -> Result<(), Error>
        ensures { IsMutPlacing self.old key value result self.new }
    {
        let lengths: Fixed<K, V> = Fixed::new();
        let (key, value) = (key.as_slice(), value.as_slice());
        write_new::<Fixed<K, V>, H, Q>(self.control, self.entries, lengths, key, value)
    }
}

impl<'c, 'e, K: ByteArray, V: ByteArray, H: HashFn> fmt::Debug for RawTableMut<'c, 'e, K, V, H> {
    ghost use Rattle.odht_raw.specs.Parts.{entry_format};
    ghost use Rattle.odht_raw.specs.Dumps.{dump_text};
    ghost use Rattle.odht_raw.specs.PartsMut.{mut_parts};

    ghost debug_output = { λ t. dump_text (entry_format K.LEN V.LEN)
        (λ b. K.debug_output (K.of_bytes b)) (λ b. V.debug_output (V.of_bytes b))
        H.hash_name (mut_parts t) };

    // The same text as that of the `RawTable` of these parts.
    fn fmt<W: fmt::Write>(&self, f: &mut fmt::Formatter<W>) -> fmt::Result {
        let slots = slot_count_of(self.control);
        let entries = Entries::new(self.entries, slots);
        let table: RawTable<'_, K, V, H> = RawTable::new(self.control, entries);
        write!(f, "{table:?}")
    }
}
