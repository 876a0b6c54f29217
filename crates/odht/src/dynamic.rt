//! Dynamic tables: the lengths of keys and values are known only at run time, for example from a
//! file.
ghost use Rattle.std.specs.Prelude.{◌≡◌, ◌≢◌, ◌<◌, ◌≤◌, ◌↔◌, ℕ, None, All, length, slice_index};
ghost use Rattle.std.specs.Prelude.{Err, IfErr, IfOk, IsOk, IsTrue, OnErr, OnOk, map};
ghost use Rattle.std.specs.Option.{option_copied};
ghost use Rattle.std.specs.Result.{result_err};
ghost use Rattle.odht_raw.specs.Words.{format_of, IsFormat, IsValidBytes, TooShort};
ghost use Rattle.odht.specs.Tables.{OfTable, HasParts};
ghost use Rattle.odht_raw.specs.Frame.{IsAccepted};
ghost use Rattle.odht_raw.specs.DynParts.{HasLengthsOf};
ghost use Rattle.odht.specs.Dynamic.{dyn_coding, dyn_format, dyn_refusal, stated_refusal};
ghost use Rattle.odht.specs.Dynamic.{dyn_store, dyn_parts};
ghost use Rattle.odht.specs.declared.dynamic.DynError.TheVariants.{Rejected};
ghost use Rattle.odht.specs.Gets.{IsGet, IsCountedGet, IsKnown, AreGot};
ghost use Rattle.odht.specs.Walks.{IsItemCount, ArePairs, AreSlots};
ghost use Rattle.odht.specs.SearchBounds.{IsValidWithin, IsBound};

use crate::bytes::ByteStore;
use crate::error::Error;
use crate::hash::HashFn;
pub use crate::layout::Layout;
use crate::memory_layout::{
    self, Header, check_by_header, check_dynamic, check_dynamic_within, check_opening,
    dynamic_parts,
};
pub use crate::prefix::table_len;
pub use crate::raw_table::ShortBytes;
use crate::raw_table::{DynIter, DynRawTable, DynSlots};
use std::marker::{Model, PhantomData};

mod file;
mod inserts;
mod owned;

pub use file::{FileError, FileTable};
pub use owned::DynTableOwned;

/// Why bytes cannot be opened as a dynamic table, or why such a table does not accept a pair.
#[derive(Debug, PartialEq, Eq, Drop)]
pub enum DynError {
    /// The keys are shorter than the hash function needs.
    KeyTooShort {
        /// The length of a key, in bytes.
        key_len: u8,
        /// The minimum length that the hash function needs, in bytes.
        least: usize,
    },
    /// The key is longer or shorter than the keys of the table.
    WrongKeyLength {
        /// The length of a key of the table, in bytes.
        expected: u8,
        /// The length of the key, in bytes.
        found: usize,
    },
    /// The value is longer or shorter than the values of the table.
    WrongValueLength {
        /// The length of a value of the table, in bytes.
        expected: u8,
        /// The length of the value, in bytes.
        found: usize,
    },
    /// The error that a typed table with these lengths would return.
    Rejected(Error),
}

/// A view of a table in the bytes of a store. The lengths of keys and values are given when it is
/// opened, or stated by its header. It cannot grow.
///
/// In contracts its value consists of these lengths and the store.
#[derive(Drop)]
pub struct DynTable<H: HashFn, D: ByteStore> {
    store: D,
    layout: Layout,
    hash: PhantomData<H>,
}

impl<H: HashFn, D: ByteStore> Model for DynTable<H, D> {
    ghost use Rattle.odht.specs.Dynamic.{DynStore, IsOpened};

    ghost Value = { DynStore D };

    ghost view = { λ t. record {
      key_len = t.layout.key_len;
      value_len = t.layout.value_len;
      store = t.store;
    } };

    ghost invariant = { λ t. IsOpened H.MIN_LEN H.hash D.bytes
        (record {
          key_len = t.layout.key_len;
          value_len = t.layout.value_len;
          store = t.store;
        }) };
}

// The lengths of keys and values that the header at the front of the bytes states, or that they
// are too few for one.
pub(crate) fn stated_layout(bytes: &[u8]) -> Result<Layout, DynError>
    ensures long { IfOk result (λ _. 32 ≤ length bytes.now) }
    ensures key { IfOk result (λ l. l.key_len ≡ slice_index bytes.now 5) }
    ensures value { IfOk result (λ l. l.value_len ≡ slice_index bytes.now 6) }
    ensures short { IfErr result (λ _. length bytes.now < 32) }
    ensures err { IfErr result (λ e. e ≡ Rejected (TooShort (length bytes.now))) }
{
    match memory_layout::stated_layout(bytes) {
        Ok(layout) => Ok(layout),
        Err(rejected) => Err(DynError::Rejected(rejected)),
    }
}

// The error of keys that are shorter than the hash function needs, if these are.
pub(crate) fn check_key_len<H: HashFn>(layout: Layout) -> Result<(), DynError>
    ensures long { OnOk result (H.MIN_LEN ≤ layout.key_len) }
    ensures short { OnErr result (layout.key_len < H.MIN_LEN) }
    ensures err { OnErr result
        (result ≡ Err (DynError.KeyTooShort layout.key_len H.MIN_LEN)) }
{
    if (layout.key_len as usize) < H::MIN_LEN {
        return Err(DynError::KeyTooShort {
            key_len: layout.key_len,
            least: H::MIN_LEN,
        });
    }
    Ok(())
}

impl<H: HashFn, D: ByteStore> DynTable<H, D> {
    /// Opens bytes as a table with these key and value lengths, or returns the first error. It is
    /// `KeyTooShort` if the hash function needs longer keys. Otherwise it is `Rejected` with the
    /// error that [`HashTable::from_raw_bytes`](crate::hash_table::HashTable::from_raw_bytes)
    /// returns: too few bytes, then an error of the header, of the length, of the first ten slots.
    /// On an error the store is dropped.
    ///
    /// Nothing else is checked. A table of accepted bytes that are not valid is safe to use, but
    /// its calls guarantee only what their clauses state for any bytes.
    pub fn open(layout: Layout, data: D) -> Result<Self, DynError>
        ensures ok { IfOk result (λ t. t ≡ dyn_store layout.key_len layout.value_len «data») }
        ensures err { let F = format_of layout.key_len layout.value_len H.hash
            in result_err result ≡ dyn_refusal H.MIN_LEN F (D.bytes «data») }
        ensures valid { let F = format_of layout.key_len layout.value_len H.hash
            in H.MIN_LEN ≤ layout.key_len → OfTable F (D.bytes «data») (λ _. IsOk result) }
    {
        check_key_len::<H>(layout)?;
        match check_opening::<H>(data.bytes(), layout) {
            Ok(()) => Ok(DynTable::open_unchecked(layout, data)),
            Err(rejected) => Err(DynError::Rejected(rejected)),
        }
    }

    /// Like [`DynTable::open`], with the key and value lengths that the header states.
    /// [`DynTable::layout`] returns them.
    ///
    /// It returns the first error: `Rejected` for too few bytes, the header or the length, then
    /// `KeyTooShort`, then `Rejected` for the first ten slots. On an error the store is dropped.
    ///
    /// The header does not record the hash function. A table that was built with another one is
    /// rejected if the tag of an occupied slot among the first ten does not match.
    pub fn open_as_stated(data: D) -> Result<Self, DynError>
        ensures ok { let B = D.bytes «data»
            in IfOk result (λ t. t ≡ dyn_store (slice_index B 5) (slice_index B 6) «data») }
        ensures err { result_err result ≡ stated_refusal H.MIN_LEN H.hash (D.bytes «data») }
        ensures valid { (key_len value_len : ℕ) → H.MIN_LEN ≤ key_len
            → OfTable (format_of key_len value_len H.hash) (D.bytes «data») (λ _. IsOk result) }
    {
        let bytes = data.bytes();
        let layout = stated_layout(bytes)?;
        match check_by_header(bytes, layout) {
            Ok(()) => DynTable::open(layout, data),
            Err(rejected) => Err(DynError::Rejected(rejected)),
        }
    }

    /// Opens bytes as a table with these key and value lengths, without a check. The caller ensures
    /// that their header and length fit, and that keys are long enough for the hash function.
    #[inline]
    pub fn open_unchecked(layout: Layout, data: D) -> Self
        requires accepted { IsAccepted (format_of layout.key_len layout.value_len H.hash)
            (D.bytes «data») }
        requires hashes { H.MIN_LEN ≤ layout.key_len }
        ensures { result ≡ dyn_store layout.key_len layout.value_len «data» }
    {
        // A slice's length is below 2^64, so that of the store's bytes is too.
        let _ = data.bytes();
        DynTable {
            store: data,
            layout,
            hash: PhantomData,
        }
    }

    /// Returns the lengths of keys and values.
    #[inline]
    pub fn layout(&self) -> Layout
        ensures key { result.key_len ≡ self.now.key_len }
        ensures value { result.value_len ≡ self.now.value_len }
        ensures hashes { H.MIN_LEN ≤ result.key_len }
    {
        self.layout
    }

    /// Returns the value of a key, or `None`. On valid bytes it is the table's value for the key.
    /// On any bytes it is a value that some entry stores with exactly this key. A key of another
    /// length has no value. [`DynTable::get_counted`] counts the groups that such a search reads.
    pub fn get(&self, key: &[u8]) -> Option<&[u8]>
        ensures { IsGet (dyn_coding self.now H.hash) (D.bytes self.now.store) key.now
            (option_copied result) }
    {
        if !self.takes(key) {
            return None;
        }
        self.as_dynamic().find(key)
    }

    /// `get` of many keys: the value of each key is written to its index. A key of another length
    /// has no value.
    ///
    /// It takes no memory, and costs a `get` for each key.
    pub fn get_all<'a>(&'a self, keys: &[&[u8]], values: &mut [Option<&'a [u8]>])
        requires { length values.old ≡ length keys.now }
        ensures { AreGot (dyn_coding self.now H.hash) (D.bytes self.now.store)
            (map (λ key. key.now) keys.now) (map (λ value. option_copied value) values.new) }
    {
        for index in 0..keys.len() {
            values[index] = self.get(keys[index]);
        }
    }

    /// Like `get`, and also returns how many groups of control bytes it read, as
    /// [`HashTable::get_counted`](crate::hash_table::HashTable::get_counted) counts them. For a key
    /// of another length no group is read.
    pub fn get_counted(&self, key: &[u8]) -> (Option<&[u8]>, usize)
        ensures counted { length key.now ≡ self.now.key_len
            → IsCountedGet (dyn_coding self.now H.hash) (D.bytes self.now.store) key.now
            (option_copied result.0, result.1) }
        ensures other { length key.now ≢ self.now.key_len → result ≡ (None, 0) }
    {
        if !self.takes(key) {
            return (None, 0);
        }
        self.as_dynamic().find_counted(key)
    }

    // Whether the key has the length of the table's keys.
    #[inline]
    fn takes(&self, key: &[u8]) -> bool
        ensures { IsTrue result ↔ (length key.now ≡ self.now.key_len) }
    {
        key.len() == self.layout.key_len as usize
    }

    /// Returns whether the key has a value. On any bytes it returns true only if the entry of some
    /// slot contains exactly this key.
    pub fn contains_key(&self, key: &[u8]) -> bool
        ensures { IsKnown (dyn_coding self.now H.hash) (D.bytes self.now.store) key.now result }
    {
        self.get(key).is_some()
    }

    /// Iterates over the keys and values of the slots whose own control byte is below 128, in slot
    /// order. On valid bytes these are the pairs of the table, each once.
    pub fn iter(&self) -> DynIter<'_, H>
        ensures pairs { ArePairs (dyn_format self.now H.hash) (D.bytes self.now.store) result }
        ensures lengths { All (HasLengthsOf self.now.key_len self.now.value_len) result }
        ensures few { length result ≤ usize.MAX }
    {
        self.as_dynamic().iter()
    }

    /// Iterates over the pairs in the slots from `from` on, each with its slot, like
    /// [`HashTable::iter_from`](crate::hash_table::HashTable::iter_from).
    pub fn iter_from(&self, from: usize) -> DynSlots<'_, H>
        ensures slots { AreSlots (dyn_format self.now H.hash) (D.bytes self.now.store) from result }
        ensures few { length result ≤ usize.MAX }
    {
        self.as_dynamic().iter_from(from)
    }

    /// Returns the item count of the header. On valid bytes it is the number of items.
    #[inline]
    pub fn len(&self) -> usize
        ensures { IsItemCount (dyn_format self.now H.hash) (D.bytes self.now.store) result }
    {
        Header::of(self.raw_bytes()).item_count()
    }

    /// Returns whether the bytes are valid, like
    /// [`HashTable::verify`](crate::hash_table::HashTable::verify).
    /// [`crate::memory_layout::check_dynamic`] returns the error.
    pub fn verify(&self) -> bool
        ensures { IsTrue result
            ↔ IsValidBytes (dyn_format self.now H.hash) (D.bytes self.now.store) }
    {
        check_dynamic::<H>(self.store.bytes(), self.layout).is_ok()
    }

    /// Returns whether the bytes are valid and no search reads more than `groups` groups, like
    /// [`HashTable::verify_within`](crate::hash_table::HashTable::verify_within).
    /// [`crate::memory_layout::check_dynamic_within`] returns the error.
    pub fn verify_within(&self, groups: usize) -> bool
        ensures { IsTrue result
            ↔ IsValidWithin (dyn_coding self.now H.hash) (D.bytes self.now.store) groups }
    {
        check_dynamic_within::<H>(self.store.bytes(), self.layout, groups).is_ok()
    }

    /// Returns whether no search reads more than `groups` groups, by the control bytes, like
    /// [`HashTable::searches_within`](crate::hash_table::HashTable::searches_within).
    pub fn searches_within(&self, groups: usize) -> bool
        ensures { IsBound (dyn_coding self.now H.hash) (D.bytes self.now.store) groups result }
    {
        self.as_dynamic().searches_within(groups)
    }

    /// Returns all bytes. Their header and length fit.
    #[inline]
    pub fn raw_bytes(&self) -> &[u8]
        ensures bytes { result.now ≡ D.bytes self.now.store }
        ensures accepted { IsAccepted (dyn_format self.now H.hash) (D.bytes self.now.store) }
        ensures long { 32 ≤ length result.now }
    {
        self.store.bytes()
    }

    /// Returns the store, with the bytes as they are now. Their header and length fit.
    #[inline]
    pub fn into_data(self) -> D
        ensures store { result ≡ self.store }
        ensures accepted { IsAccepted (dyn_format self H.hash) (D.bytes result) }
    {
        let DynTable { store, .. } = self;
        store
    }

    /// Returns the parts of the table. To look up many keys, call this once.
    #[inline]
    pub fn as_dynamic(&self) -> DynRawTable<'_, H>
        ensures parts { result ≡ dyn_parts self.now H.hash (D.bytes self.now.store) }
        ensures on_valid { HasParts (dyn_format self.now H.hash) (D.bytes self.now.store) }
        ensures format { IsFormat (dyn_format self.now H.hash) }
        ensures few { result.parts.entries.slots ≤ usize.MAX }
    {
        dynamic_parts::<H>(self.store.bytes(), self.layout)
    }
}
