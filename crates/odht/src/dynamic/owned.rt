//! The table that owns its bytes and grows, with key and value lengths that are known only at run
//! time.
ghost use Rattle.std.specs.Prelude.{◌≡◌, ◌≢◌, ◌≤◌, ◌<◌, ◌↔◌, None, Some, All, length, IfOk, Err};
ghost use Rattle.std.specs.Prelude.{IsSome, IsTrue, IfSome, OnErr, OnOk};
ghost use Rattle.std.specs.Option.{option_copied};
ghost use Rattle.odht_raw.specs.Words.{check_refusal, count, encoded, factor_of, format_of};
ghost use Rattle.odht_raw.specs.Words.{groups_read, IsImage, IsValidBytes, map_of, walk};
ghost use Rattle.odht_base.specs.Load.{IsPercent};
ghost use Rattle.odht_base.specs.Table.{fresh};
ghost use Rattle.odht_raw.specs.DynParts.{HasLengthsOf, bytes_coding};
ghost use Rattle.odht.specs.Dynamic.{dyn_format, dyn_coding, dyn_store};
ghost use Rattle.odht.specs.DynOwned.{IsDynWith, IsRejecting};
ghost use Rattle.odht.specs.NewTables.{FailsAsNew, FailsBy};
ghost use Rattle.odht_base.specs.Insert.{insert_owned, IsFullFor};
ghost use Rattle.odht.specs.DynLists.{length_error};
ghost use Rattle.odht.specs.Plain.{HasMapWith, KeepsSize, IsPlainReserve};

use super::{DynError, DynTable, check_key_len};
use crate::bytes::OwnedBytes;
use crate::error::Error;
use crate::growth::{grown_bytes, room_for};
use crate::hash::HashFn;
use crate::layout::Layout;
use crate::memory_layout::{check_dynamic, check_opening};
use crate::new_tables::new_bytes;
use crate::raw_table::{DynIter, ShortBytes};
use std::alloc::Global;
use std::marker::Model;

/// A table that owns its bytes. The lengths of keys and values are given when it is created. It
/// grows when an absent key is inserted at the maximum. Its bytes are always valid.
///
/// A contract sees it as these lengths and the plain table whose image its bytes are.
#[derive(Drop)]
pub struct DynTableOwned<H: HashFn> {
    table: DynTable<H, OwnedBytes>,
    alloc: Global,
}

impl<H: HashFn> Model for DynTableOwned<H> {
    ghost use Rattle.odht_raw.specs.Words.{Table};
    ghost use Rattle.odht.specs.Dynamic.{DynStore, dyn_plain, IsDynImage};

    ghost Value = { DynStore Table };

    ghost view = { λ t. dyn_plain t.table H.hash };

    ghost invariant = { λ t. IsDynImage t.table H.hash };
}

impl<H: HashFn> DynTableOwned<H> {
    /// Creates an empty table with these key and value lengths, which takes at least
    /// `max_item_count` items before it grows, like
    /// [`with_capacity`](crate::hash_table_owned::HashTableOwned::with_capacity). The error is `KeyTooShort` if the hash function
    /// needs longer keys. Otherwise it is `Rejected` with the error of that call.
    pub fn with_capacity(
        alloc: Global,
        layout: Layout,
        max_item_count: usize,
        max_load_factor_percent: u8,
    ) -> Result<Self, DynError>
        requires percent { IsPercent max_load_factor_percent }
        ensures ok { IfOk result (IsDynWith layout.key_len layout.value_len
            (λ P. fresh max_item_count max_load_factor_percent ≡ Some P)) }
        ensures short { layout.key_len < H.MIN_LEN
            → result ≡ Err (DynError.KeyTooShort layout.key_len H.MIN_LEN) }
        ensures err { let c = bytes_coding (format_of layout.key_len layout.value_len H.hash)
            in H.MIN_LEN ≤ layout.key_len → IsRejecting
            (FailsAsNew c max_item_count (factor_of max_load_factor_percent)) result }
    {
        check_key_len::<H>(layout)?;
        match new_bytes::<Layout, H>(alloc, layout, max_item_count, max_load_factor_percent) {
            Ok(bytes) => {
                let table = DynTable::open_unchecked(layout, OwnedBytes::new(bytes));
                Ok(DynTableOwned { table, alloc })
            }
            Err(rejected) => Err(DynError::Rejected(rejected)),
        }
    }

    /// Checks all of the bytes as a table with these key and value lengths, and copies them, like
    /// [`from_raw_bytes`](crate::hash_table_owned::HashTableOwned::from_raw_bytes). The error is `KeyTooShort` if the hash function
    /// needs longer keys. Otherwise it is `Rejected` with the error of that call.
    pub fn from_raw_bytes(alloc: Global, layout: Layout, raw_bytes: &[u8]) -> Result<Self, DynError>
        ensures ok { let F = format_of layout.key_len layout.value_len H.hash
            in IfOk result (IsDynWith layout.key_len layout.value_len
            (λ P. IsImage F P raw_bytes.now)) }
        ensures short { layout.key_len < H.MIN_LEN
            → result ≡ Err (DynError.KeyTooShort layout.key_len H.MIN_LEN) }
        ensures err { let F = format_of layout.key_len layout.value_len H.hash
            in H.MIN_LEN ≤ layout.key_len → IsRejecting
            (FailsBy (check_refusal F raw_bytes.now)) result }
    {
        check_key_len::<H>(layout)?;
        if let Err(refused) = check_opening::<H>(raw_bytes, layout) {
            return Err(DynError::Rejected(refused));
        }
        if let Err(refused) = check_dynamic::<H>(raw_bytes, layout) {
            return Err(DynError::Rejected(refused));
        }
        let Ok(bytes) = raw_bytes.to_vec(alloc) else {
            return Err(DynError::Rejected(Error::Memory));
        };
        let table = DynTable::open_unchecked(layout, OwnedBytes::new(bytes));
        Ok(DynTableOwned { table, alloc })
    }

    /// The lengths of keys and values.
    #[inline]
    pub fn layout(&self) -> Layout
        ensures key { result.key_len ≡ self.now.key_len }
        ensures value { result.value_len ≡ self.now.value_len }
        ensures hashes { H.MIN_LEN ≤ result.key_len }
    {
        self.table.layout()
    }

    /// The table as one that does not grow.
    #[inline]
    pub fn as_view(&self) -> &DynTable<H, OwnedBytes>
        ensures { IsDynWith self.now.key_len self.now.value_len
            (IsImage (dyn_format self.now H.hash) self.now.store) result.now }
    {
        &self.table
    }

    /// Returns the value of a key, or `None`. It is the value of the key's last insert, or else the
    /// one in the bytes that were opened. A key of another length has no value.
    /// [`DynTableOwned::get_counted`] counts the groups that such a search reads.
    #[inline]
    pub fn get(&self, key: &[u8]) -> Option<&[u8]>
        ensures { option_copied result ≡ map_of self.now.store key.now }
    {
        self.table.get(key)
    }

    /// Like `get`, and also returns how many groups of control bytes it read, like
    /// [`DynTable::get_counted`].
    #[inline]
    pub fn get_counted(&self, key: &[u8]) -> (Option<&[u8]>, usize)
        ensures value { option_copied result.0 ≡ map_of self.now.store key.now }
        ensures groups { length key.now ≡ self.now.key_len
            → result.1 ≡ groups_read (dyn_format self.now H.hash) self.now.store.cells key.now }
        ensures other { length key.now ≢ self.now.key_len → result ≡ (None, 0) }
    {
        self.table.get_counted(key)
    }

    /// Whether the key has a value.
    #[inline]
    pub fn contains_key(&self, key: &[u8]) -> bool
        ensures { IsTrue result ↔ IsSome (map_of self.now.store key.now) }
    {
        self.table.contains_key(key)
    }

    /// Gives the key this value, and returns its former one, or None. At the maximum the table
    /// grows for a new key, like
    /// [`HashTableOwned::insert`](crate::hash_table_owned::HashTableOwned::insert). It returns the
    /// first error, and then nothing changes:
    ///
    /// - `WrongKeyLength` if the key has another length than the table's keys.
    /// - `WrongValueLength` if the value has another length than the table's values.
    /// - `Rejected` with the error of that call.
    pub fn insert(&mut self, key: &[u8], value: &[u8]) -> Result<Option<ShortBytes>, DynError>
        ensures former { IfOk result (λ former. former ≡ map_of self.old.store key.now) }
        ensures inserted { let c = dyn_coding self.old H.hash in OnOk result (insert_owned
            c.format self.old.store (encoded c key.now value.now) ≡ Some self.new.store) }
        ensures maps { let c = dyn_coding self.old H.hash in OnOk result
            (HasMapWith self.old.store (encoded c key.now value.now) self.new.store) }
        ensures stays { OnOk result (KeepsSize self.old.store 1 self.new.store) }
        ensures layout { self.new ≡ dyn_store self.old.key_len self.old.value_len self.new.store }
        // On failure.
        ensures lengths { IfSome (length_error self.old (key.now, value.now))
            (λ e. result ≡ Err e) }
        ensures full { length_error self.old (key.now, value.now) ≡ None → OnErr result
            ((result ≡ Err (DynError.Rejected Error.Memory)) × IsFullFor self.old.store key.now) }
        ensures refused { OnErr result (self.new ≡ self.old) }
    {
        match self.table.insert(key, value) {
            Ok(former) => Ok(former),
            // The table is at its maximum, and the key is absent.
            Err(DynError::Rejected(_)) => self.insert_grown(key, value),
            Err(refused) => Err(refused),
        }
    }

    // `insert` of an absent key of the table's length at the maximum: into the grown table.
    #[inline(never)]
    fn insert_grown(&mut self, key: &[u8], value: &[u8]) -> Result<Option<ShortBytes>, DynError>
        requires key { length key.now ≡ self.old.key_len }
        requires value { length value.now ≡ self.old.value_len }
        requires full { IsFullFor self.old.store key.now }
        ensures former { IfOk result (λ former. former ≡ map_of self.old.store key.now) }
        ensures inserted { let c = dyn_coding self.old H.hash in OnOk result (insert_owned
            c.format self.old.store (encoded c key.now value.now) ≡ Some self.new.store) }
        ensures maps { let c = dyn_coding self.old H.hash in OnOk result
            (HasMapWith self.old.store (encoded c key.now value.now) self.new.store) }
        ensures stays { OnOk result (KeepsSize self.old.store 1 self.new.store) }
        ensures layout { self.new ≡ dyn_store self.old.key_len self.old.value_len self.new.store }
        ensures memory { OnErr result (result ≡ Err (DynError.Rejected Error.Memory)) }
        ensures refused { OnErr result (self.new ≡ self.old) }
    {
        let layout = self.table.layout();
        let grown = grown_bytes::<Layout, H>(self.alloc, self.table.raw_bytes(), layout);
        let Some(bytes) = grown else {
            return Err(DynError::Rejected(Error::Memory));
        };
        let mut grown = DynTable::open_unchecked(layout, OwnedBytes::new(bytes));
        let former = grown.insert(key, value)?;
        self.table = grown;
        Ok(former)
    }

    /// Makes room for `additional` more items, like
    /// [`HashTableOwned::reserve`](crate::hash_table_owned::HashTableOwned::reserve). The error is
    /// `Rejected` with the error of that call, and then nothing changes.
    pub fn reserve(&mut self, additional: usize) -> Result<(), DynError>
        ensures reserved { let c = dyn_coding self.old H.hash in IsRejecting
            (λ r. IsPlainReserve c self.old.store additional r self.new.store) result }
        ensures refused { OnErr result (self.new ≡ self.old) }
        ensures layout { self.new ≡ dyn_store self.old.key_len self.old.value_len self.new.store }
    {
        let layout = self.table.layout();
        match room_for::<Layout, H>(self.alloc, self.table.raw_bytes(), layout, additional) {
            Ok(None) => Ok(()),
            Ok(Some(moved)) => {
                self.table = DynTable::open_unchecked(layout, OwnedBytes::new(moved));
                Ok(())
            }
            Err(refused) => Err(DynError::Rejected(refused)),
        }
    }

    /// The keys and values, each pair once, in slot order.
    #[inline]
    pub fn iter(&self) -> DynIter<'_, H>
        ensures pairs { result ≡ walk self.now.store }
        ensures lengths { All (HasLengthsOf self.now.key_len self.now.value_len) result }
        ensures few { length result ≤ usize.MAX }
    {
        self.table.iter()
    }

    /// How many items there are.
    #[inline]
    pub fn len(&self) -> usize
        ensures { result ≡ count self.now.store }
    {
        self.table.len()
    }

    /// All bytes. They are valid.
    #[inline]
    pub fn raw_bytes(&self) -> &[u8]
        ensures { IsImage (dyn_format self.now H.hash) self.now.store result.now }
    {
        self.table.raw_bytes()
    }

    /// Consumes the table, and returns its bytes without copying them. They are valid.
    #[inline]
    pub fn into_raw_bytes(self) -> Vec<u8>
        ensures { IsImage (dyn_format self H.hash) self.store result.items }
    {
        let DynTableOwned { table, alloc: _ } = self;
        table.into_data().into_vec()
    }
}
