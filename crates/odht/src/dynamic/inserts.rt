//! Inserts into a dynamic table, by one and in lists.
ghost use Rattle.std.specs.Prelude.{◌≡◌, None, IfSome, Err, OnErr, map};
ghost use Rattle.odht_raw.specs.Frame.{IsAccepted};
ghost use Rattle.odht.specs.Dynamic.{dyn_coding, dyn_format, dyn_store};
ghost use Rattle.odht.specs.DynFormers.{IsDynInsertInto, lengths_error};
ghost use Rattle.odht.specs.DynInserts.{IsDynInsert};
ghost use Rattle.odht.specs.DynLists.{length_error, IsDynList};

use super::{DynError, DynTable};
use crate::bytes::{ByteStore, ByteStoreMut};
use crate::error::Error;
use crate::hash::HashFn;
use crate::layout::Layout;
use crate::memory_layout::{insert_dynamic, insert_dynamic_into, insert_items_dynamic};
use crate::raw_table::ShortBytes;

impl<H: HashFn, D: ByteStore> DynTable<H, D> {
    // The error of a key or a value of another length than the table's, that of the key first.
    #[inline(always)]
    pub(super) fn wrong_length(&self, key: &[u8], value: &[u8]) -> Option<DynError>
        ensures { result ≡ length_error self.now (key.now, value.now) }
    {
        let Layout { key_len, value_len } = self.layout;
        if key.len() != key_len as usize {
            return Some(DynError::WrongKeyLength {
                expected: key_len,
                found: key.len(),
            });
        }
        if value.len() != value_len as usize {
            return Some(DynError::WrongValueLength {
                expected: value_len,
                found: value.len(),
            });
        }
        None
    }
}

impl<H: HashFn, D: ByteStoreMut> DynTable<H, D> {
    /// Inserts a pair, and returns the former value of the key: on valid bytes the table's value
    /// for the key. It allocates nothing.
    ///
    /// It returns the first error, and then nothing changes:
    ///
    /// - `WrongKeyLength` if the key has another length than the table's keys.
    /// - `WrongValueLength` if the value has another length than the table's values.
    /// - `Rejected` with `Full`, as [`HashTable::insert`](crate::hash_table::HashTable::insert)
    ///   returns it: on valid bytes exactly if the table is at its maximum and the key is absent.
    ///
    /// On bytes that are not valid no more changes than that call changes. The key is hashed once.
    /// [`DynTable::get_counted`] counts the groups that such a search reads.
    pub fn insert(&mut self, key: &[u8], value: &[u8]) -> Result<Option<ShortBytes>, DynError>
        ensures lengths { IfSome (length_error self.old (key.now, value.now))
            (λ e. result ≡ Err e) }
        ensures inserted { length_error self.old (key.now, value.now) ≡ None
            → IsDynInsert (dyn_coding self.old H.hash) (D.bytes self.old.store)
            key.now value.now result (D.bytes self.new.store) }
        ensures refused { OnErr result (self.new ≡ self.old) }
        ensures same_store { self.new ≡ dyn_store self.old.key_len self.old.value_len
            (D.holding self.old.store (D.bytes self.new.store)) }
        ensures accepted { IsAccepted (dyn_format self.new H.hash) (D.bytes self.new.store) }
    {
        if let Some(refused) = self.wrong_length(key, value) {
            return Err(refused);
        }
        match insert_dynamic::<H>(self.store.bytes_mut(), self.layout, key, value) {
            Ok(former) => Ok(former),
            Err(refused) => Err(DynError::Rejected(refused)),
        }
    }

    /// Inserts the items, keys and values, in their order, and stops at the first whose insert
    /// fails. Returns how many were accepted, and the error of the one that failed, as
    /// [`DynTable::insert`] returns it: `WrongKeyLength`, `WrongValueLength`, or `Rejected` with
    /// `Full`. The table is then as the accepted ones left it.
    ///
    /// It takes no memory. It costs what
    /// [`HashTable::insert_all`](crate::hash_table::HashTable::insert_all) costs: a search for each
    /// item, and the header is read and the item count written once.
    pub fn insert_all(&mut self, items: &[(&[u8], &[u8])]) -> (usize, Result<(), DynError>)
        ensures { let pairs = map (λ item. (item.0.now, item.1.now)) items.now
            in IsDynList H.hash D.bytes D.holding self.old self.new pairs result }
    {
        let accepted = insert_items_dynamic::<H>(self.store.bytes_mut(), self.layout, items);
        if accepted >= items.len() {
            return (accepted, Ok(()));
        }
        let (key, value) = items[accepted];
        let refused = match self.wrong_length(key, value) {
            Some(wrong) => wrong,
            None => DynError::Rejected(Error::Full),
        };
        (accepted, Err(refused))
    }

    /// Like [`DynTable::insert`], but writes the former value to `former`, and returns whether there
    /// is one. So no value passes through memory of its own. If `former` has another length than
    /// the table's values, the error is `WrongValueLength`, too. If the key has no value, and on an
    /// error, `former` is unchanged.
    #[inline(always)]
    pub fn insert_into(
        &mut self,
        key: &[u8],
        value: &[u8],
        former: &mut [u8],
    ) -> Result<bool, DynError>
        ensures lengths { IfSome (lengths_error self.old key.now value.now former.old)
            (λ e. result ≡ Err e) }
        ensures inserted { lengths_error self.old key.now value.now former.old ≡ None
            → IsDynInsertInto (dyn_coding self.old H.hash) (D.bytes self.old.store)
            key.now value.now former.old result (D.bytes self.new.store) former.new }
        ensures refused { OnErr result (self.new ≡ self.old) }
        ensures kept { OnErr result (former.new ≡ former.old) }
        ensures same_store { self.new ≡ dyn_store self.old.key_len self.old.value_len
            (D.holding self.old.store (D.bytes self.new.store)) }
        ensures accepted { IsAccepted (dyn_format self.new H.hash) (D.bytes self.new.store) }
    {
        if let Some(wrong) = self.wrong_length(key, value) {
            return Err(wrong);
        }
        if let Some(wrong) = self.wrong_length(key, former) {
            return Err(wrong);
        }
        let bytes = self.store.bytes_mut();
        match insert_dynamic_into::<H>(bytes, self.layout, key, value, former) {
            Ok(had) => Ok(had),
            Err(refused) => Err(DynError::Rejected(refused)),
        }
    }
}
