//! New tables, and those that dynamic tables grow into. The lengths of keys and values are types
//! or numbers.
ghost use Rattle.std.specs.Prelude.{◌≡◌, ◌≤◌, length, IfOk, OnErr, OnOk};
ghost use Rattle.std.specs.Result.{result_err};
ghost use Rattle.odht_raw.specs.Words.{factor_of, format_of};
ghost use Rattle.odht_base.specs.Insert.{grown_slots};
ghost use Rattle.odht_base.specs.Load.{IsPercent};
ghost use Rattle.odht_header.specs.Refusals.{new_refusal};
ghost use Rattle.odht_raw.specs.DynParts.{bytes_coding};
ghost use Rattle.odht_raw.specs.Frame.{IsAccepted};
ghost use Rattle.odht.specs.Dynamic.{dyn_format, dyn_new_refusal};
ghost use Rattle.odht.specs.Growths.{grown_len, table_len, HasGrownLen, IsGrownFrom};
ghost use Rattle.odht.specs.Inserts.{IsFresh};
ghost use Rattle.odht.specs.NewTables.{FailsAsNew, new_len};
ghost use Rattle.odht.specs.Tables.{OfTable};

use crate::bytes::{ByteStore, ByteStoreMut};
use crate::dynamic::{DynError, DynTable, check_key_len};
use crate::error::Error;
use crate::growth::{grow_parts, grown_len_of};
use crate::hash::HashFn;
use crate::layout::{Layout, Lengths};
use crate::load::Factor;
use crate::memory_layout::{init_parts, write_empty};
use std::alloc::Global;

/// Makes an empty table of these lengths for `max_item_count` items in a store, over any bytes that
/// are there. The errors are `Capacity` and `InitLength`, and leave the store as it was.
pub(crate) fn init_bytes<L: Lengths, H: HashFn, D: ByteStoreMut>(
    lengths: L,
    store: &mut D,
    max_item_count: usize,
    max_load_factor_percent: u8,
) -> Result<(), Error>
    requires percent { IsPercent max_load_factor_percent }
    requires key { L.key_len lengths ≤ 255 }
    requires value { L.value_len lengths ≤ 255 }
    ensures ok { let F = format_of (L.key_len lengths) (L.value_len lengths) H.hash
        in OnOk result (IsFresh F max_item_count max_load_factor_percent (D.bytes store.new)) }
    ensures accepted { let F = format_of (L.key_len lengths) (L.value_len lengths) H.hash
        in OnOk result (IsAccepted F (D.bytes store.new)) }
    ensures err { let F = format_of (L.key_len lengths) (L.value_len lengths) H.hash
        in let f = factor_of max_load_factor_percent
        in result_err result ≡ new_refusal F max_item_count f (length (D.bytes store.old)) }
    ensures refused { OnErr result (store.new ≡ store.old) }
    ensures same_store { store.new ≡ D.holding store.old (D.bytes store.new) }
{
    let factor = Factor::from_percent(max_load_factor_percent);
    let layout = Layout::of_lengths(lengths);
    let Some((slot_count, expected)) = layout.table_for(max_item_count, factor) else {
        return Err(Error::Capacity);
    };
    let found = store.bytes().len();
    if found != expected {
        return Err(Error::InitLength { found, expected });
    }
    init_parts(store.bytes_mut(), lengths, slot_count, 0, factor);
    Ok(())
}

/// The bytes of such a table in new memory. The errors are `Capacity`, and `Memory` where the
/// allocator gives none.
pub(crate) fn new_bytes<L: Lengths, H: HashFn>(
    alloc: Global,
    lengths: L,
    max_item_count: usize,
    max_load_factor_percent: u8,
) -> Result<Vec<u8>, Error>
    requires percent { IsPercent max_load_factor_percent }
    requires key { L.key_len lengths ≤ 255 }
    requires value { L.value_len lengths ≤ 255 }
    ensures ok { let F = format_of (L.key_len lengths) (L.value_len lengths) H.hash
        in IfOk result (λ v. IsFresh F max_item_count max_load_factor_percent v.items) }
    ensures err { let c = bytes_coding (format_of (L.key_len lengths) (L.value_len lengths) H.hash)
        in FailsAsNew c max_item_count (factor_of max_load_factor_percent) result }
{
    let factor = Factor::from_percent(max_load_factor_percent);
    let layout = Layout::of_lengths(lengths);
    let Some((slot_count, len)) = layout.table_for(max_item_count, factor) else {
        return Err(Error::Capacity);
    };
    let Ok(mut bytes) = vec![in alloc; 0; len] else {
        return Err(Error::Memory);
    };
    write_empty(bytes.as_mut_slice(), lengths, slot_count, 0, factor);
    Ok(bytes)
}

impl<H: HashFn, D: ByteStore> DynTable<H, D> {
    /// Returns the length in bytes of the table that this one grows into, like
    /// [`HashTable::grown_len`](crate::hash_table::HashTable::grown_len).
    pub fn grown_len(&self) -> Option<usize>
        ensures by_header { result
            ≡ grown_len (dyn_format self.now H.hash) (D.bytes self.now.store) }
        ensures on_valid { let F = dyn_format self.now H.hash
            in OfTable F (D.bytes self.now.store) (λ P. result ≡ table_len F (grown_slots P)) }
    {
        grown_len_of::<Layout, H>(self.raw_bytes(), self.layout())
    }

    /// Writes the table that this one grows into to `out`, over any bytes that are there, like
    /// [`HashTable::grow_into`](crate::hash_table::HashTable::grow_into). `out` must have
    /// [`DynTable::grown_len`] bytes.
    pub fn grow_into(&self, out: &mut [u8])
        requires { HasGrownLen (dyn_format self.now H.hash) (D.bytes self.now.store) out.old }
        ensures { IsGrownFrom (dyn_format self.now H.hash) (D.bytes self.now.store) out.new }
    {
        grow_parts::<Layout, H>(self.raw_bytes(), self.layout(), out);
    }

    /// Returns the length in bytes of a new table with these lengths for `max_item_count` items, like
    /// [`bytes_needed`](crate::hash_table::bytes_needed) of a typed table.
    pub fn bytes_needed(
        layout: Layout,
        max_item_count: usize,
        max_load_factor_percent: u8,
    ) -> Option<usize>
        requires percent { IsPercent max_load_factor_percent }
        ensures { let c = bytes_coding (format_of layout.key_len layout.value_len H.hash)
            in result ≡ new_len c max_item_count max_load_factor_percent }
    {
        let factor = Factor::from_percent(max_load_factor_percent);
        let (_, len) = layout.table_for(max_item_count, factor)?;
        Some(len)
    }
}

impl<H: HashFn, D: ByteStoreMut> DynTable<H, D> {
    /// Makes an empty table with these key and value lengths in a store, like
    /// [`HashTable::init_store`](crate::hash_table::HashTable::init_store). The error is `KeyTooShort` if the hash function needs longer keys. Otherwise
    /// it is `Rejected` with the error of that call. If there is none,
    /// [`DynTable::open_unchecked`] accepts the store.
    pub fn init_store(
        layout: Layout,
        store: &mut D,
        max_item_count: usize,
        max_load_factor_percent: u8,
    ) -> Result<(), DynError>
        requires percent { IsPercent max_load_factor_percent }
        ensures ok { let F = format_of layout.key_len layout.value_len H.hash
            in OnOk result (IsFresh F max_item_count max_load_factor_percent (D.bytes store.new)) }
        ensures accepted { let F = format_of layout.key_len layout.value_len H.hash
            in OnOk result (IsAccepted F (D.bytes store.new)) }
        ensures hashes { OnOk result (H.MIN_LEN ≤ layout.key_len) }
        ensures err { let F = format_of layout.key_len layout.value_len H.hash
            in let f = factor_of max_load_factor_percent
            in result_err result
            ≡ dyn_new_refusal H.MIN_LEN F max_item_count f (length (D.bytes store.old)) }
        ensures refused { OnErr result (store.new ≡ store.old) }
        ensures same_store { store.new ≡ D.holding store.old (D.bytes store.new) }
    {
        check_key_len::<H>(layout)?;
        match init_bytes::<Layout, H, D>(layout, store, max_item_count, max_load_factor_percent) {
            Ok(()) => Ok(()),
            Err(rejected) => Err(DynError::Rejected(rejected)),
        }
    }
}
