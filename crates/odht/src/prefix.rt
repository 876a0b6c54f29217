//! A table at the front of longer bytes.
ghost use Rattle.std.specs.Prelude.{◌≡◌, ◌++◌, ◌≤◌, List, ℕ, Ok, IfOk, IsOk};
ghost use Rattle.std.specs.Result.{result_err};
ghost use Rattle.odht_raw.specs.Words.{format_of, IsValidBytes, prefix_refusal};
ghost use Rattle.odht_raw.specs.Prefixes.{IsCut, IsFront, front_refusal};
ghost use Rattle.odht.specs.DynPrefixes.{IsDynCut, dyn_front_refusal, stated_front_refusal};
ghost use Rattle.odht.specs.Dynamic.{stated_format};

use crate::bytes::Borrowed;
use crate::config::{Coded, Config};
use crate::dynamic::{DynError, DynTable, check_key_len, stated_layout};
use crate::error::Error;
use crate::hash::HashFn;
use crate::hash_table::HashTable;
use crate::layout::Layout;
use crate::memory_layout::{self, dynamic_table_len};

/// How many bytes the table of these lengths at the front of `bytes` has, by its header. What
/// follows is not looked at, nor is any slot, and the hash function does not matter.
///
/// The first error: as [`memory_layout::table_len`] returns it. Constant time.
pub fn table_len(layout: Layout, bytes: &[u8]) -> Result<usize, Error>
    ensures ok { (hash : List ℕ → ℕ) → IfOk result
        (IsFront (format_of layout.key_len layout.value_len hash) bytes.now) }
    ensures only { (hash : List ℕ → ℕ) (n : ℕ)
        → IsFront (format_of layout.key_len layout.value_len hash) bytes.now n → result ≡ Ok n }
    ensures err { (hash : List ℕ → ℕ) → result_err result
        ≡ prefix_refusal (format_of layout.key_len layout.value_len hash) bytes.now }
{
    dynamic_table_len(bytes, layout)
}

impl<'a, C: Config> HashTable<C, Borrowed<'a>> {
    /// Opens the table at the front of `bytes`, and returns it with the bytes behind it, which are
    /// not looked at. How many bytes are the table's its header says, as
    /// [`memory_layout::table_len`].
    ///
    /// Or the first error: those of that call, then those of the first ten slots, as
    /// [`HashTable::from_raw_bytes`]. Valid bytes with anything behind them are always opened.
    /// Constant time.
    #[inline]
    pub fn from_prefix(bytes: &'a [u8]) -> Result<(Self, &'a [u8]), Error>
        ensures ok { IfOk result
            (λ r. IsCut ⟦<C as Coded>⟧.coding.format bytes.now r.0.0.now r.1.now) }
        ensures err { result_err result ≡ front_refusal ⟦<C as Coded>⟧.coding.format bytes.now }
        ensures valid { (table rest : List ℕ)
            → IsValidBytes ⟦<C as Coded>⟧.coding.format table → bytes.now ≡ table ++ rest
            → IsOk result }
    {
        let len = memory_layout::table_len::<C>(bytes)?;
        let (front, rest) = bytes.split_at(len);
        let table = HashTable::from_raw_bytes(Borrowed::new(front))?;
        Ok((table, rest))
    }
}

impl<'a, H: HashFn> DynTable<H, Borrowed<'a>> {
    /// Like [`HashTable::from_prefix`], with these lengths. The first error is `KeyTooShort` if the
    /// hash function needs longer keys. Otherwise it is `Rejected` with the error of that call.
    pub fn from_prefix(layout: Layout, bytes: &'a [u8]) -> Result<(Self, &'a [u8]), DynError>
        ensures ok { let F = format_of layout.key_len layout.value_len H.hash
            in IfOk result (λ r. IsDynCut F bytes.now r.0 r.0.store.0.now r.1.now) }
        ensures err { let F = format_of layout.key_len layout.value_len H.hash
            in result_err result ≡ dyn_front_refusal H.MIN_LEN F bytes.now }
        ensures valid { let F = format_of layout.key_len layout.value_len H.hash
            in (table rest : List ℕ) → H.MIN_LEN ≤ layout.key_len
            → IsValidBytes F table → bytes.now ≡ table ++ rest → IsOk result }
    {
        check_key_len::<H>(layout)?;
        match table_len(layout, bytes) {
            Ok(len) => DynTable::open_front(layout, bytes, len),
            Err(rejected) => Err(DynError::Rejected(rejected)),
        }
    }

    /// [`DynTable::from_prefix`] with the lengths that the header states; [`DynTable::layout`]
    /// tells them.
    ///
    /// The first error: `Rejected` with those of [`table_len`]; then `KeyTooShort`; then
    /// `Rejected` with that of the first ten slots. A header states no hash function: a table of
    /// another one is rejected where one of the first ten slots is occupied and has another tag.
    pub fn from_prefix_as_stated(bytes: &'a [u8]) -> Result<(Self, &'a [u8]), DynError>
        ensures ok { let F = stated_format H.hash bytes.now
            in IfOk result (λ r. IsDynCut F bytes.now r.0 r.0.store.0.now r.1.now) }
        ensures err { result_err result ≡ stated_front_refusal H.MIN_LEN H.hash bytes.now }
        ensures valid { (key_len value_len : ℕ) (table rest : List ℕ) → H.MIN_LEN ≤ key_len
            → IsValidBytes (format_of key_len value_len H.hash) table
            → bytes.now ≡ table ++ rest → IsOk result }
    {
        let layout = stated_layout(bytes)?;
        match table_len(layout, bytes) {
            Ok(len) => DynTable::open_front(layout, bytes, len),
            Err(rejected) => Err(DynError::Rejected(rejected)),
        }
    }

    // Opens the table that ends at an index, and returns it with the bytes behind it.
    fn open_front(layout: Layout, bytes: &'a [u8], end: usize) -> Result<(Self, &'a [u8]), DynError>
        requires { IsFront (format_of layout.key_len layout.value_len H.hash) bytes.now end }
        ensures ok { let F = format_of layout.key_len layout.value_len H.hash
            in IfOk result (λ r. IsDynCut F bytes.now r.0 r.0.store.0.now r.1.now) }
        ensures err { let F = format_of layout.key_len layout.value_len H.hash
            in result_err result ≡ dyn_front_refusal H.MIN_LEN F bytes.now }
    {
        let (front, rest) = bytes.split_at(end);
        let table = DynTable::open(layout, Borrowed::new(front))?;
        Ok((table, rest))
    }
}
