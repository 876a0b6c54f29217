//! An index from path hashes of 16 bytes to numbers, as bytes that are stored, mapped and searched
//! in place.
//!
//! Its proofs use only the public contracts of `odht`. It is the worked example for a [`Config`]
//! of your own.
#![tactic(auto)]

ghost use Rattle.std.specs.Prelude.{◌≡◌, ◌↔◌, ◌⊎◌, length, IfOk, IfSome, IsOk, OnErr};
ghost use Rattle.std.specs.Int.{w32, to_le_bytes, from_le_bytes};
ghost use Rattle.std.specs.Result.{result_err};
ghost use Rattle.std.proofs.Common.{lit≤};
ghost use Rattle.odht_base.specs.Load.{factor_of};
ghost use Rattle.odht_base.specs.Table.{Table};
ghost use Rattle.odht_base.specs.Valid.{IsImage};
ghost use Rattle.odht_header.specs.Coding.{value_for, HasStored};
ghost use Rattle.odht_header.specs.Refusals.{IsTooLarge, view_refusal};
ghost use Rattle.odht.specs.Lists.{IsFreshAfterInserts};
ghost use Rattle.odht.specs.LastValues.{HasLastValues, IsLastValue};

use odht::bytes::Borrowed;
use odht::config::{Coded, Config, Lossless};
use odht::error::Error;
use odht::{HashTable, HashTableOwned, UnHashFn, laws};
use std::alloc::Global;
use std::marker::Model;

/// From a path's hash to its number. The key is a hash already, so the hash function reads its
/// bytes as they are.
pub struct IndexConfig;

impl Config for IndexConfig {
    type Key = [u8; 16];

    type Value = u32;

    // What a slot's entry holds: arrays of bytes, which are the same on every platform.
    type EncodedKey = [u8; 16];

    type EncodedValue = [u8; 4];

    type H = UnHashFn;

    // Each of these four says what the function of its name returns, as a value that contracts can
    // name. The bytes of a path are the path itself; those of a number are its four bytes,
    // little-endian.
    ghost encode_key = { λ path. path };

    ghost encode_value = { to_le_bytes w32 };

    ghost decode_key = { λ path. path };

    ghost decode_value = { from_le_bytes w32 };

    #[inline]
    fn encode_key(path: &[u8; 16]) -> [u8; 16] {
        *path
    }

    #[inline]
    fn encode_value(number: &u32) -> [u8; 4] {
        number.to_le_bytes()
    }

    // Both decodings accept any bytes: those of a file are untrusted.
    #[inline]
    fn decode_key(path: &[u8; 16]) -> [u8; 16] {
        *path
    }

    #[inline]
    fn decode_value(number: &[u8; 4]) -> u32 {
        u32::from_le_bytes(*number)
    }

    // A law: the key's length fits its byte of the header. 16 is at most 255, by computing.
    ghost key_fits = { lit≤ tt };

    // The same law of the value's length: 4 is at most 255.
    ghost value_fits = { lit≤ tt };

    // A law: the key is long enough for its hash function. `UnHashFn` reads four bytes, and 4 is
    // at most 16.
    ghost key_hashes = { lit≤ tt };
}

// Two laws: decoding undoes encoding, at a given path and at a given number. So a table is a map
// from the paths to the numbers themselves. The bytes of a path are the path; a number that is
// read is known to fit its four bytes.
impl Lossless for IndexConfig {
    fn key_kept(_path: &[u8; 16]) {}

    fn value_kept(number: &u32) {
        let _number = *number;
    }
}

/// The bytes of an index of the pairs, to be stored. The load factor is 87 percent of the slots. A
/// path that comes again gets its later number.
///
/// `Capacity` exactly where no slot count is enough for that many pairs, or its length passes
/// `usize`; `Memory` where the allocator gives none. Each pair is hashed once, the table never
/// grows, and its bytes are copied once.
pub fn build(alloc: Global, pairs: &[([u8; 16], u32)]) -> Result<Vec<u8>, Error>
    ensures inserted { let c = ⟦<IndexConfig as Coded>⟧.coding
        in IfOk result (λ bytes. IsFreshAfterInserts c 87 pairs.now bytes.items) }
    ensures last_numbers { let c = ⟦<IndexConfig as Coded>⟧.coding
        in IfOk result (λ bytes. HasLastValues c pairs.now bytes.items) }
    ensures capacity { let F = ⟦<IndexConfig as Coded>⟧.coding.format
        in (result ≡ Err Error.Capacity) ↔ IsTooLarge F (length pairs.now) (factor_of 87) }
    ensures memory { OnErr result ((result ≡ Err Error.Capacity) ⊎ (result ≡ Err Error.Memory)) }
{
    let mut table = HashTableOwned::<IndexConfig>::with_capacity(alloc, pairs.len(), 87)?;
    table.insert_all(pairs).1?;
    Ok(table.raw_bytes().to_vec(alloc)?)
}

/// An index over borrowed bytes. A contract speaks of it as of these bytes.
#[derive(Drop)]
pub struct Index<'a> {
    table: HashTable<IndexConfig, Borrowed<'a>>,
}

impl<'a> Model for Index<'a> {
    ghost use Rattle.std.specs.Prelude.{ℕ, List};

    ghost Value = { List ℕ };

    ghost view = { λ index. index.table.0.now };
}

impl<'a> Index<'a> {
    /// Opens the bytes, which are checked and not copied, or returns the first error: of too few
    /// bytes, of the header, of the length, of the first ten slots. Nothing else is checked. The
    /// bytes of a valid table, as [`build`] returns them, are never rejected. docs/FORMAT.md,
    /// "What is rejected, and in which order", has the order.
    #[inline]
    pub fn open(bytes: &'a [u8]) -> Result<Self, Error>
        ensures ok { IfOk result (λ index. index ≡ bytes.now) }
        ensures err { result_err result ≡ view_refusal ⟦<IndexConfig as Coded>⟧.coding.format
            bytes.now }
        ensures valid { (P : Table) → IsImage ⟦<IndexConfig as Coded>⟧.coding.format P bytes.now
            → IsOk result }
    {
        let table = HashTable::from_raw_bytes(Borrowed::new(bytes))?;
        Ok(Index { table })
    }

    /// The number of a path, or None. On bytes that were opened and are not valid it is a number
    /// that is stored with this very path, or None. [`HashTable::get_counted`] counts the groups
    /// of such a search.
    #[inline]
    pub fn lookup(&self, path: &[u8; 16]) -> Option<u32>
        ensures on_valid { let c = ⟦<IndexConfig as Coded>⟧.coding
            in (P : Table) → IsImage c.format P self.now → result ≡ value_for c P path.now }
        ensures on_any { let c = ⟦<IndexConfig as Coded>⟧.coding
            in IfSome result (λ number. HasStored c self.now path.now number) }
    {
        self.table.get(path)
    }
}

/// The law of these calls together: the number of a path in an index that is built of the pairs
/// and opened again is that of the last pair with this very path, and None where no pair has it.
///
/// Its errors are those of [`build`]. It costs what its calls cost.
pub fn built_and_looked_up(
    alloc: Global,
    pairs: &[([u8; 16], u32)],
    path: &[u8; 16],
) -> Result<Option<u32>, Error>
    ensures ok { IfOk result (λ number. IsLastValue pairs.now path.now number) }
    ensures capacity { let F = ⟦<IndexConfig as Coded>⟧.coding.format
        in (result ≡ Err Error.Capacity) ↔ IsTooLarge F (length pairs.now) (factor_of 87) }
    ensures memory { OnErr result ((result ≡ Err Error.Capacity) ⊎ (result ≡ Err Error.Memory)) }
{
    laws::keys_have_last_values::<IndexConfig>(pairs, path);
    let bytes = build(alloc, pairs)?;
    let index = Index::open(bytes.as_slice())?;
    Ok(index.lookup(path))
}
