//! A build tool reads an index: single lookups of present and absent keys, and lists of them.

use crate::digest::Digest;
use crate::jobs::lookup::long::LongNames;
use crate::random::{Random, Sample, items, keys, keys_in_other_order};
use crate::stopped::Stopped;
use odht::bytes::Borrowed;
use odht::config::Config;
use odht::configs::{Bytes16ToU32, Bytes20ToU64, Bytes32ToU64, Plain, U64ToU32};
use odht::{HashTable, HashTableOwned};
use std::alloc::Global;

mod long;

/// Names of 64 bytes, and numbers.
type Names = Plain<[u8; 64], [u8; 4]>;

/// A value that tells itself to a digest.
pub trait Told: Sample {
    /// Adds the value.
    fn tell(&self, digest: &mut Digest);
}

impl Told for u32 {
    #[inline(always)]
    fn tell(&self, digest: &mut Digest) {
        digest.number(*self as u64);
    }
}

impl Told for u64 {
    #[inline(always)]
    fn tell(&self, digest: &mut Digest) {
        digest.number(*self);
    }
}

impl Told for [u8; 4] {
    #[inline(always)]
    fn tell(&self, digest: &mut Digest) {
        digest.number(u32::from_le_bytes(*self) as u64);
    }
}

/// A round: tables of numbers of the largest size, ten times as many of a tenth of it and thirty
/// of a hundredth, and tables of longer keys.
pub fn round(
    alloc: Global,
    largest: usize,
    random: &mut Random,
    digest: &mut Digest,
) -> Result<(), Stopped> {
    table::<U64ToU32>(alloc, largest, random, digest)?;
    for _ in 0..10 {
        table::<U64ToU32>(alloc, largest / 10, random, digest)?;
    }
    for _ in 0..30 {
        table::<U64ToU32>(alloc, largest / 100, random, digest)?;
    }
    for _ in 0..10 {
        table::<Bytes16ToU32>(alloc, largest / 50, random, digest)?;
        table::<Bytes20ToU64>(alloc, largest / 50, random, digest)?;
        table::<Bytes32ToU64>(alloc, largest / 50, random, digest)?;
        table::<Names>(alloc, largest / 50, random, digest)?;
        table::<LongNames>(alloc, largest / 100, random, digest)?;
    }
    Ok(())
}

// Looks up each key of a table of so many pairs, in another order than that of their inserts, and
// as many absent ones.
fn table<C: Config>(
    alloc: Global,
    count: usize,
    random: &mut Random,
    digest: &mut Digest,
) -> Result<(), Stopped>
where
    C::Key: Sample,
    C::Value: Told,
{
    let pairs: Vec<(C::Key, C::Value)> = items(alloc, count, random)?;
    let mut table: HashTableOwned<C> = HashTableOwned::with_capacity(alloc, count, 87)?;
    table.insert_all(pairs.as_slice()).1?;
    let present = keys_in_other_order(alloc, pairs.as_slice())?;
    let absent: Vec<C::Key> = keys(alloc, count, random)?;
    in_turn(&table, present.as_slice(), digest);
    in_turn(&table, absent.as_slice(), digest);
    in_lists(alloc, &table, present.as_slice(), digest)?;
    in_lists(alloc, &table, absent.as_slice(), digest)?;
    in_view::<C>(table.raw_bytes(), present.as_slice(), digest)?;
    in_view::<C>(table.raw_bytes(), absent.as_slice(), digest)
}

// Looks up the keys one by one.
fn in_turn<C: Config>(table: &HashTableOwned<C>, keys: &[C::Key], digest: &mut Digest)
where
    C::Value: Told,
{
    for key in keys {
        match table.get(key) {
            Some(value) => value.tell(digest),
            None => digest.number(0),
        }
    }
}

// Looks up the keys as one list.
fn in_lists<C: Config>(
    alloc: Global,
    table: &HashTableOwned<C>,
    keys: &[C::Key],
    digest: &mut Digest,
) -> Result<(), Stopped>
where
    C::Value: Told,
{
    let mut values: Vec<Option<C::Value>> = vec![in alloc; None; keys.len()]?;
    table.get_all(keys, values.as_mut_slice());
    for value in values.as_slice() {
        match value {
            Some(value) => value.tell(digest),
            None => digest.number(0),
        }
    }
    Ok(())
}

// Opens the bytes, and asks of each key whether it is there.
fn in_view<C: Config>(bytes: &[u8], keys: &[C::Key], digest: &mut Digest) -> Result<(), Stopped> {
    let view: HashTable<C, Borrowed<'_>> = HashTable::from_raw_bytes(Borrowed::new(bytes))?;
    for key in keys {
        digest.holds(view.contains_key(key));
    }
    Ok(())
}
