//! A file from elsewhere is opened whole: each byte of it is checked. And many small tables inside
//! a larger file are opened.
ghost use Rattle.odht_base.specs.Load.{IsPercent};

use crate::digest::Digest;
use crate::jobs::symbols::addresses;
use crate::random::{Random, Sample, items};
use crate::stopped::Stopped;
use odht::bytes::Borrowed;
use odht::config::Config;
use odht::configs::{Bytes16ToU32, Bytes32Set, U64ToU32, U64ToU64};
use odht::memory_layout::{DEFAULT_GROUPS, check_all, check_all_within};
use odht::{HashTable, HashTableOwned};
use std::alloc::Global;

/// A round: tables of numbers of the largest size, of a tenth and a hundredth of it, at four load
/// factors, tables of hashes and of addresses, and a file of many small tables.
pub fn round(
    alloc: Global,
    largest: usize,
    random: &mut Random,
    digest: &mut Digest,
) -> Result<(), Stopped> {
    at_each_load::<U64ToU32>(alloc, largest, random, digest)?;
    for _ in 0..10 {
        at_each_load::<U64ToU32>(alloc, largest / 10, random, digest)?;
        at_each_load::<Bytes16ToU32>(alloc, largest / 20, random, digest)?;
        at_each_load::<Bytes32Set>(alloc, largest / 20, random, digest)?;
    }
    for _ in 0..50 {
        at_each_load::<U64ToU32>(alloc, largest / 100, random, digest)?;
    }
    let functions = addresses(alloc, largest / 10, 16, random)?;
    table::<U64ToU64>(alloc, functions.as_slice(), 87, digest)?;
    let pages = addresses(alloc, largest / 250, 4096, random)?;
    table::<U64ToU64>(alloc, pages.as_slice(), 87, digest)?;
    small_tables(alloc, largest / 100, random, digest)
}

// Tables of so many items, each for this number at its load factor.
fn at_each_load<C: Config>(
    alloc: Global,
    count: usize,
    random: &mut Random,
    digest: &mut Digest,
) -> Result<(), Stopped>
where
    C::Key: Sample,
    C::Value: Sample,
{
    let pairs: Vec<(C::Key, C::Value)> = items(alloc, count, random)?;
    table::<C>(alloc, pairs.as_slice(), 50, digest)?;
    table::<C>(alloc, pairs.as_slice(), 70, digest)?;
    table::<C>(alloc, pairs.as_slice(), 87, digest)?;
    table::<C>(alloc, pairs.as_slice(), 95, digest)
}

// Makes a table, opens its bytes whole in each way, walks over it, and copies it.
fn table<C: Config>(
    alloc: Global,
    pairs: &[(C::Key, C::Value)],
    percent: u8,
    digest: &mut Digest,
) -> Result<(), Stopped>
    requires { IsPercent percent }
{
    let mut table: HashTableOwned<C> = HashTableOwned::with_capacity(alloc, pairs.len(), percent)?;
    table.insert_all(pairs).1?;
    let bytes = table.raw_bytes();
    digest.holds(check_all::<C>(bytes).is_ok());
    digest.holds(check_all_within::<C>(bytes, DEFAULT_GROUPS).is_ok());
    let opened: HashTableOwned<C> = HashTableOwned::from_raw_bytes(alloc, bytes)?;
    digest.size(opened.iter().count());
    digest.bytes(opened.clone()?.raw_bytes());
    Ok(())
}

// A file of so many tables of sixteen slots and more, one behind the other. Each is opened and
// checked.
fn small_tables(
    alloc: Global,
    count: usize,
    random: &mut Random,
    digest: &mut Digest,
) -> Result<(), Stopped> {
    let mut file: Vec<u8> = Vec::new(alloc);
    for _ in 0..count {
        let items_here = (random.next() & 511) as usize;
        let pairs: Vec<(u64, u32)> = items(alloc, items_here, random)?;
        let table: HashTableOwned<U64ToU32> = HashTableOwned::from_iterator(
            alloc,
            pairs.as_slice().iter().copied(),
            87,
        )?;
        file.extend_from_slice(table.raw_bytes())?;
    }
    let mut rest = file.as_slice();
    for _ in 0..count {
        let opened: (HashTable<U64ToU32, Borrowed<'_>>, &[u8]) = HashTable::from_prefix(rest)?;
        let (table, after) = opened;
        digest.size(table.len());
        digest.holds(table.verify());
        for key in 0..4 {
            digest.holds(table.contains_key(&key));
        }
        rest = after;
    }
    Ok(())
}
