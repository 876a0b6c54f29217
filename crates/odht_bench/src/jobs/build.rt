//! A compiler writes an index: from a list whose length is known, or pair by pair into a table
//! that grows.

use crate::digest::Digest;
use crate::random::{Random, Sample, items};
use crate::stopped::Stopped;
use odht::bytes::BorrowedMut;
use odht::config::Config;
use odht::configs::{Bytes16ToU32, Bytes20ToU64, Bytes32Set, U64ToU32, U64ToU64};
use odht::{HashTable, HashTableOwned, bytes_needed};
use std::alloc::Global;

/// A round: tables of numbers of the largest size, ten times as many of a tenth of it and thirty
/// of a hundredth, and tables of hashes.
pub fn round(
    alloc: Global,
    largest: usize,
    random: &mut Random,
    digest: &mut Digest,
) -> Result<(), Stopped> {
    each_way::<U64ToU32>(alloc, largest, random, digest)?;
    for _ in 0..10 {
        each_way::<U64ToU32>(alloc, largest / 10, random, digest)?;
    }
    for _ in 0..30 {
        each_way::<U64ToU64>(alloc, largest / 100, random, digest)?;
    }
    for _ in 0..4 {
        each_way::<Bytes16ToU32>(alloc, largest / 10, random, digest)?;
        each_way::<Bytes20ToU64>(alloc, largest / 20, random, digest)?;
        each_way::<Bytes32Set>(alloc, largest / 20, random, digest)?;
    }
    Ok(())
}

// Tables of so many pairs, each made in its own way of pairs of its own.
fn each_way<C: Config>(
    alloc: Global,
    count: usize,
    random: &mut Random,
    digest: &mut Digest,
) -> Result<(), Stopped>
where
    C::Key: Sample,
    C::Value: Sample,
{
    one_by_one::<C>(alloc, count, random, digest)?;
    by_lists::<C>(alloc, count, random, digest)?;
    presized::<C>(alloc, count, random, digest)?;
    collected::<C>(alloc, count, random, digest)?;
    in_place::<C>(alloc, count, random, digest)
}

// Into a table that grows, one insert after the other.
fn one_by_one<C: Config>(
    alloc: Global,
    count: usize,
    random: &mut Random,
    digest: &mut Digest,
) -> Result<(), Stopped>
where
    C::Key: Sample,
    C::Value: Sample,
{
    let pairs: Vec<(C::Key, C::Value)> = items(alloc, count, random)?;
    let mut table: HashTableOwned<C> = HashTableOwned::default(alloc)?;
    for (key, value) in pairs.as_slice() {
        digest.holds(table.insert(key, value)?.is_some());
    }
    digest.bytes(table.raw_bytes());
    Ok(())
}

// Into a table that grows, as a list.
fn by_lists<C: Config>(
    alloc: Global,
    count: usize,
    random: &mut Random,
    digest: &mut Digest,
) -> Result<(), Stopped>
where
    C::Key: Sample,
    C::Value: Sample,
{
    let pairs: Vec<(C::Key, C::Value)> = items(alloc, count, random)?;
    let mut table: HashTableOwned<C> = HashTableOwned::default(alloc)?;
    digest.size(table.insert_all(pairs.as_slice()).0);
    digest.bytes(table.raw_bytes());
    Ok(())
}

// Into a table that is made for as many, as a list.
fn presized<C: Config>(
    alloc: Global,
    count: usize,
    random: &mut Random,
    digest: &mut Digest,
) -> Result<(), Stopped>
where
    C::Key: Sample,
    C::Value: Sample,
{
    let pairs: Vec<(C::Key, C::Value)> = items(alloc, count, random)?;
    let mut table: HashTableOwned<C> = HashTableOwned::with_capacity(alloc, count, 87)?;
    digest.size(table.insert_all(pairs.as_slice()).0);
    digest.bytes(table.raw_bytes());
    Ok(())
}

// From an iterator.
fn collected<C: Config>(
    alloc: Global,
    count: usize,
    random: &mut Random,
    digest: &mut Digest,
) -> Result<(), Stopped>
where
    C::Key: Sample,
    C::Value: Sample,
{
    let pairs: Vec<(C::Key, C::Value)> = items(alloc, count, random)?;
    let table: HashTableOwned<C> = HashTableOwned::from_iterator(
        alloc,
        pairs.as_slice().iter().copied(),
        95,
    )?;
    digest.bytes(table.raw_bytes());
    Ok(())
}

// In bytes of the caller's, one insert after the other, and then each pair once more with another
// value.
fn in_place<C: Config>(
    alloc: Global,
    count: usize,
    random: &mut Random,
    digest: &mut Digest,
) -> Result<(), Stopped>
where
    C::Key: Sample,
    C::Value: Sample,
{
    let pairs: Vec<(C::Key, C::Value)> = items(alloc, count, random)?;
    let len = bytes_needed::<C>(count, 87).ok_or(Stopped::Refused)?;
    let mut bytes = vec![in alloc; 0; len]?;
    let store = BorrowedMut::new(bytes.as_mut_slice());
    let mut table: HashTable<C, BorrowedMut<'_>> = HashTable::init_in_place(store, count, 87)?;
    for (key, value) in pairs.as_slice() {
        digest.holds(table.insert(key, value)?.is_some());
    }
    for (key, _) in pairs.as_slice() {
        digest.holds(table.insert(key, &C::Value::sample(random))?.is_some());
    }
    digest.bytes(table.raw_bytes());
    Ok(())
}
