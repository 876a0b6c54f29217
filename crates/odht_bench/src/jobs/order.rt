//! Is a table one that inserts make: an order of inserts is looked for.

use crate::digest::Digest;
use crate::jobs::symbols::addresses;
use crate::random::{Random, items};
use crate::stopped::Stopped;
use odht::HashTableOwned;
use odht::configs::U64ToU64;
use std::alloc::Global;

/// A round: tables of random keys of the largest size, ten times as many of a tenth and fifty of a
/// hundredth of it, and tables of addresses.
pub fn round(
    alloc: Global,
    largest: usize,
    random: &mut Random,
    digest: &mut Digest,
) -> Result<(), Stopped> {
    numbers(alloc, largest, random, digest)?;
    for _ in 0..10 {
        numbers(alloc, largest / 10, random, digest)?;
    }
    for _ in 0..50 {
        numbers(alloc, largest / 100, random, digest)?;
    }
    for _ in 0..4 {
        let functions = addresses(alloc, largest / 10, 16, random)?;
        table(alloc, functions.as_slice(), digest)?;
    }
    let pages = addresses(alloc, largest / 250, 4096, random)?;
    table(alloc, pages.as_slice(), digest)
}

// A table of random keys.
fn numbers(
    alloc: Global,
    count: usize,
    random: &mut Random,
    digest: &mut Digest,
) -> Result<(), Stopped> {
    let pairs: Vec<(u64, u64)> = items(alloc, count, random)?;
    table(alloc, pairs.as_slice(), digest)
}

// Looks for an order of inserts that makes the table of these pairs.
fn table(alloc: Global, pairs: &[(u64, u64)], digest: &mut Digest) -> Result<(), Stopped> {
    let mut table: HashTableOwned<U64ToU64> = HashTableOwned::with_capacity(
        alloc,
        pairs.len(),
        87,
    )?;
    table.insert_all(pairs).1?;
    let mut order = vec![in alloc; 0; table.len()]?;
    digest.holds(table.insert_order(order.as_mut_slice()));
    for slot in order.as_slice() {
        digest.size(*slot);
    }
    Ok(())
}
