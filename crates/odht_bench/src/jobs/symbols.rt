//! The symbols of a library by address. Addresses share their low bits, so that few slots are
//! homes, and searches are long.

use crate::digest::Digest;
use crate::random::{Random, keys_in_other_order};
use crate::stopped::Stopped;
use odht::HashTableOwned;
use odht::configs::U64ToU64;
use std::alloc::Global;

/// A round: ten tables of a tenth of the largest number of functions, and one of a fiftieth of it
/// of pages.
pub fn round(
    alloc: Global,
    largest: usize,
    random: &mut Random,
    digest: &mut Digest,
) -> Result<(), Stopped> {
    for _ in 0..10 {
        let functions = addresses(alloc, largest / 10, 16, random)?;
        table(alloc, functions.as_slice(), 8, digest)?;
    }
    let pages = addresses(alloc, largest / 50, 4096, random)?;
    table(alloc, pages.as_slice(), 2048, digest)
}

/// Addresses that rise by multiples of `unit`, from one up to eight of it, each with how far the
/// next one is.
pub fn addresses(
    alloc: Global,
    count: usize,
    unit: u64,
    random: &mut Random,
) -> Result<Vec<(u64, u64)>, Stopped> {
    let mut list = Vec::with_capacity(alloc, count)?;
    let mut address = (random.next() & 0xffff_ffff).wrapping_mul(4096);
    for _ in 0..count {
        let size = (random.next() & 7).wrapping_add(1).wrapping_mul(unit);
        list.push((address, size))?;
        address = address.wrapping_add(size);
    }
    Ok(list)
}

// Makes a table of the symbols, which grows, and looks up the address of each, one between it and
// the next one, and one that has as many low zeros and is behind all others.
fn table(
    alloc: Global,
    symbols: &[(u64, u64)],
    inside: u64,
    digest: &mut Digest,
) -> Result<(), Stopped> {
    let mut table: HashTableOwned<U64ToU64> = HashTableOwned::default(alloc)?;
    digest.size(table.insert_all(symbols).0);
    digest.bytes(table.raw_bytes());
    let addresses = keys_in_other_order(alloc, symbols)?;
    for address in addresses.as_slice() {
        tell(table.get(address), digest);
        tell(table.get(&address.wrapping_add(inside)), digest);
        tell(table.get(&address.wrapping_add(1 << 60)), digest);
    }
    let mut sizes = vec![in alloc; None; addresses.len()]?;
    table.get_all(addresses.as_slice(), sizes.as_mut_slice());
    for size in sizes.as_slice() {
        tell(*size, digest);
    }
    Ok(())
}

// Adds the size of a symbol, or that there is none.
fn tell(size: Option<u64>, digest: &mut Digest) {
    match size {
        Some(size) => digest.number(size),
        None => digest.number(0),
    }
}
