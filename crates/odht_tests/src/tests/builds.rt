//! Tables built slot by slot and with either group search.
ghost use Rattle.std.specs.Prelude.{◌≤◌};
ghost use Rattle.odht_base.specs.Load.{IsSlotCount};

use crate::tests::checks::{same_bytes, same_len};
use odht::bytes::{ByteArray, OwnedBytes};
use odht::error::Error;
use odht::hash::HashFn;
use odht::load::{Factor, slots_needed};
use odht::memory_layout::{self, Allocation, HEADER_SIZE, allocate};
use odht::raw_table::{Scan, Search, plain_insert, search};
use odht::swisstable_group_query::{Group, lanes, no_simd};
use odht::{Config, HashTableOwned};
use std::alloc::Global;
use std::process::Abort;

// The load factor of 87 percent.
fn factor(rt: &impl Abort) -> Factor
    ensures { 1 ≤ result.0 }
{
    let factor = Factor::from_percent(87);
    assert!(rt; factor.0 >= 1);
    factor
}

// The slot count of a new table for that many items.
fn slots_for(rt: &impl Abort, items: usize) -> usize
    ensures { IsSlotCount result }
{
    slots_needed(items, factor(rt)).expect(rt, "slots")
}

// Writes a pair slot by slot into the parts of a table of that many slots.
fn insert_plainly<C: Config>(
    rt: &impl Abort,
    slots: usize,
    bytes: &mut [u8],
    key: C::EncodedKey,
    value: C::EncodedValue,
)
    requires { IsSlotCount slots }
{
    let needed = memory_layout::bytes_needed::<C>(slots).expect(rt, "a length");
    same_len(rt, "bytes", bytes.len(), needed);
    let (table, control) = bytes.split_at_mut(memory_layout::entry_at::<C>(slots));
    let (_, entries) = table.split_at_mut(HEADER_SIZE);
    let inserted = plain_insert::<C::EncodedKey, C::EncodedValue, C::H>(
        control, entries, key, value,
    );
    assert!(rt; inserted.is_ok());
}

// The bytes of a new table for that many items.
fn empty_table<C: Config>(rt: &impl Abort, alloc: Global, items: usize) -> Vec<u8> {
    let made = HashTableOwned::<C>::with_capacity(alloc, items, 87);
    let table = made.expect(rt, "a table");
    table.raw_bytes().to_vec(alloc).expect(rt, "memory")
}

// The bytes of a new table after inserts of these pairs slot by slot, which leave its header.
fn built_plainly<C: Config>(
    rt: &impl Abort,
    alloc: Global,
    items: &[(C::EncodedKey, C::EncodedValue)],
) -> Vec<u8> {
    let slots = slots_for(rt, items.len());
    let mut bytes = empty_table::<C>(rt, alloc, items.len());
    for (key, value) in items {
        insert_plainly::<C>(rt, slots, bytes.as_mut_slice(), *key, *value);
    }
    bytes
}

// Writes a pair where the search with this group search ends.
fn insert_by<C: Config, Q: Group>(
    rt: &impl Abort,
    table: &mut Allocation<C, OwnedBytes>,
    key: &C::EncodedKey,
    value: &C::EncodedValue,
) {
    let tag = (C::H::hash(key.as_slice()) >> 25) as u8;
    let (control, entries) = table.data_slices();
    let mut scan = Scan::new(control, entries.len());
    match search::<C::EncodedKey, C::EncodedValue, C::H, Q>(&mut scan, &entries, key) {
        Search::Found(slot) => table.write_value(slot, value),
        Search::Free(slot) => table.write_entry(slot, key, value, tag),
        Search::Neither => panic!(rt; "no slot is free"),
    }
}

// A new table after inserts of these pairs with this group search, which leave its header.
fn built_by<C: Config, Q: Group>(
    rt: &impl Abort,
    alloc: Global,
    items: &[(C::EncodedKey, C::EncodedValue)],
) -> Allocation<C, OwnedBytes> {
    let slots = slots_for(rt, items.len());
    let made: Result<Allocation<C, OwnedBytes>, Error> = allocate(alloc, slots, 0, factor(rt));
    let mut table = made.expect(rt, "a table");
    for (key, value) in items {
        insert_by::<C, Q>(rt, &mut table, key, value);
    }
    table
}

/// Inserts slot by slot, with the search by a word and with the search by lanes leave the same
/// bytes.
pub fn check_three_builds<C: Config>(
    rt: &impl Abort,
    alloc: Global,
    items: &[(C::EncodedKey, C::EncodedValue)],
) {
    let plain = built_plainly::<C>(rt, alloc, items);
    let word = built_by::<C, no_simd::GroupQuery>(rt, alloc, items);
    same_bytes(rt, "by a word", word.raw_bytes(), plain.as_slice());
    let lanes = built_by::<C, lanes::GroupQuery>(rt, alloc, items);
    same_bytes(rt, "by lanes", lanes.raw_bytes(), plain.as_slice());
}
