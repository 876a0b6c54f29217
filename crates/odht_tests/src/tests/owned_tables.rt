//! Tables that own their bytes, with ample memory: growth, copies, and bytes that are rejected.
ghost use Rattle.std.specs.Prelude.{◌≤◌};

use crate::tests::checks::{holds_at, same_answer, same_at, same_len, same_value};
use crate::tests::slot_counts::slots_for;
use odht::bytes::OwnedBytes;
use odht::configs::U32ToU32;
use odht::error::Error;
use odht::load::Factor;
use odht::memory_layout::{Allocation, allocate};
use odht::raw_table::probe_order;
use odht::{Config, HashTableOwned};
use std::alloc::Global;
use std::process::Abort;

// A table of this capacity at 87 percent.
fn table_for<C: Config>(rt: &impl Abort, alloc: Global, capacity: usize) -> HashTableOwned<C> {
    HashTableOwned::with_capacity(alloc, capacity, 87).expect(rt, "a table")
}

// Inserts the keys from 0 to below `end`, each with its own number and 100 more as its value.
fn fill(rt: &impl Abort, table: &mut HashTableOwned<U32ToU32>, end: u32)
    requires { end ≤ 100 }
{
    for key in 0..end {
        same_answer(rt, key, table.insert(&key, &(key + 100)), Ok(None));
        same_len(rt, "items", table.len(), key as usize + 1);
    }
}

// Asserts the values that `fill` gives the keys from `start` to below `end`.
fn check_values(rt: &impl Abort, table: &HashTableOwned<U32ToU32>, start: u32, end: u32)
    requires { end ≤ 100 }
{
    for key in start..end {
        same_value(rt, key, table.get(&key), Some(key + 100));
        holds_at(rt, "key", key as usize, table.contains_key(&key));
    }
}

// Asserts that the keys from `start` to below `end` are absent.
fn check_absent(rt: &impl Abort, table: &HashTableOwned<U32ToU32>, start: u32, end: u32) {
    for key in start..end {
        same_value(rt, key, table.get(&key), None);
        holds_at(rt, "no key", key as usize, !table.contains_key(&key));
    }
}

// A byte of a new table of 16 slots at 87 percent, keys and values of four bytes: header, entries,
// control bytes.
fn byte_of_new_table(at: usize) -> u8 {
    match at {
        0 => b'O',
        1 => b'D',
        2 => b'H',
        3 => b'T',
        4 => 1,
        5 | 6 => 4,
        7 => 32,
        16 => 16,
        27 => 2,
        28 => 0xb7,
        29 => 0xde,
        160..=191 => 255,
        _ => 0,
    }
}

// The same with the pair of 1 and 2 in slot 5, whose tag is 19.
pub fn byte_with_a_pair(at: usize) -> u8 {
    match at {
        8 | 72 => 1,
        76 => 2,
        165 | 181 => 19,
        _ => byte_of_new_table(at),
    }
}

// Asserts the bytes of such a table.
fn check_bytes(rt: &impl Abort, what: &str, bytes: &[u8], has_pair: bool) {
    same_len(rt, what, bytes.len(), 192);
    for (at, byte) in bytes.iter().enumerate() {
        let expected = if has_pair {
            byte_with_a_pair(at)
        } else {
            byte_of_new_table(at)
        };
        same_at(rt, what, at, *byte, expected);
    }
}

#[test]
fn empty_tables(rt: HostRuntime) {
    let table: HashTableOwned<U32ToU32> = HashTableOwned::default(rt.alloc()).expect(
        &rt, "a table",
    );
    let slots = slots_for(&rt, 15);
    let allocation: Allocation<U32ToU32, OwnedBytes> = allocate(
        rt.alloc(),
        slots,
        0,
        Factor::from_percent(87),
    ).expect(&rt, "an allocation");
    check_bytes(&rt, "the default table", table.raw_bytes(), false);
    check_bytes(&rt, "the allocation", allocation.raw_bytes(), false);
}

#[test]
fn an_order_of_all_slots(rt: HostRuntime) {
    let slots = slots_for(&rt, 63);
    assert!(rt; slots > 40);
    let order = probe_order(rt.alloc(), 40, slots).expect(&rt, "an order");
    same_len(&rt, "slots", order.len(), 64);
}

// As the Rust crate's test of growth has it.
#[test]
fn a_hundred_items(rt: HostRuntime) {
    let mut table = table_for(&rt, rt.alloc(), 10);
    fill(&rt, &mut table, 100);
    same_len(&rt, "bytes", table.raw_bytes().len(), 1200);
    check_values(&rt, &table, 0, 100);
    check_absent(&rt, &table, 100, 200);
}

// At the maximum of thirteen items in sixteen slots.
#[test]
fn a_full_table_is_overwritten(rt: HostRuntime) {
    let mut table = table_for(&rt, rt.alloc(), 13);
    fill(&rt, &mut table, 13);
    for key in 0..13 {
        same_answer(&rt, key, table.insert(&key, &7), Ok(Some(key + 100)));
        same_answer(&rt, key, table.insert(&key, &(key + 100)), Ok(Some(7)));
    }
    same_len(&rt, "items", table.len(), 13);
    same_len(&rt, "bytes of 16 slots", table.raw_bytes().len(), 192);
    same_answer(&rt, 13, table.insert(&13, &113), Ok(None));
    same_len(&rt, "bytes of 32 slots", table.raw_bytes().len(), 336);
    check_values(&rt, &table, 0, 14);
}

#[test]
fn copies_have_the_same_bytes(rt: HostRuntime) {
    let mut table: HashTableOwned<U32ToU32> = table_for(&rt, rt.alloc(), 13);
    same_answer(&rt, 1, table.insert(&1, &2), Ok(None));
    let cloned = table.clone().expect(&rt, "a clone");
    let copied: HashTableOwned<U32ToU32> = HashTableOwned::from_raw_bytes_unchecked(
        rt.alloc(),
        table.raw_bytes(),
    ).expect(&rt, "a copy");
    check_bytes(&rt, "the table", table.raw_bytes(), true);
    check_bytes(&rt, "the clone", cloned.raw_bytes(), true);
    check_bytes(&rt, "the copy", copied.raw_bytes(), true);
    same_answer(&rt, 1, table.insert(&1, &9), Ok(Some(2)));
    same_value(&rt, 1, cloned.get(&1), Some(2));
    same_value(&rt, 1, copied.get(&1), Some(2));
    let given_up = cloned.into_raw_bytes();
    check_bytes(&rt, "the bytes given up", given_up.as_slice(), true);
}

// The bytes of such a table with the pair, of which one is another.
fn changed_bytes(at: usize, byte: u8) -> [u8; 192] {
    let mut bytes = [0; 192];
    for (place, found) in bytes.iter_mut().enumerate() {
        *found = if place == at {
            byte
        } else {
            byte_with_a_pair(place)
        };
    }
    bytes
}

#[test]
fn checked_copies_have_the_same_bytes(rt: HostRuntime) {
    let bytes = changed_bytes(8, 1);
    let copied: HashTableOwned<U32ToU32> = HashTableOwned::from_raw_bytes(
        rt.alloc(),
        &bytes,
    ).expect(&rt, "a copy");
    check_bytes(&rt, "the copy", copied.raw_bytes(), true);
    same_value(&rt, 1, copied.get(&1), Some(2));
}

// The error is that of the bytes. That it comes before memory is requested is run by
// `odht_memory`.
#[test]
fn refused_bytes_are_not_copied(rt: HostRuntime) {
    let slot = 15;
    let refusals = [
        (16, 17, Error::SlotCountNotPowerOfTwo { found: 17 }),
        (
            72,
            3,
            Error::ControlMismatch {
                slot: 5,
                expected: 58,
                found: 19,
            },
        ),
        (29, 1, Error::LoadFactorTooSmall { found: 439 }),
        (30, 1, Error::NonZeroPadding { found: [1, 0] }),
        (159, 1, Error::NonZeroEmpty { slot }),
        (175, 128, Error::BadFreeControl { slot, found: 128 }),
        (191, 0, Error::MirrorMismatch { index: 15 }),
        (
            8,
            2,
            Error::WrongItemCount {
                stated: 2,
                found: 1,
            },
        ),
        (29, 3, Error::TooManyItems { count: 1, max: 0 }),
        (72, 158, Error::Unreachable { slot: 5 }),
    ];
    for (at, byte, expected) in refusals {
        let bytes = changed_bytes(at, byte);
        let copied: Result<HashTableOwned<U32ToU32>, Error> = HashTableOwned::from_raw_bytes(
            rt.alloc(),
            &bytes,
        );
        same_at(&rt, "changed byte", at, copied.err(), Some(expected));
    }
}
