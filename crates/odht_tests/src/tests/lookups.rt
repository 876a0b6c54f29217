//! Lookups of many keys against one lookup after the other: of full batches and of others, of
//! present and of absent keys, in a table with one free slot.
use crate::tests::checks::{same_answer, same_at};
use odht::bytes::{Borrowed, ByteStore};
use odht::configs::U32ToU32;
use odht::{HashTable, HashTableOwned};
use std::alloc::Global;
use std::process::Abort;

// The keys that are looked up. The even ones up to 60 are present.
const KEYS: [u32; 17] = [4, 5, 0, 60, 61, 62, 2, 2, 1, 30, 31, 58, 3, 8, 6, 99, 10];

// A table of the even keys up to 60.
fn thirty_one_pairs(rt: &impl Abort, alloc: Global) -> HashTableOwned<U32ToU32> {
    let made = HashTableOwned::<U32ToU32>::with_capacity(alloc, 31, 100);
    let mut table = made.expect(rt, "a table");
    for number in 0_u32..31 {
        same_answer(
            rt,
            2 * number,
            table.insert(&(2 * number), &(100 + number)),
            Ok(None),
        );
    }
    table
}

// Looks up that many keys in a view.
fn look_up_in_view<D: ByteStore>(rt: &impl Abort, table: &HashTable<U32ToU32, D>, count: usize) {
    assert!(rt; count <= 17);
    let keys = &KEYS[..count];
    let mut values = [Some(7); 17];
    table.get_all(keys, &mut values[..count]);
    for index in 0..count {
        same_at(
            rt,
            "index in a view",
            index,
            values[index],
            table.get(&keys[index]),
        );
    }
    for rest in count..17 {
        same_at(rt, "index behind", rest, values[rest], Some(7));
    }
}

// Looks up that many keys in a table that grows.
fn look_up_in_owned(rt: &impl Abort, table: &HashTableOwned<U32ToU32>, count: usize) {
    assert!(rt; count <= 17);
    let keys = &KEYS[..count];
    let mut values = [Some(7); 17];
    table.get_all(keys, &mut values[..count]);
    for index in 0..count {
        same_at(rt, "index", index, values[index], table.get(&keys[index]));
    }
}

#[test]
fn together_and_alone(rt: HostRuntime) {
    let table = thirty_one_pairs(&rt, rt.alloc());
    let view: HashTable<U32ToU32, Borrowed<'_>> = HashTable::from_raw_bytes(Borrowed::new(
        table.raw_bytes(),
    )).expect(&rt, "a view");
    for count in [0, 1, 7, 8, 9, 16, 17] {
        look_up_in_owned(&rt, &table, count);
        look_up_in_view(&rt, &view, count);
    }
}
