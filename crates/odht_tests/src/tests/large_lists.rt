//! Lists that are inserted into a table of that many slots that keys are looked up ahead.
use crate::tests::checks::{same, same_bytes};
use crate::tests::random::Random;
use odht::HashTableOwned;
use odht::configs::Plain;
use std::alloc::Global;
use std::process::Abort;

// Pairs of which many have the key of the pair before, and most keys come again later.
fn repeating_list(rt: &impl Abort, alloc: Global) -> Vec<([u8; 4], [u8; 4])> {
    let mut random = Random { state: 20 };
    let mut list = Vec::new(alloc);
    let mut key = [0; 4];
    for _ in 0..300_003 {
        if random.byte() >= 64 {
            key = (random.word() & 0x1_ffff).to_le_bytes();
        }
        list.push((key, random.word().to_le_bytes()))
            .expect(rt, "memory");
    }
    list
}

// A new table of 2^20 slots.
fn large_table(rt: &impl Abort, alloc: Global) -> HashTableOwned<Plain<[u8; 4], [u8; 4]>> {
    HashTableOwned::with_capacity(alloc, 900_000, 87).expect(rt, "a table")
}

#[test]
fn a_list_and_single_inserts_leave_the_same_bytes(rt: HostRuntime) {
    let list = repeating_list(&rt, rt.alloc());
    let mut single = large_table(&rt, rt.alloc());
    for (key, value) in list.as_slice() {
        let _ = single.insert(key, value).expect(&rt, "an insert");
    }
    let mut at_once = large_table(&rt, rt.alloc());
    let outcome = at_once.insert_all(list.as_slice());
    same(&rt, "the list", outcome, (list.len(), Ok(())));
    same_bytes(&rt, "bytes", at_once.raw_bytes(), single.raw_bytes());
}
