//! Tables of an iterator's pairs, of each count up to 32, whose keys are far apart.
use crate::tests::checks::{same_len, same_pairs, same_value};
use odht::HashTableOwned;
use odht::configs::U32ToU32;
use std::alloc::Global;
use std::process::Abort;

// As many pairs as asked for. The keys are the multiples of one step, spread over all of u32, and
// last the highest key. The value of a key is what the highest key is above it.
fn make_test_items(rt: &impl Abort, alloc: Global, count: u32) -> Vec<(u32, u32)> {
    let mut items = Vec::new(alloc);
    if count > 1 {
        let step = u32::MAX / (count - 1);
        for i in 0..count - 1 {
            let key = step.wrapping_mul(i);
            items.push((key, u32::MAX - key)).expect(rt, "memory");
        }
    }
    if count > 0 {
        items.push((u32::MAX, 0)).expect(rt, "memory");
    }
    items
}

// Collects pairs of different keys, which rise, to a table, and asserts that it has these pairs.
fn check_table(rt: &impl Abort, alloc: Global, items: &[(u32, u32)]) {
    let made = HashTableOwned::from_iterator(alloc, items.iter().copied(), 95);
    let table: HashTableOwned<U32ToU32> = made.expect(rt, "a table");
    same_len(rt, "items", table.len(), items.len());
    for (key, value) in items {
        same_value(rt, *key, table.get(key), Some(*value));
    }
    let mut pairs: Vec<(u32, u32)> = table.iter().collect(alloc).expect(rt, "memory");
    pairs.as_mut_slice().sort_unstable();
    same_pairs(rt, pairs.as_slice(), items);
}

#[test]
fn items_collected_to_a_table(rt: HostRuntime) {
    for count in 0..33 {
        let items = make_test_items(&rt, rt.alloc(), count);
        check_table(&rt, rt.alloc(), items.as_slice());
    }
}
