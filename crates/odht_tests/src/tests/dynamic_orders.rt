//! Orders of inserts of dynamic tables: that of a typed table
//! with the same bytes, and of keys of five bytes, one that inserts make and one that none make.
//! Their bytes are written by docs/FORMAT.md.
use crate::tests::checks::same;
use odht::UnHashFn;
use odht::bytes::Borrowed;
use odht::dynamic::{DynError, DynTable};
use odht::hash::HashFn;
use std::alloc::Global;
use std::process::Abort;

// A table of 64 slots with 48 items, keys of five bytes and no values.
const HEADER: [u8; 32] = [
    79, 68, 72, 84, 1, 5, 0, 32, 48, 0, 0, 0, 0, 0, 0, 0, 64, 0, 0, 0, 0, 0, 0, 0, 0, 0, 0, 2, 183,
    222, 0, 0,
];

// The order that both calls find of the table of these bytes, if there is one.
fn order_of<H: HashFn>(rt: &impl Abort, alloc: Global, bytes: &[u8]) -> Option<Vec<usize>> {
    let opened: Result<DynTable<H, Borrowed<'_>>, DynError> = DynTable::open_as_stated(
        Borrowed::new(bytes),
    );
    let table = opened.expect(rt, "a view");
    assert!(rt; table.verify());
    let mut order = vec![in alloc; 0; table.len()].expect(rt, "memory");
    let is_found = table.insert_order(order.as_mut_slice());
    let mut other = vec![in alloc; 0; table.len()].expect(rt, "memory");
    let mut scratch = vec![in alloc; 7; table.insert_order_scratch()].expect(rt, "memory");
    let is_other = table.insert_order_with(other.as_mut_slice(), scratch.as_mut_slice());
    same(rt, "an order in linear time", is_other, is_found);
    if !is_found {
        return None;
    }
    same(rt, "the same order", other.as_slice(), order.as_slice());
    Some(order)
}

/// Asserts that the table of these bytes has this order, where its lengths are numbers.
pub fn check_order<H: HashFn>(rt: &impl Abort, alloc: Global, bytes: &[u8], order: &[usize]) {
    match order_of::<H>(rt, alloc, bytes) {
        Some(found) => same(rt, "the order", found.as_slice(), order),
        None => same(rt, "an order", false, true),
    }
}

// The slots up to 32 and from 49 on are occupied, by keys whose homes they are, but that those of
// the first two slots may be exchanged. The hash of such a key is its home, so that its tag is 0.
// The probe order of the home 1 has all occupied slots before slot 0, and that of the home 0 has
// slot 0 before slot 1.
fn bytes_of(rt: &impl Abort, alloc: Global, are_exchanged: bool) -> Vec<u8> {
    let mut bytes = HEADER.to_vec(alloc).expect(rt, "memory");
    for slot in 0..64 {
        let home = if are_exchanged && slot < 2 {
            1 - slot
        } else {
            slot
        };
        let entry = if is_occupied(slot) {
            [7, home, 0, 0, 0]
        } else {
            [0; 5]
        };
        bytes.extend_from_slice(&entry).expect(rt, "memory");
    }
    for index in 0..80 {
        let control = if is_occupied(index % 64) { 0 } else { 255 };
        bytes.push(control).expect(rt, "memory");
    }
    bytes
}

fn is_occupied(slot: u8) -> bool {
    slot < 33 || slot > 48
}

#[test]
fn a_table_that_inserts_make(rt: HostRuntime) {
    let bytes = bytes_of(&rt, rt.alloc(), false);
    let mut rising = Vec::new(rt.alloc());
    for slot in (0..33).chain(49..64) {
        rising.push(slot).expect(&rt, "memory");
    }
    check_order::<UnHashFn>(&rt, rt.alloc(), bytes.as_slice(), rising.as_slice());
}

#[test]
fn a_table_that_no_inserts_make(rt: HostRuntime) {
    let bytes = bytes_of(&rt, rt.alloc(), true);
    let order = order_of::<UnHashFn>(&rt, rt.alloc(), bytes.as_slice());
    same(&rt, "no order", order.is_none(), true);
}
