//! A small index and one of no pairs, byte for byte, and a cut one. The expected bytes were worked
//! out by hand from docs/FORMAT.md.

use crate::tests::checks::{same, same_at, same_len};
use odht::error::Error;
use odht_index::{Index, build, built_and_looked_up};
use std::process::Abort;

// Both are hashed to 5.
const A: [u8; 16] = [0, 0, 0, 0, 0, 0, 0, 0, 0, 0, 0, 0, 5, 0, 0, 0];

const B: [u8; 16] = [1, 0, 0, 0, 0, 0, 0, 0, 0, 0, 0, 0, 5, 0, 0, 0];

const PAIRS: [([u8; 16], u32); 3] = [(A, 1), (B, 2), (A, 3)];

// The header for sixteen slots at 87 percent, except the item count.
const HEADER: [u8; 32] = [
    b'O', b'D', b'H', b'T', 1, 16, 4, 32, 0, 0, 0, 0, 0, 0, 0, 0, 16, 0, 0, 0, 0, 0, 0, 0, 0, 0, 0,
    2, 0xb7, 0xde, 0, 0,
];

// The byte at an offset of an index of no pairs: its header, entries of zeros, control bytes of
// free slots.
fn empty_byte(at: usize) -> u8 {
    match HEADER.get(at) {
        Some(byte) => *byte,
        None if at < 352 => 0,
        None => 255,
    }
}

// The byte at an offset of the index of the pairs: A is in slot 5, and B, with the same home, in
// slot 6.
fn expected_byte(at: usize) -> u8 {
    match at {
        8 => 2,
        132..=147 => byte_at(&A, at.wrapping_sub(132)),
        148 => 3,
        152..=167 => byte_at(&B, at.wrapping_sub(152)),
        168 => 2,
        // the tag of both is 0, in the control bytes and their mirror
        357 | 358 | 373 | 374 => 0,
        _ => empty_byte(at),
    }
}

fn byte_at(path: &[u8; 16], at: usize) -> u8 {
    path.get(at).copied().unwrap_or(255)
}

// Asserts the numbers of A, of B and of a path that is in no pair.
fn check_numbers(rt: &impl Abort, bytes: &[u8], expected: [Option<u32>; 3]) {
    let index = Index::open(bytes).expect(rt, "an index");
    let found = [index.lookup(&A), index.lookup(&B), index.lookup(&[0; 16])];
    same(rt, "numbers", found, expected);
}

#[test]
fn three_pairs_byte_for_byte(rt: HostRuntime) {
    let bytes = build(rt.alloc(), &PAIRS).expect(&rt, "an index");
    same_len(&rt, "bytes", bytes.len(), 384);
    for (at, byte) in bytes.iter().enumerate() {
        same_at(&rt, "byte", at, *byte, expected_byte(at));
    }
    check_numbers(&rt, bytes.as_slice(), [Some(3), Some(2), None]);
}

#[test]
fn no_pairs(rt: HostRuntime) {
    let bytes = build(rt.alloc(), &[]).expect(&rt, "an index");
    same_len(&rt, "bytes", bytes.len(), 384);
    for (at, byte) in bytes.iter().enumerate() {
        same_at(&rt, "byte", at, *byte, empty_byte(at));
    }
    check_numbers(&rt, bytes.as_slice(), [None, None, None]);
}

#[test]
fn a_cut_index_is_refused(rt: HostRuntime) {
    let bytes = build(rt.alloc(), &PAIRS).expect(&rt, "an index");
    let refused = match Index::open(bytes.get(..383).unwrap_or(&[])) {
        Err(
            Error::WrongLength {
                found,
                expected,
                ..
            },
        ) => (found, expected),
        _ => (0, 0),
    };
    same(&rt, "lengths", refused, (383, 384));
}

#[test]
fn built_and_looked_into_at_once(rt: HostRuntime) {
    let found = built_and_looked_up(rt.alloc(), &PAIRS, &A);
    same(&rt, "the number of A", found, Ok(Some(3)));
}
