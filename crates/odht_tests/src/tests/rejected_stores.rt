//! A new table in a buffer that is rejected leaves the buffer as it was: no contract can say this
//! of a moved value.
use crate::tests::checks::{same, same_bytes};
use odht::HashTable;
use odht::bytes::BorrowedMut;
use odht::configs::U32ToU32;
use odht::error::Error;
use std::process::Abort;

// Makes a new table in the buffer, which fails, and asserts that its bytes are as they were.
fn check_refused<const N: usize>(
    rt: &impl Abort,
    bytes: &mut [u8; N],
    items: usize,
    expected: Error,
) {
    let before = *bytes;
    let made: Result<HashTable<U32ToU32, BorrowedMut<'_>>, Error> = HashTable::init_in_place(
        BorrowedMut::new(bytes),
        items,
        87,
    );
    same(rt, "the refusal", made.err(), Some(expected));
    same_bytes(rt, "the place", bytes, &before);
}

#[test]
fn rejected_stores_stay(rt: HostRuntime) {
    let short = Error::InitLength {
        found: 191,
        expected: 192,
    };
    check_refused(&rt, &mut [0x5a; 191], 0, short);
    let long = Error::InitLength {
        found: 193,
        expected: 192,
    };
    check_refused(&rt, &mut [0x5a; 193], 13, long);
    check_refused(&rt, &mut [0x5a; 192], 1 << 63, Error::Capacity);
}
