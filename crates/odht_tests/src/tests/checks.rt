//! Assertions as functions. For the proof of a test each is one call, where an assertion in the
//! test would add a branch and the text that it prints. An assertion prints what was compared,
//! since its line is not the test's.
ghost use Rattle.std.specs.Prelude.{◌≡◌};

use odht::error::Error;
use std::fmt::{Debug, Display};
use std::process::Abort;

/// Asserts that what `what` names is as expected.
pub fn same<T: PartialEq + Debug + Drop>(rt: &impl Abort, what: &str, found: T, expected: T) {
    assert_eq!(rt; found, expected, "{what}");
}

/// Asserts that what `what` and the number `at` name is as expected.
pub fn same_at<N: Display + Drop, T: PartialEq + Debug + Drop>(
    rt: &impl Abort,
    what: &str,
    at: N,
    found: T,
    expected: T,
) {
    assert_eq!(rt; found, expected, "{what} {at}");
}

/// Asserts these bytes.
pub fn same_bytes(rt: &impl Abort, what: &str, found: &[u8], expected: &[u8]) {
    same(rt, what, found, expected);
}

/// Asserts these pairs.
pub fn same_pairs(rt: &impl Abort, found: &[(u32, u32)], expected: &[(u32, u32)]) {
    same(rt, "pairs", found, expected);
}

/// Asserts this number, which the caller then knows.
pub fn same_len(rt: &impl Abort, what: &str, found: usize, expected: usize)
    ensures { found ≡ expected }
{
    assert_eq!(rt; found, expected, "{what}");
}

/// Asserts this result of the lookup of a key.
pub fn same_value(rt: &impl Abort, key: u32, found: Option<u32>, expected: Option<u32>) {
    same_at(rt, "key", key, found, expected);
}

/// Asserts this result of the insert of a key.
pub fn same_answer(
    rt: &impl Abort,
    key: u32,
    found: Result<Option<u32>, Error>,
    expected: Result<Option<u32>, Error>,
) {
    same_at(rt, "insert of key", key, found, expected);
}

/// Asserts `is_so`, and otherwise prints the number too.
pub fn holds_at(rt: &impl Abort, what: &str, at: usize, is_so: bool) {
    assert!(rt; is_so, "{what} {at}");
}
