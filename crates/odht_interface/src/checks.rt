//! Assertions as functions, and slot counts. Those of `odht_tests` cannot be used here: a library
//! has no functions that may abort, outside of its tests.
ghost use Rattle.std.specs.Prelude.{◌≡◌};
ghost use Rattle.odht_base.specs.Load.{IsSlotCount};

use odht::load::{Factor, slots_needed};
use std::fmt::Debug;
use std::process::Abort;

/// Asserts that what `what` names is as expected.
pub fn same<T: PartialEq + Debug + Drop>(rt: &impl Abort, what: &str, found: T, expected: T) {
    assert_eq!(rt; found, expected, "{what}");
}

/// Asserts these bytes.
pub fn same_bytes(rt: &impl Abort, what: &str, found: &[u8], expected: &[u8]) {
    same(rt, what, found, expected);
}

/// Asserts this number, which the caller then knows.
pub fn same_len(rt: &impl Abort, what: &str, found: usize, expected: usize)
    ensures { found ≡ expected }
{
    assert_eq!(rt; found, expected, "{what}");
}

/// The least slot count that holds these items at 100 percent.
pub fn slots_for(rt: &impl Abort, items: usize) -> usize
    ensures { IsSlotCount result }
{
    let factor = Factor::from_percent(100);
    assert!(rt; factor.0 >= 1);
    slots_needed(items, factor).expect(rt, "slots")
}
