//! Slot counts for tests.
ghost use Rattle.odht_base.specs.Load.{IsSlotCount};

use odht::load::{Factor, slots_needed};
use std::process::Abort;

/// The least slot count that holds these items at 100 percent.
pub fn slots_for(rt: &impl Abort, items: usize) -> usize
    ensures { IsSlotCount result }
{
    let factor = Factor::from_percent(100);
    assert!(rt; factor.0 >= 1);
    slots_needed(items, factor).expect(rt, "slots")
}
