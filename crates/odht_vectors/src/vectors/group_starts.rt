//! Where the groups of a probe sequence begin.
ghost use Rattle.std.specs.Prelude.{◌≡◌, ◌*◌, ◌/◌, ◌%◌, map, IfOk};
ghost use Rattle.std.specs.List.{range_with_len};
ghost use Rattle.odht_base.specs.Load.{IsSlotCount};
ghost use Rattle.odht_base.specs.Probe.{probe_slot};

use odht::raw_table::ProbeSeq;
use std::alloc::{AllocError, Global};

/// The slots at which the groups of `SIZE` slots begin that a probe sequence reads, in its order:
/// those at the positions 0, `SIZE`, 2 * `SIZE` and so on of the probe order from the home slot of
/// `hash`. An error where memory is exhausted.
pub fn group_starts<const SIZE: usize>(
    alloc: Global,
    hash: usize,
    slots: usize,
) -> Result<Vec<usize>, AllocError>
    requires slots { IsSlotCount slots }
    requires divides { 16 % SIZE ≡ 0 }
    ensures starts { IfOk result (λ list. list.items
        ≡ map (λ group. probe_slot (hash % slots) slots (group * SIZE))
        (range_with_len 0 (slots / SIZE))) }
{
    let mask = slots - 1;
    let groups = slots / SIZE;
    let mut probe = ProbeSeq::<SIZE>::new(hash, mask);
    let mut starts = Vec::with_capacity(alloc, groups)?;
    for group in 0..groups {
        starts.push_reserved(probe.index());
        if group + 1 < groups {
            probe.advance(mask);
        }
    }
    Ok(starts)
}
