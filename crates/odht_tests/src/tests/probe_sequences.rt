//! The probe order, whatever the group size.
ghost use Rattle.std.specs.Prelude.{◌≡◌, ◌%◌};
ghost use Rattle.odht_base.specs.Load.{IsSlotCount};

use crate::tests::checks::{same, same_len};
use crate::tests::slot_counts::slots_for;
use odht::raw_table::ProbeSeq;
use std::alloc::Global;
use std::process::Abort;

// The slots of a home of 0, one after the other, by groups of sixteen whose distance grows by
// sixteen.
fn reference(rt: &impl Abort, alloc: Global, slots: usize) -> Vec<usize> {
    let mut order = Vec::new(alloc);
    let (mut index, mut stride) = (0_usize, 0_usize);
    for _ in 0..slots / 16 {
        for place in 0..16 {
            order
                .push(index.wrapping_add(place) & slots.wrapping_sub(1))
                .expect(rt, "memory");
        }
        stride = stride.wrapping_add(16);
        index = index.wrapping_add(stride) & slots.wrapping_sub(1);
    }
    order
}

// A probe sequence of this group size gives the slots of the reference.
fn check<const SIZE: usize>(rt: &impl Abort, alloc: Global, slots: usize)
    requires slots { IsSlotCount slots }
    requires divides { 16 % SIZE ≡ 0 }
{
    let mask = slots - 1;
    let mut probe = ProbeSeq::<SIZE>::new(0, mask);
    let mut order = Vec::new(alloc);
    for _ in 0..slots / SIZE {
        add_group::<SIZE>(rt, &mut order, probe.index(), mask);
        if !probe.is_last() {
            probe.advance(mask);
        }
    }
    let expected = reference(rt, alloc, slots);
    same(rt, "the slots", order.as_slice(), expected.as_slice());
}

// Appends the slots of the group that begins at a slot.
fn add_group<const SIZE: usize>(
    rt: &impl Abort,
    order: &mut Vec<usize>,
    start: usize,
    mask: usize,
) {
    for place in 0..SIZE {
        order
            .push(start.wrapping_add(place) & mask)
            .expect(rt, "memory");
    }
}

#[test]
fn probe_seq(rt: HostRuntime) {
    let mut expected = 16_usize;
    for _ in 4..17 {
        let slots = slots_for(&rt, expected.wrapping_sub(1));
        same_len(&rt, "slots", slots, expected);
        check::<4>(&rt, rt.alloc(), slots);
        check::<8>(&rt, rt.alloc(), slots);
        check::<16>(&rt, rt.alloc(), slots);
        expected = expected.wrapping_mul(2);
    }
}
