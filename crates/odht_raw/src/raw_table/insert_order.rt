//! An order of inserts that makes a table, found within the buffer that it is written to.
ghost use Rattle.std.specs.Prelude.{◌≡◌, ◌≤◌, ◌<◌, ◌+◌, ◌^◌, ◌%◌, ◌↔◌, ℕ, List, ◌++◌, length, drop};
ghost use Rattle.std.specs.Prelude.{slice_index, IsTrue, All, AllPairs, IsPermutation};
ghost use Rattle.odht_raw.specs.Words.{HoldsPair, IsPartsOf, IsReady, IsSlotCount, Pair, Table};
ghost use Rattle.odht_raw.specs.DynParts.{parts_format};
ghost use Rattle.odht_raw.specs.Frontiers.{AreFrontiers};
ghost use Rattle.odht_raw.specs.Waiting.{placed_of, IsWaiting, AreRising, IsPending};
ghost use Rattle.odht_raw.specs.Waiting.{IsWhole, IsOrderAnswer, AreListed, IsBegun, IsFar, IsPass};
ghost use Rattle.odht_raw.specs.Waiting.{IsLeft, IsNext, IsFrontier, IsUnblocked, WaitsWithin, WaitsBehind};

use super::Parts;
use super::orders::WAITING;
use crate::hash::HashFn;
use crate::layout::Lengths;
use crate::swisstable_group_query::REFERENCE_GROUP_SIZE;

// How many frontiers are kept from one search to the next. Few homes have long searches at a time,
// and one that is forgotten is only found again.
const FRONTIERS: usize = 64;

// An odd number, times which homes that share their low bits differ in the highest.
const SPREAD: usize = 0x9E37_79B9_7F4A_7C15;

// How far the slots in the probe order of a home are placed: those before a group. It keeps the
// first slot of the group and the position of that slot.
#[derive(Clone, Copy)]
struct Frontier {
    home: usize,
    base: usize,
    position: usize,
}

/// Places slots in their order, as long as each is near its home. None that waits is before it in
/// the probe order of its key then, so that it is ready. Returns how many were placed.
pub(super) fn place_near<L: Lengths, H: HashFn>(
    table: &Parts<'_, L, H>,
    slots: &mut [usize],
) -> usize
    requires whole { IsWhole (parts_format table.now H.hash) table.now.parts (length slots.old) }
    requires begun { IsBegun (parts_format table.now H.hash) table.now.parts slots.old 0 }
    ensures begun { IsBegun (parts_format table.now H.hash) table.now.parts slots.new result }
    ensures far { result < length slots.new
        → IsFar (parts_format table.now H.hash) table.now.parts (slice_index slots.new result) }
{
    for at in 0..slots.len() {
        let slot = slots[at] - WAITING;
        if !is_near(slot, table.home_of(slot)) {
            return at;
        }
        slots[at] = slot;
    }
    slots.len()
}

/// `Parts::insert_order` of the slots that still wait, where the first `placed` are placed.
///
/// A slot waits until all slots before it in the probe order of its key are placed. A pass goes
/// through the waiting slots in slot order, and places each that waits for no slot by then. At its
/// end the slots that still wait are sorted. Passes are made until no slot waits, or a pass places
/// none: at most `n + 1` passes, if `n` slots wait for one with a higher index.
///
/// In a pass a slot in the first group of its probe order and not below its home takes one step.
/// Any other takes one or two binary searches among the waiting slots for each group up to its own.
/// Groups that were passed before from the same home are skipped: `FRONTIERS` homes are kept.
// It is a call of its own, since it sets the frontiers up, and most tables with few pairs need
// none.
#[inline(never)]
pub(super) fn place_others<L: Lengths, H: HashFn>(
    table: &Parts<'_, L, H>,
    out: &mut [usize],
    placed: usize,
) -> bool
    requires slots { IsSlotCount table.now.parts.entries.slots }
    requires whole { IsWhole (parts_format table.now H.hash) table.now.parts (length out.old) }
    requires begun { IsBegun (parts_format table.now H.hash) table.now.parts out.old placed }
    ensures { let F = parts_format table.now H.hash
        in IsOrderAnswer F table.now.parts (length out.old) out.new result }
{
    let mut frontiers = [Frontier::at(0); FRONTIERS];
    let mut placed = placed;
    while placed < out.len() {
        let ready = place_ready(table, &mut out[placed..], &mut frontiers);
        if ready == 0 {
            return false;
        }
        placed += ready;
    }
    true
}

// Goes once through the slots that wait, and places each that is ready by then. At the end the
// placed slots come first, in slot order, and after them the others. Returns how many were placed.
fn place_ready<L: Lengths, H: HashFn>(
    table: &Parts<'_, L, H>,
    slots: &mut [usize],
    frontiers: &mut [Frontier; FRONTIERS],
) -> usize
    requires listed { AreListed (parts_format table.now H.hash) table.now.parts slots.old }
    requires frontiers { AreFrontiers slots.old table.now.parts.entries.slots frontiers.old }
    ensures few { result ≤ length slots.new }
    ensures waiting { All (IsWaiting table.now.parts.entries.slots) (drop result slots.new) }
    ensures pass { let F = parts_format table.now H.hash
        in (P : Table) (done : List ℕ)
        → IsPartsOf F P table.now.parts.entries.bytes table.now.parts.control
        → IsPending F P done slots.old
        → IsPass F P done slots.new result }
    ensures frontiers { AreFrontiers (drop result slots.new) table.now.parts.entries.slots
        frontiers.new }
{
    let mut placed = 0;
    // One more than the last slot that was left to wait, or 0.
    let mut left = 0;
    for at in 0..slots.len() {
        let slot = slots[at] - WAITING;
        if is_ready(table, slot, left, slots, frontiers) {
            slots[at] = slot;
            placed += 1;
        } else {
            left = slot + 1;
        }
    }
    sort_placed_first(slots, placed);
    placed
}

// Whether no slot before this one in the probe order of its key waits. In most cases the slots
// before it begin at its home and end next to it, so that all of them were looked at before in the
// pass.
#[inline]
fn is_ready<L: Lengths, H: HashFn>(
    table: &Parts<'_, L, H>,
    slot: usize,
    left: usize,
    slots: &[usize],
    frontiers: &mut [Frontier; FRONTIERS],
) -> bool
    requires slot { slot < table.now.parts.entries.slots }
    requires next { IsNext slots.now slot left }
    requires frontiers { AreFrontiers slots.now table.now.parts.entries.slots frontiers.old }
    ensures frontiers { AreFrontiers slots.now table.now.parts.entries.slots frontiers.new }
    ensures ready { let F = parts_format table.now H.hash
        in (P : Table) (done : List ℕ) (p : Pair)
        → IsPartsOf F P table.now.parts.entries.bytes table.now.parts.control
        → IsPending F P done slots.now
        → HoldsPair P slot p
        → (IsTrue result ↔ IsReady F P (done ++ placed_of slots.now) slot) }
{
    let home = table.home_of(slot);
    if is_near(slot, home) {
        left <= home
    } else {
        is_unblocked_from(home, slot, table.len() - 1, left, slots, frontiers)
    }
}

// Whether a slot is one of the first group of a home, and not below the home.
#[inline(always)]
fn is_near(slot: usize, home: usize) -> bool
    ensures { IsTrue result ↔ (home ≤ slot) × (slot < home + 16) }
{
    home <= slot && slot - home < REFERENCE_GROUP_SIZE
}

impl Frontier {
    // That of a home before any slot is passed.
    #[inline]
    fn at(home: usize) -> Frontier
        ensures { result ≡ record { home = home; base = home; position = 0 } }
    {
        Frontier {
            home,
            base: home,
            position: 0,
        }
    }
}

// Whether no slot before this one, which waits, in the probe order of the home waits. What an
// earlier search from this home has passed is placed, so it goes on from there where that is kept.
fn is_unblocked_from(
    home: usize,
    slot: usize,
    mask: usize,
    left: usize,
    slots: &[usize],
    frontiers: &mut [Frontier; FRONTIERS],
) -> bool
    requires slots { IsSlotCount (mask + 1) }
    requires home { home < mask + 1 }
    requires slot { slot < mask + 1 }
    requires next { IsNext slots.now slot left }
    requires frontiers { AreFrontiers slots.now (mask + 1) frontiers.old }
    ensures frontiers { AreFrontiers slots.now (mask + 1) frontiers.new }
    ensures unblocked { IsTrue result ↔ IsUnblocked slots.now home (mask + 1) slot }
{
    let index = home.wrapping_mul(SPREAD) >> 58;
    let mut frontier = frontiers[index];
    if frontier.home != home {
        frontier = Frontier::at(home);
    }
    let result = is_unblocked(&mut frontier, slot, mask, left, slots);
    frontiers[index] = frontier;
    result
}

// Whether no slot before this one, which waits, in the probe order of the home waits. The frontier
// goes on to the last group that this looks at.
fn is_unblocked(
    frontier: &mut Frontier,
    slot: usize,
    mask: usize,
    left: usize,
    slots: &[usize],
) -> bool
    requires slots { IsSlotCount (mask + 1) }
    requires slot { slot < mask + 1 }
    requires next { IsNext slots.now slot left }
    requires frontier { let f = frontier.old
        in IsFrontier slots.now (mask + 1) f.home f.base f.position }
    ensures frontier { let f = frontier.new
        in IsFrontier slots.now (mask + 1) f.home f.base f.position }
    ensures home { frontier.new.home ≡ frontier.old.home }
    ensures unblocked { IsTrue result
        ↔ IsUnblocked slots.now frontier.old.home (mask + 1) slot }
{
    'groups: loop {
        let before = (slot + (mask + 1) - frontier.base) & mask;
        let count = before.min(REFERENCE_GROUP_SIZE);
        if is_any_waiting(frontier.base, count, mask, slot, left, slots) {
            return false;
        }
        if before < REFERENCE_GROUP_SIZE {
            return true;
        }
        frontier.position += REFERENCE_GROUP_SIZE;
        frontier.base = (frontier.base + frontier.position) & mask;
    }
}

// Whether one of the `count` slots from `base` on waits, around the end. From `left` on none below
// `slot` waits.
fn is_any_waiting(
    base: usize,
    count: usize,
    mask: usize,
    slot: usize,
    left: usize,
    slots: &[usize],
) -> bool
    requires slots { IsSlotCount (mask + 1) }
    requires base { base < mask + 1 }
    requires few { count ≤ 16 }
    requires slot { slot < mask + 1 }
    requires rising { AreRising slots.now }
    requires left { IsLeft slots.now slot left }
    ensures { IsTrue result ↔ WaitsBehind slots.now (mask + 1) base count }
{
    let end = base + count;
    if left <= base && end <= slot {
        return false;
    }
    let slot_count = mask + 1;
    if end <= slot_count {
        return is_range_waiting(base, end, slots);
    }
    if is_range_waiting(base, slot_count, slots) {
        return true;
    }
    is_range_waiting(0, end - slot_count, slots)
}

// Whether a slot from `start` to before `end` waits. The slots of the list are in slot order.
fn is_range_waiting(start: usize, end: usize, slots: &[usize]) -> bool
    requires end { end ≤ 2 ^ 63 }
    requires rising { AreRising slots.now }
    ensures { IsTrue result ↔ WaitsWithin slots.now start end }
{
    let first = slots.partition_point(|listed| *listed % WAITING < start);
    for at in first..slots.len() {
        let listed = slots[at];
        if listed % WAITING >= end {
            return false;
        }
        if listed >= WAITING {
            return true;
        }
    }
    false
}

// Sorts the list, whose slots are in slot order, and of which that many are placed: these come
// first, and behind them those that wait. The placed ones keep their order as they are moved, so
// only the others are sorted, of which there are few in most tables, and in many none.
fn sort_placed_first(slots: &mut [usize], placed: usize)
    requires placed { placed ≡ length (placed_of slots.old) }
    ensures permutation { IsPermutation slots.old slots.new }
    ensures rising { AreRising slots.old → AllPairs ◌<◌ slots.new }
{
    if placed == slots.len() {
        return;
    }
    let mut front = 0;
    for at in 0..slots.len() {
        let moved = slots[at];
        if moved < WAITING {
            slots[at] = slots[front];
            slots[front] = moved;
            front += 1;
        }
    }
    slots[front..].sort_unstable();
}
