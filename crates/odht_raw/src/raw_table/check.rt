//! The whole check of the parts of a table: each slot, the mirror, and that the search for each
//! key ends at its slot.
ghost use Rattle.std.specs.Prelude.{◌≡◌, ◌%◌, ◌/◌, ◌^◌, ◌<◌, ◌≤◌, ◌↔◌, ◌-◌, IfOk};
ghost use Rattle.std.specs.Prelude.{◌+◌, ℕ, Contains, IsTrue, None, option_map, length};
ghost use Rattle.std.specs.Result.{result_err};
ghost use Rattle.odht_raw.specs.Words.{bad_free_control, bytes_at, checked, free_in, IsSlotCount};
ghost use Rattle.odht_raw.specs.Words.{mirror_refusal, reach_refusal, slot_key, slots_refusal};
ghost use Rattle.odht_raw.specs.Words.{tag as key_tag};
ghost use Rattle.odht_base.specs.Groups.{occupied};
ghost use Rattle.odht_raw.specs.Checks.{decoded_count, IsFitting, ArePassed, IsGroupSearch};
ghost use Rattle.odht_raw.specs.Checks.{IsHashAt, IsReachAnswer};
ghost use Rattle.odht_raw.specs.DynParts.{parts_format};
ghost use Rattle.odht_raw.specs.Summaries.{IsSummaryOf, IsFirstError, HaveNoError, AreFree, AreRight};

use super::slot_checks::{check_key, check_slot};
use super::{EntryMetadata, FREE, GroupProbe, Parts, is_empty_or_deleted, slot_count_of, tag_of};
use crate::error::Error;
use crate::hash::HashFn;
use crate::layout::Lengths;
use crate::swisstable_group_query::lanes::GroupQuery;
use crate::swisstable_group_query::{Group, IndexSet, REFERENCE_GROUP_SIZE, free_and_occupied};

/// What a check of all slots found, where no slot gives an error.
#[derive(Clone, Copy)]
pub(crate) struct SlotSummary {
    /// How many slots are occupied.
    pub occupied: usize,
    /// The first occupied slot at which the search for its key does not end.
    pub unreachable: Option<usize>,
}

/// Checks all slots, and returns the first error in slot order: `NonZeroEmpty`, then
/// `BadFreeControl`, of a slot that counts as free, `ControlMismatch` of any other.
///
/// `unreachable` is what its comment says only where searches are made, no slot gives an error,
/// and the mirror has no mismatch. The whole check reads it in no other case.
// The slots are gone through a span at a time, first the free ones and then the others, so that
// what a slot is makes no branch that cannot be predicted. Where a free one has an error, the
// slots of its span are gone through in their order instead.
//
// Inlined next to an opening, it would keep the first ten control bytes in registers.
#[inline(never)]
pub(crate) fn check_slots<L: Lengths, H: HashFn>(
    table: &Parts<'_, L, H>,
    searches: bool,
) -> Result<SlotSummary, Error>
    ensures err { let T = table.now.parts
        in result_err result ≡ slots_refusal (parts_format table.now H.hash) T.entries.bytes T.control }
    ensures occupied { let count = decoded_count (parts_format table.now H.hash) table.now.parts
        in IfOk result (λ summary. summary.occupied ≡ count) }
    ensures reached { let T = table.now.parts
        in let reach = reach_refusal (parts_format table.now H.hash) T.entries.bytes T.control
        in IsTrue searches
        → mirror_refusal T.control ≡ None
        → IfOk result (λ summary. option_map Error.Unreachable summary.unreachable ≡ reach) }
{
    let slots = table.len();
    let mut summary = SlotSummary {
        occupied: 0,
        unreachable: None,
    };
    let mut start = 0;
    'spans: while start < slots {
        let size = (slots - start).min(IndexSet::CAPACITY);
        let control = table.controls();
        let (free, others) = free_and_occupied(&control[start..start + size]);
        if !are_free(table, start, free) {
            check_in_order(table, start, size)?;
        }
        summary = check_occupied(table, start, size, others, searches, summary)?;
        start += size;
    }
    Ok(summary)
}

// The first error of the `size` slots from `start` on, each looked at in its order. Those before
// have none.
#[inline(never)]
fn check_in_order<L: Lengths, H: HashFn>(
    table: &Parts<'_, L, H>,
    start: usize,
    size: usize,
) -> Result<(), Error>
    requires size { start + size ≤ table.now.parts.entries.slots }
    requires before { HaveNoError (parts_format table.now H.hash) table.now.parts start }
    ensures err { IsFirstError (parts_format table.now H.hash) table.now.parts result }
    ensures ok { let F = parts_format table.now H.hash
        in IfOk result (λ _. HaveNoError F table.now.parts (start + size)) }
{
    // A slice has at most as many bytes as a `usize` counts, so that `start + size` fits.
    let control = table.controls();
    for slot in start..start + size {
        check_slot(table, slot)?;
        check_free_control(control, slot)?;
    }
    Ok(())
}

// What is known after a span of `size` slots from `start` on, of which the free ones have no
// error, from what is known before it. The others are taken in their order.
#[inline(always)]
fn check_occupied<L: Lengths, H: HashFn>(
    table: &Parts<'_, L, H>,
    start: usize,
    size: usize,
    others: IndexSet,
    searches: bool,
    before: SlotSummary,
) -> Result<SlotSummary, Error>
    requires size { start + size ≤ table.now.parts.entries.slots }
    requires others { others ≡ occupied (bytes_at table.now.parts.control start size) }
    requires free { AreRight (parts_format table.now H.hash) table.now.parts start
        (free_in (bytes_at table.now.parts.control start size)) }
    requires known { IsSummaryOf (parts_format table.now H.hash) table.now.parts searches start before }
    ensures err { IsFirstError (parts_format table.now H.hash) table.now.parts result }
    ensures ok { let F = parts_format table.now H.hash
        in IfOk result (IsSummaryOf F table.now.parts searches (start + size)) }
{
    // A slice has at most as many bytes as a `usize` counts, so that `start + index` fits.
    let _ = table.controls();
    let mut others = others;
    let mut occupied = before.occupied;
    let mut unreachable = before.unreachable;
    let mut searching = searches && unreachable.is_none();
    'slots: while let Some(index) = others.take() {
        let slot = start + index;
        let hash = check_key(table, slot)?;
        occupied += 1;
        if searching && !is_reached(table, slot, hash) {
            unreachable = Some(slot);
            searching = false;
        }
    }
    Ok(SlotSummary {
        occupied,
        unreachable,
    })
}

// Whether the slots whose indices from `start` on are marked are free, with no error.
#[inline(always)]
fn are_free<L: Lengths, H: HashFn>(table: &Parts<'_, L, H>, start: usize, free: IndexSet) -> bool
    requires within { (i : ℕ) → Contains free i → start + i < table.now.parts.entries.slots }
    ensures { IsTrue result ↔ AreFree (parts_format table.now H.hash) table.now.parts start free }
{
    let control = table.controls();
    let mut free = free;
    'slots: while let Some(index) = free.take() {
        let slot = start + index;
        if control[slot] != FREE || !table.has_zeros(slot) {
            return false;
        }
    }
    true
}

// `BadFreeControl` where the control byte of a slot counts as free and is not `FREE`.
#[inline]
fn check_free_control(control: &[EntryMetadata], slot: usize) -> Result<(), Error>
    requires { slot < length control.now }
    ensures { result ≡ checked (bad_free_control control.now slot) }
{
    let found = control[slot];
    if found == FREE || !is_empty_or_deleted(found) {
        Ok(())
    } else {
        Err(Error::BadFreeControl { slot, found })
    }
}

// Whether the search for the key of an occupied slot, slot by slot along the probe order, ends at
// that slot. The key is compared only with keys at earlier positions that have its tag.
//
// This asks for more than `IsReached` does: the second copy of a key may be reached, but no search
// ends at it.
//
// Most keys are in the group of their home, with no free byte and no match before them: then this
// is all.
#[inline]
fn is_reached<L: Lengths, H: HashFn>(table: &Parts<'_, L, H>, slot: usize, hash: u32) -> bool
    requires slot { slot < table.now.parts.entries.slots }
    requires hash { IsHashAt (parts_format table.now H.hash) table.now.parts slot hash }
    ensures { IsReachAnswer (parts_format table.now H.hash) table.now.parts slot result }
{
    let slots = table.len();
    let mut probe = GroupProbe::new(table.controls(), slots, hash as usize);
    let before = slot.wrapping_sub(probe.start()) & (slots - 1);
    let group = GroupQuery::of(probe.read(), tag_of(hash));
    // A match lies in the group, and so does a slot that is not behind it.
    if let Some(index) = group.first_match() {
        if before <= index && before <= group.first_empty().unwrap_or(REFERENCE_GROUP_SIZE) {
            return true;
        }
    }
    is_reached_by_groups(table, slot, hash, group)
}

// The same, group by group. The first group is at hand.
//
// Inlined, it would take registers from the look at the first group.
#[inline(never)]
fn is_reached_by_groups<L: Lengths, H: HashFn>(
    table: &Parts<'_, L, H>,
    slot: usize,
    hash: u32,
    first: GroupQuery,
) -> bool
    requires slot { slot < table.now.parts.entries.slots }
    requires hash { IsHashAt (parts_format table.now H.hash) table.now.parts slot hash }
    requires group { let T = table.now.parts
        in IsGroupSearch (bytes_at T.control (hash % T.entries.slots) 16) (hash / 2 ^ 25) first }
    ensures { IsReachAnswer (parts_format table.now H.hash) table.now.parts slot result }
{
    let slots = table.len();
    let mask = slots - 1;
    let tag = tag_of(hash);
    let mut probe = GroupProbe::new(table.controls(), slots, hash as usize);
    let mut group = first;
    'groups: loop {
        let start = probe.start();
        let before = slot.wrapping_sub(start) & mask;
        if before < REFERENCE_GROUP_SIZE {
            return hold_other_keys(table, group, start, before, slot);
        }
        if !hold_other_keys(table, group, start, REFERENCE_GROUP_SIZE, slot) {
            return false;
        }
        probe.advance();
        group = GroupQuery::of(probe.read(), tag);
    }
}

// Whether each of the `count` slots from `start` on, modulo the slot count, is occupied by another
// key than that of `slot`. The group is that of these slots, searched for the tag of this key.
#[inline]
fn hold_other_keys<L: Lengths, H: HashFn>(
    table: &Parts<'_, L, H>,
    group: GroupQuery,
    start: usize,
    count: usize,
    slot: usize,
) -> bool
    requires start { start < table.now.parts.entries.slots }
    requires count { count ≤ 16 }
    requires slot { slot < table.now.parts.entries.slots }
    requires group { let F = parts_format table.now H.hash in let T = table.now.parts
        in IsGroupSearch (bytes_at T.control start 16)
        (key_tag F (slot_key F T.entries.bytes slot)) group }
    ensures { let F = parts_format table.now H.hash in let T = table.now.parts
        in IsFitting F T
        → IsTrue result ↔ ArePassed F T (slot_key F T.entries.bytes slot) start count }
{
    let mask = table.len() - 1;
    let mut group = group;
    if group.first_empty().unwrap_or(REFERENCE_GROUP_SIZE) < count {
        return false;
    }
    'matches: while let Some(index) = group.first_match() {
        if index >= count {
            return true;
        }
        if table.have_same_key((start + index) & mask, slot) {
            return false;
        }
        group.drop_match();
    }
    true
}

/// Compares the mirror with the control bytes of the first sixteen slots; `MirrorMismatch` of the
/// first index that differs.
#[inline]
pub(crate) fn check_mirror(control: &[EntryMetadata]) -> Result<(), Error>
    requires { IsSlotCount (length control.now - 16) }
    ensures { result ≡ checked (mirror_refusal control.now) }
{
    let slots = slot_count_of(control);
    for index in 0..REFERENCE_GROUP_SIZE {
        if control[slots + index] != control[index] {
            return Err(Error::MirrorMismatch { index });
        }
    }
    Ok(())
}
