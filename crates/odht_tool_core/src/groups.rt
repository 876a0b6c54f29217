//! How many groups of control bytes a search reads, up to a bound.
ghost use Rattle.std.specs.Prelude.{◌≡◌, ◌≤◌, ◌<◌, ◌+◌, ◌%◌, ◌^◌, length};
ghost use Rattle.odht_base.specs.Bounds.{ends_within};
ghost use Rattle.odht_base.specs.Load.{IsSlotCount};
ghost use Rattle.odht_tool_core.specs.GroupNumbers.{capped, groups_to, groups_to_free, most_groups};

use odht_base::swisstable_group_query::Group;
use odht_base::swisstable_group_query::lanes::GroupQuery;
use odht_raw::raw_table::{GroupProbe, ProbeSeq};

/// The number of the group of a key's probe order that contains a slot, from 1 on: as many groups
/// as a search for the key in that slot reads. Where that is above the bound, one more than the
/// bound.
///
/// It goes over the groups of the probe order up to that one, or to the bound.
pub fn groups_to(hash: u32, slot: usize, slot_count: usize, bound: Option<usize>) -> usize
    requires slots { IsSlotCount slot_count }
    requires within { slot < slot_count }
    ensures groups { result ≡ capped bound (groups_to hash slot_count slot) }
    ensures positive { 1 ≤ result }
{
    let mask = slot_count - 1;
    let groups = slot_count / 16;
    let most = most_groups(groups, bound);
    let mut probe = ProbeSeq::<16>::new(hash as usize, mask);
    for group in 0..most {
        if steps_to(probe.index(), slot, slot_count) < 16 {
            return group + 1;
        }
        if group + 1 < groups {
            probe.advance(mask);
        }
    }
    groups.min(most + 1)
}

/// How many groups a search from this home reads at most, for any key: up to the first with a
/// control byte that counts as free, or all. Where that is above the bound, one more than the
/// bound. The control bytes end with their mirror.
///
/// It reads these groups, up to the bound.
pub fn groups_to_free(control: &[u8], home: usize, slot_count: usize, bound: Option<usize>) -> usize
    requires slots { IsSlotCount slot_count }
    requires mirrored { length control.now ≡ slot_count + 16 }
    requires home { home < slot_count }
    ensures { result ≡ capped bound (groups_to_free control.now home) }
{
    let groups = slot_count / 16;
    let most = most_groups(groups, bound);
    let mut probe = GroupProbe::new(control, slot_count, home);
    for group in 0..most {
        if GroupQuery::of(probe.read(), 0).any_empty() {
            return group + 1;
        }
        if group + 1 < groups {
            probe.advance();
        }
    }
    groups.min(most + 1)
}

/// Whether one of the first `most` groups that a search from this home reads has a control byte that
/// counts as free, so that no search from it reads more. The control bytes end with their mirror.
///
/// It reads these groups up to the first with such a byte.
pub fn ends_within(control: &[u8], home: usize, slots: usize, most: usize) -> bool
    requires slots { IsSlotCount slots }
    requires mirrored { length control.now ≡ slots + 16 }
    requires home { home < slots }
    ensures { result ≡ ends_within control.now most home }
{
    let groups = slots / 16;
    let mut probe = GroupProbe::new(control, slots, home);
    for group in 0..most.min(groups) {
        if GroupQuery::of(probe.read(), 0).any_empty() {
            return true;
        }
        if group + 1 < groups {
            probe.advance();
        }
    }
    false
}

// How many of that many groups are looked at, by the bound.
fn most_groups(groups: usize, bound: Option<usize>) -> usize
    ensures { result ≡ most_groups bound groups }
{
    match bound {
        None => groups,
        Some(bound) => bound.min(groups),
    }
}

// How many slots a slot is behind another one, around the end.
fn steps_to(start: usize, slot: usize, slot_count: usize) -> usize
    requires start { start < slot_count }
    requires slot { slot < slot_count }
    requires few { slot_count ≤ 2 ^ 63 }
    ensures below { result < slot_count }
    ensures slot { (start + result) % slot_count ≡ slot }
{
    if start <= slot {
        slot - start
    } else {
        slot + slot_count - start
    }
}
