//! How many groups a search may read, computed only from control bytes.
ghost use Rattle.std.specs.Prelude.{◌≡◌, ◌-◌, ◌<◌, ◌≤◌, ◌↔◌, ℕ, List, IsTrue, IfSome, None, false};
ghost use Rattle.std.specs.Prelude.{length};
ghost use Rattle.odht_raw.specs.Words.{AreWithin, ends_within, first_longer, format_of};
ghost use Rattle.odht_raw.specs.Words.{groups_read, IsPartsOf, IsSlotCount, longer_refusal, Table};
ghost use Rattle.odht_raw.specs.DynParts.{parts_format};

use super::{EntryMetadata, GroupProbe, Parts, RawTable, slot_count_of};
use crate::bytes::ByteArray;
use crate::error::Error;
use crate::hash::HashFn;
use crate::layout::Lengths;
use crate::swisstable_group_query::late_free;

impl<'a, L: Lengths, H: HashFn> Parts<'a, L, H> {
    /// [`RawTable::searches_within`] of these parts.
    pub fn searches_within(&self, groups: usize) -> bool
        ensures bytes { IsTrue result ↔ (first_longer self.now.parts.control groups ≡ None) }
        ensures bound { let F = parts_format self.now H.hash
            in (P : Table) (key : List ℕ)
            → IsPartsOf F P self.now.parts.entries.bytes self.now.parts.control
            → IsTrue result → groups_read F P.cells key ≤ groups }
    {
        first_longer(self.controls(), groups).is_none()
    }
}

impl<'a, K: ByteArray, V: ByteArray, H: HashFn> RawTable<'a, K, V, H> {
    /// Whether each home has, among the first `groups` groups of its probe order, a control byte
    /// that counts as free. Then no search in a placed table, of a present or an absent key, reads
    /// more. It reads only control bytes.
    pub fn searches_within(&self, groups: usize) -> bool
        ensures bytes { IsTrue result ↔ (first_longer self.now.control groups ≡ None) }
        ensures bound { let F = format_of K.LEN V.LEN H.hash
            in (P : Table) (key : List ℕ) → IsPartsOf F P self.now.entries.bytes self.now.control
            → IsTrue result → groups_read F P.cells key ≤ groups }
    {
        self.parts().searches_within(groups)
    }
}

/// `SearchTooLong` of the least home from which a search may read more groups than the bound; None
/// without a bound.
pub(crate) fn longer_refusal(control: &[EntryMetadata], groups: Option<usize>) -> Option<Error>
    requires { IsSlotCount (length control.now - 16) }
    ensures { result ≡ longer_refusal control.now groups }
{
    let Some(groups) = groups else {
        return None;
    };
    match first_longer(control, groups) {
        Some(home) => Some(Error::SearchTooLong { home, groups }),
        None => None,
    }
}

// The least home from which a search may read more than `groups` groups: none of the control bytes
// in these counts as free. None where no search reads more. At most `groups` reads of sixteen bytes
// a slot, and few where most groups have a free byte.
#[inline(never)]
fn first_longer(control: &[EntryMetadata], groups: usize) -> Option<usize>
    requires { IsSlotCount (length control.now - 16) }
    ensures { result ≡ first_longer control.now groups }
{
    let slots = slot_count_of(control);
    let mut home = 0;
    'homes: while home < slots {
        match homes_within(control, home, groups) {
            Some(count) => home += count,
            None => return Some(home),
        }
    }
    None
}

// From this home and those after it, that many in all, no search reads more than `groups` groups.
// None where one from this home may.
//
// The groups that these searches read begin one slot after the other. So where one has a free
// byte, those that begin up to it have it too; but not behind the last slot, where the mirror may
// differ from what it mirrors.
#[inline]
fn homes_within(control: &[EntryMetadata], home: usize, groups: usize) -> Option<usize>
    requires slots { IsSlotCount (length control.now - 16) }
    requires home { home < length control.now - 16 }
    ensures within { IfSome result (AreWithin control.now groups home) }
    ensures longer { result ≡ None → ends_within control.now groups home ≡ false }
{
    let slots = slot_count_of(control);
    let mut probe = GroupProbe::new(control, slots, home);
    let mut left = groups;
    'groups: while left > 0 {
        let start = probe.start();
        if let Some(index) = late_free(probe.read()) {
            return Some(index.min(slots - 1 - start) + 1);
        }
        if probe.is_last() {
            return None;
        }
        probe.advance();
        left -= 1;
    }
    None
}
