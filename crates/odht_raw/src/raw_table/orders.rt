//! The calls that look for an order of inserts, and the occupied slots listed as ones that wait.
ghost use Rattle.std.specs.Prelude.{◌≡◌, ◌*◌, ◌-◌, ◌^◌, length, min, ◌≤◌, ◌<◌, ◌+◌, ◌++◌, ℕ};
ghost use Rattle.std.specs.Prelude.{slice_index, map, take, Contains};
ghost use Rattle.odht_raw.specs.Words.{count, counts_as_free, format_of, is_free, IsSlotCount};
ghost use Rattle.odht_raw.specs.Words.{occupied, slot_count as slots_of, Table};
ghost use Rattle.odht_raw.specs.DynParts.{parts_format};
ghost use Rattle.odht_raw.specs.Waiting.{IsWhole, IsOrderAnswer, waiting};

use super::insert_order::{place_near, place_others};
use super::linear_order::order_by_passes;
use super::{EntryMetadata, Parts, RawTable};
use crate::bytes::ByteArray;
use crate::hash::HashFn;
use crate::layout::Lengths;
use crate::swisstable_group_query::{IndexSet, free_and_occupied};

// How many numbers of scratch a slot takes: the pass of the slot; and how far the walk of the home
// with its number is, in two numbers.
const SCRATCH_PER_SLOT: usize = 3;

impl<'a, K: ByteArray, V: ByteArray, H: HashFn> RawTable<'a, K, V, H> {
    /// Returns whether some list of inserts, growths included, makes the table of these parts
    /// (`IsMade`). They have no load factor, and the result is the same for each. If so, `out`
    /// lists the occupied slots in an insert order: their pairs, placed in this order into an empty
    /// table with the same slot count, give these parts. Otherwise the numbers in `out` have no
    /// meaning.
    ///
    /// The parts must be those of a valid table, and the length of `out` its number of pairs. The
    /// call allocates nothing. It makes at most `n + 1` passes over the pairs, if `n` slots must be
    /// listed after one with a higher index.
    pub fn insert_order(&self, out: &mut [usize]) -> bool
        requires whole { IsWhole (format_of K.LEN V.LEN H.hash) self.now (length out.old) }
        ensures { let F = format_of K.LEN V.LEN H.hash
            in IsOrderAnswer F self.now (length out.old) out.new result }
    {
        self.parts().insert_order(out)
    }

    /// Returns the length of the scratch that `insert_order_with` needs: three numbers for each
    /// slot.
    #[inline]
    pub fn insert_order_scratch(&self) -> usize
        ensures { result ≡ min (3 * self.now.entries.slots) (2 ^ 64 - 1) }
    {
        self.parts().insert_order_scratch()
    }

    /// Like `insert_order`, for untrusted tables: it uses `scratch` as working memory, and returns
    /// the same result. `scratch` has at least the length that `insert_order_scratch` returns, and
    /// may contain any numbers. With a shorter one the call does what `insert_order` does, in the
    /// same time. The clause states that `out` lists an insert order. That it is the same one is
    /// tested.
    ///
    /// The call allocates nothing. Its time is proportional to the number of slots, and to the
    /// groups that the longest search of each home reads: with a bound of `g` groups, to `g` times
    /// the slots. Tests check that it does not end by a call of `insert_order`; the contract does
    /// not state it.
    pub fn insert_order_with(&self, out: &mut [usize], scratch: &mut [usize]) -> bool
        requires whole { IsWhole (format_of K.LEN V.LEN H.hash) self.now (length out.old) }
        ensures { let F = format_of K.LEN V.LEN H.hash
            in IsOrderAnswer F self.now (length out.old) out.new result }
    {
        self.parts().insert_order_with(out, scratch)
    }
}

impl<'a, L: Lengths, H: HashFn> Parts<'a, L, H> {
    /// [`RawTable::insert_order`] of these parts.
    pub fn insert_order(&self, out: &mut [usize]) -> bool
        requires whole { IsWhole (parts_format self.now H.hash) self.now.parts (length out.old) }
        ensures { let F = parts_format self.now H.hash
            in IsOrderAnswer F self.now.parts (length out.old) out.new result }
    {
        list_occupied(self.controls(), self.len(), out);
        let near = place_near(self, out);
        if near == out.len() {
            return true;
        }
        place_others(self, out, near)
    }

    /// Returns the length of the scratch that `insert_order_with` needs: three numbers for each
    /// slot.
    #[inline]
    pub fn insert_order_scratch(&self) -> usize
        ensures { result ≡ min (3 * self.now.parts.entries.slots) (2 ^ 64 - 1) }
    {
        self.len().saturating_mul(SCRATCH_PER_SLOT)
    }

    /// [`RawTable::insert_order_with`] of these parts.
    pub fn insert_order_with(&self, out: &mut [usize], scratch: &mut [usize]) -> bool
        requires whole { IsWhole (parts_format self.now H.hash) self.now.parts (length out.old) }
        ensures { let F = parts_format self.now H.hash
            in IsOrderAnswer F self.now.parts (length out.old) out.new result }
    {
        let slots = self.len();
        if scratch.len() / SCRATCH_PER_SLOT < slots {
            return self.insert_order(out);
        }
        let (passes, rest) = scratch.split_at_mut(slots);
        let (positions, rest) = rest.split_at_mut(slots);
        let (lasts, _) = rest.split_at_mut(slots);
        order_by_passes(self, out, passes, positions, lasts)
    }
}

/// What is added to a slot that waits to be placed. It is above each slot.
pub(crate) const WAITING: usize = 1 << 63;

/// Lists the occupied slots, as many as `out` has room for, each as one that waits.
// The marks of a span tell where they are, so that free slots take no step each.
pub(crate) fn list_occupied(control: &[EntryMetadata], slot_count: usize, out: &mut [usize])
    requires slots { IsSlotCount slot_count }
    requires control { slot_count ≤ length control.now }
    ensures { (P : Table)
        → slots_of P ≡ slot_count
        → ((i : ℕ) → i < slot_count
        → counts_as_free (slice_index control.now i) ≡ is_free P.cells i)
        → length out.old ≡ count P
        → out.new ≡ map waiting (occupied P) }
{
    let mut listed = 0;
    let mut start = 0;
    'spans: while start < slot_count {
        let size = (slot_count - start).min(IndexSet::CAPACITY);
        let (_, others) = free_and_occupied(&control[start..start + size]);
        listed = list_marked(start, others, out, listed);
        start += size;
    }
}

// Lists the slots that are marked from `start` on, each as one that waits, behind the first
// `listed` numbers, as far as there is room. Returns how many numbers are listed then.
#[inline(always)]
fn list_marked(start: usize, marks: IndexSet, out: &mut [usize], listed: usize) -> usize
    requires slots { (i : ℕ) → Contains marks i → start + i < 2 ^ 63 }
    requires room { listed ≤ length out.old }
    ensures room { result ≤ length out.new }
    ensures listed { take result out.new ≡ take (length out.new)
        (take listed out.old ++ map (λ i. waiting (start + i)) marks) }
{
    let mut marks = marks;
    let mut listed = listed;
    'marks: while let Some(index) = marks.take() {
        if listed < out.len() {
            out[listed] = WAITING + (start + index);
            listed += 1;
        }
    }
    listed
}
