//! What opening checks of the first slots, and the whole check of each slot; and what checks and an
//! order of inserts read of a slot.
ghost use Rattle.std.specs.Prelude.{◌≡◌, ◌<◌, slice_index, IfOk, IsFalse, ◌↔◌, ◌%◌, ◌≤◌, length};
ghost use Rattle.std.specs.Prelude.{IsTrue};
ghost use Rattle.std.specs.Result.{result_err};
ghost use Rattle.odht_raw.specs.Words.{checked, counts_as_free, entry_len, hashes_refusal};
ghost use Rattle.odht_raw.specs.Words.{hashes_refusal_at, slot_entry, slot_key};
ghost use Rattle.odht_raw.specs.Checks.{IsHashAt};
ghost use Rattle.odht_raw.specs.DynParts.{parts_format, AreWhole};
ghost use Rattle.odht_raw.specs.Parts.{IsZeros};

use super::{Parts, is_empty_or_deleted, tag_of};
use crate::bytes::is_zeros;
use crate::error::Error;
use crate::hash::HashFn;
use crate::layout::Lengths;

impl<'a, L: Lengths, H: HashFn> Parts<'a, L, H> {
    /// Checks the first `slots_to_check` slots, or all where there are fewer, and returns the
    /// first error: `NonZeroEmpty` of a slot that counts as free, `ControlMismatch` of any other.
    ///
    /// A mismatch can mean that the bytes were written with another hash function.
    #[inline(always)]
    pub fn sanity_check_hashes(&self, slots_to_check: usize) -> Result<(), Error>
        ensures { let F = parts_format self.now H.hash
            in result ≡ checked
            (hashes_refusal F self.now.parts.entries.bytes self.now.parts.control slots_to_check) }
    {
        let slots = slots_to_check.min(self.len());
        for slot in 0..slots {
            check_slot(self, slot)?;
        }
        Ok(())
    }

    /// The hash of the key in a slot.
    #[inline(always)]
    pub(super) fn hash_of(&self, slot: usize) -> u32
        requires { slot < self.now.parts.entries.slots }
        ensures { IsHashAt (parts_format self.now H.hash) self.now.parts slot result }
    {
        hash_by_len::<H>(self.key(slot))
    }

    /// The home of the key in a slot that may come from a list. The plain-Rust build checks this
    /// index: where another process rewrites the table's bytes meanwhile, the list may name any
    /// slot.
    #[inline(always)]
    pub(super) fn home_of(&self, slot: usize) -> usize
        requires { slot < self.now.parts.entries.slots }
        ensures home { let T = self.now.parts in let F = parts_format self.now H.hash
            in result ≡ F.hash (slot_key F T.entries.bytes slot) % T.entries.slots }
        ensures below { result < self.now.parts.entries.slots }
        ensures whole { AreWhole H.MIN_LEN self.now }
    {
        let mask = self.len() - 1;
        hash_by_len::<H>(self.stored.listed_key(slot)) as usize & mask
    }

    /// Whether the entry of a slot is zeros.
    #[inline(always)]
    pub(super) fn has_zeros(&self, slot: usize) -> bool
        requires { slot < self.now.parts.entries.slots }
        ensures zeros { let F = parts_format self.now H.hash in IsTrue result
            ↔ IsZeros (entry_len F) (slot_entry F self.now.parts.entries.bytes slot) }
        ensures len { let F = parts_format self.now H.hash
            in length (slot_entry F self.now.parts.entries.bytes slot) ≡ entry_len F }
    {
        is_zeros(self.entry(slot))
    }

    /// Whether the keys of two slots are equal.
    #[inline(always)]
    pub(super) fn have_same_key(&self, slot: usize, other: usize) -> bool
        requires slot { slot < self.now.parts.entries.slots }
        requires other { other < self.now.parts.entries.slots }
        ensures { let key = slot_key (parts_format self.now H.hash) self.now.parts.entries.bytes
            in IsTrue result ↔ (key slot ≡ key other) }
    {
        self.has_key(slot, self.key(other))
    }
}

/// What opening checks of one slot.
#[inline(always)]
pub(super) fn check_slot<L: Lengths, H: HashFn>(
    table: &Parts<'_, L, H>,
    slot: usize,
) -> Result<(), Error>
    requires { slot < table.now.parts.entries.slots }
    ensures { let T = table.now.parts in result
        ≡ checked (hashes_refusal_at (parts_format table.now H.hash) T.entries.bytes T.control slot) }
{
    let control = table.controls();
    if is_empty_or_deleted(control[slot]) {
        if table.has_zeros(slot) {
            return Ok(());
        }
        return Err(Error::NonZeroEmpty { slot });
    }
    check_key(table, slot)?;
    Ok(())
}

/// The hash of the key of an occupied slot; `ControlMismatch` where its tag is not the control
/// byte.
#[inline(always)]
pub(super) fn check_key<L: Lengths, H: HashFn>(
    table: &Parts<'_, L, H>,
    slot: usize,
) -> Result<u32, Error>
    requires slot { slot < table.now.parts.entries.slots }
    requires occupied { IsFalse (counts_as_free (slice_index table.now.parts.control slot)) }
    ensures err { let T = table.now.parts in result_err result
        ≡ hashes_refusal_at (parts_format table.now H.hash) T.entries.bytes T.control slot }
    ensures hash { IfOk result (IsHashAt (parts_format table.now H.hash) table.now.parts slot) }
{
    let hash = table.hash_of(slot);
    let control = table.controls();
    let found = control[slot];
    let expected = tag_of(hash);
    if found != expected {
        return Err(Error::ControlMismatch {
            slot,
            expected,
            found,
        });
    }
    Ok(hash)
}

// The hash of a key. One of eight bytes, as most are, is told apart: the compiler reads it with no
// loop, also where lengths are numbers. To tell more lengths apart takes longer than it saves.
#[inline(always)]
fn hash_by_len<H: HashFn>(key: &[u8]) -> u32
    requires { H.MIN_LEN ≤ length key.now }
    ensures { result ≡ H.hash key.now }
{
    if key.len() == 8 {
        return H::hash(&key[..8]);
    }
    H::hash(key)
}
