//! The write of a pair into the parts of a table, whose lengths of keys and values are types or
//! numbers: where the search for its key ended, into the first free slot, or into a slot.
//!
//! It does not return the former value of the key. A caller that wants it reads it where the search
//! ended, before the write.
ghost use Rattle.std.specs.Prelude.{◌≡◌, ◌+◌, ◌-◌, ◌*◌, ◌<◌, ◌++◌, ℕ, List, length, IsTrue, IsFalse};
ghost use Rattle.std.specs.Prelude.{Some, None, ⊤, option_map};
ghost use Rattle.odht_raw.specs.Words.{Format, format_of, IsBytes, IsPartsOf, IsSlotCount};
ghost use Rattle.odht_raw.specs.Words.{overwritten_at, Pair, Table, tagged};
ghost use Rattle.odht_raw.specs.Formers.{answered, former_of, write_result};
ghost use Rattle.odht_raw.specs.PartLengths.{ArePairLengths, ArePartLengths};
ghost use Rattle.odht_raw.specs.PartsInserts.{IsInsertAt};
ghost use Rattle.odht_raw.specs.PartsPlacings.{IsNewTo, IsNewPlacing, IsAddition};
ghost use Rattle.odht_raw.specs.SearchResults.{MatchSearchResult, answer};
ghost use Rattle.odht_raw.specs.Steps.{IsStepWhere, IsTaggedEnd};

use super::group_search::first_free;
use super::{EntryMetadata, Search, slot_count_of, tag_of};
use crate::bytes::write_slice;
use crate::error::Error;
use crate::hash::HashFn;
use crate::layout::Lengths;
use crate::memory_layout::prove_bytes;
use crate::swisstable_group_query::{Group, REFERENCE_GROUP_SIZE};

/// Writes a pair where the search for its key ended, which comes with the key's tag: only the value
/// into the slot that holds the key, or, where there is room, the entry with its tag into the free
/// slot. Returns whether it wrote: not, with nothing changed, where there is no room for a new
/// entry, or the search met neither slot. The caller's error is `Full` then.
///
/// The clause names the key's former value as if it were returned, for the callers that read it.
// It returns no `Result`: the room for its errors is cleared, which kept the compiler from going
// from where a search ends straight to what is written there.
#[inline(always)]
pub(crate) fn write_at_end<L: Lengths, H: HashFn>(
    control: &mut [EntryMetadata],
    entries: &mut [u8],
    slots: usize,
    lengths: L,
    key: &[u8],
    value: &[u8],
    end: (Search, u8),
    room: usize,
) -> bool
    requires lengths { ArePartLengths H.MIN_LEN (L.key_len lengths) (L.value_len lengths)
        (length entries.old) (length control.old) }
    requires slots { slots ≡ length control.old - 16 }
    requires key { IsBytes (L.key_len lengths) key.now }
    requires value { IsBytes (L.value_len lengths) value.now }
    requires end { let F = format_of (L.key_len lengths) (L.value_len lengths) H.hash
        in IsTaggedEnd F room entries.old control.old key.now end }
    ensures step { let F = format_of (L.key_len lengths) (L.value_len lengths) H.hash
        in let p : Pair = record { key = key.now; value = value.now }
        in IsStepWhere (λ P. end.0 ≡ answer F P.cells p.key) F (λ b. b) room
        (entries.old, control.old) p (answered F entries.old end.0 (write_result result))
        (entries.new, control.new) }
    ensures found { MatchSearchResult end.0 (λ _. IsTrue result) (λ _. ⊤) ⊤ }
{
    let (end, tag) = end;
    match end {
        Search::Found(slot) => {
            let at = slot * lengths.entry_len() + lengths.key_len();
            write_slice(entries, at, value);
            true
        }
        Search::Free(slot) => {
            if room == 0 {
                return false;
            }
            write_slot(control, entries, slots, lengths, key, value, tag, slot);
            true
        }
        Search::Neither => false,
    }
}

/// `write_at_end` with room for any number of entries. Returns `former`, the value that the caller
/// read where the search ended; or `Full`, with nothing changed, where the search met neither slot.
///
/// In the clauses `f` decodes a value.
#[inline(always)]
pub(super) fn insert_at<L: Lengths, H: HashFn, T: Drop>(
    control: &mut [EntryMetadata],
    entries: &mut [u8],
    lengths: L,
    key: &[u8],
    value: &[u8],
    end: (Search, u8),
    former: Option<T>,
) -> Result<Option<T>, Error>
    requires lengths { ArePartLengths H.MIN_LEN (L.key_len lengths) (L.value_len lengths)
        (length entries.old) (length control.old) }
    requires key { length key.now ≡ L.key_len lengths }
    requires value { length value.now ≡ L.value_len lengths }
    requires end { let F = format_of (L.key_len lengths) (L.value_len lengths) H.hash
        in IsTaggedEnd F usize.MAX entries.old control.old key.now end }
    ensures { let F = format_of (L.key_len lengths) (L.value_len lengths) H.hash
        in let p : Pair = record { key = key.now; value = value.now }
        in (f : List ℕ → T) → former ≡ option_map f (former_of F entries.old end.0)
        → IsInsertAt F f (λ P. end.0 ≡ answer F P.cells p.key) (entries.old, control.old) p result
        (entries.new, control.new) }
{
    prove_bytes(key);
    prove_bytes(value);
    let slots = slot_count_of(control);
    // As many entries may be added as there are free slots.
    let room = usize::MAX;
    if write_at_end::<L, H>(control, entries, slots, lengths, key, value, end, room) {
        Ok(former)
    } else {
        Err(Error::Full)
    }
}

/// Writes the pair into the first free slot of its key's probe order. No key is compared, so it is
/// for a key that the table does not have. `Full`, with nothing changed, where no slot is free.
#[inline(always)]
pub fn write_new<L: Lengths, H: HashFn, Q: Group>(
    control: &mut [EntryMetadata],
    entries: &mut [u8],
    lengths: L,
    key: &[u8],
    value: &[u8],
) -> Result<(), Error>
    requires lengths { ArePartLengths H.MIN_LEN (L.key_len lengths) (L.value_len lengths)
        (length entries.old) (length control.old) }
    requires key { length key.now ≡ L.key_len lengths }
    requires value { length value.now ≡ L.value_len lengths }
    ensures placed { let F = format_of (L.key_len lengths) (L.value_len lengths) H.hash
        in let p : Pair = record { key = key.now; value = value.now }
        in (P : Table) → IsPartsOf F P entries.old control.old → IsNewTo P p
        → IsNewPlacing F P p result entries.new control.new }
    ensures change { let F = format_of (L.key_len lengths) (L.value_len lengths) H.hash
        in let p : Pair = record { key = key.now; value = value.now }
        in IsAddition F entries.old control.old p result entries.new control.new }
{
    prove_bytes(key);
    prove_bytes(value);
    let hash = H::hash(key);
    let Some(slot) = first_free::<Q>(control, hash) else {
        return Err(Error::Full);
    };
    let slots = slot_count_of(control);
    write_slot(
        control,
        entries,
        slots,
        lengths,
        key,
        value,
        tag_of(hash),
        slot,
    );
    Ok(())
}

/// Writes the pair into a slot, the tag into the slot's control byte, and for a slot below 16 the
/// tag into the mirror.
#[inline(always)]
pub(crate) fn write_slot<L: Lengths>(
    control: &mut [EntryMetadata],
    entries: &mut [u8],
    slots: usize,
    lengths: L,
    key: &[u8],
    value: &[u8],
    tag: u8,
    slot: usize,
)
    requires lengths { ArePairLengths 0 (L.key_len lengths) (L.value_len lengths) }
    requires slots { IsSlotCount slots }
    requires control { length control.old ≡ slots + 16 }
    requires entries { length entries.old ≡ slots * (L.key_len lengths + L.value_len lengths) }
    requires key { length key.now ≡ L.key_len lengths }
    requires value { length value.now ≡ L.value_len lengths }
    requires slot { slot < slots }
    ensures entries { let at = slot * (L.key_len lengths + L.value_len lengths)
        in entries.new ≡ overwritten_at entries.old at (key.now ++ value.now) }
    ensures control { control.new ≡ tagged control.old slot tag }
{
    let at = slot * lengths.entry_len();
    write_slice(entries, at, key);
    write_slice(entries, at + lengths.key_len(), value);
    control[slot] = tag;
    if slot < REFERENCE_GROUP_SIZE {
        control[slots + slot] = tag;
    }
}

/// Whether a search found the key.
#[inline(always)]
pub(crate) fn is_found(end: Search) -> bool
    ensures found { (F : Format) (es : List ℕ)
        → IsTrue result → (v : List ℕ) × (former_of F es end ≡ Some v) }
    ensures absent { (F : Format) (es : List ℕ) → IsFalse result → former_of F es end ≡ None }
{
    match end {
        Search::Found(_) => true,
        Search::Free(_) => false,
        Search::Neither => false,
    }
}
