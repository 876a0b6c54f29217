//! The search in the parts of a table that are read by position, such as those of a file.
ghost use Rattle.std.specs.Prelude.{◌≡◌, ◌↔◌, ℕ, ◌/◌, ◌<◌, ◌≤◌, List, length, IfErr, IfOk, IsTrue};
ghost use Rattle.std.specs.Prelude.{IfSome};
ghost use Rattle.odht_raw.specs.Words.{format_of, IsSlotCount};
ghost use Rattle.odht_raw.specs.Reads.{read_entries, read_groups, read_key, IsPlaceFitting};
ghost use Rattle.odht_raw.specs.Reads.{IsHeldBy, IsFoundWithin, IsLooking};
ghost use Rattle.odht_raw.specs.SearchSteps.{IsGroupLook};
ghost use Rattle.odht_raw.specs.Searches.{IsSearch};

use super::probe_seq::probed_slot;
use super::{EntryMetadata, Search, tag_of};
use crate::hash::HashFn;
use crate::layout::Layout;
use crate::read_at::{ReadAt, ReadError, read_exact_at};
use crate::swisstable_group_query::{Group, REFERENCE_GROUP_SIZE, lanes};

/// Where the parts of a table are in a source of bytes.
#[derive(Drop)]
pub struct ReadPlace {
    /// The offset of the entries.
    pub entries_at: u64,
    /// The offset of the control bytes.
    pub control_at: u64,
    /// How many slots there are.
    pub slots: usize,
    /// The lengths of keys and values.
    pub layout: Layout,
}

/// Searches for the key as [`search`](super::search) does, and says how many groups were read. It
/// reads each group of the probe order at most once, up to the one where the search ends, and of
/// each slot whose tag fits the key.
///
/// Where the source gives the bytes of one list throughout, which is long enough to have the
/// parts, the result is that of the search in the parts of this list, or the error of a read that
/// failed. Whatever the reads give, a key that is found is in one of the slots, and a search that
/// returns has read no more groups than there are.
pub fn search_read<S: ReadAt, H: HashFn>(
    source: &S,
    place: &ReadPlace,
    key: &[u8],
) -> Result<(Search, usize), ReadError>
    requires slots { IsSlotCount place.now.slots }
    requires fits { IsPlaceFitting place.now }
    requires key { length key.now ≡ place.now.layout.key_len }
    requires hashes { H.MIN_LEN ≤ place.now.layout.key_len }
    ensures few { IfOk result (λ r. r.1 ≤ place.now.slots / 16) }
    ensures found { IfOk result (λ r. IsFoundWithin place.now.slots r.0) }
    ensures given { let F = format_of place.now.layout.key_len place.now.layout.value_len H.hash
        in (B : List ℕ) → S.gives source.now B → IsHeldBy place.now B → IfOk result
        (λ r. IsSearch F (read_entries place.now B) key.now
        (read_groups place.now B 0) (read_groups place.now B r.1) r.0) }
    ensures failed { (B : List ℕ) → S.gives source.now B → IsHeldBy place.now B
        → IfErr result (S.fails source.now) }
{
    let hash = H::hash(key);
    let (tag, home) = (tag_of(hash), hash as usize & (place.slots - 1));
    let groups = place.slots / REFERENCE_GROUP_SIZE;
    for group in 0..groups {
        let start = probed_slot(home, group * REFERENCE_GROUP_SIZE, place.slots);
        let mut bytes = [0; REFERENCE_GROUP_SIZE];
        read_exact_at(source, place.control_at + start as u64, &mut bytes)?;
        let end = look_at_read::<S, H, lanes::GroupQuery>(source, place, &bytes, start, key, tag)?;
        if let Some(end) = end {
            return Ok((end, group + 1));
        }
    }
    Ok((Search::Neither, groups))
}

// Searches the sixteen slots from `start` on, modulo the slot count, whose control bytes are
// `bytes`.
fn look_at_read<S: ReadAt, H: HashFn, Q: Group>(
    source: &S,
    place: &ReadPlace,
    bytes: &[EntryMetadata],
    start: usize,
    key: &[u8],
    tag: u8,
) -> Result<Option<Search>, ReadError>
    requires size { Q.SIZE ≡ 16 }
    requires len { length bytes.now ≡ 16 }
    requires at { let F = format_of place.now.layout.key_len place.now.layout.value_len H.hash
        in IsLooking F place.now key.now tag start }
    ensures given { let F = format_of place.now.layout.key_len place.now.layout.value_len H.hash
        in (B : List ℕ) → S.gives source.now B → IfOk result
        (IsGroupLook F (read_entries place.now B) bytes.now start 16 key.now) }
    ensures failed { (B : List ℕ) → S.gives source.now B → IsHeldBy place.now B
        → IfErr result (S.fails source.now) }
    ensures found { IfOk result (λ r. IfSome r (IsFoundWithin place.now.slots)) }
{
    let mask = place.slots - 1;
    let mut group = Q::of(bytes, tag);
    'matches: while let Some(index) = group.first_match() {
        let slot = (start + index) & mask;
        if is_read_key(source, place, slot, key)? {
            return Ok(Some(Search::Found(slot)));
        }
        group.drop_match();
    }
    match group.first_empty() {
        Some(index) => Ok(Some(Search::Free((start + index) & mask))),
        None => Ok(None),
    }
}

// Whether the key of a slot is `key`.
fn is_read_key<S: ReadAt>(
    source: &S,
    place: &ReadPlace,
    slot: usize,
    key: &[u8],
) -> Result<bool, ReadError>
    requires slot { slot < place.now.slots }
    requires slots { IsSlotCount place.now.slots }
    requires fits { IsPlaceFitting place.now }
    requires key { length key.now ≡ place.now.layout.key_len }
    ensures given { (B : List ℕ) → S.gives source.now B → IfOk result (λ same. IsTrue same
        ↔ (read_key place.now B slot ≡ key.now)) }
    ensures failed { (B : List ℕ) → S.gives source.now B → IsHeldBy place.now B
        → IfErr result (S.fails source.now) }
{
    let at = place.entries_at + slot as u64 * place.layout.entry_len() as u64;
    let mut bytes = [0; 255];
    let (found, _) = bytes.split_at_mut(key.len());
    read_exact_at(source, at, found)?;
    Ok(&*found == key)
}
