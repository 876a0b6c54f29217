//! What is read of a table by position: its header, its first slots, and the value of a key.
ghost use Rattle.std.specs.Prelude.{◌≡◌, ◌+◌, ◌*◌, ◌<◌, ◌≤◌, ◌^◌, ◌/◌, ⊤, ℕ, List, length, IfOk};
ghost use Rattle.std.specs.Prelude.{option_map, slice_index, MatchResult};
ghost use Rattle.odht_raw.specs.Words.{bytes_at, format_of, hashes_refusal, header_count};
ghost use Rattle.odht_raw.specs.Words.{header_slots, image_len, IsSlotCount, opening_refusal};
ghost use Rattle.odht_raw.specs.Words.{view_refusal};
ghost use Rattle.odht_raw.specs.Finds.{IsCountedFind};
ghost use Rattle.odht_raw.specs.Parts.{entry_format};
ghost use Rattle.odht_raw.specs.Reads.{IsHeldBy, IsPlaceFitting, read_entries, read_controls};
ghost use Rattle.odht.specs.Dynamic.{stated_format};
ghost use Rattle.odht.specs.Files.{IsFileResult, read_parts, read_slot_value, table_place};

use super::FileError;
use crate::dynamic::DynError;
use crate::error::Error;
use crate::hash::HashFn;
use crate::layout::Layout;
use crate::memory_layout::{HEADER_SIZE, Header};
use crate::raw_table::{DynRawTable, ReadPlace, Search, ShortBytes, search_read};
use crate::read_at::{ReadAt, ReadError, read_exact_at};

// How many slots are read to check the first ten: a group.
const FIRST_SLOTS: usize = 16;

const SLOTS_TO_CHECK: usize = 10;

// The most bytes that the entries of these slots have.
const MOST_ENTRIES: usize = 8160;

/// Where the parts of a table are that begins at this offset.
pub(super) fn place_of(at: u64, slots: usize, layout: Layout) -> ReadPlace
    requires fits { at + image_len (entry_format layout.key_len layout.value_len) slots < 2 ^ 64 }
    ensures { result ≡ table_place at slots layout.key_len layout.value_len }
{
    let entries_at = at + HEADER_SIZE as u64;
    ReadPlace {
        entries_at,
        control_at: entries_at + (slots * layout.entry_len()) as u64,
        slots,
        layout,
    }
}

/// Reads what a table is opened by, and returns the counts of slots and items that its header
/// states, or the first error.
pub(super) fn open_header<H: HashFn, S: ReadAt>(
    source: &S,
    layout: Layout,
    at: u64,
    len: usize,
) -> Result<(usize, usize), FileError>
    requires hashes { H.MIN_LEN ≤ layout.key_len }
    requires fits { at + len < 2 ^ 64 }
    ensures count { IfOk result (λ r. IsSlotCount r.0) }
    ensures long { IfOk result
        (λ r. image_len (entry_format layout.key_len layout.value_len) r.0 ≡ len) }
    ensures given { let F = format_of layout.key_len layout.value_len H.hash
        in (B : List ℕ) → S.gives source.now B → at + len ≤ length B
        → (let T = bytes_at B at len in IsFileResult (S.fails source.now)
        (option_map DynError.Rejected (view_refusal F T))
        (λ r. (header_slots T ≡ r.0) × (header_count T ≡ r.1)) result) }
{
    let (slots, items) = header_counts::<S>(source, layout, at, len)?;
    let place = place_of(at, slots, layout);
    check_first::<H, S>(source, &place)?;
    Ok((slots, items))
}

// Reads and checks the header of a table of `len` bytes.
fn header_counts<S: ReadAt>(
    source: &S,
    layout: Layout,
    at: u64,
    len: usize,
) -> Result<(usize, usize), FileError>
    requires fits { at + len < 2 ^ 64 }
    ensures count { IfOk result (λ r. IsSlotCount r.0) }
    ensures long { IfOk result
        (λ r. image_len (entry_format layout.key_len layout.value_len) r.0 ≡ len) }
    ensures given { (hash : List ℕ → ℕ) (B : List ℕ) → S.gives source.now B → at + len ≤ length B
        → (let F = format_of layout.key_len layout.value_len hash in let T = bytes_at B at len
        in IsFileResult (S.fails source.now) (option_map DynError.Rejected (opening_refusal F T))
        (λ r. (header_slots T ≡ r.0) × (header_count T ≡ r.1)) result) }
{
    if len < HEADER_SIZE {
        return Err(FileError::Table(DynError::Rejected(Error::TooShort { found: len })));
    }
    let mut bytes = [0; HEADER_SIZE];
    match read_exact_at(source, at, &mut bytes) {
        Ok(()) => {}
        Err(error) => return Err(FileError::Read(error)),
    }
    let header = Header::of(&bytes);
    match header.check_layout(layout, len) {
        Ok(()) => Ok((header.slot_count(), header.item_count())),
        Err(rejected) => Err(FileError::Table(DynError::Rejected(rejected))),
    }
}

/// The lengths that the header of a table of `len` bytes states. The header is read and checked.
pub(super) fn stated_lengths<S: ReadAt>(
    source: &S,
    at: u64,
    len: usize,
) -> Result<Layout, FileError>
    requires fits { at + len < 2 ^ 64 }
    ensures given { (hash : List ℕ → ℕ) (B : List ℕ) → S.gives source.now B → at + len ≤ length B
        → (let T = bytes_at B at len in IsFileResult (S.fails source.now)
        (option_map DynError.Rejected (opening_refusal (stated_format hash T) T))
        (λ l. (l.key_len ≡ slice_index T 5) × (l.value_len ≡ slice_index T 6)) result) }
{
    if len < HEADER_SIZE {
        return Err(FileError::Table(DynError::Rejected(Error::TooShort { found: len })));
    }
    let mut front = [0; HEADER_SIZE];
    match read_exact_at(source, at, &mut front) {
        Ok(()) => {}
        Err(error) => return Err(FileError::Read(error)),
    }
    let header = Header::of(&front);
    let layout = header.layout();
    match header.check_layout(layout, len) {
        Ok(()) => Ok(layout),
        Err(rejected) => Err(FileError::Table(DynError::Rejected(rejected))),
    }
}

// Reads the first sixteen slots, and checks the first ten as opening does.
fn check_first<H: HashFn, S: ReadAt>(source: &S, place: &ReadPlace) -> Result<(), FileError>
    requires slots { IsSlotCount place.now.slots }
    requires fits { IsPlaceFitting place.now }
    requires hashes { H.MIN_LEN ≤ place.now.layout.key_len }
    ensures given { let F = format_of place.now.layout.key_len place.now.layout.value_len H.hash
        in (B : List ℕ) → S.gives source.now B → IsHeldBy place.now B
        → IsFileResult (S.fails source.now) (option_map DynError.Rejected
        (hashes_refusal F (read_entries place.now B).bytes (read_controls place.now B) 10))
        (λ _. ⊤) result }
{
    let mut control = [0; 32];
    match read_exact_at(source, place.control_at, &mut control) {
        Ok(()) => {}
        Err(error) => return Err(FileError::Read(error)),
    }
    let mut bytes = [0; MOST_ENTRIES];
    let (entries, _) = bytes.split_at_mut(FIRST_SLOTS * place.layout.entry_len());
    match read_exact_at(source, place.entries_at, entries) {
        Ok(()) => {}
        Err(error) => return Err(FileError::Read(error)),
    }
    let first = DynRawTable::<H>::new(&control, &*entries, FIRST_SLOTS, place.layout);
    match first.sanity_check_hashes(SLOTS_TO_CHECK) {
        Ok(()) => Ok(()),
        Err(rejected) => Err(FileError::Table(DynError::Rejected(rejected))),
    }
}

/// The value of a key, and how many groups of control bytes were read.
pub(super) fn find_read<H: HashFn, S: ReadAt>(
    source: &S,
    place: &ReadPlace,
    key: &[u8],
) -> Result<(Option<ShortBytes>, usize), ReadError>
    requires slots { IsSlotCount place.now.slots }
    requires fits { IsPlaceFitting place.now }
    requires key { length key.now ≡ place.now.layout.key_len }
    requires hashes { H.MIN_LEN ≤ place.now.layout.key_len }
    ensures few { IfOk result (λ r. r.1 ≤ place.now.slots / 16) }
    ensures given { let F = format_of place.now.layout.key_len place.now.layout.value_len H.hash
        in (B : List ℕ) → S.gives source.now B → IsHeldBy place.now B
        → MatchResult result (IsCountedFind F (λ b. b) (read_parts place.now B) key.now)
        (S.fails source.now) }
{
    match search_read::<S, H>(source, place, key) {
        Ok((Search::Found(slot), groups)) => match read_value(source, place, slot) {
            Ok(value) => Ok((Some(value), groups)),
            Err(error) => Err(error),
        },
        Ok((Search::Free(_), groups)) => Ok((None, groups)),
        Ok((Search::Neither, groups)) => Ok((None, groups)),
        Err(error) => Err(error),
    }
}

// The value of a slot.
fn read_value<S: ReadAt>(
    source: &S,
    place: &ReadPlace,
    slot: usize,
) -> Result<ShortBytes, ReadError>
    requires slot { slot < place.now.slots }
    requires slots { IsSlotCount place.now.slots }
    requires fits { IsPlaceFitting place.now }
    ensures given { (B : List ℕ) → S.gives source.now B → IsHeldBy place.now B
        → MatchResult result (λ v. v ≡ read_slot_value place.now B slot) (S.fails source.now) }
{
    let layout = place.layout;
    let entry_at = place.entries_at + slot as u64 * layout.entry_len() as u64;
    let mut bytes = [0; 255];
    let (value, _) = bytes.split_at_mut(layout.value_len as usize);
    read_exact_at(source, entry_at + layout.key_len as u64, value)?;
    Ok(ShortBytes::of(&*value))
}
