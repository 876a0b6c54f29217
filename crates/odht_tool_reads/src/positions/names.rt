//! The hash function of a table that is read by position: the one that the first groups of slots
//! leave, or that they leave none.
ghost use Rattle.std.specs.Prelude.{◌≡◌, ◌≤◌, ◌<◌, ◌+◌, ◌*◌, ◌^◌, ℕ, List, length, is_some};
ghost use Rattle.std.specs.Prelude.{◌&&◌, IfErr, IfOk, IfSome, None, OnSome, slice_index};
ghost use Rattle.odht_base.specs.Bytes.{bytes_at};
ghost use Rattle.odht_base.specs.Decoded.{header_slots};
ghost use Rattle.odht_raw.specs.Reads.{IsPlaceFitting};
ghost use Rattle.odht.specs.Files.{table_place};
ghost use Rattle.odht_header.specs.Refusals.{control_mismatch};
ghost use Rattle.odht_tool_core.specs.InfoNumbers.{agrees, info_refusal, least_key_len, file_format};
ghost use Rattle.odht_tool_core.specs.ReadyShapes.{hash_of};
ghost use Rattle.odht_tool_reads.specs.Positions.{AreNoneLeft, HasNoHash, IsLeft, IsNamed, IsStartOf};
ghost use Rattle.odht_tool_reads.specs.Positions.{slots_parts};

use super::Start;
use odht::dynamic::Layout;
use odht::hash::HashFn;
use odht::memory_layout::{HEADER_SIZE, Header};
use odht::raw_table::{ReadPlace, tag_of};
use odht::read_at::{ReadAt, read_exact_at};
use odht::swisstable_group_query::is_empty_or_deleted;
use odht::{FxHashFn, UnHashFn, Xxh64HashFn};
use odht_tool_core::failure::Failure;
use odht_tool_core::shapes::Hash;

/// How many slots are read at once.
const GROUP: usize = 16;

/// The most bytes that the entries of these slots have.
const MOST_ENTRIES: usize = 8160;

/// How many groups are read before all bytes are.
const MOST_GROUPS: usize = 64;

/// Which hash functions some slots fit.
#[derive(Clone, Copy)]
struct Fitting {
    fx: bool,
    unhash: bool,
    xxh64: bool,
}

impl Fitting {
    // Those that both fit.
    fn and(self, other: Fitting) -> Fitting
        ensures fx { result.fx ≡ (self.fx && other.fx) }
        ensures unhash { result.unhash ≡ (self.unhash && other.unhash) }
        ensures xxh64 { result.xxh64 ≡ (self.xxh64 && other.xxh64) }
    {
        Fitting {
            fx: self.fx && other.fx,
            unhash: self.unhash && other.unhash,
            xxh64: self.xxh64 && other.xxh64,
        }
    }
}

/// The hash function that is to be named for a table, none where it has no items: the one that is
/// named, or the one that is left when the first groups of slots exclude the others. None where
/// they leave several, or a read failed, or the table has no items and there is a default for such a
/// table. `NoHash` where they leave none.
pub(super) fn named_or_left_hash<S: ReadAt>(
    source: &S,
    start: &Start,
    hash: Option<Hash>,
    default: Option<Hash>,
) -> Result<Option<Option<Hash>>, Failure>
    requires fits { start.now.at + start.now.len < 2 ^ 64 }
    requires long { 32 ≤ start.now.len }
    ensures given { (B : List ℕ) → S.gives source.now B → IsStartOf B start.now
        → IfOk result (λ o. IfSome o
        (IsNamed (bytes_at B start.now.at start.now.len) hash default)) }
    ensures unfit { (B : List ℕ) → S.gives source.now B → IsStartOf B start.now
        → IfErr result (λ f. (hash ≡ None)
        × HasNoHash (bytes_at B start.now.at start.now.len) default f) }
{
    match hash {
        Some(_) => Ok(Some(hash)),
        None => {
            if Header::of(&start.header).item_count() == 0 {
                return if default.is_none() {
                    Ok(Some(None))
                } else {
                    Ok(None)
                };
            }
            match left_hash(source, start)? {
                Some(hash) => Ok(Some(Some(hash))),
                None => Ok(None),
            }
        }
    }
}

// The hash function that is left when the first groups of slots exclude the others. None where more
// may be left, and `NoHash` where none is.
fn left_hash<S: ReadAt>(source: &S, start: &Start) -> Result<Option<Hash>, Failure>
    requires fits { start.now.at + start.now.len < 2 ^ 64 }
    requires long { 32 ≤ start.now.len }
    ensures given { (B : List ℕ) → S.gives source.now B → IsStartOf B start.now
        → IfOk result (λ o. IfSome o (IsLeft (bytes_at B start.now.at start.now.len))) }
    ensures unfit { (B : List ℕ) → S.gives source.now B → IsStartOf B start.now
        → IfErr result (AreNoneLeft (bytes_at B start.now.at start.now.len)) }
{
    let Some(place) = place_of(start) else {
        return Ok(None);
    };
    let mut left = Fitting {
        fx: true,
        unhash: true,
        xxh64: true,
    };
    for group in 0..(place.slots / GROUP).min(MOST_GROUPS) {
        let Some(fitting) = group_fits(source, &place, group * GROUP) else {
            return Ok(None);
        };
        left = left.and(fitting);
        match (left.fx, left.unhash, left.xxh64) {
            (true, false, false) => return Ok(Some(Hash::Fx)),
            (false, true, false) => return Ok(Some(Hash::Unhash)),
            (false, false, true) => return Ok(Some(Hash::Xxh64)),
            (false, false, false) => return Err(no_hash(&start.header)),
            _ => {}
        }
    }
    Ok(None)
}

// What is said of a table of this header where its slots fit no hash function.
fn no_hash(header: &[u8]) -> Failure
    requires { length header.now ≡ 32 }
    ensures { result ≡ Failure.NoHash (slice_index header.now 5) (slice_index header.now 6) }
{
    let header = Header::of(header);
    Failure::NoHash {
        key_size: header.key_size(),
        value_size: header.value_size(),
    }
}

// Where the parts of the table are, where its header and its length fit.
fn place_of(start: &Start) -> Option<ReadPlace>
    requires fits { start.now.at + start.now.len < 2 ^ 64 }
    ensures place { IfSome result (λ p. p ≡ table_place start.now.at
        (header_slots start.now.header) (slice_index start.now.header 5)
        (slice_index start.now.header 6)) }
    ensures long { IfSome result (λ p. 32 + p.slots * (p.layout.key_len + p.layout.value_len)
        + p.slots + 16 ≡ start.now.len) }
    ensures opens { (B : List ℕ) → IsStartOf B start.now → 32 ≤ start.now.len
        → OnSome result (info_refusal (bytes_at B start.now.at start.now.len) ≡ None) }
{
    let header = Header::of(&start.header);
    let layout = header.layout();
    match header.check_layout(layout, start.len) {
        Ok(()) => {}
        Err(_) => return None,
    }
    let slots = header.slot_count();
    let entries_at = start.at + HEADER_SIZE as u64;
    let control_at = entries_at + (slots * layout.entry_len()) as u64;
    Some(ReadPlace {
        entries_at,
        control_at,
        slots,
        layout,
    })
}

// Which hash functions the sixteen slots from one on fit.
fn group_fits<S: ReadAt>(source: &S, place: &ReadPlace, first: usize) -> Option<Fitting>
    requires within { first + 16 ≤ place.now.slots }
    requires fits { IsPlaceFitting place.now }
    ensures given { let k = place.now.layout.key_len in let v = place.now.layout.value_len
        in (B : List ℕ) → S.gives source.now B → (let T = slots_parts k v
        (bytes_at B (place.now.entries_at + first * (k + v)) (16 * (k + v)))
        (bytes_at B (place.now.control_at + first) 16)
        in IfSome result (λ r. (r.fx ≡ agrees T Hash.Fx) × (r.unhash ≡ agrees T Hash.Unhash)
        × (r.xxh64 ≡ agrees T Hash.Xxh64))) }
{
    let layout = place.layout;
    let mut control = [0; GROUP];
    read_exact_at(source, place.control_at + first as u64, &mut control).ok()?;
    let entries_at = place.entries_at + first as u64 * layout.entry_len() as u64;
    let mut bytes = [0; MOST_ENTRIES];
    let (entries, _) = bytes.split_at_mut(GROUP * layout.entry_len());
    read_exact_at(source, entries_at, entries).ok()?;
    Some(Fitting {
        fx: fits(&control, &*entries, layout, Hash::Fx),
        unhash: fits(&control, &*entries, layout, Hash::Unhash),
        xxh64: fits(&control, &*entries, layout, Hash::Xxh64),
    })
}

// Whether the keys are long enough for a hash function, and each occupied slot of sixteen has the
// tag of its key by it.
fn fits(control: &[u8], entries: &[u8], layout: Layout, hash: Hash) -> bool
    requires control { length control.now ≡ 16 }
    requires entries { length entries.now ≡ 16 * (layout.key_len + layout.value_len) }
    ensures { result ≡ agrees (slots_parts layout.key_len layout.value_len entries.now control.now)
        hash }
{
    if (layout.key_len as usize) < least_len(hash) {
        return false;
    }
    for slot in 0..GROUP {
        if is_mismatch(control, entries, layout, hash, slot) {
            return false;
        }
    }
    true
}

// Whether a slot is occupied, and its control byte is not the tag of its key.
fn is_mismatch(control: &[u8], entries: &[u8], layout: Layout, hash: Hash, slot: usize) -> bool
    requires slot { slot < 16 }
    requires control { length control.now ≡ 16 }
    requires entries { length entries.now ≡ 16 * (layout.key_len + layout.value_len) }
    requires long { least_key_len hash ≤ layout.key_len }
    ensures { let T = slots_parts layout.key_len layout.value_len entries.now control.now
        in result ≡ is_some (control_mismatch (file_format T hash) T.entries T.control slot) }
{
    let control = control[slot];
    let at = slot * layout.entry_len();
    let key = &entries[at..at + layout.key_len as usize];
    !is_empty_or_deleted(control) && control != tag_of(hash_key(key, hash))
}

// How many bytes the hash function needs at least.
fn least_len(hash: Hash) -> usize
    ensures { result ≡ least_key_len hash }
{
    match hash {
        Hash::Fx => FxHashFn::MIN_LEN,
        Hash::Unhash => UnHashFn::MIN_LEN,
        Hash::Xxh64 => Xxh64HashFn::MIN_LEN,
    }
}

// The hash of a key.
fn hash_key(key: &[u8], hash: Hash) -> u32
    requires { least_key_len hash ≤ length key.now }
    ensures { result ≡ hash_of hash key.now }
{
    match hash {
        Hash::Fx => FxHashFn::hash(key),
        Hash::Unhash => UnHashFn::hash(key),
        Hash::Xxh64 => Xxh64HashFn::hash(key),
    }
}
