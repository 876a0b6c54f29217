//! Inserts of items in turn into the parts of a table, eight at a time where the table is large.
//! The lengths of keys and values are types or numbers.
ghost use Rattle.std.specs.Prelude.{◌≡◌, ◌+◌, ◌-◌, ◌≤◌, length};
ghost use Rattle.odht_raw.specs.Words.{format_of, IsPairOf, Pair};
ghost use Rattle.odht_raw.specs.DynParts.{bytes_coding, parts_format};
ghost use Rattle.odht_raw.specs.Expected.{AreAhead};
ghost use Rattle.odht_raw.specs.PartLengths.{ArePartLengths};
ghost use Rattle.odht_raw.specs.Runs.{CanRun, IsRun, IsRunUpTo};
ghost use Rattle.odht_raw.specs.SearchResults.{answer};
ghost use Rattle.odht_raw.specs.Steps.{IsCountedStep, IsTaggedEnd};

use super::parts::read_parts;
use super::writes::write_at_end;
use super::{EntryMetadata, Parts, Search};
use crate::hash::HashFn;
use crate::items::EncodedItems;
use crate::layout::Lengths;
use crate::memory_layout::prove_bytes;
use crate::swisstable_group_query::GroupQuery;

// How many keys are looked up ahead.
const BATCH: usize = 8;

// The least slot count at which keys are looked up ahead. The control bytes of smaller tables are
// in a near cache.
const LARGE: usize = 1 << 20;

/// Inserts the items from index `from` on in turn, with room for `room` new entries, and stops at
/// the first item that does not fit or is rejected with `Full`. Returns the index after the last
/// item that was inserted, and how many entries were added.
// It takes the items by value: the address of the list goes to no function that is not inlined,
// and so the compiler keeps the list in registers.
#[inline(always)]
pub(crate) fn insert_run<L: Lengths, H: HashFn, I: EncodedItems>(
    control: &mut [EntryMetadata],
    entries: &mut [u8],
    slots: usize,
    lengths: L,
    items: I,
    from: usize,
    room: usize,
) -> (usize, usize)
    requires slots { slots ≡ length control.old - 16 }
    requires can { CanRun H.MIN_LEN (L.key_len lengths) (L.value_len lengths) (I.key_len items)
        (I.value_len items) (entries.old, control.old) (I.items items) from }
    ensures { let F = format_of (L.key_len lengths) (L.value_len lengths) H.hash
        in IsRun (I.fits items) (bytes_coding F) room (entries.old, control.old) (I.items items)
        from result (entries.new, control.new) }
{
    if slots >= LARGE {
        return insert_in_batches::<L, H, I>(control, entries, slots, lengths, items, from, room);
    }
    insert_in_turn::<L, H, I>(control, entries, slots, lengths, &items, from, room)
}

// `insert_run`, an item at a time. It keeps the room that is left, and no second number.
#[inline(always)]
fn insert_in_turn<L: Lengths, H: HashFn, I: EncodedItems>(
    control: &mut [EntryMetadata],
    entries: &mut [u8],
    slots: usize,
    lengths: L,
    items: &I,
    from: usize,
    room: usize,
) -> (usize, usize)
    requires slots { slots ≡ length control.old - 16 }
    requires can { CanRun H.MIN_LEN (L.key_len lengths) (L.value_len lengths) (I.key_len items.now)
        (I.value_len items.now) (entries.old, control.old) (I.items items.now) from }
    ensures { let F = format_of (L.key_len lengths) (L.value_len lengths) H.hash
        in IsRun (I.fits items.now) (bytes_coding F) room (entries.old, control.old)
        (I.items items.now) from result (entries.new, control.new) }
{
    let to = items.count();
    let mut left = room;
    for index in from..to {
        if !items.fits(index) {
            return (index, room - left);
        }
        let (key, value) = items.pair(index);
        let (key, value) = (I::key_bytes(&key), I::value_bytes(&value));
        let parts = read_parts::<L, H>(&*control, &*entries, slots, lengths);
        let end = parts.insert_end(key);
        let answer = write_counted::<L, H>(control, entries, slots, lengths, key, value, end, left);
        let Some(is_new) = answer else {
            return (index, room - left);
        };
        if is_new {
            left -= 1;
        }
    }
    (to, room - left)
}

// `insert_run`, in batches of eight items, and then the rest.
#[inline(never)]
fn insert_in_batches<L: Lengths, H: HashFn, I: EncodedItems>(
    control: &mut [EntryMetadata],
    entries: &mut [u8],
    slots: usize,
    lengths: L,
    items: I,
    from: usize,
    room: usize,
) -> (usize, usize)
    requires slots { slots ≡ length control.old - 16 }
    requires can { CanRun H.MIN_LEN (L.key_len lengths) (L.value_len lengths) (I.key_len items)
        (I.value_len items) (entries.old, control.old) (I.items items) from }
    ensures { let F = format_of (L.key_len lengths) (L.value_len lengths) H.hash
        in IsRun (I.fits items) (bytes_coding F) room (entries.old, control.old) (I.items items)
        from result (entries.new, control.new) }
{
    let items = &items;
    let to = items.count();
    let mut index = from;
    let mut added = 0;
    while to - index >= BATCH {
        let left = room - added;
        let (end, more) = insert_batch::<L, H, I>(
            control, entries, slots, lengths, items, index, left,
        );
        added += more;
        if end < index + BATCH {
            return (end, added);
        }
        index = end;
    }
    let left = room - added;
    let (end, more) = insert_in_turn::<L, H, I>(
        control, entries, slots, lengths, items, index, left,
    );
    (end, added + more)
}

// `insert_run` of the eight items from `from` on. Their slots are looked up first, and no look-up
// depends on another one.
#[inline(always)]
fn insert_batch<L: Lengths, H: HashFn, I: EncodedItems>(
    control: &mut [EntryMetadata],
    entries: &mut [u8],
    slots: usize,
    lengths: L,
    items: &I,
    from: usize,
    room: usize,
) -> (usize, usize)
    requires slots { slots ≡ length control.old - 16 }
    requires can { CanRun H.MIN_LEN (L.key_len lengths) (L.value_len lengths) (I.key_len items.now)
        (I.value_len items.now) (entries.old, control.old) (I.items items.now) (from + 8) }
    requires end { from + 8 ≤ usize.MAX }
    ensures { let F = format_of (L.key_len lengths) (L.value_len lengths) H.hash
        in IsRunUpTo (from + 8) (I.fits items.now) (bytes_coding F) room
        (entries.old, control.old) (I.items items.now) from result (entries.new, control.new) }
{
    let parts = read_parts::<L, H>(&*control, &*entries, slots, lengths);
    let ahead = look_ahead::<L, H, I>(&parts, items, from);
    let mut added = 0;
    for offset in 0..BATCH {
        let index = from + offset;
        if !items.fits(index) {
            return (index, added);
        }
        let (key, value) = items.pair(index);
        let (key, value) = (I::key_bytes(&key), I::value_bytes(&value));
        let (hash, slot) = ahead[offset];
        let left = room - added;
        let parts = read_parts::<L, H>(&*control, &*entries, slots, lengths);
        let end = parts.expected_end(key, hash, slot, left);
        let answer = write_counted::<L, H>(control, entries, slots, lengths, key, value, end, left);
        let Some(is_new) = answer else {
            return (index, added);
        };
        if is_new {
            added += 1;
        }
    }
    (from + BATCH, added)
}

// The hashes of the keys of the eight items from `from` on, and the slots where their searches are
// expected to end. Nothing is looked up for an item that does not fit.
#[inline(always)]
fn look_ahead<L: Lengths, H: HashFn, I: EncodedItems>(
    parts: &Parts<'_, L, H>,
    items: &I,
    from: usize,
) -> [(u32, usize); 8]
    requires key { I.key_len items.now ≡ parts.now.key_len }
    requires end { from + 8 ≤ usize.MAX }
    requires within { from + 8 ≤ length (I.items items.now) }
    ensures { let F = parts_format parts.now H.hash
        in AreAhead (I.fits items.now) F parts.now.parts.control (I.items items.now) from result }
{
    let mut ahead = [(0, 0); 8];
    for offset in 0..BATCH {
        let index = from + offset;
        if items.fits(index) {
            let key = items.key(index);
            ahead[offset] = parts.expected_slot::<GroupQuery>(I::key_bytes(&key));
        }
    }
    ahead
}

// Writes a pair where the search for its key ended, which comes with the key's tag. Returns whether
// that adds an entry; None, with nothing changed, where the pair is rejected with `Full`. Each kind
// of end has a write of its own, so that the compiler goes from where a search ends to what is
// written there, with no second test of the kind.
#[inline(always)]
fn write_counted<L: Lengths, H: HashFn>(
    control: &mut [EntryMetadata],
    entries: &mut [u8],
    slots: usize,
    lengths: L,
    key: &[u8],
    value: &[u8],
    end: (Search, u8),
    room: usize,
) -> Option<bool>
    requires lengths { ArePartLengths H.MIN_LEN (L.key_len lengths) (L.value_len lengths)
        (length entries.old) (length control.old) }
    requires slots { slots ≡ length control.old - 16 }
    requires key { length key.now ≡ L.key_len lengths }
    requires value { length value.now ≡ L.value_len lengths }
    requires end { let F = format_of (L.key_len lengths) (L.value_len lengths) H.hash
        in IsTaggedEnd F room entries.old control.old key.now end }
    ensures step { let F = format_of (L.key_len lengths) (L.value_len lengths) H.hash
        in let p : Pair = record { key = key.now; value = value.now }
        in IsCountedStep (λ P. end.0 ≡ answer F P.cells p.key) F room (entries.old, control.old) p
        result (entries.new, control.new) }
    ensures pair { IsPairOf (format_of (L.key_len lengths) (L.value_len lengths) H.hash)
        (record { key = key.now; value = value.now }) }
{
    prove_bytes(key);
    prove_bytes(value);
    match end.0 {
        Search::Found(_) => {
            let ok = write_at_end::<L, H>(control, entries, slots, lengths, key, value, end, room);
            ok.then_some(false)
        }
        Search::Free(_) => {
            if !write_at_end::<L, H>(control, entries, slots, lengths, key, value, end, room) {
                return None;
            }
            Some(true)
        }
        Search::Neither => {
            let ok = write_at_end::<L, H>(control, entries, slots, lengths, key, value, end, room);
            ok.then_some(true)
        }
    }
}
