//! The names of `raw_table` as the port promises them (`base` says how). The tables have 16 slots,
//! keys and values of four bytes, and the key as its hash.
ghost use Rattle.std.specs.Prelude.{◌≡◌};
ghost use Rattle.odht_base.specs.Load.{IsSlotCount};

use crate::base::is_plain_value;
use crate::checks::{same, same_bytes, same_len, slots_for};
use odht::error::Error;
use odht::hash::UnHashFn;
use odht::raw_table::{
    Entries, Entry, EntryMetadata, ProbeSeq, RawIter, RawTable, RawTableMut, Scan, Search,
    plain_find, plain_insert, probe_order, search,
};
use odht::swisstable_group_query::{Group, lanes, no_simd};
use std::fmt::Debug;
use std::process::Abort;

type Bytes = [u8; 4];

const NO_SLOT: [EntryMetadata; 32] = [255_u8; 32];

// Slot 15 has the key 15 and the value 1; slot 0 has the key 31, whose home is 15 too, and the
// value 2.
const CONTROL: [EntryMetadata; 32] = [
    0, 255, 255, 255, 255, 255, 255, 255, 255, 255, 255, 255, 255, 255, 255, 0, 0, 255, 255, 255,
    255, 255, 255, 255, 255, 255, 255, 255, 255, 255, 255, 0,
];

const FIRST: Entry<Bytes, Bytes> = Entry {
    key: [31, 0, 0, 0],
    value: [2, 0, 0, 0],
};

const LAST: Entry<Bytes, Bytes> = Entry {
    key: [15, 0, 0, 0],
    value: [1, 0, 0, 0],
};

/// Sixteen, as a slot count.
pub fn sixteen(rt: &impl Abort) -> usize
    ensures count { IsSlotCount result }
    ensures value { result ≡ 16 }
{
    let slots = slots_for(rt, 15);
    same_len(rt, "slots", slots, 16);
    slots
}

// The bytes of their entries.
fn entry_bytes() -> [u8; 128] {
    let mut bytes = [0; 128];
    bytes[0] = 31;
    bytes[4] = 2;
    bytes[120] = 15;
    bytes[124] = 1;
    bytes
}

#[test]
fn entries(rt: HostRuntime) {
    is_plain_value::<Entry<Bytes, Bytes>>();
    let zeros: Entry<Bytes, Bytes> = Entry::default();
    let bytes = entry_bytes();
    let slots: usize = sixteen(&rt);
    let entries: Entries<'_, Bytes, Bytes> = Entries::new(&bytes, slots);
    let len: usize = entries.len();
    let last: Entry<Bytes, Bytes> = entries.get(15_usize);
    same(&rt, "slots", len, 16);
    same(&rt, "the last", last, LAST);
    same(&rt, "another", entries.get(1), zeros);
}

// The second group of sixteen slots is sixteen slots on.
#[test]
fn probe_positions(rt: HostRuntime) {
    let slots = slots_for(&rt, 31);
    same_len(&rt, "slots", slots, 32);
    let mask: usize = slots - 1;
    let mut probe: ProbeSeq<16> = ProbeSeq::<16>::new(37_usize, mask);
    let home: usize = probe.index();
    probe.advance(mask);
    let second: usize = probe.index();
    same(&rt, "the slots", (home, second), (5, 21));
}

#[test]
fn probe_orders(rt: HostRuntime) {
    let order: Result<Vec<usize>, Error> = probe_order(rt.alloc(), 14_usize, sixteen(&rt));
    let expected = [14, 15, 0, 1, 2, 3, 4, 5, 6, 7, 8, 9, 10, 11, 12, 13];
    let order = order.expect(&rt, "an order");
    same(&rt, "the order", order.as_slice(), expected.as_slice());
}

#[test]
fn scans(rt: HostRuntime) {
    let slots: usize = sixteen(&rt);
    let mut scan: Scan<'_> = Scan::new(&CONTROL, slots);
    let group: &[u8] = scan.group(15_usize);
    let groups: usize = scan.groups();
    let expected = [
        0, 0, 255, 255, 255, 255, 255, 255, 255, 255, 255, 255, 255, 255, 255, 255,
    ];
    same_bytes(&rt, "the group", group, &expected);
    same(&rt, "groups", groups, 1);
}

// Where the search for a key ends, and how many groups it reads.
fn searched<Q: Group>(rt: &impl Abort, key: &Bytes) -> (Search, usize) {
    let slots = sixteen(rt);
    let bytes = entry_bytes();
    let entries: Entries<'_, Bytes, Bytes> = Entries::new(&bytes, slots);
    let mut scan: Scan<'_> = Scan::new(&CONTROL, slots);
    let end: Search = search::<Bytes, Bytes, UnHashFn, Q>(&mut scan, &entries, key);
    (end, scan.groups())
}

// The slot of a search's end: it compiles only where there are no other ends.
fn slot_of(end: Search) -> Option<usize> {
    match end {
        Search::Found(slot) => Some(slot),
        Search::Free(slot) => Some(slot),
        Search::Neither => None,
    }
}

#[test]
fn searches(rt: HostRuntime) {
    is_plain_value::<Search>();
    let key = [31, 0, 0, 0];
    let (by_word, groups) = searched::<no_simd::GroupQuery>(&rt, &key);
    same(&rt, "by a word", (by_word, groups), (Search::Found(0), 1));
    let (by_lanes, groups) = searched::<lanes::GroupQuery>(&rt, &key);
    same(&rt, "by lanes", (by_lanes, groups), (Search::Found(0), 1));
    same(&rt, "the slot", slot_of(Search::Free(1_usize)), Some(1));
    same(&rt, "no slot", slot_of(Search::Neither), None);
}

fn is_debug<T: Debug>(_value: &T) {}

#[test]
fn raw_tables(rt: HostRuntime) {
    let bytes = entry_bytes();
    let entries: Entries<'_, Bytes, Bytes> = Entries::new(&bytes, sixteen(&rt));
    let plain: Option<Bytes> = plain_find::<Bytes, Bytes, UnHashFn>(&CONTROL, &entries, &FIRST.key);
    let table: RawTable<'_, Bytes, Bytes, UnHashFn> = RawTable::new(&CONTROL, entries);
    is_debug(&table);
    let value: Option<Bytes> = table.find(&FIRST.key);
    let checked: Result<(), Error> = table.sanity_check_hashes(10_usize);
    same(&rt, "plain_find", plain, Some(FIRST.value));
    same(&rt, "find", value, Some(FIRST.value));
    same(&rt, "sanity_check_hashes", checked, Ok(()));
}

#[test]
fn raw_walks(rt: HostRuntime) {
    let slots = sixteen(&rt);
    let bytes = entry_bytes();
    let entries: Entries<'_, Bytes, Bytes> = Entries::new(&bytes, slots);
    let table: RawTable<'_, Bytes, Bytes, UnHashFn> = RawTable::new(&CONTROL, entries);
    let mut walk: RawIter<'_, Bytes, Bytes> = table.iter();
    let first: Option<(EntryMetadata, Entry<Bytes, Bytes>)> = walk.next();
    let entries: Entries<'_, Bytes, Bytes> = Entries::new(&bytes, slots);
    let again: RawIter<'_, Bytes, Bytes> = RawIter::new(&CONTROL, entries);
    same(&rt, "the first", first, Some((0, FIRST)));
    same(&rt, "the last", again.last(), Some((0, LAST)));
}

// Inserts one pair by groups and one slot by slot, and returns both results.
fn insert_two(
    rt: &impl Abort,
    control: &mut [EntryMetadata],
    entries: &mut [u8],
) -> [Result<Option<Bytes>, Error>; 2] {
    let slots = sixteen(rt);
    assert!(rt; control.len() >= 16);
    assert!(rt; control.len() - 16 == slots);
    assert!(rt; entries.len() == slots * 8);
    let mut table: RawTableMut<'_, '_, Bytes, Bytes, UnHashFn> = RawTableMut::new(control, entries);
    is_debug(&table);
    let by_groups: Result<Option<Bytes>, Error> = table.insert(LAST.key, LAST.value);
    let plainly: Result<Option<Bytes>, Error> = plain_insert::<Bytes, Bytes, UnHashFn>(
        control,
        entries,
        FIRST.key,
        FIRST.value,
    );
    [by_groups, plainly]
}

#[test]
fn raw_inserts(rt: HostRuntime) {
    let (mut control, mut entries) = (NO_SLOT, [0_u8; 128]);
    let results = insert_two(&rt, &mut control, &mut entries);
    same(&rt, "results", results, [Ok(None), Ok(None)]);
    same_bytes(&rt, "the control bytes", &control, &CONTROL);
    same_bytes(&rt, "the entries", &entries, &entry_bytes());
}
