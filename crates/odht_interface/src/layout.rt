//! The names of `memory_layout` as the port promises them (`base` says how). The table is one of
//! u32 to u32, 16 slots at 87 percent.

use crate::checks::{same, same_bytes};
use crate::raw::sixteen;
use odht::bytes::{Borrowed, BorrowedMut, ByteStore, ByteStoreMut, OwnedBytes};
use odht::config::Config;
use odht::configs::U32ToU32;
use odht::error::Error;
use odht::load::Factor;
use odht::memory_layout::{
    Allocation, Entries, EntryMetadata, Header, allocate, bytes_needed, check_all, init_in_place,
};
use odht::raw_table::Entry;
use std::process::Abort;

// The header of such a table without items.
const HEADER: [u8; 32] = [
    79, 68, 72, 84, 1, 4, 4, 32, 0, 0, 0, 0, 0, 0, 0, 0, 16, 0, 0, 0, 0, 0, 0, 0, 0, 0, 0, 2, 0xb7,
    0xde, 0, 0,
];

#[test]
fn headers(rt: HostRuntime) {
    let bytes: &[u8] = &HEADER;
    let header: Header<'_> = Header::of(bytes);
    let checked: Result<(), Error> = header.sanity_check::<U32ToU32>(192_usize);
    let items: usize = header.item_count();
    let slots: usize = header.slot_count();
    let factor: Factor = header.max_load_factor();
    same(&rt, "sanity_check", checked, Ok(()));
    same(&rt, "the numbers", (items, slots), (0, 16));
    same(&rt, "the factor", factor, Factor(57015));
}

#[test]
fn lengths(rt: HostRuntime) {
    let len: Option<usize> = bytes_needed::<U32ToU32>(16_usize);
    let none: Option<usize> = bytes_needed::<U32ToU32>(1_usize << 63);
    let found: Result<(), Error> = check_all::<U32ToU32>(&HEADER);
    same(&rt, "bytes_needed", len, Some(192));
    same(&rt, "of too many slots", none, None);
    let wrong = Error::WrongLength {
        slot_count: 16,
        found: 32,
        expected: 192,
    };
    same(&rt, "check_all", found, Err(wrong));
}

// The three writing calls.
fn write<C: Config, M: ByteStoreMut>(
    rt: &impl Abort,
    table: &mut Allocation<C, M>,
    slot: usize,
    key: &C::EncodedKey,
    value: &C::EncodedValue,
    tag: EntryMetadata,
) {
    let header: Header<'_> = table.header();
    assert!(rt; slot < header.slot_count());
    table.write_entry(slot, key, value, tag);
    assert!(rt; slot < table.header().slot_count());
    table.write_value(slot, value);
    table.set_item_count(1_usize);
}

// The entry and the control byte of a slot.
fn slot_of<C: Config, M: ByteStore>(
    rt: &impl Abort,
    table: &Allocation<C, M>,
    slot: usize,
) -> (Entry<C::EncodedKey, C::EncodedValue>, EntryMetadata) {
    let (control, entries): (
        &[EntryMetadata],
        Entries<'_, C::EncodedKey, C::EncodedValue>,
    ) = table.data_slices();
    let slots: usize = entries.len();
    assert!(rt; slot < slots);
    let entry: Entry<C::EncodedKey, C::EncodedValue> = entries.get(slot);
    (entry, control[slot])
}

#[test]
fn allocated_tables(rt: HostRuntime) {
    let factor = Factor::from_percent(87);
    let made: Result<Allocation<U32ToU32, OwnedBytes>, Error> = allocate::<U32ToU32>(
        rt.alloc(),
        sixteen(&rt),
        0_usize,
        factor,
    );
    let mut table = made.expect(&rt, "a table");
    same(&rt, "bytes", table.raw_bytes().len(), 192);
    write(&rt, &mut table, 5, &[1, 0, 0, 0], &[2, 0, 0, 0], 0x13_u8);
    let (entry, control) = slot_of(&rt, &table, 5);
    let expected = Entry {
        key: [1, 0, 0, 0],
        value: [2, 0, 0, 0],
    };
    same(&rt, "the entry", entry, expected);
    same(&rt, "the control byte", control, 0x13);
    let checked: Result<(), Error> = check_all::<U32ToU32>(table.raw_bytes());
    same(&rt, "check_all", checked, Ok(()));
}

#[test]
fn opened_bytes(rt: HostRuntime) {
    let slots = sixteen(&rt);
    let made: Result<Allocation<U32ToU32, OwnedBytes>, Error> = allocate(
        rt.alloc(),
        slots,
        0,
        Factor(57015),
    );
    let table = made.expect(&rt, "a table");
    let bytes: &[u8] = table.raw_bytes();
    let opened: Result<Allocation<U32ToU32, Borrowed<'_>>, Error> = Allocation::from_raw_bytes(
        Borrowed::new(bytes),
    );
    same_bytes(
        &rt,
        "opened",
        opened.expect(&rt, "a table").raw_bytes(),
        bytes,
    );
    let unchecked: Allocation<U32ToU32, Borrowed<'_>> = Allocation::from_raw_bytes_unchecked(
        Borrowed::new(bytes),
    );
    same_bytes(&rt, "unchecked", unchecked.raw_bytes(), bytes);
}

// A new table in a store that is long enough.
fn made<C: Config, M: ByteStoreMut>(rt: &impl Abort, data: M, factor: Factor) -> Allocation<C, M> {
    let slots: usize = sixteen(rt);
    let needed = bytes_needed::<C>(slots);
    assert!(rt; needed == Some(data.bytes().len()));
    let table: Allocation<C, M> = init_in_place::<C, M>(data, slots, 0_usize, factor);
    table
}

#[test]
fn tables_in_place(rt: HostRuntime) {
    let mut room = [7; 192];
    let table: Allocation<U32ToU32, BorrowedMut<'_>> = made(
        &rt,
        BorrowedMut::new(&mut room),
        Factor(57015),
    );
    same(&rt, "items", table.header().item_count(), 0);
    same(
        &rt,
        "check_all",
        check_all::<U32ToU32>(table.raw_bytes()),
        Ok(()),
    );
}
