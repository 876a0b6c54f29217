//! Raw tables with many slots, up to the last free one.
ghost use Rattle.odht_base.specs.Load.{IsSlotCount};

use crate::tests::checks::holds_at;
use crate::tests::slot_counts::slots_for;
use odht::FxHashFn;
use odht::error::Error;
use odht::raw_table::{Entries, RawTable, RawTableMut};
use std::alloc::Global;
use std::process::Abort;

// So many bytes of one value.
fn bytes_of(rt: &impl Abort, alloc: Global, byte: u8, len: usize) -> Vec<u8> {
    vec![in alloc; byte; len].expect(rt, "memory")
}

// The value of a number, of which there are two.
fn value(number: u16, is_second: bool) -> [u8; 2] {
    let [low, high] = number.to_le_bytes();
    if is_second {
        [low, low.wrapping_add(1)]
    } else {
        [low, high]
    }
}

// Inserts each number of two bytes, which is new the first time and has its first value the second
// time.
fn insert_each(
    rt: &impl Abort,
    control: &mut [u8],
    entries: &mut [u8],
    slots: usize,
    is_second: bool,
)
    requires { IsSlotCount slots }
{
    assert!(rt; control.len() >= 16);
    assert!(rt; control.len() - 16 == slots);
    assert!(rt; entries.len() as u128 == slots as u128 * 4);
    let mut table: RawTableMut<'_, '_, [u8; 2], [u8; 2], FxHashFn> = RawTableMut::new(
        control, entries,
    );
    for number in 0..65536_u32 {
        let number = number as u16;
        let former = if is_second {
            Some(value(number, false))
        } else {
            None
        };
        let answer = table.insert(number.to_le_bytes(), value(number, is_second));
        holds_at(rt, "insert of", number as usize, answer == Ok(former));
    }
}

// Finds each number of two bytes with its value.
fn find_each(rt: &impl Abort, control: &[u8], entries: &[u8], slots: usize, is_second: bool)
    requires { IsSlotCount slots }
{
    assert!(rt; control.len() >= 16);
    assert!(rt; control.len() - 16 == slots);
    assert!(rt; entries.len() as u128 == slots as u128 * 4);
    let entries: Entries<'_, [u8; 2], [u8; 2]> = Entries::new(entries, slots);
    let table: RawTable<'_, [u8; 2], [u8; 2], FxHashFn> = RawTable::new(control, entries);
    for number in 0..65536_u32 {
        let number = number as u16;
        let found = table.find(&number.to_le_bytes());
        let is_so = found == Some(value(number, is_second));
        holds_at(rt, "lookup of", number as usize, is_so);
    }
}

#[test]
fn all_keys_of_two_bytes_in_as_many_slots(rt: HostRuntime) {
    let mut control = bytes_of(&rt, rt.alloc(), 255, 65552);
    let mut entries = bytes_of(&rt, rt.alloc(), 0, 262144);
    let slots = slots_for(&rt, 65535);
    insert_each(
        &rt,
        control.as_mut_slice(),
        entries.as_mut_slice(),
        slots,
        false,
    );
    for (index, byte) in control.iter().enumerate() {
        holds_at(&rt, "control byte", index, *byte < 128);
    }
    find_each(&rt, control.as_slice(), entries.as_slice(), slots, false);
}

#[test]
fn stress(rt: HostRuntime) {
    let mut control = bytes_of(&rt, rt.alloc(), 255, 131088);
    let mut entries = bytes_of(&rt, rt.alloc(), 0, 524288);
    let slots = slots_for(&rt, 131070);
    insert_each(
        &rt,
        control.as_mut_slice(),
        entries.as_mut_slice(),
        slots,
        false,
    );
    find_each(&rt, control.as_slice(), entries.as_slice(), slots, false);
    insert_each(
        &rt,
        control.as_mut_slice(),
        entries.as_mut_slice(),
        slots,
        true,
    );
    find_each(&rt, control.as_slice(), entries.as_slice(), slots, true);
}

// Inserts the keys of four bytes from 0 to 65,535, and then one more, which fails.
fn insert_past_the_last(rt: &impl Abort, control: &mut [u8], entries: &mut [u8], slots: usize)
    requires { IsSlotCount slots }
{
    assert!(rt; control.len() >= 16);
    assert!(rt; control.len() - 16 == slots);
    assert!(rt; entries.len() as u128 == slots as u128 * 8);
    let mut table: RawTableMut<'_, '_, [u8; 4], [u8; 4], FxHashFn> = RawTableMut::new(
        control, entries,
    );
    for number in 0..65536_u32 {
        let bytes = number.to_le_bytes();
        let is_new = table.insert(bytes, bytes) == Ok(None);
        holds_at(rt, "insert of", number as usize, is_new);
    }
    let bytes = 65536_u32.to_le_bytes();
    assert!(rt; table.insert(bytes, bytes) == Err(Error::Full));
}

// The lookup of this key returns None after all 4,096 groups.
fn check_absent(rt: &impl Abort, control: &[u8], entries: &[u8], slots: usize, key: u32)
    requires { IsSlotCount slots }
{
    assert!(rt; control.len() >= 16);
    assert!(rt; control.len() - 16 == slots);
    assert!(rt; entries.len() as u128 == slots as u128 * 8);
    let entries: Entries<'_, [u8; 4], [u8; 4]> = Entries::new(entries, slots);
    let table: RawTable<'_, [u8; 4], [u8; 4], FxHashFn> = RawTable::new(control, entries);
    let found = table.find_counted(&key.to_le_bytes());
    assert!(rt; found == (None, 4096));
}

#[test]
fn a_key_that_a_full_table_has_not(rt: HostRuntime) {
    let mut control = bytes_of(&rt, rt.alloc(), 255, 65552);
    let mut entries = bytes_of(&rt, rt.alloc(), 0, 524288);
    let slots = slots_for(&rt, 65535);
    insert_past_the_last(&rt, control.as_mut_slice(), entries.as_mut_slice(), slots);
    check_absent(&rt, control.as_slice(), entries.as_slice(), slots, 65536);
}
