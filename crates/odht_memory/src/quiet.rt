//! Calls that take no memory.
ghost use Rattle.std.specs.Prelude.{◌≡◌, length};

use crate::report::{Report, Table, insert_thirteen, value_of};
use odht::bytes::{BorrowedMut, ByteArray, ByteStore};
use odht::configs::DirectU32ToU32;
use odht::error::Error;
use odht::hash::{FxHashFn, HashFn, UnHashFn};
use odht::load::{Factor, max_item_count_for, slots_needed};
use odht::memory_layout::{self, DEFAULT_GROUPS, check_all, check_all_within};
use odht::swisstable_group_query::{Group, lanes, no_simd};
use odht::{HashTable, bytes_needed};
use std::alloc::Global;

fn number(size: Option<usize>) -> Option<u64> {
    size.map(|size| size as u64)
}

/// A table that owns its bytes: inserts up to its maximum, and at the maximum of present keys.
/// Making it is one request.
pub fn below_the_maximum(alloc: Global, report: &mut Report) {
    let made = Table::with_capacity(alloc, 13, 87);
    report.result("with_capacity", &made);
    let Ok(mut table) = made else {
        return;
    };
    report.number("inserted", insert_thirteen(&mut table));
    report.number("overwritten", insert_thirteen(&mut table));
    let (accepted, result) = table.insert_all(&[(0, 100), (12, 112)]);
    report.result("insert_all", &result);
    report.size("accepted", accepted);
    tell_read(&table, report);
    report.table(&table);
    report.size("bytes given up", table.into_raw_bytes().len());
}

// Adds what the calls that read a table return.
fn tell_read(table: &Table, report: &mut Report) {
    let (value, groups) = table.get_counted(&12);
    report.value("the value of 12", value);
    report.size("groups read", groups);
    report.holds("13 is there", table.contains_key(&13));
    report.size("walked", table.iter().count());
    let all = table.iter().all(|(key, value)| value == value_of(key));
    report.holds("each with its value", all);
    tell_checked(table.raw_bytes(), report);
}

/// A full table that is emptied, and filled again in the memory that it has. Making it is one
/// request.
pub fn clear(alloc: Global, report: &mut Report) {
    let made = Table::with_capacity(alloc, 13, 87);
    report.result("with_capacity", &made);
    let Ok(mut table) = made else {
        return;
    };
    report.number("inserted", insert_thirteen(&mut table));
    table.clear();
    report.table(&table);
    report.number("inserted", insert_thirteen(&mut table));
    report.table(&table);
}

/// An order of inserts, of a table in which the key 31 waits for 15. Making it is one request.
pub fn insert_order(alloc: Global, report: &mut Report) {
    let made = Table::with_capacity(alloc, 13, 87);
    report.result("with_capacity", &made);
    let Ok(mut table) = made else {
        return;
    };
    let (accepted, result) = table.insert_all(&[(15, 115), (31, 131)]);
    report.result("insert_all", &result);
    report.size("accepted", accepted);
    let mut slots = [0; 16];
    if let Some(order) = slots.get_mut(..table.len()) {
        report.holds("there is an order", table.insert_order(order));
    }
    for slot in slots.iter().take(accepted) {
        report.size("slot", *slot);
    }
}

type View<'a> = HashTable<DirectU32ToU32, BorrowedMut<'a>>;

/// A view, from making it in a buffer to taking its store back.
pub fn view(report: &mut Report) {
    let mut bytes = [7; 192];
    let made: Result<View<'_>, Error> = HashTable::init_in_place(
        BorrowedMut::new(&mut bytes),
        13,
        87,
    );
    report.result("init_in_place", &made);
    let Ok(mut view) = made else {
        return;
    };
    report.result("insert", &view.insert(&5, &7));
    let (accepted, result) = view.insert_all(&[(6, 106), (5, 105)]);
    report.result("insert_all", &result);
    report.size("accepted", accepted);
    open_again(view.into_data(), report);
}

// Opens the bytes of a view in each way.
fn open_again(bytes: BorrowedMut<'_>, report: &mut Report) {
    let opened: Result<View<'_>, Error> = HashTable::from_raw_bytes(bytes);
    report.result("from_raw_bytes", &opened);
    let Ok(view) = opened else {
        return;
    };
    let view: View<'_> = HashTable::from_raw_bytes_unchecked(view.into_data());
    tell_view(&view, report);
    let opened: Result<View<'_>, Error> = HashTable::from_raw_bytes_by_header(view.into_data());
    report.result("from_raw_bytes_by_header", &opened);
}

// Adds what the calls that read a view return.
fn tell_view<D: ByteStore>(view: &HashTable<DirectU32ToU32, D>, report: &mut Report) {
    report.value("the value of 5", view.get(&5));
    let (value, groups) = view.get_counted(&6);
    report.value("the value of 6", value);
    report.size("groups read", groups);
    report.holds("7 is there", view.contains_key(&7));
    report.size("items", view.len());
    report.size("walked", view.iter().count());
    let found = view.as_raw().find(&[5, 0, 0, 0]);
    report.value("the raw value of 5", found.map(u32::from_le_bytes));
    report.holds("verify", view.verify());
    report.holds("verify_within", view.verify_within(1));
    report.holds("searches_within", view.searches_within(1));
    report.holds("within no group", view.searches_within(0));
    tell_checked(view.raw_bytes(), report);
}

fn tell_checked(bytes: &[u8], report: &mut Report) {
    report.result("check_all", &check_all::<DirectU32ToU32>(bytes));
    let within = check_all_within::<DirectU32ToU32>(bytes, DEFAULT_GROUPS);
    report.result("check_all_within", &within);
}

/// Sizes, hash values, arrays of bytes, and both group searches.
pub fn numbers(report: &mut Report) {
    tell_sizes(report);
    report.number("FxHashFn", FxHashFn::hash(&[1, 0, 0, 0]) as u64);
    report.number("UnHashFn", UnHashFn::hash(&[1, 0, 0, 0]) as u64);
    let zeros = <[u8; 4]>::zeroed();
    let ones = <[u8; 4]>::from_slice(&[1, 1, 1, 1]);
    report.holds("zeros are all zeros", zeros.is_all_zeros());
    report.holds("ones are all zeros", ones.is_all_zeros());
    report.holds("zeros and ones are equal", zeros.equals(&ones));
    report.holds("ones are of ones", ones.as_slice() == [1; 4].as_slice());
    let mut group = [3; 16];
    group[5] = 255;
    group[9] = 255;
    tell_group::<lanes::GroupQuery>(&group, report);
    tell_group::<no_simd::GroupQuery>(&group[..8], report);
}

// Adds what the load factor of 87 percent gives.
fn tell_sizes(report: &mut Report) {
    let factor = Factor::from_percent(87);
    report.number("factor", factor.0 as u64);
    report.size("percent", factor.to_percent());
    report.option("slots for 13", number(slots_needed(13, factor)));
    report.size("the maximum of 16 slots", max_item_count_for(16, factor));
    report.size("apply", factor.apply(16));
    report.number("apply_inverse", factor.apply_inverse(13) as u64);
    report.option(
        "bytes for 13 items",
        number(bytes_needed::<DirectU32ToU32>(13, 87)),
    );
    let bytes = memory_layout::bytes_needed::<DirectU32ToU32>(16);
    report.option("bytes for 16 slots", number(bytes));
}

// Adds the result of a search of a group for the tag 3.
fn tell_group<Q: Group>(group: &[u8], report: &mut Report)
    requires { length group.now ≡ Q.SIZE }
{
    let query = Q::of(group, 3);
    report.holds("some are free", query.any_empty());
    report.option("the first free", number(query.first_empty()));
    report.option("the first match", number(query.first_match()));
}
