//! Dynamic tables: lookups and inserts of lists, and a table
//! inside longer bytes.
use crate::tests::checks::{same, same_bytes};
use crate::tests::owned_tables::byte_with_a_pair;
use odht::bytes::{Borrowed, BorrowedMut};
use odht::dynamic::{DynError, DynTable, Layout, table_len};
use odht::error::Error;
use odht::{FxHashFn, UnHashFn};
use std::process::Abort;

type Table<'a> = DynTable<FxHashFn, BorrowedMut<'a>>;

type View<'a> = DynTable<FxHashFn, Borrowed<'a>>;

// Keys of three bytes, and values of one.
const LAYOUT: Layout = Layout {
    key_len: 3,
    value_len: 1,
};

// A new table for one item: 32 bytes of header, 16 entries of four bytes, 16 control bytes and as
// many of the mirror.
fn new_bytes(rt: &impl Abort) -> [u8; 128] {
    let mut bytes = [7; 128];
    let mut store = BorrowedMut::new(&mut bytes);
    Table::init_store(LAYOUT, &mut store, 1, 10).expect(rt, "a new table");
    bytes
}

// Inserts the items into a new table, and asserts how many were accepted, the error, and how many
// items it has then.
fn inserted(rt: &impl Abort, items: &[(&[u8], &[u8])], accepted: usize, error: Option<DynError>) {
    let mut bytes = new_bytes(rt);
    let store = BorrowedMut::new(&mut bytes);
    let mut table: Table<'_> = DynTable::open(LAYOUT, store).expect(rt, "a table");
    let (found, result) = table.insert_all(items);
    same(rt, "accepted", found, accepted);
    same(rt, "error", result.err(), error);
    same(rt, "valid", table.verify(), true);
    same(rt, "one item", table.len(), accepted.min(1));
}

#[test]
fn lists_end_at_the_first_error(rt: HostRuntime) {
    let short = DynError::WrongKeyLength {
        expected: 3,
        found: 2,
    };
    let long = DynError::WrongValueLength {
        expected: 1,
        found: 2,
    };
    inserted(&rt, &[], 0, None);
    inserted(&rt, &[(b"one", &[1]), (b"one", &[2])], 2, None);
    inserted(&rt, &[(b"on", &[1]), (b"one", &[2])], 0, Some(short));
    inserted(&rt, &[(b"one", &[1]), (b"one", &[2, 3])], 1, Some(long));
    let full = DynError::Rejected(Error::Full);
    inserted(
        &rt,
        &[(b"one", &[1]), (b"two", &[2]), (b"t", &[])],
        1,
        Some(full),
    );
}

#[test]
fn values_of_a_list(rt: HostRuntime) {
    let mut bytes = new_bytes(&rt);
    let store = BorrowedMut::new(&mut bytes);
    let mut table: Table<'_> = DynTable::open(LAYOUT, store).expect(&rt, "a table");
    let (accepted, _) = table.insert_all(&[(b"one", &[1]), (b"one", &[2])]);
    same(&rt, "accepted", accepted, 2);
    check_values(&rt, &table);
}

// Asserts the values of a list of keys, in the table with one key.
fn check_values<'a>(rt: &impl Abort, table: &'a Table<'a>) {
    let mut values: [Option<&'a [u8]>; 4] = [None; 4];
    table.get_all(&[b"two", b"one", b"on", b"one"], &mut values);
    same(rt, "absent", values[0], None);
    same(rt, "last value", values[1], Some(&[2][..]));
    same(rt, "other length", values[2], None);
    same(rt, "again", values[3], Some(&[2][..]));
}

// The 192 bytes of a table of 16 slots with the pair of 1 and 2, both of four bytes, and 8 bytes.
fn file() -> [u8; 200] {
    let mut bytes = [0x5a; 200];
    for (at, byte) in bytes.iter_mut().enumerate() {
        if at < 192 {
            *byte = byte_with_a_pair(at);
        }
    }
    bytes
}

const FOURS: Layout = Layout {
    key_len: 4,
    value_len: 4,
};

#[test]
fn tables_at_the_front(rt: HostRuntime) {
    let file = file();
    same(&rt, "length", table_len(FOURS, &file).ok(), Some(192));
    let (view, rest) = View::from_prefix(FOURS, &file).expect(&rt, "a table");
    same(
        &rt,
        "value",
        view.get(&[1, 0, 0, 0]),
        Some(&[2, 0, 0, 0][..]),
    );
    same_bytes(&rt, "rest", rest, &[0x5a; 8]);
    let (stated, behind) = View::from_prefix_as_stated(&file).expect(&rt, "a table");
    same(&rt, "lengths", stated.layout(), FOURS);
    same(&rt, "bytes", stated.raw_bytes().len(), 192);
    same_bytes(&rt, "behind", behind, &[0x5a; 8]);
}

#[test]
fn rejected_fronts(rt: HostRuntime) {
    let file = file();
    let most = file.get(..191).expect(&rt, "a part");
    let begun = file.get(..31).expect(&rt, "a part");
    let cut = || DynError::Rejected(Error::WrongLength {
        slot_count: 16,
        found: 191,
        expected: 192,
    });
    let few = || DynError::Rejected(Error::TooShort { found: 31 });
    same(
        &rt,
        "cut",
        View::from_prefix(FOURS, most).err(),
        Some(cut()),
    );
    same(
        &rt,
        "cut, stated",
        View::from_prefix_as_stated(most).err(),
        Some(cut()),
    );
    same(
        &rt,
        "few",
        View::from_prefix(FOURS, begun).err(),
        Some(few()),
    );
    same(
        &rt,
        "few, stated",
        View::from_prefix_as_stated(begun).err(),
        Some(few()),
    );
    let short = DynError::KeyTooShort {
        key_len: 3,
        least: 4,
    };
    let found = DynTable::<UnHashFn, Borrowed<'_>>::from_prefix(LAYOUT, begun);
    same(&rt, "short keys", found.err(), Some(short));
}
