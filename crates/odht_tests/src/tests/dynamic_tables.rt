//! Dynamic tables: a ready shape beside its twin, and what is
//! rejected.
use crate::tests::checks::{same, same_at};
use odht::bytes::Borrowed;
use odht::configs::U64ToU32;
use odht::dynamic::{DynError, DynTable, Layout};
use odht::error::{Error, Part};
use odht::{FxHashFn, HashTableOwned, UnHashFn};
use std::alloc::Global;
use std::process::Abort;

type View<'a> = DynTable<FxHashFn, Borrowed<'a>>;

// Three pairs in a table of a ready shape, of keys of eight bytes and values of four.
fn ready(rt: &impl Abort, alloc: Global) -> HashTableOwned<U64ToU32> {
    let made = HashTableOwned::with_capacity(alloc, 3, 95);
    let mut table: HashTableOwned<U64ToU32> = made.expect(rt, "a table");
    for (key, value) in [(1, 2), (3, 4), (5, 6)] {
        let _ = table.insert(&key, &value).expect(rt, "an insert");
    }
    table
}

// Asserts the same value of the key in both tables.
fn same_value(rt: &impl Abort, table: &HashTableOwned<U64ToU32>, view: &View<'_>, key: u64) {
    let found = view.get(&key.to_le_bytes());
    match table.get(&key) {
        Some(value) => same_at(rt, "key", key, found, Some(&value.to_le_bytes())),
        None => same_at(rt, "key", key, found, None),
    }
}

#[test]
fn a_ready_shape(rt: HostRuntime) {
    let table = ready(&rt, rt.alloc());
    let bytes = Borrowed::new(table.raw_bytes());
    let view: View<'_> = DynTable::open_as_stated(bytes).expect(&rt, "a view");
    let layout = Layout {
        key_len: 8,
        value_len: 4,
    };
    same(&rt, "lengths", view.layout(), layout);
    same(&rt, "items", view.len(), 3);
    same(&rt, "valid", view.verify(), true);
    same(&rt, "valid within a group", view.verify_within(1), true);
    same(&rt, "within a group", view.searches_within(1), true);
    same(&rt, "within none", view.searches_within(0), false);
    for key in 0..8 {
        same_value(&rt, &table, &view, key);
    }
    same(&rt, "walk", view.iter().count(), 3);
    same(&rt, "absent", view.contains_key(&[9; 8]), false);
    same(&rt, "other key", view.get(b"four"), None);
    same(&rt, "groups", view.get_counted(b"four"), (None, 0));
}

#[test]
fn rejected_lengths(rt: HostRuntime) {
    let table = ready(&rt, rt.alloc());
    let short = Layout {
        key_len: 3,
        value_len: 9,
    };
    let opened: Result<DynTable<UnHashFn, Borrowed<'_>>, DynError> = DynTable::open(
        short,
        Borrowed::new(table.raw_bytes()),
    );
    let too_short = DynError::KeyTooShort {
        key_len: 3,
        least: 4,
    };
    same(&rt, "short keys", opened.err(), Some(too_short));
    let other = Layout {
        key_len: 4,
        value_len: 8,
    };
    let opened: Result<View<'_>, DynError> = DynTable::open(
        other,
        Borrowed::new(table.raw_bytes()),
    );
    let wrong_size = DynError::Rejected(Error::WrongSizeOf {
        part: Part::EncodedKey,
        expected: 4,
        found: 8,
    });
    same(&rt, "other lengths", opened.err(), Some(wrong_size));
}
