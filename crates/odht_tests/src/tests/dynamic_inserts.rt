//! Dynamic tables, written: one of each length of keys and of
//! values, a ready shape beside its twin, and what is refused.
use crate::tests::checks::{same, same_at, same_bytes};
use odht::bytes::{Borrowed, BorrowedMut};
use odht::configs::U32ToU32;
use odht::dynamic::{DynError, DynTable, Layout, ShortBytes};
use odht::error::Error;
use odht::{FxHashFn, HashTableOwned};
use std::alloc::Global;
use std::process::Abort;

type View<'a> = DynTable<FxHashFn, Borrowed<'a>>;

type Table<'a> = DynTable<FxHashFn, BorrowedMut<'a>>;

// A table of 16 slots, with no item.
fn new_bytes(rt: &impl Abort, alloc: Global, layout: Layout) -> Vec<u8> {
    let len = Table::bytes_needed(layout, 3, 95).expect(rt, "a length");
    let mut bytes = vec![in alloc; 7; len].expect(rt, "memory");
    let mut store = BorrowedMut::new(bytes.as_mut_slice());
    Table::init_store(layout, &mut store, 3, 95).expect(rt, "a new table");
    bytes
}

// Inserts a pair, and asserts its former value.
fn insert(rt: &impl Abort, table: &mut Table<'_>, pair: (&[u8], &[u8]), former: Option<&[u8]>) {
    let found: Option<ShortBytes> = table.insert(pair.0, pair.1).expect(rt, "an insert");
    match found {
        Some(value) => same(rt, "former value", Some(value.as_slice()), former),
        None => same(rt, "no former value", None, former),
    }
}

// Three inserts of keys of ones and of twos, which are the same where keys have no bytes.
fn fill(rt: &impl Abort, layout: Layout, bytes: &mut [u8]) {
    let (keys, values) = (layout.key_len as usize, layout.value_len as usize);
    let mut table: Table<'_> = DynTable::open(layout, BorrowedMut::new(bytes)).expect(
        rt, "a table",
    );
    let before: Option<&[u8]> = if keys == 0 {
        Some(&[7; 255][..values])
    } else {
        None
    };
    let latest = if keys == 0 {
        &[8; 255][..values]
    } else {
        &[7; 255][..values]
    };
    let ones = &[1; 255][..keys];
    insert(rt, &mut table, (ones, &[7; 255][..values]), None);
    insert(
        rt,
        &mut table,
        (&[2; 255][..keys], &[8; 255][..values]),
        before,
    );
    insert(rt, &mut table, (ones, &[9; 255][..values]), Some(latest));
}

// Asserts what the table of `fill` has.
fn check(rt: &impl Abort, layout: Layout, bytes: &[u8]) {
    let (keys, values) = (layout.key_len as usize, layout.value_len as usize);
    let table: View<'_> = DynTable::open(layout, Borrowed::new(bytes)).expect(rt, "a view");
    let items = if keys == 0 { 1 } else { 2 };
    let value = table.get(&[1; 255][..keys]);
    same_at(rt, "items, keys of", keys, table.len(), items);
    same_at(rt, "valid, keys of", keys, table.verify(), true);
    same_at(rt, "walk, keys of", keys, table.iter().count(), items);
    same_at(rt, "value, keys of", keys, value, Some(&[9; 255][..values]));
    let absent = table.contains_key(&[3; 255][..keys]);
    same_at(rt, "absent, keys of", keys, absent, keys == 0);
}

// Keys of 0 to 255 bytes, and values of 255 to 0 bytes, so that an entry always has 255: 32 bytes
// of header, 16 entries, 16 control bytes and as many of the mirror.
#[test]
fn each_length(rt: HostRuntime) {
    for key_len in 0..=255_u8 {
        let layout = Layout {
            key_len,
            value_len: 255 - key_len,
        };
        let mut bytes = new_bytes(&rt, rt.alloc(), layout);
        same_at(&rt, "bytes, keys of", key_len, bytes.len(), 4144);
        fill(&rt, layout, bytes.as_mut_slice());
        check(&rt, layout, bytes.as_slice());
    }
}

// These pairs in a table of a ready shape.
fn ready(rt: &impl Abort, alloc: Global, pairs: &[(u32, u32)]) -> HashTableOwned<U32ToU32> {
    let made = HashTableOwned::with_capacity(alloc, 3, 95);
    let mut table: HashTableOwned<U32ToU32> = made.expect(rt, "a table");
    for (key, value) in pairs {
        let _ = table.insert(key, value).expect(rt, "an insert");
    }
    table
}

#[test]
fn same_bytes_as_a_ready_shape(rt: HostRuntime) {
    let layout = Layout {
        key_len: 4,
        value_len: 4,
    };
    let pairs: [(u32, u32); 4] = [
        (1, 0x1234_5678),
        (0x9abc_def0, 3),
        (u32::MAX, 0xfedc_ba98),
        (1, u32::MAX),
    ];
    let mut bytes = new_bytes(&rt, rt.alloc(), layout);
    let store = BorrowedMut::new(bytes.as_mut_slice());
    let mut table: Table<'_> = DynTable::open(layout, store).expect(&rt, "a table");
    for (key, value) in pairs {
        let _ = table
            .insert(&key.to_le_bytes(), &value.to_le_bytes())
            .expect(&rt, "an insert");
    }
    let twin = ready(&rt, rt.alloc(), &pairs);
    same_bytes(&rt, "bytes", table.raw_bytes(), twin.raw_bytes());
}

// The table that this one grows into.
fn grown(rt: &impl Abort, alloc: Global, table: &Table<'_>) -> Vec<u8> {
    let len = table.grown_len().expect(rt, "a length");
    let mut bytes = vec![in alloc; 7; len].expect(rt, "memory");
    table.grow_into(bytes.as_mut_slice());
    bytes
}

// At 95 percent sixteen slots may hold fifteen items.
#[test]
fn full_and_grown(rt: HostRuntime) {
    let layout = Layout {
        key_len: 1,
        value_len: 0,
    };
    let mut bytes = new_bytes(&rt, rt.alloc(), layout);
    let store = BorrowedMut::new(bytes.as_mut_slice());
    let mut table: Table<'_> = DynTable::open(layout, store).expect(&rt, "a table");
    for key in 0..15_u8 {
        insert(&rt, &mut table, (&[key], b""), None);
    }
    let full = table.insert(b"x", b"").err();
    same(&rt, "full", full, Some(DynError::Rejected(Error::Full)));
    insert(&rt, &mut table, (&[3], b""), Some(b""));
    same(&rt, "items", table.len(), 15);
    let bytes = grown(&rt, rt.alloc(), &table);
    same(&rt, "length of the grown table", bytes.len(), 112);
    let view: View<'_> = DynTable::open(layout, Borrowed::new(bytes.as_slice())).expect(
        &rt,
        "the grown table",
    );
    same(&rt, "valid", view.verify(), true);
    same(&rt, "items", view.iter().count(), 15);
}

#[test]
fn other_lengths(rt: HostRuntime) {
    let layout = Layout {
        key_len: 3,
        value_len: 1,
    };
    let mut bytes = new_bytes(&rt, rt.alloc(), layout);
    let store = BorrowedMut::new(bytes.as_mut_slice());
    let mut table: Table<'_> = DynTable::open(layout, store).expect(&rt, "a table");
    let key = DynError::WrongKeyLength {
        expected: 3,
        found: 4,
    };
    same(&rt, "key", table.insert(b"four", b"12").err(), Some(key));
    let value = DynError::WrongValueLength {
        expected: 1,
        found: 0,
    };
    same(&rt, "value", table.insert(b"key", b"").err(), Some(value));
    same(&rt, "items", table.len(), 0);
}
