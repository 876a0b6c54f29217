//! The names at the root of `odht` and those of `odht_index` as the port promises them (`base`
//! says how). Maps of u64 to u32 and of u32 to u32.

use crate::checks::{same, same_bytes, same_len};
use odht::bytes::{Borrowed, BorrowedMut, ByteStore, ByteStoreMut};
use odht::configs::{U32ToU32, U64ToU32};
use odht::error::Error;
use odht::{Config, FxHashFn, HashFn, HashTable, HashTableOwned, Iter, UnHashFn, bytes_needed};
use odht_index::{Index, IndexConfig, build};
use std::alloc::Global;
use std::fmt::Debug;
use std::process::Abort;

fn is_config<C: Config>() {}

fn is_hash<H: HashFn>() {}

fn is_walk<C: Config, I: Iterator<Item = (C::Key, C::Value)>>(_walk: &I) {}

fn is_debug<T: Debug>(_value: &T) {}

#[test]
fn root_names(rt: HostRuntime) {
    is_config::<U64ToU32>();
    is_hash::<FxHashFn>();
    is_hash::<UnHashFn>();
    let len: Option<usize> = bytes_needed::<U64ToU32>(3_usize, 95_u8);
    same(&rt, "bytes_needed", len, Some(256));
}

// The table of the pairs of 1 and 2, 3 and 4, and 5 and 6, made for three items at 95 percent.
fn three_pairs(rt: &impl Abort, alloc: Global) -> HashTableOwned<U64ToU32> {
    let made: Result<HashTableOwned<U64ToU32>, Error> = HashTableOwned::with_capacity(
        alloc, 3_usize, 95_u8,
    );
    let mut table = made.expect(rt, "a table");
    let first: Result<Option<u32>, Error> = table.insert(&1_u64, &2_u32);
    let items: &[(u64, u32)] = &[(3, 4), (5, 6)];
    let inserted: (usize, Result<(), Error>) = table.insert_all(items);
    same(rt, "insert", first, Ok(None));
    same(rt, "insert_all", inserted, (2, Ok(())));
    table
}

// Asserts that a table was made, with these bytes.
fn same_table(
    rt: &impl Abort,
    what: &str,
    made: Result<HashTableOwned<U64ToU32>, Error>,
    bytes: &[u8],
) {
    let table = made.expect(rt, what);
    same_bytes(rt, what, table.raw_bytes(), bytes);
}

#[test]
fn owned_lookups(rt: HostRuntime) {
    let table: HashTableOwned<U64ToU32> = three_pairs(&rt, rt.alloc());
    is_debug(&table);
    let value: Option<u32> = table.get(&3_u64);
    let counted: (Option<u32>, usize) = table.get_counted(&5);
    let has: bool = table.contains_key(&7);
    let items: usize = table.len();
    same(&rt, "get", value, Some(4));
    same(&rt, "get_counted", counted, (Some(6), 1));
    same(&rt, "contains_key, len", (has, items), (false, 3));
}

#[test]
fn owned_walks(rt: HostRuntime) {
    let table = three_pairs(&rt, rt.alloc());
    let mut walk: Iter<'_, U64ToU32> = table.iter();
    is_walk::<U64ToU32, Iter<'_, U64ToU32>>(&walk);
    let pairs: [Option<(u64, u32)>; 4] = [walk.next(), walk.next(), walk.next(), walk.next()];
    same(
        &rt,
        "pairs",
        pairs,
        [Some((1, 2)), Some((5, 6)), Some((3, 4)), None],
    );
}

#[test]
fn owned_copies(rt: HostRuntime) {
    let table = three_pairs(&rt, rt.alloc());
    let bytes: &[u8] = table.raw_bytes();
    let opened: Result<HashTableOwned<U64ToU32>, Error> = HashTableOwned::from_raw_bytes(
        rt.alloc(),
        bytes,
    );
    same_table(&rt, "from_raw_bytes", opened, bytes);
    let copied: Result<HashTableOwned<U64ToU32>, Error> = HashTableOwned::from_raw_bytes_unchecked(
        rt.alloc(),
        bytes,
    );
    same_table(&rt, "from_raw_bytes_unchecked", copied, bytes);
    let cloned: Result<HashTableOwned<U64ToU32>, Error> = table.clone();
    same_table(&rt, "clone", cloned, bytes);
}

#[test]
fn an_empty_table(rt: HostRuntime) {
    let empty: Result<HashTableOwned<U32ToU32>, Error> = HashTableOwned::default(rt.alloc());
    same(&rt, "default", empty.expect(&rt, "a table").len(), 0);
}

#[test]
fn collected_pairs(rt: HostRuntime) {
    let items: [(u64, u32); 3] = [(1, 2), (3, 4), (5, 6)];
    let made: Result<HashTableOwned<U64ToU32>, Error> = HashTableOwned::from_iterator(
        rt.alloc(),
        items.into_iter(),
        95_u8,
    );
    same_table(
        &rt,
        "from_iterator",
        made,
        three_pairs(&rt, rt.alloc()).raw_bytes(),
    );
}

// The three pairs have an order of inserts.
#[test]
fn orders_of_inserts(rt: HostRuntime) {
    let table = three_pairs(&rt, rt.alloc());
    let mut order = [0_usize; 3];
    same_len(&rt, "len", table.len(), 3);
    let out: &mut [usize] = &mut order;
    let is_made: bool = table.insert_order(out);
    same(&rt, "insert_order", is_made, true);
    let numbers: usize = table.insert_order_scratch();
    let mut scratch = vec![in rt.alloc(); 0_usize; numbers].expect(&rt, "memory");
    let out: &mut [usize] = &mut order;
    let is_made: bool = table.insert_order_with(out, scratch.as_mut_slice());
    same(&rt, "insert_order_with", is_made, true);
}

// What a view returns of the keys 3, 5 and 7.
fn looked_up<D: ByteStore>(view: &HashTable<U64ToU32, D>) -> (Option<u32>, Option<u32>, bool) {
    let value: Option<u32> = view.get(&3_u64);
    let counted: (Option<u32>, usize) = view.get_counted(&5);
    let has: bool = view.contains_key(&7);
    (value, counted.0, has)
}

#[test]
fn views(rt: HostRuntime) {
    let table = three_pairs(&rt, rt.alloc());
    let data: Borrowed<'_> = Borrowed::new(table.raw_bytes());
    let opened: Result<HashTable<U64ToU32, Borrowed<'_>>, Error> = HashTable::from_raw_bytes(data);
    let view = opened.expect(&rt, "a view");
    same(&rt, "lookups", looked_up(&view), (Some(4), Some(6), false));
    let items: usize = view.len();
    let is_valid: bool = view.verify();
    let mut walk: Iter<'_, U64ToU32> = view.iter();
    same(&rt, "len, verify", (items, is_valid), (3, true));
    same(&rt, "the first pair", walk.next(), Some((1, 2)));
}

#[test]
fn views_without_checks(rt: HostRuntime) {
    let table = three_pairs(&rt, rt.alloc());
    let data = Borrowed::new(table.raw_bytes());
    let view: HashTable<U64ToU32, Borrowed<'_>> = HashTable::from_raw_bytes(data).expect(
        &rt, "a view",
    );
    let bytes: &[u8] = view.raw_bytes();
    let again: HashTable<U64ToU32, Borrowed<'_>> = HashTable::from_raw_bytes_unchecked(
        Borrowed::new(bytes),
    );
    let data: Borrowed<'_> = again.into_data();
    same_bytes(&rt, "into_data", data.bytes(), table.raw_bytes());
}

// Inserts into a view, one and then two.
fn fill<D: ByteStoreMut>(rt: &impl Abort, view: &mut HashTable<U64ToU32, D>) {
    let first: Result<Option<u32>, Error> = view.insert(&1_u64, &2_u32);
    let items: &[(u64, u32)] = &[(3, 4), (5, 6)];
    let inserted: (usize, Result<(), Error>) = view.insert_all(items);
    same(rt, "insert", first, Ok(None));
    same(rt, "insert_all", inserted, (2, Ok(())));
}

#[test]
fn views_that_are_written(rt: HostRuntime) {
    let mut room: [u8; 256] = [7; 256];
    let data: BorrowedMut<'_> = BorrowedMut::new(&mut room);
    let made: Result<HashTable<U64ToU32, BorrowedMut<'_>>, Error> = HashTable::init_in_place(
        data, 3_usize, 95_u8,
    );
    let mut view = made.expect(&rt, "a view");
    fill(&rt, &mut view);
    let expected = three_pairs(&rt, rt.alloc());
    same_bytes(&rt, "the bytes", view.raw_bytes(), expected.raw_bytes());
}

#[test]
fn an_index(rt: HostRuntime) {
    is_config::<IndexConfig>();
    let path: [u8; 16] = [7; 16];
    let pairs: &[([u8; 16], u32)] = &[(path, 1)];
    let built: Result<Vec<u8>, Error> = build(rt.alloc(), pairs);
    let bytes: Vec<u8> = built.expect(&rt, "an index");
    let opened: Result<Index<'_>, Error> = Index::open(bytes.as_slice());
    let index = opened.expect(&rt, "an opened index");
    let number: Option<u32> = index.lookup(&path);
    same(&rt, "lookup", number, Some(1));
}
