//! Properties of tables of lists that look random, for keys and values of many lengths.
use crate::tests::builds::check_three_builds;
use crate::tests::checks::{same, same_bytes, same_len};
use crate::tests::insert_orders::check_insert_order;
use crate::tests::random::Random;
use odht::HashTableOwned;
use odht::bytes::ByteArray;
use odht::configs::{Plain, Short};
use std::alloc::Global;
use std::collections::BTreeMap;
use std::process::Abort;

impl Random {
    // Arrays of more than 64 bytes, which are compared in another way, differ behind these alone,
    // or in the last alone.
    fn array<A: ByteArray>(&mut self, rt: &impl Abort, is_last: bool) -> A {
        let mut buffer = [0; 255];
        assert!(rt; A::LEN <= buffer.len());
        let zeros = match A::LEN {
            0..=64 => 0,
            len if is_last => len - 1,
            _ => 64,
        };
        for place in buffer[zeros..A::LEN].iter_mut() {
            *place = self.byte();
        }
        A::from_slice(&buffer[..A::LEN])
    }
}

// A list of three times `seed` pairs.
fn random_list<K: Short, V: Short>(rt: &impl Abort, alloc: Global, seed: u64) -> Vec<(K, V)> {
    let mut random = Random { state: seed };
    let mut list = Vec::new(alloc);
    for _ in 0..seed.wrapping_mul(3) {
        let key: K = random.array(rt, seed % 2 == 0);
        let value: V = random.array(rt, false);
        list.push((key, value)).expect(rt, "memory");
    }
    list
}

// A map of std, from the bytes of a key to its pair.
#[derive(Drop)]
struct Reference<K: Short, V: Short> {
    pairs: BTreeMap<Vec<u8>, (K, V)>,
    alloc: Global,
}

impl<K: Short, V: Short> Reference<K, V> {
    fn new(alloc: Global) -> Self {
        Reference {
            pairs: BTreeMap::new(alloc),
            alloc,
        }
    }

    // Gives the key this value, and returns its former one.
    fn insert(&mut self, rt: &impl Abort, key: &K, value: &V) -> Option<V> {
        let bytes = key.as_slice().to_vec(self.alloc).expect(rt, "memory");
        let inserted: Result<Option<(K, V)>, _> = self.pairs.insert(bytes, (*key, *value));
        inserted.expect(rt, "memory").map(|(_, value)| value)
    }
}

// The last pair of each key, in the order of the keys' bytes.
fn distinct_pairs<K: Short, V: Short>(
    rt: &impl Abort,
    alloc: Global,
    list: &[(K, V)],
) -> Vec<(K, V)> {
    let mut last = Reference::new(alloc);
    for (key, value) in list {
        let _ = last.insert(rt, key, value);
    }
    let mut distinct = Vec::new(alloc);
    for pair in last.pairs.values() {
        distinct.push(*pair).expect(rt, "memory");
    }
    distinct
}

// The bytes come from a second computation of the sequence, and so do the numbers of pairs.
#[test]
fn lists_that_look_random(rt: HostRuntime) {
    let list: Vec<([u8; 2], [u8; 4])> = random_list(&rt, rt.alloc(), 1);
    let expected = [
        ([108, 130], [165, 98, 203, 128]),
        ([141, 16], [214, 50, 190, 137]),
        ([200, 81], [62, 191, 108, 146]),
    ];
    same(&rt, "the list", list.as_slice(), expected.as_slice());
    let list: Vec<([u8; 1], [u8; 1])> = random_list(&rt, rt.alloc(), 31);
    same_len(&rt, "length", list.len(), 93);
    let distinct = distinct_pairs(&rt, rt.alloc(), list.as_slice());
    same_len(&rt, "length", distinct.len(), 76);
}

#[test]
fn distinct_pairs_of_a_list(rt: HostRuntime) {
    let list: Vec<([u8; 1], [u8; 0])> = random_list(&rt, rt.alloc(), 2);
    let distinct = distinct_pairs(&rt, rt.alloc(), list.as_slice());
    let expected = [
        ([53], []),
        ([93], []),
        ([112], []),
        ([176], []),
        ([196], []),
        ([234], []),
    ];
    let found = distinct.as_slice();
    same(&rt, "the distinct pairs", found, expected.as_slice());
}

// The table that `from_iterator` makes of the pairs.
fn table_of<K: Short, V: Short>(
    rt: &impl Abort,
    alloc: Global,
    pairs: &[(K, V)],
) -> HashTableOwned<Plain<K, V>> {
    HashTableOwned::from_iterator(alloc, pairs.iter().copied(), 87).expect(rt, "a table")
}

// A table of distinct pairs has as many items as there are pairs, and each key has its value.
fn check_lookup<K: Short, V: Short>(rt: &impl Abort, alloc: Global, distinct: &[(K, V)]) {
    let table = table_of(rt, alloc, distinct);
    same_len(rt, "items", table.len(), distinct.len());
    for (key, value) in distinct {
        same_value_of(rt, *key, table.get(key), Some(*value));
    }
}

// Asserts this value of a key.
fn same_value_of<K: Short, V: Short>(
    rt: &impl Abort,
    key: K,
    found: Option<V>,
    expected: Option<V>,
) {
    assert_eq!(rt; found, expected, "key {key:?}");
}

// Two tables of the same distinct pairs have the same bytes.
fn check_bytes_deterministic<K: Short, V: Short>(
    rt: &impl Abort,
    alloc: Global,
    distinct: &[(K, V)],
) {
    let table = table_of(rt, alloc, distinct);
    let again = table_of(rt, alloc, distinct);
    same_bytes(rt, "bytes", table.raw_bytes(), again.raw_bytes());
}

// A new table for that many items.
fn new_table<K: Short, V: Short>(
    rt: &impl Abort,
    alloc: Global,
    items: usize,
) -> HashTableOwned<Plain<K, V>> {
    HashTableOwned::with_capacity(alloc, items, 87).expect(rt, "a table")
}

// Each insert of a list with duplicates into a table that grows returns what the insert into a map
// of std returns.
fn check_insert_with_duplicates<K: Short, V: Short>(
    rt: &impl Abort,
    alloc: Global,
    list: &[(K, V)],
) {
    let mut table: HashTableOwned<Plain<K, V>> = HashTableOwned::default(alloc).expect(
        rt, "a table",
    );
    let mut reference = Reference::new(alloc);
    for (key, value) in list {
        let expected = reference.insert(rt, key, value);
        let found = table.insert(key, value).expect(rt, "an insert");
        same_value_of(rt, *key, found, expected);
    }
}

// Inserts in the order of a list with duplicates leave the bytes of the table that `from_iterator`
// makes of the list.
fn check_from_iterator_vs_manual_insertion<K: Short, V: Short>(
    rt: &impl Abort,
    alloc: Global,
    list: &[(K, V)],
) {
    let mut table = new_table(rt, alloc, list.len());
    for (key, value) in list {
        let _ = table.insert(key, value).expect(rt, "an insert");
    }
    let at_once = table_of(rt, alloc, list);
    same_bytes(rt, "bytes", table.raw_bytes(), at_once.raw_bytes());
}

// The seven properties for keys and values of these lengths, each for 32 lists.
fn check_all<K: Short, V: Short>(rt: &impl Abort, alloc: Global) {
    for seed in 0..32 {
        let list: Vec<(K, V)> = random_list(rt, alloc, seed);
        let distinct = distinct_pairs(rt, alloc, list.as_slice());
        check_lookup(rt, alloc, distinct.as_slice());
        check_bytes_deterministic(rt, alloc, distinct.as_slice());
        check_list(rt, alloc, list.as_slice());
    }
}

// The properties of a list with duplicates.
fn check_list<K: Short, V: Short>(rt: &impl Abort, alloc: Global, list: &[(K, V)]) {
    check_insert_with_duplicates(rt, alloc, list);
    check_from_iterator_vs_manual_insertion(rt, alloc, list);
    check_three_builds::<Plain<K, V>>(rt, alloc, list);
    check_insert_order(rt, alloc, &table_of(rt, alloc, list), list.len());
}

#[test]
fn short_keys_and_no_values(rt: HostRuntime) {
    check_all::<[u8; 0], [u8; 0]>(&rt, rt.alloc());
    check_all::<[u8; 1], [u8; 0]>(&rt, rt.alloc());
    check_all::<[u8; 2], [u8; 0]>(&rt, rt.alloc());
    check_all::<[u8; 3], [u8; 0]>(&rt, rt.alloc());
    check_all::<[u8; 4], [u8; 0]>(&rt, rt.alloc());
    check_all::<[u8; 8], [u8; 0]>(&rt, rt.alloc());
}

#[test]
fn long_keys_and_no_values(rt: HostRuntime) {
    check_all::<[u8; 15], [u8; 0]>(&rt, rt.alloc());
    check_all::<[u8; 16], [u8; 0]>(&rt, rt.alloc());
    check_all::<[u8; 17], [u8; 0]>(&rt, rt.alloc());
    check_all::<[u8; 63], [u8; 0]>(&rt, rt.alloc());
    check_all::<[u8; 64], [u8; 0]>(&rt, rt.alloc());
}

#[test]
fn keys_that_differ_behind_64_bytes(rt: HostRuntime) {
    check_all::<[u8; 65], [u8; 0]>(&rt, rt.alloc());
    check_all::<[u8; 65], [u8; 4]>(&rt, rt.alloc());
    check_all::<[u8; 128], [u8; 65]>(&rt, rt.alloc());
    check_all::<[u8; 255], [u8; 1]>(&rt, rt.alloc());
}

#[test]
fn values_of_four_bytes(rt: HostRuntime) {
    check_all::<[u8; 2], [u8; 4]>(&rt, rt.alloc());
    check_all::<[u8; 4], [u8; 4]>(&rt, rt.alloc());
    check_all::<[u8; 8], [u8; 4]>(&rt, rt.alloc());
    check_all::<[u8; 17], [u8; 4]>(&rt, rt.alloc());
    check_all::<[u8; 20], [u8; 4]>(&rt, rt.alloc());
    check_all::<[u8; 64], [u8; 4]>(&rt, rt.alloc());
}

#[test]
fn keys_of_sixteen_bytes(rt: HostRuntime) {
    check_all::<[u8; 16], [u8; 1]>(&rt, rt.alloc());
    check_all::<[u8; 16], [u8; 2]>(&rt, rt.alloc());
    check_all::<[u8; 16], [u8; 3]>(&rt, rt.alloc());
    check_all::<[u8; 16], [u8; 4]>(&rt, rt.alloc());
    check_all::<[u8; 16], [u8; 8]>(&rt, rt.alloc());
    check_all::<[u8; 16], [u8; 16]>(&rt, rt.alloc());
    check_all::<[u8; 16], [u8; 17]>(&rt, rt.alloc());
}
