//! Tables that are read by position: beside the same table in memory, and where a read fails or
//! the source ends too early. The crate for Rust has a test with a fault at each read in turn, and
//! one with a file.
use crate::tests::checks::{same, same_at};
use odht::bytes::Borrowed;
use odht::configs::U64ToU32;
use odht::dynamic::{DynError, DynTable, FileError, FileTable, Layout};
use odht::read_at::{BytesSource, ReadAt, ReadError};
use odht::{FxHashFn, HashTableOwned};
use std::alloc::Global;
use std::process::Abort;

type View<'a> = DynTable<FxHashFn, Borrowed<'a>>;

type Lying<'a> = FileTable<FxHashFn, BytesSource<'a>>;

const LAYOUT: Layout = Layout {
    key_len: 8,
    value_len: 4,
};

// A table of thirty pairs, in 32 slots.
fn full(rt: &impl Abort, alloc: Global) -> HashTableOwned<U64ToU32> {
    let made = HashTableOwned::with_capacity(alloc, 30, 95);
    let mut table: HashTableOwned<U64ToU32> = made.expect(rt, "a table");
    for key in 0..30_u32 {
        let _ = table
            .insert(&(key as u64 * 3), &key)
            .expect(rt, "an insert");
    }
    table
}

// Asserts the same answer of both for the key.
fn same_answer(rt: &impl Abort, view: &View<'_>, lying: &Lying<'_>, key: u64) {
    let (value, groups) = view.get_counted(&key.to_le_bytes());
    let (found, read) = lying
        .get_counted(&key.to_le_bytes())
        .expect(rt, "each read");
    same_at(rt, "groups", key, read, groups);
    match found {
        Some(found) => same_at(rt, "key", key, Some(found.as_slice()), value),
        None => same_at(rt, "key", key, None, value),
    }
}

#[test]
fn a_table_where_it_lies(rt: HostRuntime) {
    let table = full(&rt, rt.alloc());
    let bytes = table.raw_bytes();
    let view: View<'_> = DynTable::open(LAYOUT, Borrowed::new(bytes)).expect(&rt, "a view");
    let source = BytesSource::new(bytes);
    let lying: Lying<'_> = FileTable::open(LAYOUT, source, bytes.len()).expect(&rt, "a table");
    same(&rt, "items", lying.len(), 30);
    same(&rt, "lengths", lying.layout(), LAYOUT);
    for key in 0..100 {
        same_answer(&rt, &view, &lying, key);
    }
    let other = FileError::Table(DynError::WrongKeyLength {
        expected: 8,
        found: 4,
    });
    same(&rt, "other key", lying.contains_key(b"four"), Err(other));
}

#[test]
fn a_source_that_ends_early(rt: HostRuntime) {
    let table = full(&rt, rt.alloc());
    let bytes = table.raw_bytes();
    for len in [0, 31, 32, 223, 447] {
        let source = BytesSource::new(&bytes[..len.min(bytes.len())]);
        let opened: Result<Lying<'_>, FileError> = FileTable::open(LAYOUT, source, bytes.len());
        same_at(
            &rt,
            "end",
            len,
            opened.err(),
            Some(FileError::Read(ReadError::EarlyEnd)),
        );
    }
}

// A source of which each read fails.
#[derive(Drop)]
struct Failing {
    code: u32,
}

impl ReadAt for Failing {
    ghost gives = { λ s B. ⊥ };

    ghost fails = { λ s e. Unit {0} };

    fn read_at(&self, _offset: u64, _out: &mut [u8]) -> Result<usize, ReadError> {
        Err(ReadError::Failed { code: self.code })
    }
}

#[test]
fn a_read_that_fails(rt: HostRuntime) {
    let source = Failing { code: 5 };
    let opened: Result<FileTable<FxHashFn, Failing>, FileError> = FileTable::open(
        LAYOUT, source, 448,
    );
    let failed = FileError::Read(ReadError::Failed { code: 5 });
    same(&rt, "error", opened.err(), Some(failed));
}
