//! Calls of dynamic tables, which own their bytes.
use crate::report::{Report, value_of};
use odht::FxHashFn;
use odht::dynamic::{DynError, DynTableOwned, Layout};
use odht::error::Error;
use std::alloc::Global;

type Table = DynTableOwned<FxHashFn>;

const LAYOUT: Layout = Layout {
    key_len: 4,
    value_len: 4,
};

// The error of a table of a configuration with these lengths; an error of lengths is none, and is
// told as `Full`.
fn rejected<T>(answer: Result<T, DynError>) -> Result<T, Error> {
    match answer {
        Ok(it) => Ok(it),
        Err(DynError::Rejected(error)) => Err(error),
        Err(_) => Err(Error::Full),
    }
}

// Inserts a key with its value, and returns the error.
fn insert(table: &mut Table, key: u32) -> Result<(), Error> {
    match rejected(table.insert(&key.to_le_bytes(), &value_of(key).to_le_bytes())) {
        Ok(_) => Ok(()),
        Err(error) => Err(error),
    }
}

// Adds how many items and bytes a table has, and how many keys below 100 are found with their
// values.
fn tell_table(report: &mut Report, table: &Table) {
    let mut found = 0;
    for key in 0..100_u32 {
        if table.get(&key.to_le_bytes()) == Some(&value_of(key).to_le_bytes()) {
            found = u64::wrapping_add(found, 1);
        }
    }
    report.size("items", table.len());
    report.size("bytes", table.raw_bytes().len());
    report.number("keys found", found);
}

// A table for thirteen items that has them, where memory suffices.
fn full_table(alloc: Global, report: &mut Report) -> Option<Table> {
    let made = rejected(Table::with_capacity(alloc, LAYOUT, 13, 87));
    report.result("with_capacity", &made);
    let Ok(mut table) = made else {
        return None;
    };
    for key in 0..13 {
        let _ = insert(&mut table, key);
    }
    Some(table)
}

/// Makes a table for thirteen items, inserts fourteen, of which the last makes it grow, again
/// where memory was exhausted, and copies it.
pub fn grow(alloc: Global, report: &mut Report) {
    let Some(mut table) = full_table(alloc, report) else {
        return;
    };
    tell_table(report, &table);
    let inserted = insert(&mut table, 13);
    report.result("insert of 13", &inserted);
    if inserted.is_err() {
        tell_table(report, &table);
        report.result("insert of 12", &insert(&mut table, 12));
        report.result("insert of 13", &insert(&mut table, 13));
    }
    tell_table(report, &table);
    let copy = rejected(Table::from_raw_bytes(alloc, LAYOUT, table.raw_bytes()));
    report.result("from_raw_bytes", &copy);
    if let Ok(copy) = copy {
        report.holds(
            "the bytes are the same",
            copy.raw_bytes() == table.raw_bytes(),
        );
    }
}

/// Makes room in a full table for 0, `usize::MAX` and 14 more items: only the last asks for
/// memory.
pub fn reserve(alloc: Global, report: &mut Report) {
    let Some(mut table) = full_table(alloc, report) else {
        return;
    };
    report.result("reserve of 0", &rejected(table.reserve(0)));
    report.result("reserve of the most", &rejected(table.reserve(usize::MAX)));
    tell_table(report, &table);
    report.result("reserve of 14", &rejected(table.reserve(14)));
    tell_table(report, &table);
}
