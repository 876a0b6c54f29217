//! Calls of tables that own their bytes.
use crate::report::{Report, Table, insert_thirteen, value_of};
use odht::error::Error;
use std::alloc::Global;

// Adds whether a table was made, and the table.
fn tell_made(report: &mut Report, call: &'static str, made: Result<Table, Error>) {
    report.result(call, &made);
    if let Ok(table) = made {
        report.table(&table);
    }
}

/// Makes a table for thirteen items.
pub fn with_capacity(alloc: Global, report: &mut Report) {
    tell_made(report, "with_capacity", Table::with_capacity(alloc, 13, 87));
}

/// Makes the default table.
pub fn default(alloc: Global, report: &mut Report) {
    tell_made(report, "default", Table::default(alloc));
}

/// Makes a table of four pairs, of which two have one key.
pub fn from_iterator(alloc: Global, report: &mut Report) {
    let items = [(0, 7), (1, 101), (2, 102), (0, 100)];
    let made = Table::from_iterator(alloc, items.iter().copied(), 87);
    tell_made(report, "from_iterator", made);
}

// A table at its maximum: the keys 0 to 12 in sixteen slots.
fn full_table(alloc: Global, report: &mut Report) -> Option<Table> {
    let made = Table::with_capacity(alloc, 13, 87);
    report.result("with_capacity", &made);
    let mut table = made.ok()?;
    report.number("inserted", insert_thirteen(&mut table));
    Some(table)
}

// The bytes of a table of sixteen slots.
fn bytes_of(table: &Table) -> [u8; 192] {
    let mut bytes = [0; 192];
    for (place, byte) in bytes.iter_mut().zip(table.raw_bytes()) {
        *place = *byte;
    }
    bytes
}

// Adds whether a table of sixteen slots has these bytes.
fn tell_unchanged(report: &mut Report, table: &Table, before: &[u8; 192]) {
    report.holds(
        "the bytes are those before",
        table.raw_bytes() == before.as_slice(),
    );
}

/// Inserts a new key into a full table, which grows; and again where memory was exhausted.
pub fn insert(alloc: Global, report: &mut Report) {
    let Some(mut table) = full_table(alloc, report) else {
        return;
    };
    let before = bytes_of(&table);
    let inserted = table.insert(&13, &113);
    report.result("insert of 13", &inserted);
    if inserted.is_err() {
        tell_unchanged(report, &table, &before);
        report.table(&table);
        report.result("insert of 13", &table.insert(&13, &113));
    }
    report.table(&table);
}

/// Makes room in a full table for 0, 14 and `usize::MAX` more items: only the second asks for
/// memory.
pub fn reserve(alloc: Global, report: &mut Report) {
    let Some(mut table) = full_table(alloc, report) else {
        return;
    };
    let before = bytes_of(&table);
    report.result("reserve of 0", &table.reserve(0));
    report.result("reserve of the most", &table.reserve(usize::MAX));
    tell_unchanged(report, &table, &before);
    let reserved = table.reserve(14);
    report.result("reserve of 14", &reserved);
    tell_unchanged(report, &table, &before);
    report.table(&table);
}

/// Inserts the keys 13 to 40 into a full table, which grows twice.
pub fn insert_all(alloc: Global, report: &mut Report) {
    let Some(mut table) = full_table(alloc, report) else {
        return;
    };
    let before = bytes_of(&table);
    let mut items = [(0, 0); 28];
    for (item, key) in items.iter_mut().zip(13..41) {
        *item = (key, value_of(key));
    }
    let (accepted, result) = table.insert_all(&items);
    report.result("insert_all", &result);
    report.size("accepted", accepted);
    tell_unchanged(report, &table, &before);
    report.table(&table);
}

/// Inserts the keys 13 to 40 from an iterator into a full table, which grows twice after they were
/// collected.
pub fn extend(alloc: Global, report: &mut Report) {
    let Some(mut table) = full_table(alloc, report) else {
        return;
    };
    let before = bytes_of(&table);
    let mut items = [(0, 0); 28];
    for (item, key) in items.iter_mut().zip(13..41) {
        *item = (key, value_of(key));
    }
    let (accepted, result) = table.extend(items.iter().copied());
    report.result("extend", &result);
    report.size("accepted", accepted);
    tell_unchanged(report, &table, &before);
    report.table(&table);
}

// Adds whether a copy was made, whether it has the bytes of its table, and the table.
fn tell_copy(report: &mut Report, call: &'static str, copy: Result<Table, Error>, table: &Table) {
    report.result(call, &copy);
    if let Ok(copy) = copy {
        report.holds(
            "the bytes are the same",
            copy.raw_bytes() == table.raw_bytes(),
        );
    }
    report.table(table);
}

/// Copies a full table.
pub fn clone(alloc: Global, report: &mut Report) {
    if let Some(table) = full_table(alloc, report) {
        tell_copy(report, "clone", table.clone(), &table);
    }
}

/// Makes a table of the bytes of a full one.
pub fn from_raw_bytes(alloc: Global, report: &mut Report) {
    if let Some(table) = full_table(alloc, report) {
        let copy = Table::from_raw_bytes(alloc, table.raw_bytes());
        tell_copy(report, "from_raw_bytes", copy, &table);
    }
}

/// Makes a table of the bytes of a full one, where no search reads more than one group; and with
/// the bound of no group, by which they are rejected before memory is requested.
pub fn from_raw_bytes_within(alloc: Global, report: &mut Report) {
    if let Some(table) = full_table(alloc, report) {
        let refused = Table::from_raw_bytes_within(alloc, table.raw_bytes(), 0);
        report.result("within no group", &refused);
        let copy = Table::from_raw_bytes_within(alloc, table.raw_bytes(), 1);
        tell_copy(report, "from_raw_bytes_within", copy, &table);
    }
}

/// Makes a table of the bytes of a full one, without a check.
pub fn from_raw_bytes_unchecked(alloc: Global, report: &mut Report) {
    if let Some(table) = full_table(alloc, report) {
        let copy = Table::from_raw_bytes_unchecked(alloc, table.raw_bytes());
        tell_copy(report, "from_raw_bytes_unchecked", copy, &table);
    }
}

/// Opens bytes of no table: they are rejected before memory is requested.
pub fn refused_bytes(alloc: Global, report: &mut Report) {
    let bytes = [7; 192];
    report.result("from_raw_bytes", &Table::from_raw_bytes(alloc, &bytes));
    report.result(
        "from_raw_bytes_within",
        &Table::from_raw_bytes_within(alloc, &bytes, 1),
    );
}
