//! A table inside longer bytes: its length by its header, the view of it, and what follows it.
use crate::tests::checks::{same, same_at, same_bytes, same_len, same_value};
use crate::tests::owned_tables::byte_with_a_pair;
use odht::HashTable;
use odht::bytes::Borrowed;
use odht::configs::U32ToU32;
use odht::error::Error;
use odht::memory_layout::table_len;
use std::process::Abort;

type View<'a> = HashTable<U32ToU32, Borrowed<'a>>;

// Where the table begins in the file, and where it ends.
const START: usize = 3;

const END: usize = 195;

// Three bytes, the 192 bytes of a table of 16 slots with the pair of 1 and 2, and 61 bytes.
fn file() -> [u8; 256] {
    let mut bytes = [0x5a; 256];
    for (at, byte) in bytes.iter_mut().enumerate() {
        if START <= at && at < END {
            *byte = byte_with_a_pair(at - START);
        }
    }
    bytes
}

// The same with another byte of the table.
fn changed_file(at: usize, byte: u8) -> [u8; 256] {
    let mut bytes = file();
    for (place, found) in bytes.iter_mut().enumerate() {
        if place >= START && place - START == at {
            *found = byte;
        }
    }
    bytes
}

// The error of that many bytes for a table that has more.
fn cut(slot_count: usize, found: usize, expected: u128) -> Error {
    Error::WrongLength {
        slot_count,
        found,
        expected,
    }
}

#[test]
fn lengths_of_cut_files(rt: HostRuntime) {
    let file = file();
    let lengths = [
        (START, 256, Ok(192)),
        (START, END, Ok(192)),
        (START, END - 1, Err(cut(16, 191, 192))),
        (START, START + 32, Err(cut(16, 32, 192))),
        (START, START + 31, Err(Error::TooShort { found: 31 })),
        (256, 256, Err(Error::TooShort { found: 0 })),
        (START - 1, 256, Err(Error::WrongTag { found: *b"ZODH" })),
    ];
    for (from, to, expected) in lengths {
        let bytes = file.get(from..to).expect(&rt, "a part");
        same_at(&rt, "length to", to, table_len::<U32ToU32>(bytes), expected);
    }
}

// One byte of the header's slot count, or of the entry in slot 5, is another. 253 bytes are left.
#[test]
fn forged_tables(rt: HostRuntime) {
    let errors = [
        (16, 17, Error::SlotCountNotPowerOfTwo { found: 17 }),
        (16, 8, Error::SlotCountTooSmall { found: 8 }),
        (16, 32, cut(32, 253, 336)),
        (16, 64, cut(64, 253, 624)),
        (
            72,
            3,
            Error::ControlMismatch {
                slot: 5,
                expected: 58,
                found: 19,
            },
        ),
    ];
    for (at, byte, expected) in errors {
        let bytes = changed_file(at, byte);
        let opened: Result<(View<'_>, &[u8]), Error> = HashTable::from_prefix(&bytes[START..]);
        same_at(&rt, "changed byte", at, opened.err(), Some(expected));
    }
}

// 2^63 slots of nine bytes each, with their mirror and the header, are more bytes than 64 bits
// count.
#[test]
fn a_length_that_wraps(rt: HostRuntime) {
    let mut bytes = changed_file(16, 0);
    bytes[START + 23] = 128;
    let expected = cut(1 << 63, 253, 83010348331692982320);
    same(
        &rt,
        "the length",
        table_len::<U32ToU32>(&bytes[START..]),
        Err(expected),
    );
}

#[test]
fn a_table_and_what_follows(rt: HostRuntime) {
    let file = file();
    let opened: Result<(View<'_>, &[u8]), Error> = HashTable::from_prefix(&file[START..]);
    let (table, rest) = opened.expect(&rt, "a table");
    same_bytes(&rt, "the table", table.raw_bytes(), &file[START..END]);
    same_bytes(&rt, "the rest", rest, &file[END..]);
    same_len(&rt, "items", table.len(), 1);
    same_value(&rt, 1, table.get(&1), Some(2));
    same_value(&rt, 2, table.get(&2), None);
}
