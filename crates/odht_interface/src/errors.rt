//! The names of `error` and `config` as the port promises them (`base` says how).

use crate::base::is_plain_value;
use crate::checks::same;
use odht::bytes::ByteArray;
use odht::config::{Config, Lossless};
use odht::configs::U64ToU32;
use odht::error::{Error, Part};
use odht::hash::HashFn;
use std::fmt::Display;

// The errors of opening bytes, each with all of its fields.
const OPENING: [Error; 9] = [
    Error::TooShort { found: 31_usize },
    Error::WrongTag {
        found: [0_u8, 68, 72, 84],
    },
    Error::WrongVersion {
        found: [0_u8, 0, 0, 1],
    },
    Error::WrongSizeOf {
        part: Part::EncodedKey,
        expected: 8_usize,
        found: 4_u8,
    },
    Error::SlotCountNotPowerOfTwo { found: 24_usize },
    Error::SlotCountTooSmall { found: 8_usize },
    Error::WrongLength {
        slot_count: 16_usize,
        found: 32_usize,
        expected: 192_u128,
    },
    Error::NonZeroEmpty { slot: 0_usize },
    Error::ControlMismatch {
        slot: 5_usize,
        expected: 0_u8,
        found: 19_u8,
    },
];

// What the whole check adds to these.
const CHECKING: [Error; 7] = [
    Error::LoadFactorTooSmall { found: 654_u16 },
    Error::NonZeroPadding { found: [0_u8, 1] },
    Error::BadFreeControl {
        slot: 12_usize,
        found: 128_u8,
    },
    Error::MirrorMismatch { index: 0_usize },
    Error::WrongItemCount {
        stated: 5_usize,
        found: 0_usize,
    },
    Error::TooManyItems {
        count: 16_usize,
        max: 13_usize,
    },
    Error::Unreachable { slot: 6_usize },
];

// The errors of calls.
const CALLS: [Error; 4] = [
    Error::InitLength {
        found: 191_usize,
        expected: 192_usize,
    },
    Error::Full,
    Error::Memory,
    Error::Capacity,
];

// Which of these an error is of: it compiles only where there are no others.
fn kind_of(error: Error) -> &'static str {
    match error {
        // begin kind_of: generated from lists/errors.txt by make generate
        Error::TooShort { .. }
        | Error::WrongTag { .. }
        | Error::WrongVersion { .. }
        | Error::WrongSizeOf { .. }
        | Error::SlotCountNotPowerOfTwo { .. }
        | Error::SlotCountTooSmall { .. }
        | Error::WrongLength { .. }
        | Error::NonZeroEmpty { .. }
        | Error::ControlMismatch { .. } => "opening",
        Error::LoadFactorTooSmall { .. }
        | Error::NonZeroPadding { .. }
        | Error::BadFreeControl { .. }
        | Error::MirrorMismatch { .. }
        | Error::WrongItemCount { .. }
        | Error::TooManyItems { .. }
        | Error::Unreachable { .. } => "checking",
        Error::SearchTooLong { .. } => "checking within a bound",
        Error::InitLength { .. } | Error::Full | Error::Memory | Error::Capacity => "calls",
        // end kind_of
    }
}

// The name of a part: it compiles only where there are no others.
fn name_of(part: Part) -> &'static str {
    match part {
        Part::EntryMetadata => "EntryMetadata",
        Part::EncodedKey => "EncodedKey",
        Part::EncodedValue => "EncodedValue",
        Part::Header => "Header",
    }
}

#[test]
fn errors(rt: HostRuntime) {
    for error in OPENING {
        same(&rt, "an error", kind_of(error), "opening");
    }
    for error in CHECKING {
        same(&rt, "an error", kind_of(error), "checking");
    }
    for error in CALLS {
        same(&rt, "an error", kind_of(error), "calls");
    }
    same(&rt, "a part", name_of(Part::Header), "Header");
}

fn is_error<E: Display + std::error::Error>() {}

#[test]
fn texts_of_errors(rt: HostRuntime) {
    is_error::<Error>();
    is_plain_value::<Error>();
    is_plain_value::<Part>();
    let error = Error::WrongItemCount {
        stated: 5,
        found: 0,
    };
    let text: String = format!(in rt.alloc(); "{error}").expect(&rt, "memory");
    let debug: String = format!(in rt.alloc(); "{error:?}").expect(&rt, "memory");
    same(
        &rt,
        "the text",
        text.as_str(),
        "Header states 5 items but 0 were found",
    );
    same(
        &rt,
        "Debug",
        debug.as_str(),
        "WrongItemCount { stated: 5, found: 0 }",
    );
}

fn is_array<A: ByteArray>() {}

fn is_hash<H: HashFn>() {}

fn is_droppable<T: Drop>() {}

// What the bytes of a key and of a value decode to.
fn decoded<C: Config>(key: &C::Key, value: &C::Value) -> (C::Key, C::Value) {
    is_array::<C::EncodedKey>();
    is_array::<C::EncodedValue>();
    is_hash::<C::H>();
    is_droppable::<C::Key>();
    is_droppable::<C::Value>();
    let key: C::EncodedKey = C::encode_key(key);
    let value: C::EncodedValue = C::encode_value(value);
    let key: C::Key = C::decode_key(&key);
    let value: C::Value = C::decode_value(&value);
    (key, value)
}

// The law of a configuration that loses nothing.
fn keep<C: Lossless>(key: &C::Key, value: &C::Value) {
    let _: () = C::key_kept(key);
    let _: () = C::value_kept(value);
}

#[test]
fn configurations(rt: HostRuntime) {
    keep::<U64ToU32>(&1_u64, &2_u32);
    same(&rt, "a pair", decoded::<U64ToU32>(&1_u64, &2_u32), (1, 2));
}
