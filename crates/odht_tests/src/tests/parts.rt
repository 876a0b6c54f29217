//! What has gone out of a full buffer when a call returns: as many parts as fit it, and of the
//! digits of bytes as many pairs. Of a call that put a line or a key together first another number
//! would have gone out.
use crate::tests::checks::same_len;
use odht::HashTableOwned;
use odht::configs::Bytes16ToU32;
use odht_tool_core::answers::{write_answers, write_pair};
use odht_tool_core::forms::Form;
use odht_tool_core::slots::dump_slots;
use odht_tool_core::written::Written;
use std::alloc::Global;
use std::io::{BufWriter, Write};
use std::process::Abort;

type Output = BufWriter<Vec<u8>>;

// Sixteen bytes, with 32 digits.
const KEY: [u8; 16] = [0xab; 16];

// A buffer for forty bytes, of which thirteen are taken.
fn output(rt: &impl Abort, alloc: Global) -> Output {
    let mut output = BufWriter::with_capacity(alloc, 40, Vec::new(alloc)).expect(rt, "memory");
    output.write_all(b"0123456789abc").expect(rt, "memory");
    output
}

// Asserts that 39 bytes have gone out: the thirteen, and all that came until two digits more had
// no room.
fn check_full(rt: &impl Abort, what: &str, output: &Output) {
    same_len(rt, what, output.get_ref().len(), 39);
}

#[test]
fn a_full_buffer_has_as_many_parts_as_fit(rt: HostRuntime) {
    let alloc = rt.alloc();
    let mut key = output(&rt, alloc);
    KEY.write(Form::Own, &mut key).expect(&rt, "memory");
    check_full(&rt, "key", &key);
    let mut pair = output(&rt, alloc);
    write_pair(&KEY, &5u32, &mut pair).expect(&rt, "memory");
    check_full(&rt, "pair", &pair);
    let mut answers = output(&rt, alloc);
    write_answers(&[KEY], &[Some(5u32)], &mut answers).expect(&rt, "memory");
    check_full(&rt, "answer", &answers);
}

// The tag of the key is 85, and its home slot 11, so that its line begins with `11`, `85` and `1`,
// each with a tab.
#[test]
fn a_full_buffer_has_as_many_parts_of_a_slot_as_fit(rt: HostRuntime) {
    let alloc = rt.alloc();
    let mut table: HashTableOwned<Bytes16ToU32> = HashTableOwned::default(alloc).expect(
        &rt, "memory",
    );
    let _ = table.insert(&KEY, &5).expect(&rt, "memory");
    let mut slots = output(&rt, alloc);
    let _ = dump_slots::<Bytes16ToU32, Output>(table.raw_bytes(), &mut slots).expect(&rt, "memory");
    check_full(&rt, "slot", &slots);
}
