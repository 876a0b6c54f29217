//! Which error comes back where a writer or a reader fails once and works again after it: its own,
//! with its kind and its text. What has gone out until then is all that goes out. The clauses of
//! the traits of std say of an error no more than that there is one, so no contract over any
//! writer or reader can say which it is.
use crate::tests::checks::{same, same_bytes};
use odht_tool_core::failure::Failure;
use odht_tool_core::forms::Form;
use odht_tool_core::keys::{TakenKey, take_key};
use odht_tool_core::text::write_bytes;
use std::alloc::Global;
use std::io::{self, BufReader, ErrorKind, Read, Write};
use std::process::Abort;

// Forty bytes, and their digits. They are put together for 32 bytes and then for eight.
const KEY: [u8; 40] = [0x5c; 40];

static DIGITS: [u8; 80] = *b"\
    5c5c5c5c5c5c5c5c5c5c5c5c5c5c5c5c5c5c5c5c5c5c5c5c5c5c5c5c5c5c5c5c5c5c5c5c5c5c5c5c";

// The error of both.
fn fault() -> io::Error {
    io::Error::new(ErrorKind::TimedOut, "the line is cut")
}

// Whether the call fails: that before which this many went well.
fn is_due(calls: &mut Option<usize>) -> bool {
    let left = *calls;
    *calls = left.and_then(|left| left.checked_sub(1));
    left == Some(0)
}

// Keeps what it takes.
#[derive(Drop)]
struct Output {
    taken: Vec<u8>,
    calls: Option<usize>,
}

impl Write for Output {
    fn write(&mut self, bytes: &[u8]) -> io::Result<usize> {
        if is_due(&mut self.calls) {
            return Err(fault());
        }
        self.taken.write(bytes)
    }

    fn flush(&mut self) -> io::Result<()> {
        Ok(())
    }
}

// Gives these bytes.
#[derive(Drop)]
struct Input<'a> {
    bytes: &'a [u8],
    calls: Option<usize>,
}

impl Read for Input<'_> {
    fn read(&mut self, buf: &mut [u8]) -> io::Result<usize> {
        if is_due(&mut self.calls) {
            return Err(fault());
        }
        self.bytes.read(buf)
    }
}

// Asserts that this is the error of both.
fn check_fault(rt: &impl Abort, alloc: Global, found: Option<io::Error>) {
    let error = found.expect(rt, "an error");
    same(rt, "kind", error.kind(), ErrorKind::TimedOut);
    let text = format!(in alloc; "{error}").expect(rt, "memory");
    same(rt, "text", text.as_str(), "the line is cut");
}

// Each two digits are a write.
#[test]
fn a_key_ends_with_the_writer_s_error(rt: HostRuntime) {
    let alloc = rt.alloc();
    for count in 0..40 {
        let mut output = Output {
            taken: Vec::new(alloc),
            calls: Some(count),
        };
        let result = write_bytes(&KEY, &mut output);
        check_fault(&rt, alloc, result.err());
        same_bytes(&rt, "out", output.taken.as_slice(), &DIGITS[..2 * count]);
    }
}

// The keys until the end or the first error, and the error. There are at most three.
fn read_keys(
    rt: &impl Abort,
    alloc: Global,
    input: &mut BufReader<Input<'_>>,
) -> (Vec<u64>, Option<io::Error>) {
    let (mut keys, mut line) = (Vec::new(alloc), Vec::new(alloc));
    for _ in 0..4 {
        match take_key(input, &mut line, Form::Own, &mut keys) {
            Ok(TakenKey::Key) => {}
            Ok(_) => return (keys, None),
            Err(Failure::Input(error)) => return (keys, Some(error)),
            Err(_) => return (keys, None),
        }
    }
    (keys, None)
}

// The buffer takes `12\n3`, `45\n6` and `\n`, and then nothing more: each read but the last ends a
// line, and those after the first and the second are in the midst of one.
#[test]
fn keys_end_with_the_reader_s_error(rt: HostRuntime) {
    let alloc = rt.alloc();
    for count in 0..4 {
        let input = Input {
            bytes: b"12\n345\n6\n",
            calls: Some(count),
        };
        let mut input = BufReader::with_capacity(alloc, 4, input).expect(&rt, "memory");
        let (keys, error) = read_keys(&rt, alloc, &mut input);
        check_fault(&rt, alloc, error);
        same(&rt, "keys", keys.as_slice(), &[12, 345, 6][..count]);
    }
}
