//! Whole files, read at once.
use crate::failure::Failure;
use crate::front::begins_table;
use crate::obstacles::is_device;
use odht_header::header::HEADER_SIZE;
use std::alloc::Global;
use std::fs::{self, OpenFile};
use std::io::{self, BufRead, Read};
use std::os::unix::fs::MetadataExt;
use std::rt::Files;

/// In how many bytes after the header of no table another table is looked for.
const MOST_LOOKED: u64 = 1 << 24;

/// All bytes of a file, which is no device. The memory is allocated once, for the length that the
/// file has at first.
pub fn read_file<R: Files + AllocGlobal>(rt: &R, path: &str) -> Result<Vec<u8>, Failure> {
    read_bytes(rt, path).map_err(of_reading)
}

/// All bytes of a file that is to have a table at this offset. If none begins there by its header,
/// they are those up to [`MOST_LOOKED`] bytes after the header: what is wrong with the header does
/// not depend on later bytes.
pub fn read_table_file<R: Files + AllocGlobal>(
    rt: &R,
    path: &str,
    offset: usize,
) -> Result<Vec<u8>, Failure> {
    read_from(rt, path, offset).map_err(of_reading)
}

fn read_from<R: Files + AllocGlobal>(rt: &R, path: &str, offset: usize) -> io::Result<Vec<u8>> {
    let alloc: Global = rt.alloc();
    let file = fs::open(rt, path)?;
    let len = usize::try_from(file.metadata()?.len()).unwrap_or(0);
    let mut front = Vec::with_capacity(alloc, HEADER_SIZE)?;
    let mut first = file.take(offset.saturating_add(HEADER_SIZE) as u64);
    first.read_to_end(&mut front)?;
    let mut file = first.into_inner();
    if !begins_table_at(front.as_slice(), offset) {
        file.take(MOST_LOOKED).read_to_end(&mut front)?;
        return Ok(front);
    }
    let mut bytes = Vec::with_capacity(alloc, len.max(front.len()))?;
    bytes.extend_from_slice(front.as_slice())?;
    file.read_to_end(&mut bytes)?;
    Ok(bytes)
}

fn begins_table_at(bytes: &[u8], offset: usize) -> bool {
    offset <= bytes.len() && begins_table(&bytes[offset..])
}

pub(crate) fn of_reading(error: io::Error) -> Failure {
    match error.kind() {
        io::ErrorKind::OutOfMemory => Failure::Memory,
        _ => Failure::Read(error),
    }
}

fn read_bytes<R: Files + AllocGlobal>(rt: &R, path: &str) -> io::Result<Vec<u8>> {
    let alloc: Global = rt.alloc();
    let mut file = fs::open(rt, path)?;
    let found = file.metadata()?;
    if is_device(found.mode()) {
        return Err(io::Error::other("it is a device, not a regular file"));
    }
    let len = usize::try_from(found.len()).unwrap_or(0);
    let mut bytes = Vec::with_capacity(alloc, len)?;
    file.read_to_end(&mut bytes)?;
    Ok(bytes)
}

/// How many bytes standard input has, where it is a file.
pub fn input_len<R: Files>(rt: &R) -> Option<u64> {
    match fs::metadata(rt, "/dev/stdin") {
        Ok(found) if found.is_file() => Some(found.len()),
        _ => None,
    }
}

/// The bytes of an input that is to have a table at this offset: all of them, or, if none begins
/// there by its header, as many as [`read_table_file`] reads.
pub fn read_table_input<I: BufRead>(
    alloc: Global,
    input: &mut I,
    offset: usize,
) -> Result<Vec<u8>, Failure> {
    let mut bytes = Vec::new(alloc);
    read_some(input, offset.saturating_add(HEADER_SIZE), &mut bytes).map_err(of_input)?;
    if begins_table_at(bytes.as_slice(), offset) {
        read_rest(input, &mut bytes)?;
    } else {
        read_some(input, MOST_LOOKED as usize, &mut bytes).map_err(of_input)?;
    }
    Ok(bytes)
}

// Adds the next bytes of an input, at most `most`.
pub(crate) fn read_some<I: BufRead>(
    input: &mut I,
    most: usize,
    bytes: &mut Vec<u8>,
) -> io::Result<()> {
    let mut left = most;
    for _ in 0..u64::MAX {
        let available = match input.fill_buf() {
            Ok(available) => available,
            Err(error) if error.kind() == io::ErrorKind::Interrupted => continue,
            Err(error) => return Err(error),
        };
        let taken = available.len().min(left);
        if taken == 0 {
            break;
        }
        bytes.extend_from_slice(&available[..taken])?;
        input.consume(taken);
        left -= taken;
    }
    Ok(())
}

pub(crate) fn of_input(error: io::Error) -> Failure {
    match error.kind() {
        io::ErrorKind::OutOfMemory => Failure::Memory,
        _ => Failure::Input(error),
    }
}

/// All bytes of an input.
pub fn read_input<I: BufRead>(alloc: Global, input: &mut I) -> Result<Vec<u8>, Failure> {
    let mut bytes = Vec::new(alloc);
    read_rest(input, &mut bytes)?;
    Ok(bytes)
}

// Adds all bytes that an input has left.
// By lines, as other commands read it: another way to read would keep the compiler from inlining
// theirs.
fn read_rest<I: BufRead>(input: &mut I, bytes: &mut Vec<u8>) -> Result<(), Failure> {
    for _ in 0..u64::MAX {
        match input.read_until(b'\n', bytes) {
            Ok(0) => break,
            Ok(_) => {}
            Err(error) => return Err(of_input(error)),
        }
    }
    Ok(())
}
