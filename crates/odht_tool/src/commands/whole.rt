//! The bytes of a file that a command reads whole, or of the table that it reads in it.
use odht::memory_layout::{HEADER_SIZE, Header};
use odht::read_at::{ReadAt, read_exact_at};
use odht_tool_core::arguments::is_stream;
use odht_tool_core::failure::Failure;
use odht_tool_reads::positions::open_regular;
use odht_tool_tables::files::read_table_bytes;
use std::alloc::Global;
use std::fs::{self, OpenFile};
use std::io::{self, BufRead, Read};
use std::os::unix::fs::FileExt;
use std::rt::Files;

/// Opens a file whose keys come as lines of a pipe or a terminal. They may come for long, and all of
/// them are answered from the file as it is at first, even if another one replaces it meanwhile.
pub(super) fn open_for_long<R: Files>(rt: &R, file: &str, is_live: bool) -> Option<R::File> {
    // To open a pipe would wait for its writer.
    if !is_live || is_stream(file) || !fs::metadata(rt, file).ok()?.is_file() {
        return None;
    }
    fs::open(rt, file).ok()
}

/// How many bytes of a table are read at once.
const PART: usize = 1 << 16;

/// The bytes of a file, and where in them the table begins. Without an offset, and where only the
/// bytes of the table were read, it is all of them.
pub(super) fn read_from<R: Files + AllocGlobal, I: BufRead>(
    rt: &R,
    file: &str,
    at: Option<usize>,
    input: &mut I,
) -> Result<(Vec<u8>, Option<usize>), Failure>
where
    R::File: FileExt,
{
    let Some(offset) = at else {
        return Ok((read_table_bytes(rt, file, 0, input)?, None));
    };
    match read_table_at(rt, file, offset) {
        Some(table) => Ok((table, None)),
        None => Ok((read_table_bytes(rt, file, offset, input)?, at)),
    }
}

// The bytes of the table that begins at this offset of a regular file. None where its header does
// not fit, the file has fewer bytes, a read failed, or memory is short: to read all bytes tells why.
fn read_table_at<R: Files + AllocGlobal>(rt: &R, file: &str, offset: usize) -> Option<Vec<u8>>
where
    R::File: FileExt,
{
    let (source, len) = open_regular(rt, file)?;
    let rest = len.checked_sub(offset)?;
    let mut header = [0; HEADER_SIZE];
    read_exact_at(&source, offset as u64, &mut header).ok()?;
    let header = Header::of(&header);
    let needed = header.layout_len(header.layout(), rest).ok()?;
    read_part(rt.alloc(), &source, offset as u64, needed)
}

// The bytes from an offset on, `len` of them. None where a read failed, or memory is short.
fn read_part<S: ReadAt>(alloc: Global, source: &S, at: u64, len: usize) -> Option<Vec<u8>> {
    let mut bytes = Vec::with_capacity(alloc, len).ok()?;
    let mut part = [0; PART];
    for number in 0..len.div_ceil(PART) {
        let read = number * PART;
        let (next, _) = part.split_at_mut((len - read).min(PART));
        read_exact_at(source, at.checked_add(read as u64)?, next).ok()?;
        bytes.extend_from_slice(&*next).ok()?;
    }
    Some(bytes)
}

/// All bytes of an open file.
pub(super) fn read_opened<F: OpenFile + Read + Drop>(
    alloc: Global,
    file: F,
) -> Result<Vec<u8>, Failure> {
    match read_all(alloc, file) {
        Err(error) if error.kind() == io::ErrorKind::OutOfMemory => Err(Failure::Memory),
        read => read.map_err(Failure::Read),
    }
}

fn read_all<F: OpenFile + Read + Drop>(alloc: Global, mut file: F) -> io::Result<Vec<u8>> {
    let len = usize::try_from(file.metadata()?.len()).unwrap_or(0);
    let mut bytes = Vec::with_capacity(alloc, len)?;
    file.read_to_end(&mut bytes)?;
    Ok(bytes)
}
