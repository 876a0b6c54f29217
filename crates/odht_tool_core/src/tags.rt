//! The bytes of a file from the first tag of a table on: no table begins in those before.
ghost use Rattle.std.specs.Prelude.{◌≢◌, ◌≤◌, ◌<◌, ℕ, length};
ghost use Rattle.odht_base.specs.Bytes.{bytes_at};
ghost use Rattle.odht_tool_core.specs.Finds.{tag_bytes};

use crate::failure::Failure;
use crate::files::{of_input, of_reading, read_some};
use crate::find::next_first;
use crate::obstacles::is_device;
use odht_base::bytes::read_u32;
use std::alloc::Global;
use std::fs::{self, OpenFile};
use std::io::{self, BufRead, BufReader};
use std::os::unix::fs::MetadataExt;
use std::rt::Files;

/// The bytes with which every table begins.
const TAG: [u8; 4] = *b"ODHT";

/// How many they are.
const TAG_LEN: usize = 4;

/// How many bytes are read at once until a tag is found.
const PART: usize = 1 << 16;

/// The bytes of a file from the first tag on. The last bytes, at most three, where it has none.
#[derive(Drop)]
pub struct Tagged {
    /// How many bytes come before.
    pub skipped: usize,
    pub bytes: Vec<u8>,
}

/// The bytes of a file, which is no device. Memory is allocated for those from the first tag on, as
/// many as the file has at first.
pub fn read_tagged_file<R: Files + AllocGlobal>(rt: &R, path: &str) -> Result<Tagged, Failure> {
    open_tagged(rt, path).map_err(of_reading)
}

fn open_tagged<R: Files + AllocGlobal>(rt: &R, path: &str) -> io::Result<Tagged> {
    let alloc: Global = rt.alloc();
    let file = fs::open(rt, path)?;
    let found = file.metadata()?;
    check_kind(found.mode())?;
    let len = usize::try_from(found.len()).unwrap_or(0);
    let mut input = BufReader::with_capacity(alloc, PART, file)?;
    read_tagged(alloc, &mut input, len)
}

/// The bytes of standard input, which is no device.
pub fn read_tagged_input<R: Files + AllocGlobal, I: BufRead>(
    rt: &R,
    input: &mut I,
) -> Result<Tagged, Failure> {
    if let Ok(found) = fs::metadata(rt, "/dev/stdin") {
        check_kind(found.mode()).map_err(of_input)?;
    }
    read_tagged(rt.alloc(), input, 0).map_err(of_input)
}

// Some devices have no end.
fn check_kind(mode: u32) -> io::Result<()> {
    if is_device(mode) {
        Err(io::Error::other("it is a device, not a regular file"))
    } else {
        Ok(())
    }
}

// The bytes of an input that is expected to have this length.
fn read_tagged<I: BufRead>(alloc: Global, input: &mut I, len: usize) -> io::Result<Tagged> {
    let mut part = Vec::with_capacity(alloc, PART + TAG_LEN)?;
    let mut skipped = 0_usize;
    for _ in 0..u64::MAX {
        let had = part.len();
        read_some(input, PART, &mut part)?;
        let place = tag_place(part.as_slice());
        let rest = &part[place..];
        skipped = skipped.saturating_add(place);
        if rest.len() >= TAG_LEN || part.len() == had {
            let mut bytes = Vec::with_capacity(alloc, len.saturating_sub(skipped).max(rest.len()))?;
            bytes.extend_from_slice(rest)?;
            read_some(input, usize::MAX, &mut bytes)?;
            return Ok(Tagged { skipped, bytes });
        }
        let kept = first_bytes(rest);
        let few = rest.len();
        part.clear();
        part.extend_from_slice(&kept[..few])?;
    }
    Ok(Tagged {
        skipped,
        bytes: part,
    })
}

// Fewer bytes than a tag has, with zeros after them.
fn first_bytes(bytes: &[u8]) -> [u8; 3] {
    let mut first = [0; 3];
    let few = bytes.len().min(3);
    first[..few].copy_from_slice(&bytes[..few]);
    first
}

/// The first place of a tag. Where there is none, the place of the last three bytes, which may be
/// the first bytes of one, or 0 if there are fewer.
pub fn tag_place(bytes: &[u8]) -> usize
    ensures within { result ≤ length bytes.now }
    ensures others { (i : ℕ) → i < result → bytes_at bytes.now i 4 ≢ tag_bytes }
{
    let end = bytes.len().saturating_sub(TAG_LEN - 1);
    let mut at = 0;
    while at < end {
        if read_u32(bytes, at) == u32::from_le_bytes(TAG) {
            return at;
        }
        at = next_first(bytes, at + 1);
    }
    end
}
