//! A file, as a source of bytes.
ghost use Rattle.std.specs.Prelude.{◌≡◌, ◌≤◌, IfOk, IfSome, length, ⊤};

use odht::read_at::{ReadAt, ReadError};
use std::cell::Cell;
use std::io::ErrorKind;
use std::os::unix::fs::FileExt;

/// How many bytes a read takes that asks for fewer. A value lies behind its key: both are read at
/// once, and the next groups of control bytes with a group.
const BLOCK: usize = 512;

/// An open file, and what was read of it last.
// std states of its reads how many bytes they give, and not which: so no list of bytes is known to
// be given.
#[derive(Drop)]
pub struct FileSource<F: FileExt + Drop> {
    file: F,
    block: Cell<Block>,
}

/// Bytes of a file, from an offset on: the first `len` of these.
#[derive(Clone, Copy)]
struct Block {
    at: u64,
    len: usize,
    bytes: [u8; BLOCK],
}

impl<F: FileExt + Drop> FileSource<F> {
    /// This file.
    pub(super) fn new(file: F) -> Self {
        let block = Block {
            at: 0,
            len: 0,
            bytes: [0; BLOCK],
        };
        FileSource {
            file,
            block: Cell::new(block),
        }
    }
}

impl<F: FileExt + Drop> ReadAt for FileSource<F> {
    ghost gives = { λ s B. ⊥ };

    ghost fails = { λ s e. ⊤ };

    fn read_at(&self, offset: u64, out: &mut [u8]) -> Result<usize, ReadError> {
        let wanted = out.len();
        if wanted > BLOCK {
            return read(&self.file, offset, out);
        }
        let block = self.block.get();
        if let Some(known) = known_at(&block, offset, wanted) {
            out.copy_from_slice(known);
            return Ok(wanted);
        }
        let mut bytes = [0; BLOCK];
        let len = read(&self.file, offset, &mut bytes)?;
        let few = wanted.min(len);
        out[..few].copy_from_slice(&bytes[..few]);
        self.block.set(Block {
            at: offset,
            len,
            bytes,
        });
        Ok(few)
    }
}

// So many bytes from an offset on, where the block has all of them.
fn known_at(block: &Block, offset: u64, wanted: usize) -> Option<&[u8]>
    requires { wanted ≤ BLOCK }
    ensures { IfSome result (λ known. length known.now ≡ wanted) }
{
    let skipped = offset.checked_sub(block.at)?;
    if skipped > BLOCK as u64 {
        return None;
    }
    let first = skipped as usize;
    let end = first + wanted;
    if end > block.len || end > BLOCK {
        return None;
    }
    Some(&block.bytes[first..end])
}

// A read of the file.
fn read<F: FileExt>(file: &F, offset: u64, out: &mut [u8]) -> Result<usize, ReadError>
    ensures { IfOk result (λ n. n ≤ length out.new) }
{
    match file.read_at(out, offset) {
        Ok(len) => Ok(len),
        Err(error) if error.kind() == ErrorKind::Interrupted => Err(ReadError::Interrupted),
        Err(error) => Err(ReadError::Failed {
            code: u32::try_from(error.raw_os_error().unwrap_or(0)).unwrap_or(0),
        }),
    }
}
