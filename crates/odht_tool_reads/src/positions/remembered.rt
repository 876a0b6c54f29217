//! A source of bytes, of which some were read before.
ghost use Rattle.std.specs.Prelude.{◌≡◌, ℕ, List, length};
ghost use Rattle.odht_base.specs.Bytes.{bytes_at};

use odht::read_at::{ReadAt, ReadError};

/// A source, and its bytes from an offset on, as they were read. What lies among them is not read
/// again.
#[derive(Drop)]
pub struct Remembered<'a, S: ReadAt + Drop> {
    pub(super) source: S,
    pub(super) at: u64,
    pub(super) bytes: &'a [u8],
}

impl<'a, S: ReadAt + Drop> Remembered<'a, S> {
    // What is remembered from an offset on: nothing where that is not among the bytes.
    fn known_from(&self, offset: u64) -> &'a [u8]
        ensures { (B : List ℕ) → self.now.bytes.now ≡ bytes_at B self.now.at (length self.now.bytes.now)
            → result.now ≡ bytes_at B offset (length result.now) }
    {
        let bytes = self.bytes;
        match offset.checked_sub(self.at) {
            Some(skipped) if skipped < bytes.len() as u64 => &bytes[skipped as usize..],
            _ => &bytes[bytes.len()..],
        }
    }
}

impl<'a, S: ReadAt + Drop> ReadAt for Remembered<'a, S> {
    ghost use Rattle.std.specs.Prelude.{◌≡◌, length};
    ghost use Rattle.odht_base.specs.Bytes.{bytes_at};

    ghost gives = { λ s B. S.gives s.source B
        × (s.bytes.now ≡ bytes_at B s.at (length s.bytes.now)) };

    ghost fails = { λ s e. S.fails s.source e };

    fn read_at(&self, offset: u64, out: &mut [u8]) -> Result<usize, ReadError> {
        let known = self.known_from(offset);
        if known.is_empty() {
            return self.source.read_at(offset, out);
        }
        let few = out.len().min(known.len());
        out[..few].copy_from_slice(&known[..few]);
        Ok(few)
    }
}
