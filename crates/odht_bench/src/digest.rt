//! One number for all results of a run.

// An odd number, by which each result is multiplied.
const FACTOR: u64 = 0x9e37_79b9_7f4a_7c15;

/// A sum over all results, in which each counts by its place.
#[derive(Drop)]
pub struct Digest {
    sum: u64,
    place: u64,
}

impl Digest {
    /// The digest of no results.
    pub fn new() -> Digest {
        Digest { sum: 0, place: 0 }
    }

    /// The sum so far.
    pub fn value(&self) -> u64 {
        self.sum
    }

    /// Adds a number.
    #[inline(always)]
    pub fn number(&mut self, number: u64) {
        self.place = self.place.wrapping_add(FACTOR);
        self.sum = self
            .sum
            .wrapping_add((number ^ self.place).wrapping_mul(FACTOR));
    }

    /// Adds a length, a count or an index.
    #[inline(always)]
    pub fn size(&mut self, size: usize) {
        self.number(size as u64);
    }

    /// Adds whether something holds.
    #[inline(always)]
    pub fn holds(&mut self, is_so: bool) {
        self.number(is_so as u64);
    }

    /// Adds bytes, eight at a time, and how many there are.
    pub fn bytes(&mut self, bytes: &[u8]) {
        for piece in bytes.chunks_exact(8) {
            if let Some(piece) = piece.first_chunk::<8>() {
                self.number(u64::from_le_bytes(*piece));
            }
        }
        for byte in bytes.iter().skip(bytes.len() / 8 * 8) {
            self.number(*byte as u64);
        }
        self.size(bytes.len());
    }
}
