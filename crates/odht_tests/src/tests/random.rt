//! Bytes that look random, the same in each run.

/// A generator, and its state.
#[derive(Drop)]
pub struct Random {
    pub state: u64,
}

impl Random {
    /// The next byte: the highest of the next state.
    pub fn byte(&mut self) -> u8 {
        self.state = self
            .state
            .wrapping_mul(6364136223846793005)
            .wrapping_add(1442695040888963407);
        let [.., highest] = self.state.to_le_bytes();
        highest
    }

    /// A number of four bytes.
    pub fn word(&mut self) -> u32 {
        u32::from_le_bytes([self.byte(), self.byte(), self.byte(), self.byte()])
    }

    /// A number below the bound.
    pub fn below(&mut self, bound: usize) -> usize {
        let number = u16::from_le_bytes([self.byte(), self.byte()]);
        (number as usize).wrapping_mul(bound) / 65536
    }

    /// A key, which is small as often as not.
    pub fn key(&mut self) -> u32 {
        if self.below(2) == 0 {
            self.byte() as u32
        } else {
            self.word()
        }
    }
}
