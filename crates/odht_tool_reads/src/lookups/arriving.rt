//! Inputs of which the next line may have come, or not.

use std::io::{BufReader, Read};

/// An input whose lines come one after the other.
pub trait Arriving {
    /// Whether no further line has come whole, so that reading one may wait for it.
    fn is_waiting(&self) -> bool;
}

/// What has come is in the buffer.
impl<R: Read> Arriving for BufReader<R> {
    fn is_waiting(&self) -> bool {
        !self.buffer().contains(&b'\n')
    }
}
