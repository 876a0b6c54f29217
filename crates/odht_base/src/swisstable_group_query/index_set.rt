//! Sets of indices below 64, as the bits of a word.
ghost use Rattle.std.specs.Prelude.{◌≡◌, ◌↔◌, [], IsTrue, drop, slice_get};
ghost use Rattle.odht_base.specs.Masks.{set_bits};

use std::marker::Model;

/// A set of indices below 64, to be taken in turn from the least on.
///
/// In a contract it is the list of the indices that are left, rising.
#[derive(Drop)]
pub struct IndexSet {
    bits: u64,
}

impl Model for IndexSet {
    ghost use Rattle.std.specs.Prelude.{ℕ, List};
    ghost use Rattle.odht_base.specs.Masks.{set_bits};

    ghost Value = { List ℕ };

    ghost view = { λ s. set_bits s.bits };
}

impl IndexSet {
    /// How many indices there are: those below 64.
    pub const CAPACITY: usize = 64;

    /// No index.
    #[inline(always)]
    pub fn empty() -> IndexSet
        ensures { result ≡ [] }
    {
        IndexSet { bits: 0 }
    }

    /// The indices of the bits that are set, from the lowest on.
    #[inline(always)]
    pub fn of_bits(bits: u64) -> IndexSet
        ensures { result ≡ set_bits bits }
    {
        IndexSet { bits }
    }

    /// Whether no index is left.
    #[inline(always)]
    pub fn is_empty(&self) -> bool
        ensures { IsTrue result ↔ (self.now ≡ []) }
    {
        self.bits == 0
    }

    /// The least index that is left; None where none is.
    #[inline(always)]
    pub fn first(&self) -> Option<usize>
        ensures { result ≡ slice_get self.now 0 }
    {
        if self.bits == 0 {
            return None;
        }
        Some(self.bits.trailing_zeros() as usize)
    }

    /// Drops the least index that is left, if there is one.
    #[inline(always)]
    pub fn drop_first(&mut self)
        ensures { self.new ≡ drop 1 self.old }
    {
        self.bits &= self.bits.wrapping_sub(1);
    }

    /// Takes the least index that is left: returns and drops it; None once all were taken.
    #[inline(always)]
    pub fn take(&mut self) -> Option<usize>
        ensures next { result ≡ slice_get self.old 0 }
        ensures rest { self.new ≡ drop 1 self.old }
    {
        let index = self.first()?;
        self.drop_first();
        Some(index)
    }
}
