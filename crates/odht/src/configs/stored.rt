//! What the keys and values of ready configurations are, and how they are stored: integers
//! little-endian, and bytes as they are.
ghost use Rattle.std.specs.Prelude.{◌≡◌, ◌≤◌};
ghost use Rattle.std.specs.Int.{w32, w64, to_le_bytes, from_le_bytes};
ghost use Rattle.std.proofs.Common.{lit≤, zero-le};

use crate::bytes::ByteArray;
use crate::hash::{FxHashFn, HashFn, UnHashFn, Xxh64HashFn};

/// A type that is stored as a fixed number of bytes: an integer, little-endian, bytes, or `()`,
/// which has none.
pub trait FixedBytes: Drop {
    type Bytes: ByteArray;

    ghost to_bytes: { Self → Self.Bytes };

    ghost of_bytes: { Self.Bytes → Self };

    /// Its bytes.
    fn to_bytes(&self) -> Self::Bytes
        ensures { result ≡ to_bytes self.now };

    /// The value that these bytes decode to.
    fn of_bytes(bytes: &Self::Bytes) -> Self
        ensures { result ≡ of_bytes bytes.now };

    /// The law that its bytes decode to it. The call has no effect.
    fn kept(&self)
        ensures { of_bytes (to_bytes self.now) ≡ self.now };
}

impl FixedBytes for u32 {
    type Bytes = [u8; 4];

    ghost to_bytes = { to_le_bytes w32 };

    ghost of_bytes = { from_le_bytes w32 };

    #[inline(always)]
    fn to_bytes(&self) -> [u8; 4] {
        self.to_le_bytes()
    }

    #[inline(always)]
    fn of_bytes(bytes: &[u8; 4]) -> u32 {
        u32::from_le_bytes(*bytes)
    }

    fn kept(&self) {
        let _number = *self;
    }
}

impl FixedBytes for u64 {
    type Bytes = [u8; 8];

    ghost to_bytes = { to_le_bytes w64 };

    ghost of_bytes = { from_le_bytes w64 };

    #[inline(always)]
    fn to_bytes(&self) -> [u8; 8] {
        self.to_le_bytes()
    }

    #[inline(always)]
    fn of_bytes(bytes: &[u8; 8]) -> u64 {
        u64::from_le_bytes(*bytes)
    }

    fn kept(&self) {
        let _number = *self;
    }
}

impl FixedBytes for () {
    ghost use Rattle.std.specs.Prelude.{[]};

    type Bytes = [u8; 0];

    ghost to_bytes = { λ n. [] };

    ghost of_bytes = { λ b. tt };

    #[inline(always)]
    fn to_bytes(&self) -> [u8; 0] {
        []
    }

    #[inline(always)]
    fn of_bytes(_bytes: &[u8; 0]) {}

    fn kept(&self) {}
}

impl<const N: usize> FixedBytes for [u8; N] {
    type Bytes = [u8; N];

    ghost to_bytes = { λ b. b };

    ghost of_bytes = { λ b. b };

    #[inline(always)]
    fn to_bytes(&self) -> [u8; N] {
        *self
    }

    #[inline(always)]
    fn of_bytes(bytes: &[u8; N]) -> [u8; N] {
        *bytes
    }

    fn kept(&self) {}
}

/// A type whose bytes are no more than an entry takes: at most 255.
pub trait Fits: FixedBytes {
    ghost fits: { Self.Bytes.LEN ≤ 255 };
}

impl Fits for () {
    ghost fits = { zero-le };
}

impl Fits for u32 {
    ghost fits = { lit≤ tt };
}

impl Fits for u64 {
    ghost fits = { lit≤ tt };
}

impl Fits for [u8; 8] {
    ghost fits = { lit≤ tt };
}

impl Fits for [u8; 16] {
    ghost fits = { lit≤ tt };
}

impl Fits for [u8; 20] {
    ghost fits = { lit≤ tt };
}

impl Fits for [u8; 32] {
    ghost fits = { lit≤ tt };
}

/// A type whose bytes are long enough for a hash function: `UnHashFn` takes the last four, which
/// should vary.
pub trait HashedBy<H: HashFn>: Fits {
    ghost long: { H.MIN_LEN ≤ Self.Bytes.LEN };
}

impl<T: Fits> HashedBy<FxHashFn> for T {
    ghost long = { zero-le };
}

impl<T: Fits> HashedBy<Xxh64HashFn> for T {
    ghost long = { zero-le };
}

impl HashedBy<UnHashFn> for u32 {
    ghost long = { lit≤ tt };
}

impl HashedBy<UnHashFn> for u64 {
    ghost long = { lit≤ tt };
}

impl HashedBy<UnHashFn> for [u8; 8] {
    ghost long = { lit≤ tt };
}

impl HashedBy<UnHashFn> for [u8; 16] {
    ghost long = { lit≤ tt };
}

impl HashedBy<UnHashFn> for [u8; 20] {
    ghost long = { lit≤ tt };
}

impl HashedBy<UnHashFn> for [u8; 32] {
    ghost long = { lit≤ tt };
}
