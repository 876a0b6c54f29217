//! Byte arrays of a fixed length, which keys and values are encoded to.
ghost use Rattle.std.specs.Prelude.{◌≡◌, ◌↔◌, ℕ, ◌+◌, ◌<◌, ◌≤◌, List, length, replicate, All};
ghost use Rattle.std.specs.Prelude.{IsTrue, refl};
ghost use Rattle.odht_base.specs.Numbers.{num, IsBytes};
ghost use Rattle.odht_base.specs.Bytes.{bytes_at};

use std::fmt::Debug;

/// An array of a fixed number of bytes, and nothing but these bytes: an encoded key or an encoded
/// value.
pub trait ByteArray: Sized + Copy + Eq + Debug + 'static {
    /// How many bytes the array has.
    const LEN: usize;

    ghost LEN: { ℕ };

    ghost bytes: { Self → List ℕ };

    ghost of_bytes: { List ℕ → Self };

    /// The array of zeros.
    fn zeroed() -> Self
        ensures { bytes result ≡ replicate LEN 0 };

    /// The array of the bytes of `slice`, whose length is `LEN`.
    fn from_slice(slice: &[u8]) -> Self
        requires { length slice.now ≡ LEN }
        ensures { result ≡ of_bytes slice.now };

    /// The bytes.
    fn as_slice(&self) -> &[u8]
        ensures value { result.now ≡ bytes self.now }
        ensures bytes { IsBytes LEN (bytes self.now) };

    /// Whether the bytes are equal.
    fn equals(&self, other: &Self) -> bool
        ensures { IsTrue result ↔ (bytes self.now ≡ bytes other.now) };

    /// Whether each byte is zero.
    #[inline]
    fn is_all_zeros(&self) -> bool
        ensures { IsTrue result ↔ (bytes self.now ≡ replicate LEN 0) }
    {
        self.as_slice().iter().all(|b| *b == 0)
    }

    ghost determined: { (x : Self) → of_bytes (bytes x) ≡ x };

    ghost kept: { (b : List ℕ) → length b ≡ LEN → bytes (of_bytes b) ≡ b };
}

impl<const LEN: usize> ByteArray for [u8; LEN] {
    const LEN: usize = LEN;

    ghost LEN = { LEN };

    ghost bytes = { λ a. a };

    ghost of_bytes = { λ b. b };

    ghost determined = { λ x. refl };

    ghost kept = { λ b long. refl };

    #[inline]
    fn zeroed() -> Self {
        [0; LEN]
    }

    #[inline]
    fn from_slice(slice: &[u8]) -> Self {
        let Some(chunk) = slice.first_chunk::<LEN>() else {
            unreachable!()
        };
        *chunk
    }

    #[inline]
    fn as_slice(&self) -> &[u8] {
        as_bytes(self)
    }

    // Arrays of one to four words, and of 9, 10 and 20 bytes, are compared a word at a time, with
    // no loop. Those of 28 bytes, and of other lengths that are not multiples of four, are
    // compared as the compiler does it, which takes fewer instructions there: up to 7 bytes as
    // arrays, which it keeps in registers; longer ones as lists of a known length, by loads that
    // overlap. For the calls for C it calls a routine for such a list, which takes some thirty
    // instructions.
    #[inline]
    fn equals(&self, other: &Self) -> bool {
        let (left, right): (&[u8], &[u8]) = (self, other);
        match LEN {
            8 => is_same_word(left, right, 0),
            9 => is_same_bytes(left, right),
            10 => is_same_word(left, right, 0) && is_same_quarter(left, right, 8),
            16 => is_same_pair(left, right, 0),
            20 => is_same_pair(left, right, 0) && is_same_half(left, right, 16),
            24 => is_same_pair(left, right, 0) && is_same_word(left, right, 16),
            32 => is_same_four(left, right),
            28 => left == right,
            _ if LEN % 4 == 0 => is_same_bytes(left, right),
            _ if LEN < 8 => *self == *other,
            _ => left == right,
        }
    }
}

// The slice itself, of which each item is a byte.
#[inline]
fn as_bytes(slice: &[u8]) -> &[u8]
    ensures value { result.now ≡ slice.now }
    ensures each { All (λ x. x < 256) slice.now }
{
    slice
}

// The number of the two bytes from `at` on, lowest byte first, at any alignment.
#[inline]
fn read_u16(bytes: &[u8], at: usize) -> u16
    requires { at + 2 ≤ length bytes.now }
    ensures { result ≡ num (bytes_at bytes.now at 2) }
{
    let Some(chunk) = bytes[at..at + 2].first_chunk::<2>() else {
        unreachable!()
    };
    u16::from_le_bytes(*chunk)
}

/// The number of the four bytes from `at` on, lowest byte first, at any alignment.
#[inline]
pub fn read_u32(bytes: &[u8], at: usize) -> u32
    requires { at + 4 ≤ length bytes.now }
    ensures { result ≡ num (bytes_at bytes.now at 4) }
{
    let Some(chunk) = bytes[at..at + 4].first_chunk::<4>() else {
        unreachable!()
    };
    u32::from_le_bytes(*chunk)
}

/// The number of the eight bytes from `at` on, lowest byte first, at any alignment.
#[inline]
pub fn read_u64(bytes: &[u8], at: usize) -> u64
    requires { at + 8 ≤ length bytes.now }
    ensures { result ≡ num (bytes_at bytes.now at 8) }
{
    let Some(chunk) = bytes[at..at + 8].first_chunk::<8>() else {
        unreachable!()
    };
    u64::from_le_bytes(*chunk)
}

/// Whether the eight bytes from `at` on are equal, at any alignment.
#[inline]
pub fn is_same_word(left: &[u8], right: &[u8], at: usize) -> bool
    requires left { at + 8 ≤ length left.now }
    requires right { at + 8 ≤ length right.now }
    ensures { IsTrue result ↔ (bytes_at left.now at 8 ≡ bytes_at right.now at 8) }
{
    read_u64(left, at) == read_u64(right, at)
}

/// Whether two slices of the same length have the same bytes. They are compared where they are.
///
/// Up to 64 bytes are compared in pieces of eight, then one of four, then the rest: a copy of a
/// short key is written in such pieces too, and mostly read back fastest in the same.
#[inline(always)]
pub fn is_same_bytes(left: &[u8], right: &[u8]) -> bool
    requires { length left.now ≡ length right.now }
    ensures { IsTrue result ↔ (left.now ≡ right.now) }
{
    let len = right.len();
    if len > 64 {
        return left == right;
    }
    let mut at = 0;
    'words: while len - at >= 8 {
        if !is_same_word(left, right, at) {
            return false;
        }
        at += 8;
    }
    if len - at < 4 {
        return left[at..] == right[at..];
    }
    is_same_half(left, right, at) && left[at + 4..] == right[at + 4..]
}

/// Whether two slices of 32 bytes are equal. They are compared where they are, word by word: of
/// copies, the compiler compares half as a vector, which takes longer.
#[inline(always)]
pub fn is_same_four(left: &[u8], right: &[u8]) -> bool
    requires left { length left.now ≡ 32 }
    requires right { length right.now ≡ 32 }
    ensures { IsTrue result ↔ (left.now ≡ right.now) }
{
    is_same_pair(left, right, 0) && is_same_pair(left, right, 16)
}

/// Whether each byte is zero, eight of them at a time.
#[inline(always)]
pub fn is_zeros(bytes: &[u8]) -> bool
    ensures { IsTrue result ↔ (bytes.now ≡ replicate (length bytes.now) 0) }
{
    let len = bytes.len();
    if len < 8 {
        return bytes.iter().all(|b| *b == 0);
    }
    let mut at = 0;
    'words: while at + 8 < len {
        if read_u64(bytes, at) != 0 {
            return false;
        }
        at += 8;
    }
    read_u64(bytes, len - 8) == 0
}

// Whether the two bytes from `at` on are equal.
#[inline]
fn is_same_quarter(left: &[u8], right: &[u8], at: usize) -> bool
    requires left { at + 2 ≤ length left.now }
    requires right { at + 2 ≤ length right.now }
    ensures { IsTrue result ↔ (bytes_at left.now at 2 ≡ bytes_at right.now at 2) }
{
    read_u16(left, at) == read_u16(right, at)
}

// Whether the four bytes from `at` on are equal.
#[inline]
fn is_same_half(left: &[u8], right: &[u8], at: usize) -> bool
    requires left { at + 4 ≤ length left.now }
    requires right { at + 4 ≤ length right.now }
    ensures { IsTrue result ↔ (bytes_at left.now at 4 ≡ bytes_at right.now at 4) }
{
    read_u32(left, at) == read_u32(right, at)
}

// Whether the sixteen bytes from `at` on are equal.
#[inline]
fn is_same_pair(left: &[u8], right: &[u8], at: usize) -> bool
    requires left { at + 16 ≤ length left.now }
    requires right { at + 16 ≤ length right.now }
    ensures { IsTrue result ↔ (bytes_at left.now at 16 ≡ bytes_at right.now at 16) }
{
    is_same_word(left, right, at) && is_same_word(left, right, at + 8)
}
