//! The lengths of encoded keys and values: as types, known at compile time, or as numbers, known
//! only at run time.
ghost use Rattle.std.specs.Prelude.{◌≡◌, ◌↔◌, ◌+◌, ◌*◌, ◌<◌, ◌≤◌, ◌^◌, ℕ, length, slice_index, IsTrue};
ghost use Rattle.odht_base.specs.Bytes.{bytes_at};

use crate::bytes::{ByteArray, is_same_bytes, is_same_four, is_same_word};
use crate::config::Config;
use crate::header::Header;
use std::marker::PhantomData;

// How many bytes a key has at most that is loaded to be compared.
const SHORT: usize = 64;

/// How many bytes an encoded key and an encoded value have. Code that reads or writes the entries
/// of a table is written over it once, for lengths that are types and for lengths that are numbers.
///
/// A length may be any number here. What needs short keys and values requires them.
pub trait Lengths: Copy {
    ghost key_len: { Self → ℕ };

    ghost value_len: { Self → ℕ };

    /// The length of an encoded key, in bytes.
    fn key_len(self) -> usize
        ensures { result ≡ key_len self };

    /// The length of an encoded value, in bytes.
    fn value_len(self) -> usize
        ensures { result ≡ value_len self };

    // No default: `Fixed` would not meet its bounds, since a `ByteArray` is `'static`.
    /// The length of an entry, in bytes.
    fn entry_len(self) -> usize
        requires { key_len self + value_len self < 2 ^ 64 }
        ensures { result ≡ key_len self + value_len self };

    /// The entry of a slot, out of the bytes of all entries.
    fn entry(self, entries: &[u8], slot: usize) -> &[u8]
        requires { (slot + 1) * (key_len self + value_len self) ≤ length entries.now }
        ensures { result.now ≡ bytes_at entries.now (slot * (key_len self + value_len self))
            (key_len self + value_len self) };

    /// Whether two keys of this length are equal. The lengths say how keys are compared: each kind
    /// has the comparison that takes the fewest instructions for it.
    fn is_same_key(self, left: &[u8], right: &[u8]) -> bool
        requires left { length left.now ≡ key_len self }
        requires right { length right.now ≡ key_len self }
        ensures { IsTrue result ↔ (left.now ≡ right.now) };
}

/// The lengths of two types of byte arrays. It takes no memory.
#[derive(Clone, Copy)]
pub struct Fixed<K, V> {
    key: PhantomData<K>,
    value: PhantomData<V>,
}

impl<K: ByteArray, V: ByteArray> Fixed<K, V> {
    /// The lengths.
    #[inline(always)]
    pub fn new() -> Self {
        Fixed {
            key: PhantomData,
            value: PhantomData,
        }
    }
}

impl<K: ByteArray, V: ByteArray> Lengths for Fixed<K, V> {
    ghost key_len = { λ _. K.LEN };

    ghost value_len = { λ _. V.LEN };

    #[inline(always)]
    fn key_len(self) -> usize {
        K::LEN
    }

    #[inline(always)]
    fn value_len(self) -> usize {
        V::LEN
    }

    #[inline(always)]
    fn entry_len(self) -> usize {
        K::LEN + V::LEN
    }

    // The plain-Rust build reads this as an index into arrays of `len` bytes, for which the
    // compiler finds shorter addresses.
    #[inline(always)]
    fn entry(self, entries: &[u8], slot: usize) -> &[u8] {
        let len = K::LEN + V::LEN;
        &entries[slot * len..slot * len + len]
    }

    // Short keys are loaded whole, and compared as their length allows. Longer ones, and those of
    // 32 bytes, are compared where they are.
    #[inline(always)]
    fn is_same_key(self, left: &[u8], right: &[u8]) -> bool {
        if K::LEN > SHORT {
            return is_same_bytes(left, right);
        }
        if K::LEN == 32 {
            return is_same_four(left, right);
        }
        K::from_slice(left).equals(&K::from_slice(right))
    }
}

/// How many bytes an encoded key and an encoded value have.
#[derive(Clone, Copy, PartialEq, Eq, Debug)]
pub struct Layout {
    /// The length of an encoded key, in bytes.
    pub key_len: u8,
    /// The length of an encoded value, in bytes.
    pub value_len: u8,
}

impl Layout {
    /// The lengths of a configuration.
    #[inline(always)]
    pub fn of<C: Config>() -> Self
        ensures key { result.key_len ≡ C.EncodedKey.LEN }
        ensures value { result.value_len ≡ C.EncodedValue.LEN }
    {
        Layout {
            key_len: C::EncodedKey::LEN as u8,
            value_len: C::EncodedValue::LEN as u8,
        }
    }

    /// Short lengths as numbers.
    #[inline(always)]
    pub fn of_lengths<L: Lengths>(lengths: L) -> Self
        requires key { L.key_len lengths ≤ 255 }
        requires value { L.value_len lengths ≤ 255 }
        ensures key { result.key_len ≡ L.key_len lengths }
        ensures value { result.value_len ≡ L.value_len lengths }
    {
        Layout {
            key_len: lengths.key_len() as u8,
            value_len: lengths.value_len() as u8,
        }
    }

    /// The length of an entry, in bytes.
    #[inline(always)]
    pub fn entry_len(self) -> usize
        ensures { result ≡ self.key_len + self.value_len }
    {
        self.key_len as usize + self.value_len as usize
    }
}

impl Lengths for Layout {
    ghost key_len = { λ l. l.key_len };

    ghost value_len = { λ l. l.value_len };

    #[inline(always)]
    fn key_len(self) -> usize {
        self.key_len as usize
    }

    #[inline(always)]
    fn value_len(self) -> usize {
        self.value_len as usize
    }

    #[inline(always)]
    fn entry_len(self) -> usize {
        self.key_len as usize + self.value_len as usize
    }

    #[inline(always)]
    fn entry(self, entries: &[u8], slot: usize) -> &[u8] {
        let len = self.entry_len();
        let at = slot * len;
        &entries[at..at + len]
    }

    #[inline(always)]
    fn is_same_key(self, left: &[u8], right: &[u8]) -> bool {
        is_same_words(left, right)
    }
}

// Whether two lists of the same length are equal. From 8 to 64 bytes are compared where they are,
// by words with no call; the last word may overlap the one before it.
#[inline(always)]
fn is_same_words(left: &[u8], right: &[u8]) -> bool
    requires { length left.now ≡ length right.now }
    ensures { IsTrue result ↔ (left.now ≡ right.now) }
{
    let len = right.len();
    if len < 8 || len > 64 {
        return left == right;
    }
    let mut at = 0;
    'words: while at + 8 < len {
        if !is_same_word(left, right, at) {
            return false;
        }
        at += 8;
    }
    is_same_word(left, right, len - 8)
}

impl<'a> Header<'a> {
    /// The lengths of keys and values that the header states.
    #[inline(always)]
    pub fn layout(&self) -> Layout
        ensures key { result.key_len ≡ slice_index self.now 5 }
        ensures value { result.value_len ≡ slice_index self.now 6 }
    {
        Layout {
            key_len: self.key_size(),
            value_len: self.value_size(),
        }
    }
}
