//! Keys, or values, that lie one after the other in bytes.
ghost use Rattle.std.specs.Prelude.{◌≡◌, ◌≤◌, ◌<◌, ◌+◌, ◌*◌, ◌↔◌, ◌⊎◌, ℕ, IsTrue, Some, length};
ghost use Rattle.std.specs.Prelude.{set, slice_get, IfSome, ⊤};
ghost use Rattle.std.specs.Option.{option_copied};
ghost use Rattle.odht_calls.specs.Lookups.{flag_of, with_found};
ghost use Rattle.odht_calls.specs.Pieces.{pieces, ArePieces};

use odht::items::EncodedItems;
use odht::layout::Layout;
use std::marker::Model;

/// The first keys and values of bytes in which they lie one after the other.
#[derive(Drop)]
pub(crate) struct Pieces<'a> {
    pub(crate) layout: Layout,
    pub(crate) count: usize,
    pub(crate) keys: &'a [u8],
    pub(crate) values: &'a [u8],
}

impl<'a> Model for Pieces<'a> {
    ghost use Rattle.odht_calls.specs.Pieces.{PieceItems, piece_items, HavePieces};

    ghost Value = { PieceItems };

    ghost view = { λ p. piece_items p.layout.key_len p.layout.value_len p.count p.keys.now
        p.values.now };

    ghost invariant = { λ p. HavePieces p.layout.key_len p.layout.value_len p.count p.keys.now
        p.values.now };
}

impl<'a> EncodedItems for Pieces<'a> {
    type Key = &'a [u8];

    type Value = &'a [u8];

    ghost items = { λ p. p.items };

    ghost key_len = { λ p. p.key_len };

    ghost value_len = { λ p. p.value_len };

    ghost fits = { λ _ _. ⊤ };

    ghost key_bytes = { λ k. k.now };

    ghost value_bytes = { λ v. v.now };

    #[inline(always)]
    fn count(&self) -> usize {
        self.count
    }

    #[inline(always)]
    fn fits(&self, _index: usize) -> bool {
        true
    }

    #[inline(always)]
    fn key(&self, index: usize) -> &'a [u8] {
        let (key, _) = self.pair(index);
        key
    }

    #[inline(always)]
    fn pair(&self, index: usize) -> (&'a [u8], &'a [u8]) {
        let key = piece(self.keys, self.layout.key_len, index);
        (key, piece(self.values, self.layout.value_len, index))
    }

    #[inline(always)]
    fn key_bytes<'k>(key: &'k &'a [u8]) -> &'k [u8] {
        key
    }

    #[inline(always)]
    fn value_bytes<'v>(value: &'v &'a [u8]) -> &'v [u8] {
        value
    }
}

// Whether the bytes are that many keys, and that many values.
pub(crate) fn are_pieces(layout: Layout, count: usize, keys: &[u8], values: &[u8]) -> bool
    ensures { IsTrue result
        ↔ ArePieces layout.key_len layout.value_len count keys.now values.now }
{
    has_pieces(keys, layout.key_len, count) && has_pieces(values, layout.value_len, count)
}

fn has_pieces(bytes: &[u8], len: u8, count: usize) -> bool
    ensures { IsTrue result ↔ (length bytes.now ≡ count * len) }
{
    let found = bytes.len();
    match count.checked_mul(len as usize) {
        Some(all) => found == all,
        None => false,
    }
}

// How many of the first of `count` pairs decide what all of them leave. Where neither keys nor
// values have bytes all pairs are equal, and no bytes bound the count, so the first decides.
pub(crate) fn deciding_pairs(layout: Layout, count: usize) -> usize
    ensures most { result ≤ count }
    ensures cut { (result ≡ count)
        ⊎ ((layout.key_len ≡ 0) × (layout.value_len ≡ 0) × (result ≡ 1)) }
{
    if layout.key_len == 0 && layout.value_len == 0 && count > 1 {
        return 1;
    }
    count
}

// Piece `index` of bytes that have it.
#[inline]
pub(crate) fn piece(bytes: &[u8], len: u8, index: usize) -> &[u8]
    requires { index * len + len ≤ length bytes.now }
    ensures value { (n : ℕ) → index < n
        → slice_get (pieces len n bytes.now) index ≡ Some result.now }
    ensures len { length result.now ≡ len }
{
    let len = len as usize;
    let at = index * len;
    &bytes[at..at + len]
}

// Writes piece `index` of bytes that have it.
#[inline]
pub(crate) fn put_piece(bytes: &mut [u8], len: u8, index: usize, piece: &[u8])
    requires room { index * len + len ≤ length bytes.old }
    requires len { length piece.now ≡ len }
    ensures { (n : ℕ) → index < n → n * len ≤ length bytes.old
        → pieces len n bytes.new ≡ set (pieces len n bytes.old) index piece.now }
{
    let len = len as usize;
    let at = index * len;
    bytes[at..at + len].copy_from_slice(piece);
}

// Writes the answer of a lookup: piece `index` of the values where there is a value, and whether
// there is one.
pub(crate) fn put_answer(
    values: &mut [u8],
    found: &mut [u8],
    len: u8,
    index: usize,
    answer: Option<&[u8]>,
)
    requires room { index * len + len ≤ length values.old }
    requires flags { index < length found.old }
    requires len { IfSome answer (λ value. length value.now ≡ len) }
    ensures values { (n : ℕ) → index < n → n * len ≤ length values.old
        → pieces len n values.new
        ≡ with_found (pieces len n values.old) index (option_copied answer.entry) }
    ensures found { found.new ≡ set found.old index (flag_of (option_copied answer.entry)) }
{
    match answer {
        Some(value) => {
            put_piece(values, len, index, value);
            found[index] = 1;
        }
        None => found[index] = 0,
    }
}
