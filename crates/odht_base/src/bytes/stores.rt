//! Stores of bytes, which hold tables.
ghost use Rattle.std.specs.Prelude.{◌≡◌, ℕ, ◌+◌, ◌≤◌, List, length, refl};
ghost use Rattle.std.specs.Borrow.{sem, Lends, Array, u8};
ghost use Rattle.std.proofs.Common.{ap};
ghost use Rattle.odht_base.specs.Bytes.{overwritten_at};
ghost use Rattle.odht_base.specs.AfterBorrow.{after_borrow_bytes, after_borrow_bytes-fits};

use std::marker::Model;

/// A store of bytes.
pub trait ByteStore: Drop {
    ghost bytes: { Self → List ℕ };

    /// All of its bytes.
    fn bytes(&self) -> &[u8]
        ensures { result.now ≡ bytes self.now };
}

/// A store whose bytes can be overwritten.
///
/// In a contract the ghost member `holding` is the store with other bytes. So after a borrow of
/// the store its owner knows which bytes it holds. Three laws say that a write changes nothing but
/// the bytes: the store then holds the bytes that were written (`held`), of several writes of all
/// bytes only the last one matters (`held_last`), and with the bytes that it has already the store
/// is unchanged (`held_same`). `after_borrow` is the store after a borrow of its bytes; where
/// these are as many as before, the store holds exactly these (`after_borrow_fits`).
///
/// So whatever a store keeps beside its bytes must not change on a write. A count of the writes,
/// say, has to be left out of the store's `Model`.
pub trait ByteStoreMut: ByteStore {
    ghost holding: { Self → List ℕ → Self };

    // the store after a borrow of its bytes that left these bytes
    ghost after_borrow: { Self → List ℕ → Self };

    /// All of its bytes, to be written. After the borrow the store holds the bytes that were left
    /// in the slice.
    fn bytes_mut(&mut self) -> &mut [u8]
        ensures* writes_back { sem 𝓛
            (Lends Self.row (Array u8 0) self.entry result (after_borrow self.old)) }
        ensures value { result.now ≡ Self.bytes self.old };

    /// Writes `data` from the byte `at` on. No other byte changes.
    #[inline(always)]
    final fn write_at(&mut self, at: usize, data: &[u8])
        requires { at + length «data».now ≤ length (Self.bytes self.old) }
        ensures bytes { Self.bytes self.new ≡ overwritten_at (Self.bytes self.old) at «data».now }
        ensures len { length (Self.bytes self.new) ≡ length (Self.bytes self.old) }
        ensures same_store { self.new ≡ holding self.old (Self.bytes self.new) }
    {
        write_slice(self.bytes_mut(), at, data)
    }

    // after a write of all bytes the store holds these bytes
    ghost held: { (s : Self) (b : List ℕ) → Self.bytes (holding s b) ≡ b };

    // of two writes of all bytes only the last one matters
    ghost held_last: { (s : Self) (a b : List ℕ) → holding (holding s a) b ≡ holding s b };

    // with the bytes that it has already the store is unchanged
    ghost held_same: { (s : Self) → holding s (Self.bytes s) ≡ s };

    // a borrowed slice keeps its length, and with as many bytes as before the store holds exactly
    // these
    ghost after_borrow_fits: { (s : Self) (b : List ℕ) → length b ≡ length (Self.bytes s)
        → after_borrow s b ≡ holding s b };
}

// A borrowed store: what is written to it is written to the store itself.
impl<M: ByteStore> ByteStore for &mut M {
    ghost bytes = { λ s. M.bytes s.now };

    #[inline(always)]
    fn bytes(&self) -> &[u8] {
        M::bytes(&**self)
    }
}

impl<M: ByteStoreMut> ByteStoreMut for &mut M {
    ghost holding = { λ s b. record s { now = M.holding s.now b } };

    ghost after_borrow = { λ s b. record s { now = M.after_borrow s.now b } };

    ghost held = { λ s b. M.held s.now b };

    ghost held_last = { λ s a b. ap (λ n. record s { now = n }) (M.held_last s.now a b) };

    ghost held_same = { λ s. ap (λ n. record s { now = n }) (M.held_same s.now) };

    ghost after_borrow_fits = { λ s b fits. ap (λ n. record s { now = n })
        (M.after_borrow_fits s.now b fits) };

    #[inline(always)]
    fn bytes_mut(&mut self) -> &mut [u8] {
        M::bytes_mut(&mut **self)
    }
}

/// A store that borrows a slice to read it.
#[derive(Clone, Copy)]
pub struct Borrowed<'a>(pub &'a [u8]);

impl<'a> Borrowed<'a> {
    /// The store of `bytes`.
    #[inline]
    pub fn new(bytes: &'a [u8]) -> Self
        ensures { result.0.now ≡ bytes.now }
    {
        Borrowed(bytes)
    }
}

impl ByteStore for Borrowed<'_> {
    ghost bytes = { λ s. s.0.now };

    #[inline]
    fn bytes(&self) -> &[u8] {
        self.0
    }
}

/// A store that borrows a slice to read and write it.
#[derive(Drop)]
pub struct BorrowedMut<'a>(pub &'a mut [u8]);

impl<'a> BorrowedMut<'a> {
    /// The store of `bytes`: what is written to it is written to the slice.
    #[inline]
    pub fn new(bytes: &'a mut [u8]) -> Self
        ensures bytes { result.0.now ≡ bytes.old }
        ensures same_slice { result.0.ghost_name ≡ bytes.entry.ghost_name }
    {
        BorrowedMut(bytes)
    }

    /// The slice itself, with the bytes as they are now.
    #[inline]
    pub fn into_slice(self) -> &'a mut [u8]
        ensures bytes { result.now ≡ self.entry.0.now }
        ensures same_slice { result.ghost_name ≡ self.entry.0.ghost_name }
    {
        let BorrowedMut(bytes) = self;
        bytes
    }
}

impl ByteStore for BorrowedMut<'_> {
    ghost bytes = { λ s. s.0.now };

    #[inline]
    fn bytes(&self) -> &[u8] {
        self.0
    }
}

impl ByteStoreMut for BorrowedMut<'_> {
    ghost holding = { λ s b. record s { 0 = record s.0 { now = b } } };

    ghost after_borrow = { λ s b. record s { 0 = record s.0 { now = b } } };

    ghost held = { λ s b. refl };

    ghost held_last = { λ s a b. refl };

    ghost held_same = { λ s. refl };

    ghost after_borrow_fits = { λ s b fits. refl };

    #[inline(always)]
    fn bytes_mut(&mut self) -> &mut [u8] {
        &mut *self.0
    }
}

/// A store that owns a vector.
#[derive(Drop)]
pub struct OwnedBytes(Vec<u8>);

impl Model for OwnedBytes {
    ghost Value = { List ℕ };

    ghost view = { λ s. s.0.items };
}

impl OwnedBytes {
    /// The store of `bytes`.
    #[inline]
    pub fn new(bytes: Vec<u8>) -> Self
        ensures { result ≡ bytes.items }
    {
        OwnedBytes(bytes)
    }

    /// The vector itself, with the bytes as they are now.
    #[inline]
    pub fn into_vec(self) -> Vec<u8>
        ensures { result.items ≡ self }
    {
        let OwnedBytes(bytes) = self;
        bytes
    }
}

impl ByteStore for OwnedBytes {
    ghost bytes = { λ s. s };

    #[inline]
    fn bytes(&self) -> &[u8] {
        self.0.as_slice()
    }
}

impl ByteStoreMut for OwnedBytes {
    ghost holding = { λ s b. b };

    ghost after_borrow = { after_borrow_bytes };

    ghost held = { λ s b. refl };

    ghost held_last = { λ s a b. refl };

    ghost held_same = { λ s. refl };

    ghost after_borrow_fits = { after_borrow_bytes-fits };

    #[inline(always)]
    fn bytes_mut(&mut self) -> &mut [u8] {
        self.0.as_mut_slice()
    }
}

/// Writes `piece` into the slice from the byte `at` on. No other byte changes.
#[inline(always)]
pub fn write_slice(all: &mut [u8], at: usize, piece: &[u8])
    requires { at + length piece.now ≤ length all.old }
    ensures { all.new ≡ overwritten_at all.old at piece.now }
{
    let target = &mut all[at..at + piece.len()];
    // A piece of 1, 2, 4, 8 or 16 bytes is copied as an array.
    match piece.len() {
        1 => overwrite_array::<1>(target, piece),
        2 => overwrite_array::<2>(target, piece),
        4 => overwrite_array::<4>(target, piece),
        8 => overwrite_array::<8>(target, piece),
        16 => overwrite_array::<16>(target, piece),
        _ => target.copy_from_slice(piece),
    }
}

// Writes `piece` over the whole slice, of `N` bytes, as an array.
#[inline(always)]
fn overwrite_array<const N: usize>(target: &mut [u8], piece: &[u8])
    requires target_len { length target.old ≡ N }
    requires piece_len { length piece.now ≡ N }
    ensures { target.new ≡ piece.now }
{
    let (Some(to), Some(from)) = (target.first_chunk_mut::<N>(), piece.first_chunk::<N>()) else {
        unreachable!()
    };
    *to = *from;
}
