//! The names of `load`, `hash` and `bytes` as the port promises them, each with the types of its
//! arguments and of its result: one that goes missing, or has another type, does not compile. The
//! other files have the other modules.
ghost use Rattle.std.specs.Prelude.{◌≡◌, ◌+◌, ◌≤◌, length};

use crate::checks::{same, same_bytes};
use odht::bytes::{Borrowed, BorrowedMut, ByteArray, ByteStore, ByteStoreMut, OwnedBytes};
use odht::hash::{FxHashFn, HashFn, UnHashFn};
use odht::load::{Factor, max_item_count_for, slots_needed};
use std::fmt::Debug;

/// Compiles only at types with these traits.
pub fn is_plain_value<T: Clone + Copy + Eq + Debug>() {}

// Compiles only at types with these traits.
fn is_array<T: Sized + Copy + Eq + Debug + 'static>() {}

fn is_equal<T: Eq>() {}

fn is_droppable<T: Drop>() {}

fn is_copied<T: Copy>() {}

#[test]
fn load_factors(rt: HostRuntime) {
    is_plain_value::<Factor>();
    let base: usize = Factor::BASE;
    let full: Factor = Factor::from_percent(100_u8);
    let Factor(field): Factor = full;
    let stored: u16 = field;
    let percent: usize = full.to_percent();
    let most: usize = full.apply(12345_usize);
    let least: u128 = Factor(65535_u16).apply_inverse(12345_usize);
    same(&rt, "the factor", (base, stored), (65535, 65535));
    same(&rt, "percent", percent, 100);
    same(&rt, "apply", most, 12344);
    same(&rt, "apply_inverse", least, 12345);
}

#[test]
fn slot_counts(rt: HostRuntime) {
    let slots: Option<usize> = slots_needed(1000_usize, Factor(65535_u16));
    let most: usize = max_item_count_for(10_usize, Factor(32767_u16));
    same(&rt, "slots_needed", slots, Some(1024));
    same(&rt, "max_item_count_for", most, 4);
}

// The hash of the bytes, and what else each hash function has.
fn hashed<H: HashFn>(bytes: &[u8]) -> (u32, usize, &'static str)
    requires { H.MIN_LEN ≤ length bytes.now }
{
    is_equal::<H>();
    let hash: u32 = H::hash(bytes);
    let least: usize = H::MIN_LEN;
    let name: &'static str = H::NAME;
    (hash, least, name)
}

#[test]
fn hashes(rt: HostRuntime) {
    let FxHashFn: FxHashFn = FxHashFn;
    let UnHashFn: UnHashFn = UnHashFn;
    let (hash, least, name) = hashed::<FxHashFn>(&[1, 0, 0]);
    same(&rt, "fx", (hash, least), (0x47d3_c0f2, 0));
    same(&rt, "the name", name, "FxHashFn");
    let (hash, least, name) = hashed::<UnHashFn>(&[1, 2, 3, 4, 5]);
    same(&rt, "un", (hash, least), (0x0504_0302, 4));
    same(&rt, "the name", name, "UnHashFn");
}

// What the calls of a byte array return: whether the array of the bytes is that of zeros, and
// whether this one has zeros only.
fn array_calls<A: ByteArray>(slice: &[u8]) -> (usize, A, bool, bool)
    requires { length slice.now ≡ A.LEN }
{
    is_array::<A>();
    let len: usize = A::LEN;
    let zeros: A = A::zeroed();
    let array: A = A::from_slice(slice);
    let is_zero: bool = array.equals(&zeros);
    let has_zeros: bool = zeros.is_all_zeros();
    (len, array, is_zero, has_zeros)
}

#[test]
fn byte_arrays(rt: HostRuntime) {
    let (len, array, is_zero, has_zeros) = array_calls::<[u8; 8]>(&[1, 2, 3, 4, 5, 6, 7, 8]);
    let bytes: &[u8] = ByteArray::as_slice(&array);
    same(&rt, "LEN", len, 8);
    same_bytes(&rt, "as_slice", bytes, &[1, 2, 3, 4, 5, 6, 7, 8]);
    same(
        &rt,
        "equals, is_all_zeros",
        (is_zero, has_zeros),
        (false, true),
    );
}

fn bytes_of<S: ByteStore>(store: &S) -> &[u8]
    ensures { result.now ≡ S.bytes store.now }
{
    is_droppable::<S>();
    let bytes: &[u8] = store.bytes();
    bytes
}

// Writes to a store that can be written, and returns its bytes.
fn write<S: ByteStoreMut>(store: &mut S, at: usize, piece: &[u8])
    requires { at + length piece.now ≤ length (S.bytes store.old) }
{
    store.write_at(at, piece)
}

#[test]
fn stores(rt: HostRuntime) {
    is_copied::<Borrowed<'_>>();
    let borrowed: Borrowed<'_> = Borrowed::new(&[1, 2]);
    same_bytes(&rt, "Borrowed", bytes_of(&borrowed), &[1, 2]);
    let mut room: [u8; 3] = [1, 2, 3];
    let mut written: BorrowedMut<'_> = BorrowedMut::new(&mut room);
    write(&mut written, 1_usize, &[7]);
    let slice: &mut [u8] = written.into_slice();
    same_bytes(&rt, "BorrowedMut", slice, &[1, 7, 3]);
    let fives = vec![in rt.alloc(); 5; 2].expect(&rt, "memory");
    let mut owned: OwnedBytes = OwnedBytes::new(fives);
    same_bytes(&rt, "OwnedBytes", bytes_of(&owned), &[5, 5]);
    owned.write_at(0, &[6]);
    let bytes: Vec<u8> = owned.into_vec();
    same_bytes(&rt, "OwnedBytes", bytes.as_slice(), &[6, 5]);
}
