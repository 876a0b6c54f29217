//! Lists of keys and values, whatever their form in memory, and the bytes as which they are stored.
ghost use Rattle.std.specs.Prelude.{◌≡◌, ◌<◌, List, Some, length, slice_get, ◌↔◌, ℕ, map};
ghost use Rattle.std.specs.Prelude.{option_map, IsTrue, ⊤};
ghost use Rattle.std.specs.List.{zip};
ghost use Rattle.odht_raw.specs.Words.{encoded, IsPairOf, Pair};
ghost use Rattle.odht_raw.specs.Runs.{HasLengthsAt};

use crate::bytes::ByteArray;
use crate::config::{Coded, Config};
use crate::layout::Layout;
use std::marker::{Model, PhantomData};

/// A list of keys and their values, each read where it is in memory.
pub trait Items<K, V>: Drop {
    ghost items: { Self → List (K × V) };

    /// How many items there are.
    fn count(&self) -> usize
        ensures { result ≡ length (items self.now) };

    /// The key and the value at an index.
    fn at(&self, index: usize) -> (&K, &V)
        requires { index < length (items self.now) }
        ensures { slice_get (items self.now) index ≡ Some (result.0.now, result.1.now) };
}

impl<K, V> Items<K, V> for &[(K, V)] {
    ghost items = { λ s. s.now };

    #[inline(always)]
    fn count(&self) -> usize {
        self.len()
    }

    #[inline(always)]
    fn at(&self, index: usize) -> (&K, &V) {
        let items = *self;
        let (key, value) = &items[index];
        (key, value)
    }
}

/// The keys of one slice and the values of another, at each index.
#[derive(Drop)]
pub struct Zipped<'k, 'v, K, V> {
    keys: &'k [K],
    values: &'v [V],
}

impl<'k, 'v, K, V> Model for Zipped<'k, 'v, K, V> {
    ghost use Rattle.std.specs.Prelude.{◌≡◌, List, length};
    ghost use Rattle.std.specs.List.{zip};

    ghost Value = { List (K × V) };

    ghost view = { λ z. zip z.keys.now z.values.now };

    ghost invariant = { λ z. length z.values.now ≡ length z.keys.now };
}

impl<'k, 'v, K, V> Zipped<'k, 'v, K, V> {
    /// The key and the value at each index of two slices that are equally long.
    #[inline(always)]
    pub fn new(keys: &'k [K], values: &'v [V]) -> Self
        requires { length values.now ≡ length keys.now }
        ensures { result ≡ zip keys.now values.now }
    {
        Zipped { keys, values }
    }
}

impl<'k, 'v, K, V> Items<K, V> for Zipped<'k, 'v, K, V> {
    ghost items = { λ z. z };

    #[inline(always)]
    fn count(&self) -> usize {
        self.keys.len()
    }

    #[inline(always)]
    fn at(&self, index: usize) -> (&K, &V) {
        let (keys, values) = (self.keys, self.values);
        (&keys[index], &values[index])
    }
}

/// The bytes of a key and those of its value. Each has as many as its type says.
#[inline(always)]
pub(crate) fn encode_pair<C: Config>(
    key: &C::Key,
    value: &C::Value,
) -> (C::EncodedKey, C::EncodedValue)
    ensures pair { let p : Pair = record {
      key = C.EncodedKey.bytes result.0;
      value = C.EncodedValue.bytes result.1;
    }
        in p ≡ encoded ⟦<C as Coded>⟧.coding key.now value.now }
    ensures fits { let c = ⟦<C as Coded>⟧.coding
        in IsPairOf c.format (encoded c key.now value.now) }
{
    let key = C::encode_key(key);
    let value = C::encode_value(value);
    // For the prover: how long they are.
    let _ = key.as_slice();
    let _ = value.as_slice();
    (key, value)
}

/// A list of keys and values, each of which gives the bytes as which it is stored. Batches of
/// inserts are written over it once, for items of types and for items that are bytes already.
///
/// In a contract the ghost member `items` is the bytes of the items, `key_len` and `value_len` are
/// the lengths of the table, and `fits` says that the key and the value at an index have these.
pub trait EncodedItems: Drop {
    /// A key, from which its bytes are read.
    type Key: Drop;

    /// A value, from which its bytes are read.
    type Value: Drop;

    ghost items: { Self → List (List ℕ × List ℕ) };

    ghost key_len: { Self → ℕ };

    ghost value_len: { Self → ℕ };

    ghost fits: { Self → ℕ → Type 0 };

    ghost key_bytes: { Self.Key → List ℕ };

    ghost value_bytes: { Self.Value → List ℕ };

    /// How many items there are.
    fn count(&self) -> usize
        ensures { result ≡ length (items self.now) };

    /// Whether the key and the value at an index have the lengths of the table. An item that does
    /// not fit ends a list of inserts.
    fn fits(&self, index: usize) -> bool
        requires { index < length (items self.now) }
        ensures { IsTrue result ↔ fits self.now index };

    /// The key at an index.
    fn key(&self, index: usize) -> Self::Key
        requires within { index < length (items self.now) }
        requires fits { fits self.now index }
        ensures key { option_map (λ item. item.0) (slice_get (items self.now) index)
            ≡ Some (key_bytes result) }
        ensures len { length (key_bytes result) ≡ key_len self.now };

    /// The key and the value at an index.
    fn pair(&self, index: usize) -> (Self::Key, Self::Value)
        requires within { index < length (items self.now) }
        requires fits { fits self.now index }
        ensures pair { slice_get (items self.now) index
            ≡ Some (key_bytes result.0, value_bytes result.1) }
        ensures key { length (key_bytes result.0) ≡ key_len self.now }
        ensures value { length (value_bytes result.1) ≡ value_len self.now };

    /// The bytes of a key.
    fn key_bytes(key: &Self::Key) -> &[u8]
        ensures { result.now ≡ key_bytes key.now };

    /// The bytes of a value.
    fn value_bytes(value: &Self::Value) -> &[u8]
        ensures { result.now ≡ value_bytes value.now };
}

/// Items of a configuration, which are encoded where they are read. Each of them fits.
#[derive(Drop)]
pub struct Encoded<'a, C: Config, I> {
    /// The keys and values.
    pub items: &'a I,
    /// Their configuration.
    pub config: PhantomData<C>,
}

impl<'a, C: Config, I: Items<C::Key, C::Value>> EncodedItems for Encoded<'a, C, I> {
    type Key = C::EncodedKey;

    type Value = C::EncodedValue;

    ghost items = { λ s. map (λ item. (
      C.EncodedKey.bytes (C.encode_key item.0),
      C.EncodedValue.bytes (C.encode_value item.1),
    )) (I.items s.items.now) };

    ghost key_len = { λ _. C.EncodedKey.LEN };

    ghost value_len = { λ _. C.EncodedValue.LEN };

    ghost fits = { λ _ _. ⊤ };

    ghost key_bytes = { λ k. C.EncodedKey.bytes k };

    ghost value_bytes = { λ v. C.EncodedValue.bytes v };

    #[inline(always)]
    fn count(&self) -> usize {
        self.items.count()
    }

    #[inline(always)]
    fn fits(&self, _index: usize) -> bool {
        true
    }

    #[inline(always)]
    fn key(&self, index: usize) -> C::EncodedKey {
        let (key, _) = self.items.at(index);
        let key = C::encode_key(key);
        // For the prover: how long it is.
        let _ = key.as_slice();
        key
    }

    #[inline(always)]
    fn pair(&self, index: usize) -> (C::EncodedKey, C::EncodedValue) {
        let (key, value) = self.items.at(index);
        encode_pair::<C>(key, value)
    }

    #[inline(always)]
    fn key_bytes(key: &C::EncodedKey) -> &[u8] {
        key.as_slice()
    }

    #[inline(always)]
    fn value_bytes(value: &C::EncodedValue) -> &[u8] {
        value.as_slice()
    }
}

/// Items that are bytes already, of any lengths, and the lengths of the table.
#[derive(Drop)]
pub(crate) struct ItemBytes<'a> {
    pub(crate) layout: Layout,
    pub(crate) items: &'a [(&'a [u8], &'a [u8])],
}

impl<'a> EncodedItems for ItemBytes<'a> {
    type Key = &'a [u8];

    type Value = &'a [u8];

    ghost items = { λ s. map (λ item. (item.0.now, item.1.now)) s.items.now };

    ghost key_len = { λ s. s.layout.key_len };

    ghost value_len = { λ s. s.layout.value_len };

    ghost fits = { λ s i. HasLengthsAt s.layout.key_len s.layout.value_len
        (map (λ item. (item.0.now, item.1.now)) s.items.now) i };

    ghost key_bytes = { λ k. k.now };

    ghost value_bytes = { λ v. v.now };

    #[inline(always)]
    fn count(&self) -> usize {
        self.items.len()
    }

    #[inline(always)]
    fn fits(&self, index: usize) -> bool {
        let items = self.items;
        let (key, value) = items[index];
        key.len() == self.layout.key_len as usize && value.len() == self.layout.value_len as usize
    }

    #[inline(always)]
    fn key(&self, index: usize) -> &'a [u8] {
        let items = self.items;
        let (key, _) = items[index];
        key
    }

    #[inline(always)]
    fn pair(&self, index: usize) -> (&'a [u8], &'a [u8]) {
        let items = self.items;
        items[index]
    }

    #[inline(always)]
    fn key_bytes<'k>(key: &'k &'a [u8]) -> &'k [u8] {
        key
    }

    #[inline(always)]
    fn value_bytes<'v>(value: &'v &'a [u8]) -> &'v [u8] {
        value
    }
}
