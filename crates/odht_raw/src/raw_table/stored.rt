//! The entries of a table, read from their bytes: with keys and values as bytes, whose lengths are
//! types or numbers, and with keys and values as types; and a few bytes by value.
ghost use Rattle.std.specs.Prelude.{◌≡◌, ◌↔◌, ◌+◌, ◌*◌, ◌<◌, ◌≤◌, length, IsTrue};
ghost use Rattle.odht_base.specs.Decoded.{slot_entry, slot_key, slot_value};
ghost use Rattle.odht_raw.specs.Stored.{stored, stored_format, AreLengths};
ghost use Rattle.odht_raw.specs.Parts.{entry_format};

use crate::bytes::ByteArray;
use crate::layout::{Fixed, Lengths};
use std::marker::Model;

/// The entries of a number of slots, key then value, slot by slot, read at any alignment. Keys and
/// values are bytes of the right length. A search reads entries only through it.
///
/// In a contract it is the lengths of keys and values, and the entries.
#[derive(Drop)]
pub struct Stored<'a, L: Lengths> {
    bytes: &'a [u8],
    slots: usize,
    lengths: L,
}

impl<'a, L: Lengths> Model for Stored<'a, L> {
    ghost use Rattle.odht_raw.specs.Stored.{IsStored, StoredEntries, stored};

    ghost Value = { StoredEntries };

    ghost view = { λ s. stored (L.key_len s.lengths) (L.value_len s.lengths) s.slots s.bytes.now };

    ghost invariant = { λ s. IsStored
        (stored (L.key_len s.lengths) (L.value_len s.lengths) s.slots s.bytes.now) };
}

impl<'a, L: Lengths> Stored<'a, L> {
    /// The entries of `slots` slots in `bytes`.
    #[inline(always)]
    pub fn new(bytes: &'a [u8], slots: usize, lengths: L) -> Self
        requires key { L.key_len lengths ≤ 255 }
        requires value { L.value_len lengths ≤ 255 }
        requires len { length bytes.now ≡ slots * (L.key_len lengths + L.value_len lengths) }
        ensures { result ≡ stored (L.key_len lengths) (L.value_len lengths) slots bytes.now }
    {
        Stored {
            bytes,
            slots,
            lengths,
        }
    }

    // A second reader of the same entries.
    #[inline(always)]
    pub(super) fn copy(&self) -> Self
        ensures { result ≡ self.now }
    {
        Stored {
            bytes: self.bytes,
            slots: self.slots,
            lengths: self.lengths,
        }
    }

    /// How many slots there are.
    #[inline(always)]
    pub fn slots(&self) -> usize
        ensures { result ≡ self.now.entries.slots }
    {
        self.slots
    }

    /// The lengths of keys and values.
    #[inline(always)]
    pub fn lengths(&self) -> L
        ensures key { L.key_len result ≡ self.now.key_len }
        ensures value { L.value_len result ≡ self.now.value_len }
    {
        self.lengths
    }

    /// The entry of a slot: key, then value.
    #[inline(always)]
    pub fn entry(&self, slot: usize) -> &'a [u8]
        requires { slot < self.now.entries.slots }
        ensures value { result.now
            ≡ slot_entry (stored_format self.now) self.now.entries.bytes slot }
        ensures len { length result.now ≡ self.now.key_len + self.now.value_len }
    {
        self.lengths.entry(self.bytes, slot)
    }

    /// The key of a slot.
    #[inline(always)]
    pub fn key(&self, slot: usize) -> &'a [u8]
        requires { slot < self.now.entries.slots }
        ensures value { result.now
            ≡ slot_key (stored_format self.now) self.now.entries.bytes slot }
        ensures len { length result.now ≡ self.now.key_len }
    {
        let entry = self.entry(slot);
        &entry[..self.lengths.key_len()]
    }

    /// `key` of a slot that may come from a list of the caller's. The plain-Rust build checks this
    /// index, and not that of `key`: if another process rewrites the bytes, the list may name any
    /// slot.
    #[inline(always)]
    pub(super) fn listed_key(&self, slot: usize) -> &'a [u8]
        requires { slot < self.now.entries.slots }
        ensures value { result.now
            ≡ slot_key (stored_format self.now) self.now.entries.bytes slot }
        ensures len { length result.now ≡ self.now.key_len }
    {
        let bytes = self.bytes;
        let at = slot * self.lengths.entry_len();
        &bytes[at..at + self.lengths.key_len()]
    }

    /// The value of a slot.
    #[inline(always)]
    pub fn value(&self, slot: usize) -> &'a [u8]
        requires { slot < self.now.entries.slots }
        ensures value { result.now
            ≡ slot_value (stored_format self.now) self.now.entries.bytes slot }
        ensures len { length result.now ≡ self.now.value_len }
    {
        let entry = self.entry(slot);
        &entry[self.lengths.key_len()..]
    }

    /// Whether the key of a slot is `key`, which is as long.
    // The entry is cut by the length of `key`: where the compiler knows that length, it compares
    // with no loop. The whole entry is cut out of the bytes, as `value` cuts it: where the value is
    // read next, that is the same cut, and is made once.
    #[inline(always)]
    pub fn has_key(&self, slot: usize, key: &[u8]) -> bool
        requires slot { slot < self.now.entries.slots }
        requires key { length key.now ≡ self.now.key_len }
        ensures { IsTrue result
            ↔ (slot_key (stored_format self.now) self.now.entries.bytes slot ≡ key.now) }
    {
        let entry = self.entry(slot);
        self.lengths.is_same_key(&entry[..key.len()], key)
    }
}

/// An entry: an encoded key and its encoded value, as a slot holds them.
#[derive(Clone, Copy, PartialEq, Eq, Debug)]
pub struct Entry<K: ByteArray, V: ByteArray> {
    /// The encoded key.
    pub key: K,
    /// The encoded value.
    pub value: V,
}

impl<K: ByteArray, V: ByteArray> Default for Entry<K, V> {
    ghost use Rattle.odht_raw.specs.Parts.{IsZeros};

    ghost is_default = { λ e. IsZeros K.LEN (K.bytes e.key) × IsZeros V.LEN (V.bytes e.value) };

    /// The entry of a free slot: zeros.
    #[inline]
    fn default() -> Self {
        Entry {
            key: K::zeroed(),
            value: V::zeroed(),
        }
    }
}

/// The entries of a number of slots, read from their bytes at any alignment.
#[derive(Drop)]
pub struct Entries<'a, K: ByteArray, V: ByteArray> {
    stored: Stored<'a, Fixed<K, V>>,
}

impl<'a, K: ByteArray, V: ByteArray> Model for Entries<'a, K, V> {
    ghost use Rattle.odht_raw.specs.Parts.{EntryBytes};
    ghost use Rattle.odht_raw.specs.Stored.{AreLengths};

    ghost Value = { EntryBytes };

    ghost view = { λ e. e.stored.entries };

    ghost invariant = { λ e. AreLengths K.LEN V.LEN e.stored.key_len e.stored.value_len };
}

impl<'a, K: ByteArray, V: ByteArray> Entries<'a, K, V> {
    /// The entries of `slots` slots in `bytes`, key then value, slot by slot.
    #[inline]
    pub fn new(bytes: &'a [u8], slots: usize) -> Self
        requires key { K.LEN ≤ 255 }
        requires value { V.LEN ≤ 255 }
        requires len { length bytes.now ≡ slots * (K.LEN + V.LEN) }
        ensures { result ≡ record { slots = slots; bytes = bytes.now } }
    {
        Entries {
            stored: Stored::new(bytes, slots, Fixed::new()),
        }
    }

    // These entries, with keys and values as types.
    #[inline(always)]
    pub(crate) fn of(stored: Stored<'a, Fixed<K, V>>) -> Self
        requires { AreLengths K.LEN V.LEN stored.key_len stored.value_len }
        ensures { result ≡ stored.entry.entries }
    {
        Entries { stored }
    }

    // The same entries, with keys and values as bytes.
    #[inline(always)]
    pub(super) fn stored(&self) -> Stored<'a, Fixed<K, V>>
        ensures { result ≡ stored K.LEN V.LEN self.now.slots self.now.bytes }
    {
        self.stored.copy()
    }

    /// How many slots there are.
    #[inline]
    pub fn len(&self) -> usize
        ensures { result ≡ self.now.slots }
    {
        self.stored.slots()
    }

    /// The entry of a slot.
    #[inline]
    pub fn get(&self, slot: usize) -> Entry<K, V>
        requires { slot < self.now.slots }
        ensures key { result.key
            ≡ K.of_bytes (slot_key (entry_format K.LEN V.LEN) self.now.bytes slot) }
        ensures value { result.value
            ≡ V.of_bytes (slot_value (entry_format K.LEN V.LEN) self.now.bytes slot) }
        ensures key_bytes { K.bytes result.key
            ≡ slot_key (entry_format K.LEN V.LEN) self.now.bytes slot }
        ensures value_bytes { V.bytes result.value
            ≡ slot_value (entry_format K.LEN V.LEN) self.now.bytes slot }
    {
        let stored = self.stored();
        Entry {
            key: K::from_slice(stored.key(slot)),
            value: V::from_slice(stored.value(slot)),
        }
    }

    // Whether the key of a slot is `key`.
    #[inline(always)]
    pub(super) fn is_at(&self, slot: usize, key: &K) -> bool
        requires { slot < self.now.slots }
        ensures { let stored_key = slot_key (entry_format K.LEN V.LEN) self.now.bytes slot
            in IsTrue result ↔ (stored_key ≡ K.bytes key.now) }
    {
        self.stored().has_key(slot, key.as_slice())
    }
}

/// At most 255 bytes by value, as a key or a value of a table has. No memory is allocated for
/// them.
///
/// In a contract it is these bytes.
#[derive(Clone, Copy)]
pub struct ShortBytes {
    bytes: [u8; 255],
    len: usize,
}

impl Model for ShortBytes {
    ghost use Rattle.std.specs.Prelude.{◌≡◌, ◌-◌, ◌≤◌, ◌++◌, ℕ, List, length, take, drop, replicate};
    ghost use Rattle.std.proofs.Common.{◌∙◌, ap, sym, arith, length-take-le, take-append-drop};

    ghost Value = { List ℕ };

    ghost view = { λ s. take s.len s.bytes };

    ghost invariant = { λ s. (s.len ≤ 255) × (length s.bytes ≡ 255)
        × (drop s.len s.bytes ≡ replicate (255 - s.len) 0) };

    ghost inverse = { λ l. record { bytes = l ++ replicate (255 - length l) 0; len = length l } };

    ghost inverse_ok = { λ s h i.
        let short = length-take-le s.len s.bytes (omega (arith, h.0, h.1)) in
        record {
          bytes = (ap (λ n. take s.len s.bytes ++ replicate (255 - n) 0) short
              ∙ ap (λ r. take s.len s.bytes ++ r) (sym h.2)
              ∙ take-append-drop s.len s.bytes) i;
          len = short i;
        } };
}

impl ShortBytes {
    /// A copy of the bytes, of which there are at most 255.
    #[inline(always)]
    pub fn of(slice: &[u8]) -> Self
        requires { length slice.now ≤ 255 }
        ensures { result ≡ slice.now }
    {
        let mut bytes = [0; 255];
        let len = slice.len();
        bytes[..len].copy_from_slice(slice);
        ShortBytes { bytes, len }
    }

    /// The bytes.
    #[inline]
    pub fn as_slice(&self) -> &[u8]
        ensures { result.now ≡ self.now }
    {
        let bytes = &self.bytes;
        &bytes[..self.len]
    }
}
