//! The calls for dynamic tables: the caller names the lengths of keys and values, and the
//! hash function, by a layout.
ghost use Rattle.std.specs.Prelude.{◌≡◌, ◌≤◌, ◌↔◌, IsTrue};
ghost use Rattle.odht_raw.specs.PartLengths.{ArePairLengths};

pub mod build;
mod pieces;
pub mod read;
pub mod view;
pub mod write;

/// What a caller in C knows of a table: how many bytes a key and a value have, and the number of
/// the hash function.
#[repr(C)]
#[derive(Clone, Copy)]
pub struct AnyLayout {
    /// The length of a key, in bytes.
    pub key_len: u8,
    /// The length of a value, in bytes.
    pub value_len: u8,
    /// The number of the hash function: [`FX`], [`UNHASH`] or [`XXH64`].
    pub hash: u8,
}

/// The number of the hash function of rustc-hash, for numbers that count up.
pub const FX: u8 = 0;

/// The number of the hash function of keys that are hashes already, which takes their last four
/// bytes.
pub const UNHASH: u8 = 1;

/// The number of the hash function for all other keys, such as texts: the low 32 bits of XXH64 with
/// seed 0.
pub const XXH64: u8 = 2;

/// Whether a layout has this hash function, and keys that are long enough for it.
pub fn has_hash(layout: AnyLayout, hash: u8, least: usize) -> bool
    ensures has { IsTrue result ↔ ((layout.hash ≡ hash) × (least ≤ layout.key_len)) }
    ensures pair { IsTrue result → ArePairLengths least layout.key_len layout.value_len }
{
    layout.hash == hash && least <= layout.key_len as usize
}
