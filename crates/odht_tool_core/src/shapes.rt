//! The shapes of tables that the commands read and write: the types of keys and values, and the
//! hash function.
ghost use Rattle.std.specs.Prelude.{◌≡◌};
ghost use Rattle.odht_tool_core.specs.ReadyShapes.{typed_len, same_part, same_hash, is_hashed_by};
ghost use Rattle.odht_tool_core.specs.ReadyShapes.{has_parts, shape_of_parts, is_shape_of};
ghost use Rattle.odht_tool_core.specs.ReadyShapes.{shape_of_sizes};
ghost use Rattle.odht_tool_core.specs.ReadyShapes.{default_hash, own_key, own_value};

pub(crate) use crate::generated::shapes::SHAPES;
pub use crate::generated::shapes::Shape;
use std::fmt;

/// A hash function of keys.
#[derive(Clone, Copy)]
pub enum Hash {
    /// `FxHashFn`.
    Fx,
    /// `UnHashFn`.
    Unhash,
    /// `Xxh64HashFn`.
    Xxh64,
}

impl Hash {
    /// The hash function of this name.
    pub(crate) fn named(name: &str) -> Option<Hash> {
        match name {
            "fx" => Some(Hash::Fx),
            "unhash" => Some(Hash::Unhash),
            "xxh64" => Some(Hash::Xxh64),
            _ => None,
        }
    }

    /// Whether both are the same one.
    pub fn is(self, other: Hash) -> bool
        ensures { result ≡ same_hash self other }
    {
        match (self, other) {
            (Hash::Fx, Hash::Fx) | (Hash::Unhash, Hash::Unhash) | (Hash::Xxh64, Hash::Xxh64) =>
                true,
            _ => false,
        }
    }
}

/// The hash functions. Of several that a file fits the first is taken.
pub(crate) const HASHES: [Hash; 3] = [Hash::Fx, Hash::Unhash, Hash::Xxh64];

/// The type of a key or of a value.
#[derive(Clone, Copy, Debug)]
pub enum Part {
    /// Nothing, in a table that is a set.
    Nothing,
    /// A number of 32 bits.
    U32,
    /// A number of 64 bits.
    U64,
    /// So many bytes.
    Bytes(u8),
}

impl Part {
    /// The type of this name: `u32`, `u64`, `none`, or `hex` or `bytes:` and a number of bytes
    /// from 0 to 255.
    pub(crate) fn named(name: &str) -> Option<Part> {
        match name {
            "none" => Some(Part::Nothing),
            "u32" => Some(Part::U32),
            "u64" => Some(Part::U64),
            _ => {
                let size = match name.strip_prefix("hex") {
                    Some(size) => size,
                    None => name.strip_prefix("bytes:")?,
                };
                Some(Part::Bytes(size.parse::<u8>().ok()?))
            }
        }
    }

    /// So many bytes as these digits say, from 1 to 255.
    pub(crate) fn of_size(digits: &str) -> Option<Part> {
        let size = digits.parse::<u8>().ok()?;
        if size == 0 {
            None
        } else {
            Some(Part::Bytes(size))
        }
    }

    /// How many bytes it has in a table.
    pub fn size(self) -> u8
        ensures { result ≡ typed_len self }
    {
        match self {
            Part::Nothing => 0,
            Part::U32 => 4,
            Part::U64 => 8,
            Part::Bytes(size) => size,
        }
    }

    /// The hash function of new tables of such keys, where none is named: `fx` for numbers,
    /// `unhash` for 8 to 32 bytes, which are hashes, and else `xxh64`.
    pub(crate) fn default_hash(self) -> Hash
        ensures { result ≡ default_hash self }
    {
        match self {
            Part::U32 | Part::U64 => Hash::Fx,
            Part::Bytes(size) if 8 <= size && size <= 32 => Hash::Unhash,
            _ => Hash::Xxh64,
        }
    }

    /// What keys of that many bytes are by themselves, in a table of this hash function: numbers,
    /// where they have 4 or 8 bytes, but under `unhash` hashes; else bytes.
    pub(crate) fn own_key(size: u8, hash: Hash) -> Part
        ensures { result ≡ own_key size hash }
    {
        match (size, hash) {
            (_, Hash::Unhash) => Part::Bytes(size),
            (4, _) => Part::U32,
            (8, _) => Part::U64,
            _ => Part::Bytes(size),
        }
    }

    /// What values of that many bytes are by themselves: nothing, where they have none; numbers,
    /// where they have 4 or 8 bytes; else bytes.
    pub(crate) fn own_value(size: u8) -> Part
        ensures { result ≡ own_value size }
    {
        match size {
            0 => Part::Nothing,
            4 => Part::U32,
            8 => Part::U64,
            _ => Part::Bytes(size),
        }
    }

    /// Whether both are the same type. No bytes are nothing.
    pub(crate) fn is(self, other: Part) -> bool
        ensures { result ≡ same_part self other }
    {
        match (self, other) {
            (Part::Nothing, Part::Nothing) | (Part::U32, Part::U32) | (Part::U64, Part::U64) =>
                true,
            (Part::Bytes(size), Part::Bytes(other)) => size == other,
            (Part::Nothing, Part::Bytes(size)) | (Part::Bytes(size), Part::Nothing) => size == 0,
            _ => false,
        }
    }
}

impl fmt::Display for Part {
    fn fmt<W: fmt::Write>(&self, f: &mut fmt::Formatter<W>) -> fmt::Result {
        match self {
            Part::Nothing | Part::Bytes(0) => write!(f, "none"),
            Part::U32 => write!(f, "u32"),
            Part::U64 => write!(f, "u64"),
            Part::Bytes(size) => write!(f, "hex{size}"),
        }
    }
}

impl Shape {
    /// The first ready shape of keys and values of that many bytes, and of the hash function, where
    /// one is given.
    pub(crate) fn of_sizes(key_size: u8, value_size: u8, hash: Option<Hash>) -> Option<Shape>
        ensures { result ≡ shape_of_sizes key_size value_size hash }
    {
        SHAPES
            .iter()
            .copied()
            .find(|shape| shape.is_of(key_size, value_size, hash))
    }

    /// Whether keys and values have that many bytes, and the hash function is this one, where one
    /// is given.
    pub(crate) fn is_of(self, key_size: u8, value_size: u8, hash: Option<Hash>) -> bool
        ensures { result ≡ is_shape_of key_size value_size hash self }
    {
        self.key().size() == key_size
            && self.value().size() == value_size
            && self.is_hashed_by(hash)
    }

    /// The ready shape of these types of keys and values.
    pub fn of_parts(key: Part, value: Part, hash: Option<Hash>) -> Option<Shape>
        ensures { result ≡ shape_of_parts key value hash }
    {
        SHAPES
            .iter()
            .copied()
            .find(|shape| shape.has_parts(key, value, hash))
    }

    // Whether keys and values are of these types, and the hash function is this one, where one is
    // given.
    fn has_parts(self, key: Part, value: Part, hash: Option<Hash>) -> bool
        ensures { result ≡ has_parts key value hash self }
    {
        self.key().is(key) && self.value().is(value) && self.is_hashed_by(hash)
    }

    // Whether the hash function is this one, where one is given.
    fn is_hashed_by(self, hash: Option<Hash>) -> bool
        ensures { result ≡ is_hashed_by hash self }
    {
        match hash {
            Some(hash) => self.hash().is(hash),
            None => true,
        }
    }
}
