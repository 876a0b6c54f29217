//! Configurations: the key and value types of a table, their encodings and the hash function.
ghost use Rattle.std.specs.Prelude.{◌≡◌, ◌≤◌};
ghost use Rattle.odht_header.specs.Coding.{Coding, coding_of};

use crate::bytes::ByteArray;
use crate::hash::HashFn;

/// The types of a table, and their encodings. All encoded keys have the same length, and so have
/// all encoded values. The encodings are the same on every platform.
///
/// In contracts, what each of the four functions returns is the ghost member of the same name.
pub trait Config {
    /// The type of keys, before they are encoded.
    type Key: Drop;

    /// The type of values, before they are encoded.
    type Value: Drop;

    /// The type of encoded keys: at most 255 bytes, and at least the `MIN_LEN` of the hash
    /// function.
    type EncodedKey: ByteArray;

    /// The type of encoded values: at most 255 bytes.
    type EncodedValue: ByteArray;

    /// The hash function of encoded keys. The bytes of a table do not record it.
    type H: HashFn;

    ghost encode_key: { Self.Key → Self.EncodedKey };

    ghost encode_value: { Self.Value → Self.EncodedValue };

    ghost decode_key: { Self.EncodedKey → Self.Key };

    ghost decode_value: { Self.EncodedValue → Self.Value };

    /// Encodes a key.
    fn encode_key(k: &Self::Key) -> Self::EncodedKey
        ensures { result ≡ encode_key k.now };

    /// Encodes a value.
    fn encode_value(v: &Self::Value) -> Self::EncodedValue
        ensures { result ≡ encode_value v.now };

    /// Decodes a key. It must return a key for any bytes, since they may be untrusted.
    fn decode_key(k: &Self::EncodedKey) -> Self::Key
        ensures { result ≡ decode_key k.now };

    /// Decodes a value. It must return a value for any bytes, since they may be untrusted.
    fn decode_value(v: &Self::EncodedValue) -> Self::Value
        ensures { result ≡ decode_value v.now };

    ghost key_fits: { Self.EncodedKey.LEN ≤ 255 };

    ghost value_fits: { Self.EncodedValue.LEN ≤ 255 };

    ghost key_hashes: { Self.H.MIN_LEN ≤ Self.EncodedKey.LEN };
}

/// The coding of a configuration, as one value for contracts. Each `Config` implements this trait;
/// users do not.
pub trait Coded: Config {
    ghost coding: { Coding Self.Key Self.Value };
}

impl<C: Config> Coded for C {
    ghost coding = { coding_of C.EncodedKey.LEN C.EncodedKey.bytes C.EncodedKey.of_bytes
        C.EncodedValue.LEN C.EncodedValue.bytes C.EncodedValue.of_bytes C.H.hash C.encode_key
        C.encode_value C.decode_key C.decode_value };
}

/// A configuration whose decodings undo its encodings, so that different keys have different bytes.
/// By `odht::laws`, `get` in a table that is built from empty then returns the last value of the
/// key itself.
///
/// Both functions do nothing. Their contracts state the law, for a given key and a given value.
pub trait Lossless: Config {
    /// The bytes of a key decode to it, so different keys have different bytes.
    fn key_kept(k: &Self::Key)
        ensures { Self.decode_key (Self.encode_key k.now) ≡ k.now };

    /// The bytes of a value decode to it.
    fn value_kept(v: &Self::Value)
        ensures { Self.decode_value (Self.encode_value v.now) ≡ v.now };
}
