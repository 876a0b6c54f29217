//! Keys as long as they may be.
ghost use Rattle.std.specs.Int.{w64, to_le_bytes, from_le_bytes};
ghost use Rattle.std.proofs.Common.{lit≤, zero-le};

use odht::FxHashFn;
use odht::config::Config;

/// From names of 255 bytes to numbers.
pub struct LongNames;

impl Config for LongNames {
    type Key = [u8; 255];

    type Value = u64;

    type EncodedKey = [u8; 255];

    type EncodedValue = [u8; 8];

    type H = FxHashFn;

    ghost encode_key = { λ name. name };

    ghost encode_value = { to_le_bytes w64 };

    ghost decode_key = { λ name. name };

    ghost decode_value = { from_le_bytes w64 };

    #[inline]
    fn encode_key(name: &[u8; 255]) -> [u8; 255] {
        *name
    }

    #[inline]
    fn encode_value(number: &u64) -> [u8; 8] {
        number.to_le_bytes()
    }

    #[inline]
    fn decode_key(name: &[u8; 255]) -> [u8; 255] {
        *name
    }

    #[inline]
    fn decode_value(number: &[u8; 8]) -> u64 {
        u64::from_le_bytes(*number)
    }

    ghost key_fits = { lit≤ tt };

    ghost value_fits = { lit≤ tt };

    ghost key_hashes = { zero-le };
}
