//! The whole check of the bytes of a table of any shape.
ghost use Rattle.std.specs.Prelude.{◌≡◌, OnOk};
ghost use Rattle.odht_base.specs.Valid.{IsValidBytes};
ghost use Rattle.odht_header.specs.Refusals.{checked, check_refusal_by};
ghost use Rattle.odht_tool_core.specs.AnyShapes.{HasLongKeys, any_format};

use crate::dynamic::{check_lengths, lengths_of};
use odht::error::Error;
use odht::{FxHashFn, UnHashFn, Xxh64HashFn};
use odht_tool_core::any::AnyShape;
use odht_tool_core::shapes::Hash;

/// The first rule that the bytes break, as a table of this shape, the bound of searches among them
/// where there is one. Bytes without an error are valid.
pub fn check_any(shape: AnyShape, bytes: &[u8], bound: Option<usize>) -> Result<(), Error>
    requires { HasLongKeys shape }
    ensures first { result ≡ checked (check_refusal_by (any_format shape) bound bytes.now) }
    ensures valid { OnOk result (IsValidBytes (any_format shape) bytes.now) }
{
    let layout = lengths_of(shape.key(), shape.value());
    match shape.hash() {
        Hash::Fx => check_lengths::<FxHashFn>(layout, bytes, bound),
        Hash::Unhash => check_lengths::<UnHashFn>(layout, bytes, bound),
        Hash::Xxh64 => check_lengths::<Xxh64HashFn>(layout, bytes, bound),
    }
}
