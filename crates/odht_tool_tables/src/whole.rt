//! The shape of a file whose bytes are checked whole, and whether two of them have the same
//! lengths.
ghost use Rattle.std.specs.Prelude.{◌≡◌, IfOk, OnOk};
ghost use Rattle.std.specs.Io.KnownBytes.{Appends};
ghost use Rattle.odht_base.specs.Valid.{IsValidBytes};
ghost use Rattle.odht_tool_core.specs.AnyShapes.{HasLongKeys, any_format};
ghost use Rattle.odht_tool_tables.specs.Wholes.{have_same_sizes, sizes_of, sizes_text};
ghost use Rattle.odht_tool_tables.specs.Wholes.{asked_whole, whole_any};

use crate::checks::check_any;
use odht_tool_core::any::{AnyShape, read_any};
use odht_tool_core::evidence::ask_key;
use odht_tool_core::failure::Failure;
use odht_tool_core::forms::{GivenForms, Kinds};
use odht_tool_core::shapes::Hash;
use std::io::{self, Write};

/// The shape of the bytes of a file, and the forms of its keys and values, as `read_any` has them;
/// or the first rule that the bytes break, the bound of searches among them where there is one.
pub fn read_whole(
    bytes: &[u8],
    hash: Option<Hash>,
    kinds: Kinds,
    bound: Option<usize>,
) -> Result<(AnyShape, GivenForms), Failure>
    ensures whole { result ≡ whole_any bytes.now hash kinds bound }
    ensures long { IfOk result (λ x. HasLongKeys x.0) }
    ensures valid { IfOk result (λ x. IsValidBytes (any_format x.0) bytes.now) }
{
    let found = read_any(bytes, hash, kinds)?;
    let (shape, _) = found;
    match check_any(shape, bytes, bound) {
        Ok(()) => Ok(found),
        Err(error) => Err(Failure::Refused(error)),
    }
}

/// The same for a command that writes, and finds keys by their texts: `UnknownKey` where nothing is
/// said of keys, and the bytes do not show which type they are of.
pub fn read_asked(
    bytes: &[u8],
    hash: Option<Hash>,
    kinds: Kinds,
    bound: Option<usize>,
) -> Result<(AnyShape, GivenForms), Failure>
    ensures whole { result ≡ asked_whole bytes.now hash kinds bound }
    ensures long { IfOk result (λ x. HasLongKeys x.0) }
    ensures valid { IfOk result (λ x. IsValidBytes (any_format x.0) bytes.now) }
{
    let found = read_whole(bytes, hash, kinds, bound)?;
    let (shape, _) = found;
    ask_key(bytes, shape, kinds)?;
    Ok(found)
}

/// Whether keys and values of two shapes have the same lengths.
pub fn have_same_sizes(first: AnyShape, second: AnyShape) -> bool
    ensures { result ≡ have_same_sizes first second }
{
    first.key().size() == second.key().size() && first.value().size() == second.value().size()
}

/// The lengths of the keys and values of a shape.
pub fn sizes_of(shape: AnyShape) -> (u8, u8)
    ensures { result ≡ sizes_of shape }
{
    (shape.key().size(), shape.value().size())
}

/// Writes a line that says which lengths the other file has, and which the first one.
pub fn write_sizes<E: Write>(
    other: &str,
    file: &str,
    found: (u8, u8),
    expected: (u8, u8),
    errors: &mut E,
) -> io::Result<()>
    ensures { OnOk result (Appends (E.contents errors.old) (E.contents errors.new)
        (sizes_text other.now file.now found expected)) }
{
    let (key, value) = found;
    let (first_key, first_value) = expected;
    write!(
        errors,
        "odht: {other}: its keys have {key} and its values {value} bytes, those of {file} "
    )?;
    writeln!(errors, "{first_key} and {first_value}")
}
