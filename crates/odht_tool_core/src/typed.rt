//! The texts of keys and values, of their stored bytes and their types.
ghost use Rattle.std.specs.Prelude.{◌≡◌, length, IfSome, IsNone, OnOk};
ghost use Rattle.std.specs.Io.KnownBytes.{Appends};
ghost use Rattle.std.specs.List.{AllPass};
ghost use Rattle.odht_tool_core.specs.Forms.{bytes_text};
ghost use Rattle.odht_tool_core.specs.Json.{is_simple};
ghost use Rattle.odht_tool_core.specs.ReadyShapes.{typed_len};
ghost use Rattle.odht_tool_core.specs.StoredTexts.{key_text, side_bytes, side_name, side_typed};
ghost use Rattle.odht_tool_core.specs.StoredTexts.{stored_text, texts_of, value_text};
ghost use Rattle.odht_tool_core.specs.Texts.{pair_line};

pub mod stored;

use crate::any::AnyShape;
use crate::forms::{Form, GivenForms};
use crate::hexadecimal::no_plain_bytes;
use crate::plain::{plain_of, write_plain};
use crate::shapes::Part;
use crate::text::write_bytes;
use crate::written::Written;
use odht_base::bytes::ByteArray;
use std::io::{self, Write};
use stored::Typed;

/// One side of a pair.
#[derive(Clone, Copy)]
pub enum Side {
    /// Its key.
    Key,
    /// Its value.
    Value,
}

impl Side {
    /// The bytes of this side of a pair.
    #[inline(always)]
    pub fn of<'a>(self, key: &'a [u8], value: &'a [u8]) -> &'a [u8]
        ensures { result.now ≡ side_bytes self (record { key = key.now; value = value.now }) }
    {
        match self {
            Side::Key => key,
            Side::Value => value,
        }
    }

    /// Its name in objects of JSON.
    pub(crate) fn name(self) -> &'static str
        ensures { result.now ≡ side_name self }
    {
        match self {
            Side::Key => "key",
            Side::Value => "value",
        }
    }
}

/// In which texts the keys and the values of a table are written.
#[derive(Clone, Copy)]
pub struct Texts {
    /// The type of keys.
    pub key: Part,
    /// The type of values.
    pub value: Part,
    /// Their forms.
    pub forms: GivenForms,
}

impl Texts {
    /// Those of a shape, in these forms.
    pub fn of(shape: AnyShape, forms: GivenForms) -> Texts
        ensures { result ≡ texts_of shape forms }
    {
        Texts {
            key: shape.key(),
            value: shape.value(),
            forms,
        }
    }

    /// The type and the form of this side of pairs.
    pub fn of_side(self, side: Side) -> Typed
        ensures { result ≡ side_typed self side }
    {
        let (part, form) = match side {
            Side::Key => (self.key, self.forms.key),
            Side::Value => (self.value, self.forms.value),
        };
        Typed { part, form }
    }

    /// Writes the text of the key that is stored as these bytes.
    pub fn write_key<W: Write>(self, key: &[u8], output: &mut W) -> io::Result<()>
        requires { length key.now ≡ typed_len self.key }
        ensures { OnOk result (Appends (W.contents output.old) (W.contents output.new)
            (key_text self key.now)) }
    {
        write_stored(self.key, self.forms.key, key, output)
    }

    /// Writes the text of the value that is stored as these bytes.
    pub fn write_value<W: Write>(self, value: &[u8], output: &mut W) -> io::Result<()>
        requires { length value.now ≡ typed_len self.value }
        ensures { OnOk result (Appends (W.contents output.old) (W.contents output.new)
            (value_text self value.now)) }
    {
        write_stored(self.value, self.forms.value, value, output)
    }

    /// Writes a line of the key and the value that are stored as these bytes.
    #[inline(always)]
    pub fn write_pair<W: Write>(self, key: &[u8], value: &[u8], output: &mut W) -> io::Result<()>
        requires key { length key.now ≡ typed_len self.key }
        requires value { length value.now ≡ typed_len self.value }
        ensures { OnOk result (Appends (W.contents output.old) (W.contents output.new)
            (pair_line (key_text self) (value_text self) (key.now, value.now))) }
    {
        self.write_key(key, output)?;
        output.write_all(b"\t")?;
        self.write_value(value, output)?;
        output.write_all(b"\n")
    }
}

/// Writes the text, in this form, of the key or the value of this type that is stored as these
/// bytes.
#[inline(always)]
pub(crate) fn write_stored<W: Write>(
    part: Part,
    form: Form,
    bytes: &[u8],
    output: &mut W,
) -> io::Result<()>
    requires { length bytes.now ≡ typed_len part }
    ensures { OnOk result (Appends (W.contents output.old) (W.contents output.new)
        (stored_text form part bytes.now)) }
{
    match part {
        Part::Nothing => output.write_all(b""),
        Part::U32 => u32::from_le_bytes(<[u8; 4]>::from_slice(bytes)).write(form, output),
        Part::U64 => u64::from_le_bytes(<[u8; 8]>::from_slice(bytes)).write(form, output),
        Part::Bytes(_) => write_stored_bytes(form, bytes, output),
    }
}

fn write_stored_bytes<W: Write>(form: Form, bytes: &[u8], output: &mut W) -> io::Result<()>
    ensures { OnOk result (Appends (W.contents output.old) (W.contents output.new)
        (bytes_text form bytes.now)) }
{
    match form {
        Form::Plain => write_plain(bytes, output),
        _ => write_bytes(bytes, output),
    }
}

/// The text, where it may have any bytes. None where each is a character that stands for itself in
/// strings of JSON.
pub(crate) fn plain_bytes(part: Part, form: Form, bytes: &[u8]) -> Option<&[u8]>
    ensures some { IfSome result (λ t. t.now ≡ stored_text form part bytes.now) }
    ensures none { IsNone result → AllPass is_simple (stored_text form part bytes.now) }
{
    match part {
        Part::Bytes(_) => plain_bytes_in(form, bytes),
        _ => None,
    }
}

fn plain_bytes_in(form: Form, bytes: &[u8]) -> Option<&[u8]>
    ensures some { IfSome result (λ t. t.now ≡ bytes_text form bytes.now) }
    ensures none { IsNone result → AllPass is_simple (bytes_text form bytes.now) }
{
    match form {
        Form::Plain => Some(plain_of(bytes)),
        _ => no_plain_bytes(bytes),
    }
}
