//! Pairs, and sides of pairs, as objects of JSON, each on a line.
ghost use Rattle.std.specs.Prelude.{◌≡◌, OnOk, length};
ghost use Rattle.std.specs.Io.KnownBytes.{Appends};
ghost use Rattle.odht_tool_core.specs.Json.{json_field, pair_fields_text, pair_object};
ghost use Rattle.odht_tool_core.specs.Json.{text_field, text_object};
ghost use Rattle.odht_tool_core.specs.ReadyShapes.{typed_len};
ghost use Rattle.odht_tool_core.specs.StoredTexts.{key_text, side_name, stored_text, value_text};

use crate::forms::Form;
use crate::json::write_string;
use crate::shapes::Part;
use crate::text::write_bytes;
use crate::typed::stored::Typed;
use crate::typed::{Side, Texts, plain_bytes, write_stored};
use std::io::{self, Write};
use std::str::from_utf8;

/// Writes the object of the pair that is stored as these bytes, on a line.
pub fn write_pair_object<O: Write>(
    texts: Texts,
    key: &[u8],
    value: &[u8],
    output: &mut O,
) -> io::Result<()>
    requires key { length key.now ≡ typed_len texts.key }
    requires value { length value.now ≡ typed_len texts.value }
    ensures { OnOk result (Appends (O.contents output.old) (O.contents output.new)
        (pair_object (key_text texts) (value_text texts) (key.now, value.now))) }
{
    output.write_all(b"{")?;
    write_pair_fields(texts, key, value, output)
}

/// Writes the fields of the pair that is stored as these bytes, the end of their object, and of
/// its line.
pub(crate) fn write_pair_fields<O: Write>(
    texts: Texts,
    key: &[u8],
    value: &[u8],
    output: &mut O,
) -> io::Result<()>
    requires key { length key.now ≡ typed_len texts.key }
    requires value { length value.now ≡ typed_len texts.value }
    ensures { OnOk result (Appends (O.contents output.old) (O.contents output.new)
        (pair_fields_text (key_text texts) (value_text texts) (key.now, value.now))) }
{
    write_stored_field("key", texts.key, texts.forms.key, key, output)?;
    output.write_all(b",")?;
    write_stored_field("value", texts.value, texts.forms.value, value, output)?;
    output.write_all(b"}\n")
}

/// Writes the object of one side of a pair, which is of this type and stored as these bytes, on a
/// line.
pub fn write_side_object<O: Write>(
    side: Side,
    typed: Typed,
    bytes: &[u8],
    output: &mut O,
) -> io::Result<()>
    requires { length bytes.now ≡ typed_len typed.part }
    ensures { OnOk result (Appends (O.contents output.old) (O.contents output.new)
        (text_object (side_name side) (stored_text typed.form typed.part bytes.now))) }
{
    output.write_all(b"{")?;
    write_stored_field(side.name(), typed.part, typed.form, bytes, output)?;
    output.write_all(b"}\n")
}

// Writes a field that is the text of a key or a value of this type, which is stored as these
// bytes.
fn write_stored_field<O: Write>(
    name: &str,
    part: Part,
    form: Form,
    bytes: &[u8],
    output: &mut O,
) -> io::Result<()>
    requires { length bytes.now ≡ typed_len part }
    ensures { OnOk result (Appends (O.contents output.old) (O.contents output.new)
        (json_field (text_field name.now (stored_text form part bytes.now)))) }
{
    if let Some(text) = plain_bytes(part, form, bytes) {
        return write_any_field(name, text, output);
    }
    write!(output, "\"{name}\":\"")?;
    write_stored(part, form, bytes, output)?;
    output.write_all(b"\"")
}

/// Writes a field that is a text of any bytes.
pub(crate) fn write_any_field<O: Write>(name: &str, text: &[u8], output: &mut O) -> io::Result<()>
    ensures { OnOk result (Appends (O.contents output.old) (O.contents output.new)
        (json_field (text_field name.now text.now))) }
{
    match from_utf8(text) {
        Ok(_) => {
            write!(output, "\"{name}\":")?;
            write_string(text, output)
        }
        Err(_) => {
            write!(output, "\"{name}_hex\":\"")?;
            write_bytes(text, output)?;
            output.write_all(b"\"")
        }
    }
}
