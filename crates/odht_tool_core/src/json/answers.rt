//! Keys that were looked up, and their values, as lines of text or as objects of JSON.
ghost use Rattle.std.specs.Prelude.{◌≡◌, ◌<◌, codes, length, OnErr, OnOk};
ghost use Rattle.std.specs.Io.KnownBytes.{Appends};
ghost use Rattle.std.specs.List.{list_all};
ghost use Rattle.odht_tool_core.specs.Json.{json_field, pair_fields_text, pair_object};
ghost use Rattle.odht_tool_core.specs.Json.{text_field, text_object};
ghost use Rattle.odht_tool_core.specs.JsonAnswers.{absent_object, answer_in, answer_object};
ghost use Rattle.odht_tool_core.specs.JsonAnswers.{absent_line, no_key_line, value_line, word_in};
ghost use Rattle.odht_tool_core.specs.PlainTexts.{is_plain};
ghost use Rattle.odht_tool_core.specs.Texts.{answers_by};

use crate::answers::{write_answer, write_answers_as};
use crate::forms::{Form, Forms};
use crate::json::pairs::write_any_field;
use crate::plain::is_plain;
use crate::shown::Shown;
use crate::written::Written;
use std::io::{self, Write};

/// What is printed of each key.
#[derive(Clone, Copy)]
pub struct Printed {
    /// Whether it is an object of JSON.
    pub is_json: bool,
    /// Whether it is the value without the key.
    pub is_values: bool,
}

/// How keys and their values are written.
#[derive(Clone, Copy)]
pub struct AnswerStyle<F: Forms> {
    /// The forms of their texts.
    pub forms: F,
    /// What is printed of them.
    pub printed: Printed,
}

/// Writes a line for each key: with its value, or the key alone where it has none; or an object of
/// both, in which such a value is null. Or the line has only the value, and is empty where the key
/// has none. With no keys it writes nothing, and does not fail.
pub fn write_answers_in<K: Written, V: Written, F: Forms, O: Write>(
    keys: &[K],
    values: &[Option<V>],
    style: AnswerStyle<F>,
    output: &mut O,
) -> io::Result<()>
    requires { length values.now ≡ length keys.now }
    ensures written { let f = K.text (F.pair style.forms).0
        in let g = V.text (F.pair style.forms).1
        in OnOk result (Appends (O.contents output.old) (O.contents output.new)
        (answers_by (answer_in style.printed f g) keys.now values.now)) }
    ensures asked { OnErr result (0 < length keys.now) }
{
    let Printed { is_json, is_values } = style.printed;
    if is_json || is_values {
        write_each(keys, values, style, output)
    } else {
        write_answers_as(keys, values, style.forms, output)
    }
}

// The same, of which what is printed is looked at for each key.
fn write_each<K: Written, V: Written, F: Forms, O: Write>(
    keys: &[K],
    values: &[Option<V>],
    style: AnswerStyle<F>,
    output: &mut O,
) -> io::Result<()>
    requires { length values.now ≡ length keys.now }
    ensures written { let f = K.text (F.pair style.forms).0
        in let g = V.text (F.pair style.forms).1
        in OnOk result (Appends (O.contents output.old) (O.contents output.new)
        (answers_by (answer_in style.printed f g) keys.now values.now)) }
    ensures asked { OnErr result (0 < length keys.now) }
{
    for at in 0..keys.len() {
        write_answer_in(&keys[at], &values[at], style, output)?;
    }
    Ok(())
}

/// Writes the line of one key, as [`write_answers_in`] does.
pub fn write_answer_in<K: Written, V: Written, F: Forms, O: Write>(
    key: &K,
    value: &Option<V>,
    style: AnswerStyle<F>,
    output: &mut O,
) -> io::Result<()>
    ensures { let f = K.text (F.pair style.forms).0 in let g = V.text (F.pair style.forms).1
        in OnOk result (Appends (O.contents output.old) (O.contents output.new)
        (answer_in style.printed f g (key.now, value.now))) }
{
    let Printed { is_json, is_values } = style.printed;
    if is_values {
        write_value(value, style.forms.value(), is_json, output)
    } else if is_json {
        write_object(key, value, style.forms, output)
    } else {
        write_answer(key, value, style.forms, output)
    }
}

/// Writes the line of a word that is the text of no key: the word, as it is or as messages show
/// it, or an object of it, in which the value is null. Or the line has only the value, which is
/// absent.
pub fn write_no_key<O: Write>(word: &[u8], printed: Printed, output: &mut O) -> io::Result<()>
    ensures { OnOk result (Appends (O.contents output.old) (O.contents output.new)
        (no_key_line printed word.now)) }
{
    if printed.is_values {
        write_no_value(printed.is_json, output)
    } else {
        write_word(word, printed.is_json, output)
    }
}

// Writes the line of a word that is the text of no key, with the word.
fn write_word<O: Write>(word: &[u8], is_json: bool, output: &mut O) -> io::Result<()>
    ensures { OnOk result (Appends (O.contents output.old) (O.contents output.new)
        (word_in is_json word.now)) }
{
    if is_json {
        write_no_key_object(word, output)
    } else if is_in_line(word) {
        output.write_all(word)?;
        output.write_all(b"\n")
    } else {
        let word = Shown(word);
        writeln!(output, "{word}")
    }
}

// Writes the object of a word that is the text of no key.
fn write_no_key_object<O: Write>(word: &[u8], output: &mut O) -> io::Result<()>
    ensures { OnOk result (Appends (O.contents output.old) (O.contents output.new)
        (absent_object word.now)) }
{
    output.write_all(b"{")?;
    write_any_field("key", word, output)?;
    output.write_all(b",\"value\":null}\n")
}

// Whether a word is one field of one line.
fn is_in_line(word: &[u8]) -> bool
    ensures { result ≡ list_all is_plain word.now }
{
    word.iter().all(|byte| is_plain(*byte))
}

// Writes the line of a value.
fn write_value<V: Written, O: Write>(
    value: &Option<V>,
    form: Form,
    is_json: bool,
    output: &mut O,
) -> io::Result<()>
    ensures { OnOk result (Appends (O.contents output.old) (O.contents output.new)
        (value_line is_json (V.text form) value.now)) }
{
    match value {
        Some(value) if is_json => write_value_object(value, form, output),
        Some(value) => {
            value.write(form, output)?;
            output.write_all(b"\n")
        }
        None => write_no_value(is_json, output),
    }
}

// Writes the object of a value on a line.
fn write_value_object<V: Written, O: Write>(value: &V, form: Form, output: &mut O) -> io::Result<()>
    ensures { OnOk result (Appends (O.contents output.old) (O.contents output.new)
        (text_object (codes "value") (V.text form value.now))) }
{
    output.write_all(b"{")?;
    write_text_field("value", value, form, output)?;
    output.write_all(b"}\n")
}

// Writes the line of a value that is absent.
fn write_no_value<O: Write>(is_json: bool, output: &mut O) -> io::Result<()>
    ensures { OnOk result (Appends (O.contents output.old) (O.contents output.new)
        (absent_line is_json)) }
{
    if is_json {
        output.write_all(b"{\"value\":null}\n")
    } else {
        output.write_all(b"\n")
    }
}

// Writes the object of a key and its value on a line, or of the key alone.
fn write_object<K: Written, V: Written, F: Forms, O: Write>(
    key: &K,
    value: &Option<V>,
    forms: F,
    output: &mut O,
) -> io::Result<()>
    ensures { let f = K.text (F.pair forms).0 in let g = V.text (F.pair forms).1
        in OnOk result (Appends (O.contents output.old) (O.contents output.new)
        (answer_object f g (key.now, value.now))) }
{
    match value {
        Some(value) => write_found(key, value, forms, output),
        None => write_absent(key, forms.key(), output),
    }
}

// Writes the object of a key and its value.
fn write_found<K: Written, V: Written, F: Forms, O: Write>(
    key: &K,
    value: &V,
    forms: F,
    output: &mut O,
) -> io::Result<()>
    ensures { OnOk result (Appends (O.contents output.old) (O.contents output.new)
        (pair_object (K.text (F.pair forms).0) (V.text (F.pair forms).1) (key.now, value.now))) }
{
    output.write_all(b"{")?;
    write_fields(key, value, forms, output)
}

// Writes the fields of a key and its value, the end of their object, and of its line.
fn write_fields<K: Written, V: Written, F: Forms, O: Write>(
    key: &K,
    value: &V,
    forms: F,
    output: &mut O,
) -> io::Result<()>
    ensures { OnOk result (Appends (O.contents output.old) (O.contents output.new)
        (pair_fields_text (K.text (F.pair forms).0) (V.text (F.pair forms).1)
        (key.now, value.now))) }
{
    write_text_field("key", key, forms.key(), output)?;
    output.write_all(b",")?;
    write_text_field("value", value, forms.value(), output)?;
    output.write_all(b"}\n")
}

// Writes the object of a key that is absent.
fn write_absent<K: Written, O: Write>(key: &K, form: Form, output: &mut O) -> io::Result<()>
    ensures { OnOk result (Appends (O.contents output.old) (O.contents output.new)
        (absent_object (K.text form key.now))) }
{
    output.write_all(b"{")?;
    write_text_field("key", key, form, output)?;
    output.write_all(b",\"value\":null}\n")
}

// Writes a field that is the text of a key or a value.
fn write_text_field<T: Written, O: Write>(
    name: &str,
    value: &T,
    form: Form,
    output: &mut O,
) -> io::Result<()>
    ensures { OnOk result (Appends (O.contents output.old) (O.contents output.new)
        (json_field (text_field name.now (T.text form value.now)))) }
{
    if let Some(text) = value.plain_bytes(form) {
        return write_any_field(name, text, output);
    }
    write!(output, "\"{name}\":\"")?;
    value.write(form, output)?;
    output.write_all(b"\"")
}
