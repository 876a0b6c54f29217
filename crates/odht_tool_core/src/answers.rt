//! The lines in which pairs and answers are printed.
ghost use Rattle.std.specs.Prelude.{◌≡◌, ◌<◌, IfOk, OnErr, OnOk, is_some, length};
ghost use Rattle.std.specs.Io.KnownBytes.{Appends};
ghost use Rattle.std.specs.List.{list_all};
ghost use Rattle.odht_tool_core.specs.Texts.{answer_line, answers_text, pair_line};

use crate::forms::{Form, Forms, OwnForms};
use crate::written::Written;
use std::alloc::{AllocError, Global};
use std::io::{self, Write};

/// Writes a line of a key, a tab and a value, in the texts that their types have.
#[inline(always)]
pub fn write_pair<K: Written, V: Written, O: Write>(
    key: &K,
    value: &V,
    output: &mut O,
) -> io::Result<()>
    ensures { OnOk result (Appends (O.contents output.old) (O.contents output.new)
        (pair_line (K.text Form.Own) (V.text Form.Own) (key.now, value.now))) }
{
    write_pair_as(key, value, OwnForms, output)
}

/// Writes a line of a key, a tab and a value, in texts of these forms. Each part is written by
/// itself: a buffer behind `output` that becomes full is passed on with as many parts as fit.
#[inline(always)]
pub fn write_pair_as<K: Written, V: Written, F: Forms, O: Write>(
    key: &K,
    value: &V,
    forms: F,
    output: &mut O,
) -> io::Result<()>
    ensures { OnOk result (Appends (O.contents output.old) (O.contents output.new)
        (pair_line (K.text (F.pair forms).0) (V.text (F.pair forms).1) (key.now, value.now))) }
{
    key.write(forms.key(), output)?;
    output.write_all(b"\t")?;
    value.write(forms.value(), output)?;
    output.write_all(b"\n")
}

/// Writes a line for each key: with its value, or the key alone where it has none; in the texts
/// that their types have. With no keys it writes nothing, and does not fail.
#[inline]
pub fn write_answers<K: Written, V: Written, O: Write>(
    keys: &[K],
    values: &[Option<V>],
    output: &mut O,
) -> io::Result<()>
    requires { length values.now ≡ length keys.now }
    ensures written { OnOk result (Appends (O.contents output.old) (O.contents output.new)
        (answers_text (K.text Form.Own) (V.text Form.Own) keys.now values.now)) }
    ensures asked { OnErr result (0 < length keys.now) }
{
    write_answers_as(keys, values, OwnForms, output)
}

/// `write_answers` in texts of these forms.
pub fn write_answers_as<K: Written, V: Written, F: Forms, O: Write>(
    keys: &[K],
    values: &[Option<V>],
    forms: F,
    output: &mut O,
) -> io::Result<()>
    requires { length values.now ≡ length keys.now }
    ensures written { OnOk result (Appends (O.contents output.old) (O.contents output.new)
        (answers_text (K.text (F.pair forms).0) (V.text (F.pair forms).1) keys.now values.now)) }
    ensures asked { OnErr result (0 < length keys.now) }
{
    for at in 0..keys.len() {
        write_answer(&keys[at], &values[at], forms, output)?;
    }
    Ok(())
}

/// So many values, all absent.
pub fn absent_values<V: Copy>(alloc: Global, count: usize) -> Result<Vec<Option<V>>, AllocError>
    ensures { IfOk result (λ values. length values.items ≡ count) }
{
    vec![in alloc; None; count]
}

/// Whether each key has a value.
pub fn are_found<V>(values: &[Option<V>]) -> bool
    ensures { result ≡ list_all is_some values.now }
{
    values.iter().all(|value| value.is_some())
}

/// Writes the line of a key with its value, or only the key.
pub(crate) fn write_answer<K: Written, V: Written, F: Forms, O: Write>(
    key: &K,
    value: &Option<V>,
    forms: F,
    output: &mut O,
) -> io::Result<()>
    ensures { OnOk result (Appends (O.contents output.old) (O.contents output.new)
        (answer_line (K.text (F.pair forms).0) (V.text (F.pair forms).1) (key.now, value.now))) }
{
    match value {
        Some(value) => write_pair_as(key, value, forms, output),
        None => {
            key.write(forms.key(), output)?;
            output.write_all(b"\n")
        }
    }
}
