//! `odht dump`: the pairs of a table file.
ghost use Rattle.std.specs.Prelude.{◌≡◌, ◌≤◌, All, OnOk, length, true};
ghost use Rattle.std.specs.Io.KnownBytes.{Appends};
ghost use Rattle.odht_base.specs.Format.{format_of};
ghost use Rattle.odht_raw.specs.DynParts.{HasLengthsOf};
ghost use Rattle.odht_tool_core.specs.DumpTexts.{dumped};
ghost use Rattle.odht_tool_core.specs.Endings.{IsDone};
ghost use Rattle.odht_tool_core.specs.Json.{pair_objects};
ghost use Rattle.odht_tool_core.specs.ReadyShapes.{typed_len};
ghost use Rattle.odht_tool_core.specs.StoredTexts.{bare_pairs, key_text, lines_of, value_text};
ghost use Rattle.odht_tool_core.specs.Texts.{pair_line, pairs_text};
ghost use Rattle.odht_tool_reads.specs.Bounds.{bound_refusal, bounded};
ghost use Rattle.odht_tool_reads.specs.Outcomes.{dump_outcome};

use crate::bounds::check_bound;
use odht::hash::HashFn;
use odht::raw_table::DynIter;
use odht::{FxHashFn, UnHashFn, Xxh64HashFn};
use odht_tool_core::any::read_any;
use odht_tool_core::dynamic_slots::write_slots;
use odht_tool_core::failure::Failure;
use odht_tool_core::forms::{Form, Kinds};
use odht_tool_core::json::pairs::write_pair_object;
use odht_tool_core::shapes::{Hash, Part};
use odht_tool_core::status::{Status, of_output};
use odht_tool_core::typed::Texts;
use odht_tool_core::typed::stored::{Digits32, Digits64, TextWriter, Typed};
use odht_tool_tables::dynamic::{lengths_of, open_lengths};
use std::io::{self, Write};

/// `odht dump --slots` of the bytes of a file, with `--json` or without: writes a line for each
/// pair, in slot order. It searches each key. So where a search may read more groups than the bound
/// it fails before it writes.
pub fn dump_slots<O: Write>(
    bytes: &[u8],
    hash: Option<Hash>,
    kinds: Kinds,
    bound: Option<usize>,
    is_json: bool,
    output: &mut O,
) -> Result<Status, Failure>
    ensures { IsDone
        (bounded (bound_refusal bytes.now bound) (dump_outcome bytes.now hash kinds true is_json))
        (O.contents output.old) (O.contents output.new) result }
{
    match check_bound(bytes, bound) {
        Ok(()) => dump_file(bytes, hash, kinds, true, is_json, output),
        Err(error) => Err(Failure::Refused(error)),
    }
}

/// `odht dump` of the bytes of a file, with `--slots` and with `--json` or without: writes a line
/// for each pair, in slot order. Searches have no bound.
pub fn dump_file<O: Write>(
    bytes: &[u8],
    hash: Option<Hash>,
    kinds: Kinds,
    is_slots: bool,
    is_json: bool,
    output: &mut O,
) -> Result<Status, Failure>
    ensures { IsDone (dump_outcome bytes.now hash kinds is_slots is_json)
        (O.contents output.old) (O.contents output.new) result }
{
    let found = read_any(bytes, hash, kinds)?;
    let (shape, forms) = found;
    let texts = Texts::of(shape, forms);
    match shape.hash() {
        Hash::Fx => dump_table::<FxHashFn, O>(texts, bytes, is_slots, is_json, output),
        Hash::Unhash => dump_table::<UnHashFn, O>(texts, bytes, is_slots, is_json, output),
        Hash::Xxh64 => dump_table::<Xxh64HashFn, O>(texts, bytes, is_slots, is_json, output),
    }
}

// The same of a hash function.
fn dump_table<H: HashFn, O: Write>(
    texts: Texts,
    bytes: &[u8],
    is_slots: bool,
    is_json: bool,
    output: &mut O,
) -> Result<Status, Failure>
    requires { H.MIN_LEN ≤ typed_len texts.key }
    ensures { let F = format_of (typed_len texts.key) (typed_len texts.value) H.hash
        in IsDone (dumped is_slots is_json F texts bytes.now)
        (O.contents output.old) (O.contents output.new) result }
{
    let table = open_lengths::<H>(lengths_of(texts.key, texts.value), bytes)?;
    if is_slots {
        return of_output(write_slots(texts, is_json, &table.as_dynamic(), output));
    }
    let pairs = table.iter();
    if is_json {
        return of_output(write_objects(texts, pairs, output));
    }
    of_output(write_lines(texts, pairs, output))
}

// Writes the object of each pair on a line.
fn write_objects<H: HashFn, O: Write>(
    texts: Texts,
    pairs: DynIter<'_, H>,
    output: &mut O,
) -> io::Result<()>
    requires { All (HasLengthsOf (typed_len texts.key) (typed_len texts.value)) pairs }
    ensures { OnOk result (Appends (O.contents output.old) (O.contents output.new)
        (pair_objects (key_text texts) (value_text texts) (bare_pairs pairs.entry))) }
{
    for (key, value) in pairs {
        write_pair_object(texts, key, value, output)?;
    }
    Ok(())
}

// Writes each pair on a line. What is written of keys is known first.
fn write_lines<H: HashFn, O: Write>(
    texts: Texts,
    pairs: DynIter<'_, H>,
    output: &mut O,
) -> io::Result<()>
    requires { All (HasLengthsOf (typed_len texts.key) (typed_len texts.value)) pairs }
    ensures { OnOk result (Appends (O.contents output.old) (O.contents output.new)
        (lines_of texts pairs.entry)) }
{
    match (texts.key, texts.forms.key) {
        (Part::U32, Form::Own) => write_values(Digits32, texts, pairs, output),
        (Part::U64, Form::Own) => write_values(Digits64, texts, pairs, output),
        (part, form) => write_values(Typed { part, form }, texts, pairs, output),
    }
}

// And then what is written of values.
fn write_values<K: TextWriter, H: HashFn, O: Write>(
    keys: K,
    texts: Texts,
    pairs: DynIter<'_, H>,
    output: &mut O,
) -> io::Result<()>
    requires { All (HasLengthsOf (K.len keys) (typed_len texts.value)) pairs }
    ensures { OnOk result (Appends (O.contents output.old) (O.contents output.new)
        (pairs_text (K.text keys) (value_text texts) (bare_pairs pairs.entry))) }
{
    match (texts.value, texts.forms.value) {
        (Part::U32, Form::Own) => write_pairs(keys, Digits32, pairs, output),
        (Part::U64, Form::Own) => write_pairs(keys, Digits64, pairs, output),
        (part, form) => write_pairs(keys, Typed { part, form }, pairs, output),
    }
}

fn write_pairs<K: TextWriter, V: TextWriter, H: HashFn, O: Write>(
    keys: K,
    values: V,
    pairs: DynIter<'_, H>,
    output: &mut O,
) -> io::Result<()>
    requires { All (HasLengthsOf (K.len keys) (V.len values)) pairs }
    ensures { OnOk result (Appends (O.contents output.old) (O.contents output.new)
        (pairs_text (K.text keys) (V.text values) (bare_pairs pairs.entry))) }
{
    for (key, value) in pairs {
        write_pair_line(keys, values, key, value, output)?;
    }
    Ok(())
}

#[inline(always)]
fn write_pair_line<K: TextWriter, V: TextWriter, O: Write>(
    keys: K,
    values: V,
    key: &[u8],
    value: &[u8],
    output: &mut O,
) -> io::Result<()>
    requires key { length key.now ≡ K.len keys }
    requires value { length value.now ≡ V.len values }
    ensures { OnOk result (Appends (O.contents output.old) (O.contents output.new)
        (pair_line (K.text keys) (V.text values) (key.now, value.now))) }
{
    keys.write_text(key, output)?;
    output.write_all(b"\t")?;
    values.write_text(value, output)?;
    output.write_all(b"\n")
}
