//! `odht keys`, and `odht dump --values`: one side of each pair of a table file.
ghost use Rattle.std.specs.Prelude.{◌≡◌, ◌≤◌, All, OnOk, length, [], ◌∷◌, ◌++◌};
ghost use Rattle.std.specs.Io.KnownBytes.{Appends};
ghost use Rattle.odht_base.specs.Format.{format_of};
ghost use Rattle.odht_raw.specs.DynParts.{HasLengthsOf};
ghost use Rattle.odht_tool_core.specs.Endings.{IsDone};
ghost use Rattle.odht_tool_core.specs.ReadyShapes.{typed_len};
ghost use Rattle.odht_tool_core.specs.StoredTexts.{side_bytes, stored_text};
ghost use Rattle.odht_tool_reads.specs.Listings.{list_outcome, listed, side_lines, side_objects};

use odht::hash::HashFn;
use odht::raw_table::DynIter;
use odht::{FxHashFn, UnHashFn, Xxh64HashFn};
use odht_tool_core::any::read_any;
use odht_tool_core::failure::Failure;
use odht_tool_core::forms::{Form, Kinds};
use odht_tool_core::json::pairs::write_side_object;
use odht_tool_core::shapes::{Hash, Part};
use odht_tool_core::status::{Status, of_output};
use odht_tool_core::typed::stored::{Digits32, Digits64, TextWriter, Typed};
use odht_tool_core::typed::{Side, Texts};
use odht_tool_tables::dynamic::{lengths_of, open_lengths};
use std::io::{self, Write};

/// Writes this side of each pair on a line, in slot order, of the bytes of a file; with `--json` an
/// object of it.
pub fn list_file<O: Write>(
    side: Side,
    bytes: &[u8],
    hash: Option<Hash>,
    kinds: Kinds,
    is_json: bool,
    output: &mut O,
) -> Result<Status, Failure>
    ensures { IsDone (list_outcome side bytes.now hash kinds is_json)
        (O.contents output.old) (O.contents output.new) result }
{
    let found = read_any(bytes, hash, kinds)?;
    let (shape, forms) = found;
    let texts = Texts::of(shape, forms);
    match shape.hash() {
        Hash::Fx => list_table::<FxHashFn, O>(side, texts, bytes, is_json, output),
        Hash::Unhash => list_table::<UnHashFn, O>(side, texts, bytes, is_json, output),
        Hash::Xxh64 => list_table::<Xxh64HashFn, O>(side, texts, bytes, is_json, output),
    }
}

// The same of a hash function.
fn list_table<H: HashFn, O: Write>(
    side: Side,
    texts: Texts,
    bytes: &[u8],
    is_json: bool,
    output: &mut O,
) -> Result<Status, Failure>
    requires { H.MIN_LEN ≤ typed_len texts.key }
    ensures { let F = format_of (typed_len texts.key) (typed_len texts.value) H.hash
        in IsDone (listed side F texts bytes.now is_json)
        (O.contents output.old) (O.contents output.new) result }
{
    let table = open_lengths::<H>(lengths_of(texts.key, texts.value), bytes)?;
    let typed = texts.of_side(side);
    if is_json {
        return of_output(write_objects(side, typed, table.iter(), output));
    }
    of_output(write_lines(side, typed, table.iter(), output))
}

// Writes the object of this side of each pair on a line.
fn write_objects<H: HashFn, O: Write>(
    side: Side,
    typed: Typed,
    pairs: DynIter<'_, H>,
    output: &mut O,
) -> io::Result<()>
    requires { All (λ p. length (side_bytes side p) ≡ typed_len typed.part) pairs }
    ensures { OnOk result (Appends (O.contents output.old) (O.contents output.new)
        (side_objects typed side pairs.entry)) }
{
    for (key, value) in pairs {
        write_side_object(side, typed, side.of(key, value), output)?;
    }
    Ok(())
}

// Writes this side of each pair on a line. How it is written is known first.
fn write_lines<H: HashFn, O: Write>(
    side: Side,
    typed: Typed,
    pairs: DynIter<'_, H>,
    output: &mut O,
) -> io::Result<()>
    requires { All (λ p. length (side_bytes side p) ≡ typed_len typed.part) pairs }
    ensures { OnOk result (Appends (O.contents output.old) (O.contents output.new)
        (side_lines (stored_text typed.form typed.part) side pairs.entry)) }
{
    match (typed.part, typed.form) {
        (Part::U32, Form::Own) => write_sides(side, Digits32, pairs, output),
        (Part::U64, Form::Own) => write_sides(side, Digits64, pairs, output),
        _ => write_sides(side, typed, pairs, output),
    }
}

fn write_sides<T: TextWriter, H: HashFn, O: Write>(
    side: Side,
    texts: T,
    pairs: DynIter<'_, H>,
    output: &mut O,
) -> io::Result<()>
    requires { All (λ p. length (side_bytes side p) ≡ T.len texts) pairs }
    ensures { OnOk result (Appends (O.contents output.old) (O.contents output.new)
        (side_lines (T.text texts) side pairs.entry)) }
{
    for (key, value) in pairs {
        write_line(texts, side.of(key, value), output)?;
    }
    Ok(())
}

#[inline(always)]
fn write_line<T: TextWriter, O: Write>(texts: T, bytes: &[u8], output: &mut O) -> io::Result<()>
    requires { length bytes.now ≡ T.len texts }
    ensures { OnOk result (Appends (O.contents output.old) (O.contents output.new)
        (T.text texts bytes.now ++ 10 ∷ [])) }
{
    texts.write_text(bytes, output)?;
    output.write_all(b"\n")
}
