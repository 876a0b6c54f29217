//! `odht get`: lookups in a table file.
ghost use Rattle.std.specs.Prelude.{◌≡◌, None, IfOk, IfErr, OnOk, map, string_bytes};
ghost use Rattle.odht_header.specs.Refusals.{view_refusal};
ghost use Rattle.odht_tool_core.specs.JsonAnswers.{answer_in, printed_as};
ghost use Rattle.odht_tool_core.specs.Keys.{IsReadAs};
ghost use Rattle.odht_tool_reads.specs.Bounds.{IsBounded, bound_refusal};
ghost use Rattle.odht_tool_reads.specs.GetLines.{AreLinesGot, AreFileLinesGot, lines_of_shape};
ghost use Rattle.odht_tool_reads.specs.Gets.{AreFileWordsGot};
ghost use Rattle.odht_tool_tables.specs.Openings.{IsOpenFailure};

use crate::bounds::check_bound;
use crate::dynamic::gets::{get_lines_dynamic, get_words_dynamic};
use crate::lookups::arriving::Arriving;
use crate::lookups::{Coming, LineStyle, answer_lines};
use odht::HashTable;
use odht::bytes::Borrowed;
use odht::config::{Coded, Config};
use odht_tool_core::any::{AnyShape, read_any};
use odht_tool_core::failure::Failure;
use odht_tool_core::forms::{Forms, GivenForms, Kinds, OwnForms};
use odht_tool_core::job::Job;
use odht_tool_core::json::answers::AnswerStyle;
use odht_tool_core::shapes::{Hash, Shape};
use odht_tool_core::status::Status;
use odht_tool_core::text::Text;
use odht_tool_tables::for_shape;
use odht_tool_tables::generated::shapes::Itself;
use std::alloc::Global;
use std::io::{BufRead, Write};

/// `odht get` of the bytes of a file, for the words of the command line: writes a line for each
/// key, with a tab and its value, or the key alone; or an object of JSON of both. Or the line has
/// only the value. Where a search may read more groups than the bound, it fails before it writes.
pub fn get_file_words<O: Write>(
    job: &Job<'_>,
    hash: Option<Hash>,
    kinds: Kinds,
    words: &[String],
    output: &mut O,
) -> Result<Status, Failure>
    ensures { let j = job.now in let old = O.contents output.old in let new = O.contents output.new
        in IsBounded (bound_refusal j.bytes.now j.bound) old new result
        (AreFileWordsGot j.bytes.now hash kinds (printed_as j.is_json j.is_values)
        (map string_bytes words.now) old new result) }
{
    match check_bound(job.bytes, job.bound) {
        Ok(()) => get_words(job, hash, kinds, words, output),
        Err(error) => Err(Failure::Refused(error)),
    }
}

// The same without a bound.
fn get_words<O: Write>(
    job: &Job<'_>,
    hash: Option<Hash>,
    kinds: Kinds,
    words: &[String],
    output: &mut O,
) -> Result<Status, Failure>
    ensures { let j = job.now
        in AreFileWordsGot j.bytes.now hash kinds (printed_as j.is_json j.is_values)
        (map string_bytes words.now)
        (O.contents output.old) (O.contents output.new) result }
{
    let found = read_any(job.bytes, hash, kinds)?;
    let (shape, forms) = found;
    get_words_dynamic(job, shape.types(), forms, words, output)
}

/// `odht get` of the bytes of a file, for the lines that an input has left. Where a search may read
/// more groups than the bound, it fails before it reads a line.
pub fn get_file_lines<I: BufRead + Arriving, O: Write>(
    job: &Job<'_>,
    hash: Option<Hash>,
    kinds: Kinds,
    coming: Coming,
    input: &mut I,
    output: &mut O,
) -> Result<Status, Failure>
    ensures { let j = job.now in let old = O.contents output.old in let new = O.contents output.new
        in IsBounded (bound_refusal j.bytes.now j.bound) old new result
        (AreFileLinesGot j.bytes.now hash kinds (printed_as j.is_json j.is_values) coming
        (I.remaining input.old) old new result) }
{
    match check_bound(job.bytes, job.bound) {
        Ok(()) => get_lines_of_file(job, hash, kinds, coming, input, output),
        Err(error) => Err(Failure::Refused(error)),
    }
}

// The same without a bound.
fn get_lines_of_file<I: BufRead + Arriving, O: Write>(
    job: &Job<'_>,
    hash: Option<Hash>,
    kinds: Kinds,
    coming: Coming,
    input: &mut I,
    output: &mut O,
) -> Result<Status, Failure>
    ensures { let j = job.now
        in AreFileLinesGot j.bytes.now hash kinds (printed_as j.is_json j.is_values) coming
        (I.remaining input.old)
        (O.contents output.old) (O.contents output.new) result }
{
    let found = read_any(job.bytes, hash, kinds)?;
    let (shape, forms) = found;
    match shape {
        AnyShape::Ready(shape) => get_lines_ready(job, shape, forms, coming, input, output),
        AnyShape::Other(shape) => get_lines_dynamic(job, shape, forms, coming, input, output),
    }
}

// The same of a ready shape, in these forms.
fn get_lines_ready<I: BufRead + Arriving, O: Write>(
    job: &Job<'_>,
    shape: Shape,
    forms: GivenForms,
    coming: Coming,
    input: &mut I,
    output: &mut O,
) -> Result<Status, Failure>
    ensures { let j = job.now
        in lines_of_shape (forms.key, forms.value) (printed_as j.is_json j.is_values) coming
        j.bytes.now
        (I.remaining input.old) (O.contents output.old) (O.contents output.new) result shape }
{
    let printed = job.printed();
    if forms.are_own() {
        let answers = AnswerStyle {
            forms: OwnForms,
            printed,
        };
        get_lines_of(
            job.alloc,
            job.bytes,
            shape,
            LineStyle { answers, coming },
            input,
            output,
        )
    } else {
        let answers = AnswerStyle { forms, printed };
        get_lines_of(
            job.alloc,
            job.bytes,
            shape,
            LineStyle { answers, coming },
            input,
            output,
        )
    }
}

fn get_lines_of<F: Forms, I: BufRead + Arriving, O: Write>(
    alloc: Global,
    bytes: &[u8],
    shape: Shape,
    style: LineStyle<F>,
    input: &mut I,
    output: &mut O,
) -> Result<Status, Failure>
    ensures { lines_of_shape (F.pair style.answers.forms) style.answers.printed style.coming
        bytes.now (I.remaining input.old) (O.contents output.old) (O.contents output.new) result
        shape }
{
    for_shape!(shape, Itself, get_lines[F, I, O](alloc, bytes, style, input, output))
}

// Looks up the keys of the lines, a batch at a time.
fn get_lines<C: Config, F: Forms, I: BufRead + Arriving, O: Write>(
    alloc: Global,
    bytes: &[u8],
    style: LineStyle<F>,
    input: &mut I,
    output: &mut O,
) -> Result<Status, Failure>
where
    C::Key: Text,
    C::Value: Text,
    ensures { let forms = F.pair style.answers.forms in AreLinesGot ⟦<C as Coded>⟧.coding
        (answer_in style.answers.printed (C.Key.text forms.0) (C.Value.text forms.1))
        (IsReadAs (C.Key.is_word forms.0) (C.Key.stands_for forms.0))
        (C.Key.wants forms.0) bytes.now style.coming (I.remaining input.old)
        (O.contents output.old) (O.contents output.new) result }
{
    let table = open::<C>(bytes)?;
    answer_lines(alloc, &table, style, input, output)
}

fn open<C: Config>(bytes: &[u8]) -> Result<HashTable<C, Borrowed<'_>>, Failure>
    ensures ok { IfOk result (λ table. table.0.now ≡ bytes.now) }
    ensures opened { OnOk result (view_refusal ⟦<C as Coded>⟧.coding.format bytes.now ≡ None) }
    ensures err { IfErr result
        (IsOpenFailure (view_refusal ⟦<C as Coded>⟧.coding.format bytes.now)) }
{
    HashTable::from_raw_bytes(Borrowed::new(bytes)).map_err(Failure::Refused)
}
