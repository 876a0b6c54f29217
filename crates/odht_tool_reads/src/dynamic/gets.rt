//! `odht get` of tables whose lengths are numbers.
ghost use Rattle.std.specs.Prelude.{◌≤◌, map, string_bytes};
ghost use Rattle.odht_base.specs.Format.{format_of};
ghost use Rattle.odht_raw.specs.DynParts.{bytes_coding};
ghost use Rattle.odht_tool_core.specs.InfoNumbers.{least_key_len};
ghost use Rattle.odht_tool_core.specs.JsonAnswers.{answer_in, no_key_line, printed_as};
ghost use Rattle.odht_tool_core.specs.ReadyShapes.{typed_len};
ghost use Rattle.odht_tool_core.specs.DynTexts.{IsDynamicOf, dynamic_text, dynamic_wanted};
ghost use Rattle.odht_tool_reads.specs.GetLines.{AreLinesGot, lines_of_other};
ghost use Rattle.odht_tool_reads.specs.Gets.{AreWordsGot, words_of_types};

use crate::lookups::arriving::Arriving;
use crate::lookups::words::answer_words;
use crate::lookups::{Coming, LineStyle, answer_lines};
use odht::dynamic::Layout;
use odht::hash::HashFn;
use odht::{FxHashFn, UnHashFn, Xxh64HashFn};
use odht_tool_core::any::OtherShape;
use odht_tool_core::failure::Failure;
use odht_tool_core::forms::GivenForms;
use odht_tool_core::job::Job;
use odht_tool_core::json::answers::AnswerStyle;
use odht_tool_core::shapes::Hash;
use odht_tool_core::status::Status;
use odht_tool_tables::dynamic::{lengths_of, open_lengths};
use std::io::{BufRead, Write};

/// `odht get` of bytes of these types, for the words of the command line.
pub fn get_words_dynamic<O: Write>(
    job: &Job<'_>,
    shape: OtherShape,
    forms: GivenForms,
    words: &[String],
    output: &mut O,
) -> Result<Status, Failure>
    requires { least_key_len shape.hash ≤ typed_len shape.key }
    ensures { let j = job.now in words_of_types (forms.key, forms.value)
        (printed_as j.is_json j.is_values) j.bytes.now
        (map string_bytes words.now) (O.contents output.old) (O.contents output.new) result shape }
{
    let (layout, forms) = (lengths_of(shape.key, shape.value), forms.of(shape));
    match shape.hash {
        Hash::Fx => get_words_hashed::<FxHashFn, O>(job, layout, forms, words, output),
        Hash::Unhash => get_words_hashed::<UnHashFn, O>(job, layout, forms, words, output),
        Hash::Xxh64 => get_words_hashed::<Xxh64HashFn, O>(job, layout, forms, words, output),
    }
}

/// `odht get` of bytes of a shape, for the lines that an input has left.
pub fn get_lines_dynamic<I: BufRead + Arriving, O: Write>(
    job: &Job<'_>,
    shape: OtherShape,
    forms: GivenForms,
    coming: Coming,
    input: &mut I,
    output: &mut O,
) -> Result<Status, Failure>
    requires { least_key_len shape.hash ≤ typed_len shape.key }
    ensures { let j = job.now
        in lines_of_other (forms.key, forms.value) (printed_as j.is_json j.is_values) coming
        j.bytes.now
        (I.remaining input.old) (O.contents output.old) (O.contents output.new) result shape }
{
    let layout = lengths_of(shape.key, shape.value);
    let forms = forms.of(shape);
    let printed = job.printed();
    let answers = AnswerStyle { forms, printed };
    let style = LineStyle { answers, coming };
    match shape.hash {
        Hash::Fx => get_lines_hashed::<FxHashFn, I, O>(job, layout, style, input, output),
        Hash::Unhash => get_lines_hashed::<UnHashFn, I, O>(job, layout, style, input, output),
        Hash::Xxh64 => get_lines_hashed::<Xxh64HashFn, I, O>(job, layout, style, input, output),
    }
}

fn get_words_hashed<H: HashFn, O: Write>(
    job: &Job<'_>,
    layout: Layout,
    forms: GivenForms,
    words: &[String],
    output: &mut O,
) -> Result<Status, Failure>
    requires { H.MIN_LEN ≤ layout.key_len }
    ensures { let c = bytes_coding (format_of layout.key_len layout.value_len H.hash)
        in let j = job.now in let p = printed_as j.is_json j.is_values in AreWordsGot c
        (answer_in p (dynamic_text forms.key) (dynamic_text forms.value))
        (no_key_line p) (IsDynamicOf forms.key) j.bytes.now (map string_bytes words.now)
        (O.contents output.old) (O.contents output.new) result }
{
    let table = open_lengths::<H>(layout, job.bytes)?;
    let printed = job.printed();
    answer_words(
        job.alloc,
        &table,
        AnswerStyle { forms, printed },
        words,
        output,
    )
}

fn get_lines_hashed<H: HashFn, I: BufRead + Arriving, O: Write>(
    job: &Job<'_>,
    layout: Layout,
    style: LineStyle<GivenForms>,
    input: &mut I,
    output: &mut O,
) -> Result<Status, Failure>
    requires { H.MIN_LEN ≤ layout.key_len }
    ensures { let c = bytes_coding (format_of layout.key_len layout.value_len H.hash)
        in let forms = style.answers.forms in AreLinesGot c
        (answer_in style.answers.printed (dynamic_text forms.key) (dynamic_text forms.value))
        (IsDynamicOf forms.key) (dynamic_wanted forms.key)
        job.now.bytes.now style.coming (I.remaining input.old)
        (O.contents output.old) (O.contents output.new) result }
{
    let table = open_lengths::<H>(layout, job.bytes)?;
    answer_lines(job.alloc, &table, style, input, output)
}
