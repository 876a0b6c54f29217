//! Words that are looked up, and what is written of them.
ghost use Rattle.std.specs.Prelude.{◌≡◌, ◌<◌, None, IfErr, IfOk, OnErr, OnOk, length, map};
ghost use Rattle.std.specs.Prelude.{string_bytes};
ghost use Rattle.std.specs.Io.KnownBytes.{Appends};
ghost use Rattle.std.specs.List.{AllZip, list_all};
ghost use Rattle.odht.specs.Dynamic.{dyn_coding};
ghost use Rattle.odht_header.specs.Refusals.{view_refusal};
ghost use Rattle.odht_tool_core.specs.JsonAnswers.{answer_in, no_key_line};
ghost use Rattle.odht_tool_core.specs.DynTexts.{IsDynamicOf, dynamic_text};
ghost use Rattle.odht_tool_reads.specs.Gets.{AreWordsGot, IsWordAnswer, has_value};
ghost use Rattle.odht_tool_reads.specs.Gets.{word_line, word_lines, words_status};
ghost use Rattle.odht_tool_reads.specs.GetWords.{IsWordsFailure};

use super::tables::value_of;
use odht::bytes::Borrowed;
use odht::dynamic::{DynTable, ShortBytes};
use odht::hash::HashFn;
use odht_tool_core::failure::Failure;
use odht_tool_core::forms::{Form, GivenForms};
use odht_tool_core::json::answers::{AnswerStyle, write_answer_in, write_no_key};
use odht_tool_core::status::Status;
use odht_tool_core::text::Text;
use std::alloc::{AllocError, Global};
use std::io::{self, Write};

/// The key that a word is the text of, and its value. Both are None if the word is the text of no
/// key.
pub type Answer = (Option<ShortBytes>, Option<ShortBytes>);

/// Looks up the keys of the words, and writes a line for each. The table was opened.
pub fn answer_words<H: HashFn, O: Write>(
    alloc: Global,
    table: &DynTable<H, Borrowed<'_>>,
    style: AnswerStyle<GivenForms>,
    words: &[String],
    output: &mut O,
) -> Result<Status, Failure>
    ensures { let c = dyn_coding table.now H.hash in let key = style.forms.key
        in view_refusal c.format table.now.store.0.now ≡ None
        → AreWordsGot c (answer_in style.printed (dynamic_text key) (dynamic_text style.forms.value))
        (no_key_line style.printed) (IsDynamicOf key) table.now.store.0.now
        (map string_bytes words.now) (O.contents output.old) (O.contents output.new) result }
{
    let answers = answers_of(alloc, table, style.forms.key, words)?;
    write_words(words, answers.as_slice(), style, output)
}

// The answers to the words.
fn answers_of<H: HashFn>(
    alloc: Global,
    table: &DynTable<H, Borrowed<'_>>,
    form: Form,
    words: &[String],
) -> Result<Vec<Answer>, AllocError>
    ensures { let c = dyn_coding table.now H.hash in IfOk result (λ answers.
        AllZip (IsWordAnswer c (IsDynamicOf form) table.now.store.0.now) (map string_bytes words.now)
        answers.items) }
{
    let mut answers = Vec::with_capacity(alloc, words.len())?;
    for word in words {
        answers.push(answer_of(table, form, word.as_str().as_bytes()))?;
    }
    Ok(answers)
}

// The answer to a word.
fn answer_of<H: HashFn>(table: &DynTable<H, Borrowed<'_>>, form: Form, word: &[u8]) -> Answer
    ensures { IsWordAnswer (dyn_coding table.now H.hash) (IsDynamicOf form) table.now.store.0.now
        word.now result }
{
    match ShortBytes::parse(word, form) {
        Some(key) => (Some(key), value_of(table, &key)),
        None => (None, None),
    }
}

/// Writes a line for each word. Not all is done if one is no key, or a key without a value.
pub fn write_words<O: Write>(
    words: &[String],
    answers: &[Answer],
    style: AnswerStyle<GivenForms>,
    output: &mut O,
) -> Result<Status, Failure>
    requires { length answers.now ≡ length words.now }
    ensures status { IfOk result (λ status. status ≡ words_status answers.now) }
    ensures written { let f = answer_in style.printed (dynamic_text style.forms.key)
        (dynamic_text style.forms.value)
        in OnOk result (Appends (O.contents output.old) (O.contents output.new)
        (word_lines f (no_key_line style.printed) (map string_bytes words.now) answers.now)) }
    ensures err { IfErr result (IsWordsFailure (length words.now)) }
{
    write_lines(words, answers, style, output).map_err(Failure::Output)?;
    Ok(Status::of(are_found(answers)))
}

// Whether each word is a key that has a value.
fn are_found(answers: &[Answer]) -> bool
    ensures { result ≡ list_all has_value answers.now }
{
    answers.iter().all(|answer| answer.1.is_some())
}

fn write_lines<O: Write>(
    words: &[String],
    answers: &[Answer],
    style: AnswerStyle<GivenForms>,
    output: &mut O,
) -> io::Result<()>
    requires { length answers.now ≡ length words.now }
    ensures written { let f = answer_in style.printed (dynamic_text style.forms.key)
        (dynamic_text style.forms.value)
        in OnOk result (Appends (O.contents output.old) (O.contents output.new)
        (word_lines f (no_key_line style.printed) (map string_bytes words.now) answers.now)) }
    ensures asked { OnErr result (0 < length words.now) }
{
    for at in 0..words.len() {
        write_word(words[at].as_str().as_bytes(), &answers[at], style, output)?;
    }
    Ok(())
}

// Writes the line of a word.
fn write_word<O: Write>(
    word: &[u8],
    answer: &Answer,
    style: AnswerStyle<GivenForms>,
    output: &mut O,
) -> io::Result<()>
    ensures { let f = answer_in style.printed (dynamic_text style.forms.key)
        (dynamic_text style.forms.value)
        in OnOk result (Appends (O.contents output.old) (O.contents output.new)
        (word_line f (no_key_line style.printed) word.now answer.now)) }
{
    let (key, value) = answer;
    match key {
        Some(key) => write_answer_in(key, value, style, output),
        None => write_no_key(word, style.printed, output),
    }
}
