//! Keys that are looked up in a table, and what is written of them: those of lines, a batch at a
//! time, and of the words of a command line.
ghost use Rattle.std.specs.Prelude.{◌≡◌, ◌<◌, ◌≤◌, false, Some, IfOk, IfErr, IsFalse, IsOk, IsTrue, OnErr, OnOk};
ghost use Rattle.std.specs.Prelude.{string_bytes};
ghost use Rattle.std.specs.Io.KnownBytes.{Keeps};
ghost use Rattle.odht_tool_core.specs.Endings.{IsOutputFailure};
ghost use Rattle.odht_tool_core.specs.JsonAnswers.{answer_in};
ghost use Rattle.odht_tool_core.specs.Keys.{IsReadAs, IsNextKey, IsUnread};
ghost use Rattle.odht_tool_core.specs.Misreads.{misread_text};
ghost use Rattle.odht_tool_reads.specs.GetLines.{AreLinesAnswered, all_lines};
ghost use Rattle.odht_tool_reads.specs.GetParts.{IsKeysFailure};
ghost use Rattle.odht_tool_reads.specs.GetParts.{IsFlushed, IsReadKey, IsLineFailure};

use odht_tool_core::failure::{Failure, LineFault};
use odht_tool_core::forms::Forms;
use odht_tool_core::json::answers::AnswerStyle;
use odht_tool_core::key_lists::Keys;
use odht_tool_core::keys::{TakenKey, take_key};
use odht_tool_core::misread::Misread;
use odht_tool_core::status::Status;
use odht_tool_core::text::Text;
use std::alloc::{AllocError, Global};
use std::io::{BufRead, Write};

pub mod arriving;
mod tables;
pub mod words;

use arriving::Arriving;

/// How many keys are looked up at once.
const BATCH: usize = 1024;

/// The lines that an input has left, and how they are answered.
#[derive(Clone, Copy)]
pub struct Coming {
    /// Whether the answers to the lines that have come are written out before the next line is
    /// waited for.
    pub is_live: bool,
    /// The number of the next line, counted from 1.
    pub number: u64,
    /// Whether the keys of all lines before it were found.
    pub is_all_found: bool,
}

impl Coming {
    /// All lines of an input.
    pub fn all(is_live: bool) -> Coming
        ensures { result ≡ all_lines is_live }
    {
        Coming {
            is_live,
            number: 1,
            is_all_found: true,
        }
    }
}

/// How the keys of lines are answered.
#[derive(Clone, Copy)]
pub struct LineStyle<F: Forms> {
    /// How they and their values are written.
    pub answers: AnswerStyle<F>,
    /// Which lines they are on.
    pub coming: Coming,
}

/// A table in which keys are looked up that have texts, as its values have.
pub trait Lookups {
    ghost use Rattle.std.specs.Prelude.{◌≡◌, ℕ, List, [], IfErr, IfOk};
    ghost use Rattle.odht_header.specs.Coding.{Coding};
    ghost use Rattle.odht_tool_core.specs.JsonAnswers.{answer_in};
    ghost use Rattle.odht_tool_reads.specs.GetParts.{AreKeysAnswered, IsKeysFailure};

    /// Keys that are looked up.
    type Keys: Keys;

    /// A value.
    type Value: Text;

    ghost coding: { Self → Coding Self.Keys.Key Self.Value };

    ghost bytes: { Self → List ℕ };

    /// No keys of this table.
    fn no_keys(&self, alloc: Global) -> Self::Keys
        ensures { Self.Keys.items result ≡ [] };

    /// Looks the keys up, and writes a line for each. Returns whether each was found.
    fn answer<F: Forms, O: Write>(
        &self,
        alloc: Global,
        keys: &Self::Keys,
        style: AnswerStyle<F>,
        output: &mut O,
    ) -> Result<bool, Failure>
        ensures ok { IfOk result (AreKeysAnswered (coding self.now)
            (answer_in style.printed (Self.Keys.Key.text (F.pair style.forms).0)
            (Self.Value.text (F.pair style.forms).1))
            (bytes self.now) (Self.Keys.items keys.now)
            (O.contents output.old) (O.contents output.new)) }
        ensures err { IfErr result (IsKeysFailure 1 (Self.Keys.items keys.now)
            (O.contents output.old) (O.contents output.new)) };
}

/// Looks up the keys of the lines that are left, a batch at a time, and writes a line for each. Where
/// that is asked for, the lines that have come are answered before the next one is waited for.
/// Returns whether each key was found, and those before.
pub fn answer_lines<T: Lookups, F: Forms, I: BufRead + Arriving, O: Write>(
    alloc: Global,
    table: &T,
    style: LineStyle<F>,
    input: &mut I,
    output: &mut O,
) -> Result<Status, Failure>
    ensures { let forms = F.pair style.answers.forms
        in AreLinesAnswered (T.coding table.now)
        (answer_in style.answers.printed (T.Keys.Key.text forms.0) (T.Value.text forms.1))
        (IsReadAs (T.Keys.Key.is_word forms.0) (T.Keys.Key.stands_for forms.0))
        (T.Keys.Key.wants forms.0) (T.bytes table.now) style.coming (I.remaining input.old)
        (O.contents output.old) (O.contents output.new) result }
{
    let LineStyle { answers, coming } = style;
    let mut keys = table.no_keys(alloc);
    let mut line = Vec::new(alloc);
    let mut is_all_found = coming.is_all_found;
    for number in coming.number..u64::MAX {
        let read = read_key(
            alloc, table, number, input, &mut line, &mut keys, answers, output,
        )?;
        if !read {
            break;
        }
        let is_live = is_due(coming.is_live, input);
        let due = LineStyle {
            answers,
            coming: Coming { is_live, ..coming },
        };
        is_all_found = answer_batch(alloc, table, &mut keys, is_all_found, due, output)?;
        write_out(is_live, output)?;
    }
    let is_last_found = table.answer(alloc, &keys, answers, output)?;
    Ok(Status::of(is_last_found && is_all_found))
}

/// Whether the lines that have come are to be answered.
#[inline(always)]
pub(crate) fn is_due<I: Arriving>(is_live: bool, input: &I) -> bool
    ensures { is_live ≡ false → result ≡ false }
{
    is_live && input.is_waiting()
}

// Adds the key of the line of this number, if there is such a line, and returns whether there is.
// Where it is no key, the keys before it are answered first.
fn read_key<T: Lookups, F: Forms, I: BufRead, O: Write>(
    alloc: Global,
    table: &T,
    number: u64,
    input: &mut I,
    line: &mut Vec<u8>,
    keys: &mut T::Keys,
    style: AnswerStyle<F>,
    output: &mut O,
) -> Result<bool, Failure>
    ensures key { IfOk result (IsReadKey
        (IsReadAs (T.Keys.Key.is_word (F.pair style.forms).0)
        (T.Keys.Key.stands_for (F.pair style.forms).0))
        (I.remaining input.old) (I.remaining input.new)
        (T.Keys.items keys.old) (T.Keys.items keys.new)) }
    ensures kept { OnOk result (O.contents output.new ≡ O.contents output.old) }
    ensures err { IfErr result (IsLineFailure (T.coding table.now)
        (answer_in style.printed (T.Keys.Key.text (F.pair style.forms).0)
        (T.Value.text (F.pair style.forms).1))
        (IsReadAs (T.Keys.Key.is_word (F.pair style.forms).0)
        (T.Keys.Key.stands_for (F.pair style.forms).0))
        (T.Keys.Key.wants (F.pair style.forms).0) (T.bytes table.now) (T.Keys.items keys.old) number
        (I.remaining input.old) (O.contents output.old) (O.contents output.new)) }
{
    match key_of_line(input, line, style.forms, keys)? {
        TakenKey::Key => Ok(true),
        TakenKey::End => Ok(false),
        TakenKey::NoKey => {
            let message = wrong_line::<T::Keys, F>(alloc, number, line.as_slice(), style.forms)?;
            table.answer(alloc, keys, style, output)?;
            Err(Failure::Misread(message))
        }
    }
}

/// Adds the key of the next line, in the form of keys.
#[inline(always)]
pub(crate) fn key_of_line<L: Keys, F: Forms, I: BufRead>(
    input: &mut I,
    line: &mut Vec<u8>,
    forms: F,
    keys: &mut L,
) -> Result<TakenKey, Failure>
    ensures next { IfOk result (IsNextKey
        (IsReadAs (L.Key.is_word (F.pair forms).0) (L.Key.stands_for (F.pair forms).0))
        (I.remaining input.old) (I.remaining input.new) line.new.items
        (L.items keys.old) (L.items keys.new)) }
    ensures err { IfErr result (IsUnread (I.remaining input.old)) }
    ensures kept { OnErr result (L.items keys.new ≡ L.items keys.old) }
{
    take_key(input, line, forms.key(), keys)
}

/// What is said of a line that is no key.
pub(crate) fn wrong_line<L: Keys, F: Forms>(
    alloc: Global,
    number: u64,
    line: &[u8],
    forms: F,
) -> Result<String, AllocError>
    ensures { IfOk result (λ s. string_bytes s
        ≡ misread_text (Some number) LineFault.Key (L.Key.wants (F.pair forms).0) line.now) }
{
    let misread = Misread {
        line: Some(number),
        fault: LineFault::Key,
        wanted: L::Key::wanted(forms.key()),
        text: line,
    };
    misread.message(alloc)
}

// Answers the keys where they are a batch, and drops them; where `is_live` holds, fewer too. Returns
// whether each was found, and those before.
fn answer_batch<T: Lookups, F: Forms, O: Write>(
    alloc: Global,
    table: &T,
    keys: &mut T::Keys,
    is_all_found: bool,
    style: LineStyle<F>,
    output: &mut O,
) -> Result<bool, Failure>
    ensures ok { let forms = F.pair style.answers.forms
        in IfOk result (IsFlushed (T.coding table.now)
        (answer_in style.answers.printed (T.Keys.Key.text forms.0) (T.Value.text forms.1))
        (T.bytes table.now) style.coming.is_live (T.Keys.items keys.old) (T.Keys.items keys.new)
        (O.contents output.old) (O.contents output.new) is_all_found) }
    ensures err { IfErr result (IsKeysFailure 1 (T.Keys.items keys.old)
        (O.contents output.old) (O.contents output.new)) }
    ensures full { style.coming.is_live ≡ false → IfErr result (IsKeysFailure BATCH
        (T.Keys.items keys.old) (O.contents output.old) (O.contents output.new)) }
{
    if is_few(keys.count(), style.coming.is_live) {
        return Ok(is_all_found);
    }
    let is_found = table.answer(alloc, keys, style.answers, output)?;
    keys.remove_all();
    Ok(is_found && is_all_found)
}

// Whether that many keys wait for more of a batch.
#[inline(always)]
fn is_few(count: usize, is_live: bool) -> bool
    ensures few { IsTrue result → count < BATCH }
    ensures quiet { IsTrue result → is_live ≡ false }
    ensures full { is_live ≡ false → IsFalse result → BATCH ≤ count }
{
    count < BATCH && !is_live
}

/// Writes out what the buffer of the output has, where that is due.
#[inline(always)]
pub(crate) fn write_out<O: Write>(is_due: bool, output: &mut O) -> Result<(), Failure>
    ensures kept { Keeps (O.contents output.old) (O.contents output.new) }
    ensures err { IfErr result IsOutputFailure }
    ensures quiet { is_due ≡ false → IsOk result }
{
    if is_due {
        output.flush().map_err(Failure::Output)?;
    }
    Ok(())
}
