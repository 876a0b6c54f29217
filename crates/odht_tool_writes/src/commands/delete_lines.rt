//! `odht delete FILE -`: the keys are the lines of standard input.
ghost use Rattle.std.specs.Prelude.{IfErr, IfOk, IsFalse, IsTrue};
ghost use Rattle.std.specs.Prelude.{MatchResult, Some, map};
ghost use Rattle.odht_tool_core.specs.DynTexts.{IsDynamicOf, dynamic_wanted};
ghost use Rattle.odht_tool_writes.specs.DeleteLines.{AreLinesKeys, IsNextFailure};
ghost use Rattle.odht_tool_writes.specs.DeleteLines.{IsOneLineMore, IsLinesEnd};
ghost use Rattle.odht_tool_writes.specs.DeleteLines.{TellsLine, TellsNumbered, are_lines_keys};
ghost use Rattle.odht_tool_writes.specs.DeleteLines.{is_line_fault};

use odht::dynamic::ShortBytes;
use odht_tool_core::any::AnyShape;
use odht_tool_core::failure::{Failure, LineFault};
use odht_tool_core::forms::Form;
use odht_tool_core::key_lists::{ByteKeys, Keys};
use odht_tool_core::keys::{TakenKey, take_key};
use odht_tool_core::misread::Misread;
use odht_tool_core::text::Text;
use std::alloc::Global;
use std::io::BufRead;

/// Lines, and the keys that they are the texts of.
#[derive(Drop)]
pub struct KeyLines {
    pub lines: Vec<Vec<u8>>,
    pub keys: ByteKeys,
}

/// The lines, and the bytes of their keys in this form, or the first line that is no key.
pub fn keys_of_lines<I: BufRead>(
    alloc: Global,
    shape: AnyShape,
    form: Form,
    input: &mut I,
) -> Result<KeyLines, Failure>
    ensures { MatchResult result (λ x. are_lines_keys form (I.remaining input.old)
        (map (λ line. line.items) x.lines.items) shape x.keys)
        (is_line_fault form (I.remaining input.old) shape) }
{
    let key = shape.key();
    read_lines(alloc, key.size(), form.of(key), input)
}

// The lines of an input, except an empty last one that is no key, and their keys, of this length; or
// the first line that is no key.
fn read_lines<I: BufRead>(
    alloc: Global,
    key_len: u8,
    form: Form,
    input: &mut I,
) -> Result<KeyLines, Failure>
    ensures ok { IfOk result (λ x. AreLinesKeys (IsDynamicOf form) (I.remaining input.old)
        (map (λ line. line.items) x.lines.items) x.keys) }
    ensures err { IfErr result (TellsLine (IsDynamicOf form) (dynamic_wanted form)
        (I.remaining input.old)) }
{
    let mut lines = Vec::new(alloc);
    let mut keys = ByteKeys::none(alloc, key_len);
    for number in 1..u64::MAX {
        if !take_line(alloc, number, form, input, &mut lines, &mut keys)? {
            return Ok(KeyLines { lines, keys });
        }
    }
    // There is no room for that many.
    Err(Failure::Memory)
}

// Adds the line of this number and its key, if there is such a line. Returns whether there is.
fn take_line<I: BufRead>(
    alloc: Global,
    number: u64,
    form: Form,
    input: &mut I,
    lines: &mut Vec<Vec<u8>>,
    keys: &mut ByteKeys,
) -> Result<bool, Failure>
    ensures more { let items = map (λ line. line.items)
        in IfOk result (λ more. IsTrue more → IsOneLineMore (IsDynamicOf form)
        (I.remaining input.old) (I.remaining input.new) (items lines.old.items)
        (items lines.new.items) keys.old keys.new) }
    ensures end { let items = map (λ line. line.items)
        in IfOk result (λ more. IsFalse more → IsLinesEnd (IsDynamicOf form)
        (I.remaining input.old) (items lines.old.items) (items lines.new.items)
        keys.old keys.new) }
    ensures err { IfErr result (IsNextFailure (IsDynamicOf form) (dynamic_wanted form) number
        (I.remaining input.old)) }
{
    let mut line = Vec::new(alloc);
    match take_key(input, &mut line, form, keys)? {
        TakenKey::Key => {
            lines.push(line).map_err(|_| Failure::Memory)?;
            Ok(true)
        }
        TakenKey::End => Ok(false),
        TakenKey::NoKey => Err(wrong_line(alloc, number, line.as_slice(), form)),
    }
}

// What is said of the line of this number, which is no key.
fn wrong_line(alloc: Global, number: u64, line: &[u8], form: Form) -> Failure
    ensures { TellsNumbered (dynamic_wanted form) number line.now result }
{
    let misread = Misread {
        line: Some(number),
        fault: LineFault::Key,
        wanted: <ShortBytes as Text>::wanted(form),
        text: line,
    };
    match misread.message(alloc) {
        Ok(message) => Failure::Misread(message),
        Err(_) => Failure::Memory,
    }
}
