//! The table that is read by position, of its types and its hash function.
ghost use Rattle.std.specs.Prelude.{◌≡◌, ◌≤◌, ◌+◌, ◌<◌, ◌^◌, ℕ, List, length, map, string_bytes};
ghost use Rattle.std.specs.Prelude.{IfOk, IfSome, None, Ok, OnSome};
ghost use Rattle.odht_base.specs.Bytes.{bytes_at};
ghost use Rattle.odht_base.specs.Format.{format_of};
ghost use Rattle.odht_header.specs.Refusals.{view_refusal};
ghost use Rattle.odht_raw.specs.DynParts.{bytes_coding};
ghost use Rattle.odht_tool_core.specs.InfoNumbers.{least_key_len};
ghost use Rattle.odht_tool_core.specs.JsonAnswers.{answer_in, no_key_line};
ghost use Rattle.odht_tool_core.specs.ReadyShapes.{typed_len};
ghost use Rattle.odht_tool_core.specs.DynTexts.{IsDynamicOf, dynamic_text, dynamic_wanted};
ghost use Rattle.odht_tool_core.specs.Forms.{bytes_form};
ghost use Rattle.odht_tool_reads.specs.Gets.{AreWordsGot, words_of_types};
ghost use Rattle.odht_tool_reads.specs.PositionLines.{AreLinesRead, IsEnd, lines_read_of};
ghost use Rattle.odht_tool_reads.specs.Positions.{AreShortWords, ByPosition, IsTableAt};
ghost use Rattle.odht_tool_reads.specs.Positions.{short_words_of};

use super::lines::answer_lines_at;
use super::lookups::answer_words_at;
use super::{Asked, Reached};
use crate::lookups::arriving::Arriving;
use odht::dynamic::{FileTable, Layout};
use odht::hash::HashFn;
use odht::read_at::ReadAt;
use odht::{FxHashFn, UnHashFn, Xxh64HashFn};
use odht_tool_core::any::OtherShape;
use odht_tool_core::failure::Failure;
use odht_tool_core::forms::GivenForms;
use odht_tool_core::json::answers::AnswerStyle;
use odht_tool_core::shapes::Hash;
use odht_tool_core::status::Status;
use odht_tool_tables::dynamic::lengths_of;
use std::io::{BufRead, Write};

/// Where the bytes of a table are in a source, and what its header tells of them.
#[derive(Clone, Copy)]
pub(super) struct Found {
    pub(super) at: u64,
    pub(super) len: usize,
    /// The types of keys and values, and the hash function.
    pub(super) shape: OtherShape,
    /// The forms of their texts.
    pub(super) forms: GivenForms,
}

/// `odht get` for the words of the command line, of the table that was found. None where a read
/// failed, or its bytes are not opened: nothing was written then.
pub(super) fn words_of<S: ReadAt + Drop, O: Write>(
    asked: &Asked,
    source: S,
    found: Found,
    words: &[String],
    output: &mut O,
) -> Result<Option<Status>, Failure>
    requires { least_key_len found.shape.hash ≤ typed_len found.shape.key }
    ensures given { (B : List ℕ) → S.gives source B → found.at + found.len ≤ length B
        → found.at + found.len < 2 ^ 64
        → (let old = O.contents output.old in let new = O.contents output.new
        in ByPosition old new (λ r. words_of_types (found.forms.key, found.forms.value)
        asked.now.printed (bytes_at B found.at found.len)
        (map string_bytes words.now) old new r found.shape) result) }
    ensures short { (B : List ℕ) → S.gives source B → found.at + found.len ≤ length B
        → found.at + found.len < 2 ^ 64 → IfOk result (λ o. IfSome o (λ _. short_words_of
        found.forms.key (bytes_at B found.at found.len) (map string_bytes words.now) found.shape)) }
{
    match found.shape.hash {
        Hash::Fx => words_hashed::<FxHashFn, S, O>(asked, source, found, words, output),
        Hash::Unhash => words_hashed::<UnHashFn, S, O>(asked, source, found, words, output),
        Hash::Xxh64 => words_hashed::<Xxh64HashFn, S, O>(asked, source, found, words, output),
    }
}

fn words_hashed<H: HashFn, S: ReadAt + Drop, O: Write>(
    asked: &Asked,
    source: S,
    found: Found,
    words: &[String],
    output: &mut O,
) -> Result<Option<Status>, Failure>
    requires { H.MIN_LEN ≤ typed_len found.shape.key }
    ensures given { let k = bytes_form found.forms.key found.shape.key
        in let v = bytes_form found.forms.value found.shape.value
        in let c = bytes_coding (format_of (typed_len found.shape.key)
        (typed_len found.shape.value) H.hash)
        in (B : List ℕ) → S.gives source B → found.at + found.len ≤ length B
        → found.at + found.len < 2 ^ 64
        → (let old = O.contents output.old in let new = O.contents output.new
        in ByPosition old new (AreWordsGot c (answer_in asked.now.printed (dynamic_text k)
        (dynamic_text v)) (no_key_line asked.now.printed) (IsDynamicOf k)
        (bytes_at B found.at found.len) (map string_bytes words.now) old new) result) }
    ensures short { let c = bytes_coding (format_of (typed_len found.shape.key)
        (typed_len found.shape.value) H.hash)
        in (B : List ℕ) → S.gives source B → found.at + found.len ≤ length B
        → found.at + found.len < 2 ^ 64 → IfOk result (λ o. IfSome o (λ _. AreShortWords c
        (IsDynamicOf (bytes_form found.forms.key found.shape.key)) (bytes_at B found.at found.len)
        (map string_bytes words.now))) }
{
    let shape = found.shape;
    let layout = lengths_of(shape.key, shape.value);
    let style = AnswerStyle {
        forms: found.forms.of(shape),
        printed: asked.printed,
    };
    match open_file::<H, S>(layout, source, found.at, found.len) {
        Some(table) => answer_words_at(asked.alloc, &table, style, words, output),
        None => Ok(None),
    }
}

/// The same for the lines of an input. None where a read failed, or the bytes are not opened: nothing
/// was written then, and no line was read.
pub(super) fn lines_of<S: ReadAt + Drop, I: BufRead + Arriving, O: Write>(
    asked: &Asked,
    source: S,
    found: Found,
    input: &mut I,
    output: &mut O,
) -> Result<Option<Reached>, Failure>
    requires { least_key_len found.shape.hash ≤ typed_len found.shape.key }
    ensures unread { result ≡ Ok None → I.remaining input.new ≡ I.remaining input.old }
    ensures all { asked.now.most ≡ None → IfOk result (λ o. IfSome o IsEnd) }
    ensures given { (B : List ℕ) → S.gives source B → found.at + found.len ≤ length B
        → found.at + found.len < 2 ^ 64
        → (let old = O.contents output.old in let new = O.contents output.new
        in ByPosition old new (λ r. lines_read_of (found.forms.key, found.forms.value)
        asked.now.printed (bytes_at B found.at found.len) (I.remaining input.old)
        (I.remaining input.new) old new r found.shape) result) }
{
    match found.shape.hash {
        Hash::Fx => lines_hashed::<FxHashFn, S, I, O>(asked, source, found, input, output),
        Hash::Unhash => lines_hashed::<UnHashFn, S, I, O>(asked, source, found, input, output),
        Hash::Xxh64 => lines_hashed::<Xxh64HashFn, S, I, O>(asked, source, found, input, output),
    }
}

fn lines_hashed<H: HashFn, S: ReadAt + Drop, I: BufRead + Arriving, O: Write>(
    asked: &Asked,
    source: S,
    found: Found,
    input: &mut I,
    output: &mut O,
) -> Result<Option<Reached>, Failure>
    requires { H.MIN_LEN ≤ typed_len found.shape.key }
    ensures unread { result ≡ Ok None → I.remaining input.new ≡ I.remaining input.old }
    ensures all { asked.now.most ≡ None → IfOk result (λ o. IfSome o IsEnd) }
    ensures given { let k = bytes_form found.forms.key found.shape.key
        in let v = bytes_form found.forms.value found.shape.value
        in let c = bytes_coding (format_of (typed_len found.shape.key)
        (typed_len found.shape.value) H.hash)
        in (B : List ℕ) → S.gives source B → found.at + found.len ≤ length B
        → found.at + found.len < 2 ^ 64
        → (let old = O.contents output.old in let new = O.contents output.new
        in let T = bytes_at B found.at found.len
        in ByPosition old new (λ r. (view_refusal c.format T ≡ None) × AreLinesRead c
        (answer_in asked.now.printed (dynamic_text k) (dynamic_text v)) (IsDynamicOf k)
        (dynamic_wanted k) T (I.remaining input.old) (I.remaining input.new) old new r) result) }
{
    let shape = found.shape;
    let layout = lengths_of(shape.key, shape.value);
    let style = AnswerStyle {
        forms: found.forms.of(shape),
        printed: asked.printed,
    };
    let Some(table) = open_file::<H, S>(layout, source, found.at, found.len) else {
        return Ok(None);
    };
    let reached = answer_lines_at(asked, &table, style, input, output)?;
    Ok(Some(reached))
}

// Opens the bytes as a table of these lengths. None where they are not opened, or a read failed.
fn open_file<H: HashFn, S: ReadAt + Drop>(
    layout: Layout,
    source: S,
    at: u64,
    len: usize,
) -> Option<FileTable<H, S>>
    ensures key { IfSome result (λ t. t.key_len ≡ layout.key_len) }
    ensures value { IfSome result (λ t. t.value_len ≡ layout.value_len) }
    ensures given { (B : List ℕ) → S.gives source B → at + len ≤ length B → at + len < 2 ^ 64
        → IfSome result (λ t. IsTableAt S.gives H.hash layout.key_len layout.value_len t
        (bytes_at B at len)) }
    ensures opened { let F = format_of layout.key_len layout.value_len H.hash
        in (B : List ℕ) → S.gives source B → at + len ≤ length B → at + len < 2 ^ 64
        → OnSome result (view_refusal F (bytes_at B at len) ≡ None) }
{
    match FileTable::<H, S>::open_at(layout, source, at, len) {
        Ok(table) => Some(table),
        Err(_) => None,
    }
}
