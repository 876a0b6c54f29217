//! Lookups in a table that is read by position, and what is written of them.
ghost use Rattle.std.specs.Prelude.{◌≡◌, List, ℕ, None, length, map, string_bytes};
ghost use Rattle.std.specs.Prelude.{All, IfOk, IfSome};
ghost use Rattle.std.specs.List.{AllZip};
ghost use Rattle.odht.specs.Files.{file_coding};
ghost use Rattle.odht_header.specs.Refusals.{view_refusal};
ghost use Rattle.odht_tool_core.specs.JsonAnswers.{answer_in, no_key_line};
ghost use Rattle.odht_tool_core.specs.DynTexts.{IsDynamicOf, dynamic_text};
ghost use Rattle.odht_tool_reads.specs.Gets.{AreWordsGot, IsWordAnswer};
ghost use Rattle.odht_tool_reads.specs.Positions.{AreShortWords, ByPosition, IsShortSearch, IsTableAt};

use crate::lookups::words::{Answer, write_words};
use odht::dynamic::{FileTable, ShortBytes};
use odht::hash::HashFn;
use odht::memory_layout::DEFAULT_GROUPS;
use odht::read_at::ReadAt;
use odht_tool_core::failure::Failure;
use odht_tool_core::forms::{Form, GivenForms};
use odht_tool_core::json::answers::AnswerStyle;
use odht_tool_core::status::Status;
use odht_tool_core::text::Text;
use std::alloc::{AllocError, Global};
use std::io::Write;

/// Looks up the keys of the words, and writes a line for each. None where a read failed, or a search
/// was longer than the bound: nothing was written then.
pub(super) fn answer_words_at<H: HashFn, S: ReadAt + Drop, O: Write>(
    alloc: Global,
    table: &FileTable<H, S>,
    style: AnswerStyle<GivenForms>,
    words: &[String],
    output: &mut O,
) -> Result<Option<Status>, Failure>
    ensures given { let c = file_coding table.now H.hash in let key = style.forms.key
        in (B : List ℕ)
        → IsTableAt S.gives H.hash table.now.key_len table.now.value_len table.now B
        → view_refusal c.format B ≡ None
        → (let old = O.contents output.old in let new = O.contents output.new
        in ByPosition old new (AreWordsGot c
        (answer_in style.printed (dynamic_text key) (dynamic_text style.forms.value))
        (no_key_line style.printed) (IsDynamicOf key) B (map string_bytes words.now) old new) result) }
    ensures short { (B : List ℕ)
        → IsTableAt S.gives H.hash table.now.key_len table.now.value_len table.now B
        → IfOk result (λ o. IfSome o (λ _. AreShortWords (file_coding table.now H.hash)
        (IsDynamicOf style.forms.key) B (map string_bytes words.now))) }
{
    match answers_at(alloc, table, style.forms.key, words)? {
        Some(answers) => {
            let status = write_words(words, answers.as_slice(), style, output)?;
            Ok(Some(status))
        }
        None => Ok(None),
    }
}

// The answers to the words. None where a read failed, or a search was longer than the bound.
fn answers_at<H: HashFn, S: ReadAt + Drop>(
    alloc: Global,
    table: &FileTable<H, S>,
    form: Form,
    words: &[String],
) -> Result<Option<Vec<Answer>>, AllocError>
    ensures each { IfOk result (λ o. IfSome o (λ v. length v.items ≡ length words.now)) }
    ensures given { (B : List ℕ)
        → IsTableAt S.gives H.hash table.now.key_len table.now.value_len table.now B
        → IfOk result (λ o. IfSome o (λ v.
        AllZip (IsWordAnswer (file_coding table.now H.hash) (IsDynamicOf form) B)
        (map string_bytes words.now) v.items)) }
    ensures short { (B : List ℕ)
        → IsTableAt S.gives H.hash table.now.key_len table.now.value_len table.now B
        → IfOk result (λ o. IfSome o (λ v.
        All (λ a. IsShortSearch (file_coding table.now H.hash) B a.0) v.items)) }
{
    let mut answers = Vec::with_capacity(alloc, words.len())?;
    for word in words {
        match answer_at(table, form, word.as_str().as_bytes()) {
            Some(answer) => answers.push(answer)?,
            None => return Ok(None),
        }
    }
    Ok(Some(answers))
}

// The answer to a word. None where a read failed, or the search was longer than the bound.
fn answer_at<H: HashFn, S: ReadAt + Drop>(
    table: &FileTable<H, S>,
    form: Form,
    word: &[u8],
) -> Option<Answer>
    ensures given { (B : List ℕ)
        → IsTableAt S.gives H.hash table.now.key_len table.now.value_len table.now B
        → IfSome result (IsWordAnswer (file_coding table.now H.hash) (IsDynamicOf form) B word.now) }
    ensures short { (B : List ℕ)
        → IsTableAt S.gives H.hash table.now.key_len table.now.value_len table.now B
        → IfSome result (λ a. IsShortSearch (file_coding table.now H.hash) B a.0) }
{
    match ShortBytes::parse(word, form) {
        Some(key) => {
            let (value, groups) = table.get_counted(key.as_slice()).ok()?;
            if groups > DEFAULT_GROUPS {
                return None;
            }
            Some((Some(key), value))
        }
        None => Some((None, None)),
    }
}
