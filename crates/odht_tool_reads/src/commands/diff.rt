//! `odht diff`: how the pairs of two table files differ.
ghost use Rattle.std.specs.Prelude.{◌≤◌, IsTrue, None};
ghost use Rattle.odht_base.specs.Decoded.{decoded_pairs};
ghost use Rattle.odht_base.specs.Format.{format_of};
ghost use Rattle.odht_base.specs.Valid.{IsValidBytes};
ghost use Rattle.odht_tool_core.specs.AnyShapes.{HasLongKeys, any_format};
ghost use Rattle.odht_tool_core.specs.Endings.{IsDone};
ghost use Rattle.odht_tool_core.specs.InfoNumbers.{least_key_len};
ghost use Rattle.odht_tool_core.specs.ReadyShapes.{hash_of, typed_len};
ghost use Rattle.odht_tool_core.specs.StoredTexts.{key_text, value_text};
ghost use Rattle.odht_tool_reads.specs.Diffs.{IsDiffed, diff_of, pairs_diff};
ghost use Rattle.odht_tool_tables.specs.Wholes.{have_same_sizes, whole_any};

use crate::dynamic::diffs::diff_lengths;
use crate::positions::check_hash;
use odht::hash::HashFn;
use odht::{FxHashFn, UnHashFn, Xxh64HashFn};
use odht_tool_core::any::AnyShape;
use odht_tool_core::arguments::DiffOptions;
use odht_tool_core::failure::Failure;
use odht_tool_core::forms::{GivenForms, Kinds};
use odht_tool_core::job::Streams;
use odht_tool_core::shapes::Hash;
use odht_tool_core::status::Status;
use odht_tool_core::typed::Texts;
use odht_tool_tables::files::{finish_as, read_bytes};
use odht_tool_tables::whole::{have_same_sizes, read_whole, sizes_of, write_sizes};
use std::io::{BufRead, Write};
use std::os::unix::fs::FileExt;
use std::rt::Files;

/// The first one of two files: a valid table, whose texts the lines have.
#[derive(Clone, Copy)]
pub struct First<'a> {
    /// The name of the file.
    pub file: &'a str,
    /// The shape of its table.
    pub shape: AnyShape,
    /// The forms of keys and values.
    pub forms: GivenForms,
    /// All its bytes.
    pub bytes: &'a [u8],
}

/// Compares a file with another one. A failure of the other is reported here.
pub fn diff<R: Files + AllocGlobal, I: BufRead, O: Write, E: Write>(
    rt: &R,
    file: &str,
    options: DiffOptions,
    streams: &mut Streams<'_, '_, '_, I, O, E>,
) -> Result<Status, Failure>
where
    R::File: FileExt,
{
    check_hash(rt, file, None, options.hash, options.kinds)?;
    let first = read_bytes(rt, file, streams.input)?;
    let bytes = first.as_slice();
    let (shape, forms) = read_whole(bytes, options.hash, options.kinds, options.bound)?;
    let first = First {
        file,
        shape,
        forms,
        bytes,
    };
    let other = options.other.as_str();
    let second = match read_other(rt, other, options.hash, streams.input) {
        Ok(second) => second,
        Err(failure) => {
            return Ok(finish_as(other, Err(failure), Status::Trouble, streams.errors));
        }
    };
    let second = second.as_slice();
    diff_beside(&first, &options, second, streams.output, streams.errors)
}

// The bytes of the second file.
fn read_other<R: Files + AllocGlobal, I: BufRead>(
    rt: &R,
    other: &str,
    hash: Option<Hash>,
    input: &mut I,
) -> Result<Vec<u8>, Failure>
where
    R::File: FileExt,
{
    let kinds = Kinds {
        key: None,
        value: None,
        hash: None,
    };
    check_hash(rt, other, None, hash, kinds)?;
    read_bytes(rt, other, input)
}

// The same where the second file has these bytes. A failure of it is reported here.
fn diff_beside<O: Write, E: Write>(
    first: &First<'_>,
    options: &DiffOptions,
    second: &[u8],
    output: &mut O,
    errors: &mut E,
) -> Result<Status, Failure>
    requires long { HasLongKeys first.now.shape }
    requires valid { IsValidBytes (any_format first.now.shape) first.now.bytes.now }
    ensures { let f = first.now in let o = options.now
        in IsDiffed f.shape f.forms f.bytes.now
        (whole_any second.now o.hash (record { key = None; value = None; hash = None }) o.bound) second.now
        (O.contents output.old) (O.contents output.new) result }
{
    let other = options.other.as_str();
    // Its keys and values are written in the texts of the first one.
    let kinds = Kinds {
        key: None,
        value: None,
        hash: None,
    };
    match read_whole(second, options.hash, kinds, options.bound) {
        Ok((beside, _)) if have_same_sizes(first.shape, beside) => {
            diff_tables(first, beside, second, output)
        }
        Ok((beside, _)) => {
            let (sizes, wanted) = (sizes_of(beside), sizes_of(first.shape));
            // A line that cannot be written is no failure.
            let _ = write_sizes(other, first.file, sizes, wanted, errors);
            Ok(Status::Trouble)
        }
        Err(failure) => Ok(finish_as(other, Err(failure), Status::Trouble, errors)),
    }
}

/// Compares the first file with the bytes of another one, which are a valid table of this shape:
/// writes a line for each pair that differs, in the texts of the first one, or, where none does,
/// whether the bytes do.
pub fn diff_tables<O: Write>(
    first: &First<'_>,
    beside: AnyShape,
    second: &[u8],
    output: &mut O,
) -> Result<Status, Failure>
    requires long { HasLongKeys first.now.shape }
    requires valid { IsValidBytes (any_format first.now.shape) first.now.bytes.now }
    requires long_beside { HasLongKeys beside }
    requires valid_beside { IsValidBytes (any_format beside) second.now }
    requires sizes { IsTrue (have_same_sizes first.now.shape beside) }
    ensures { let f = first.now in IsDone (diff_of f.shape f.forms f.bytes.now beside second.now)
        (O.contents output.old) (O.contents output.new) result }
{
    let (shape, bytes) = (first.shape, first.bytes);
    let texts = Texts::of(shape, first.forms);
    let hash = beside.hash();
    match shape.hash() {
        Hash::Fx => diff_with::<FxHashFn, O>(texts, bytes, hash, second, output),
        Hash::Unhash => diff_with::<UnHashFn, O>(texts, bytes, hash, second, output),
        Hash::Xxh64 => diff_with::<Xxh64HashFn, O>(texts, bytes, hash, second, output),
    }
}

// The same of texts, and of the hash functions of the first and of the second.
fn diff_with<H: HashFn, O: Write>(
    texts: Texts,
    first: &[u8],
    hash: Hash,
    second: &[u8],
    output: &mut O,
) -> Result<Status, Failure>
    requires hashes { H.MIN_LEN ≤ typed_len texts.key }
    requires hashes_second { least_key_len hash ≤ typed_len texts.key }
    requires valid { IsValidBytes
        (format_of (typed_len texts.key) (typed_len texts.value) H.hash) first.now }
    requires valid_second { IsValidBytes
        (format_of (typed_len texts.key) (typed_len texts.value) (hash_of hash)) second.now }
    ensures { let F = format_of (typed_len texts.key) (typed_len texts.value)
        in let xs = decoded_pairs (F H.hash) first.now
        in let ys = decoded_pairs (F (hash_of hash)) second.now
        in IsDone (pairs_diff (key_text texts) (value_text texts) first.now second.now xs ys)
        (O.contents output.old) (O.contents output.new) result }
{
    match hash {
        Hash::Fx => diff_lengths::<H, FxHashFn, O>(texts, first, second, output),
        Hash::Unhash => diff_lengths::<H, UnHashFn, O>(texts, first, second, output),
        Hash::Xxh64 => diff_lengths::<H, Xxh64HashFn, O>(texts, first, second, output),
    }
}
