//! `odht delete`: a table file without some of its keys.
ghost use Rattle.std.specs.Prelude.{◌≡◌, IfErr, IfOk, Err, OnErr, MatchResult};
ghost use Rattle.std.specs.Prelude.{length, map, string_bytes};
ghost use Rattle.odht_base.specs.Valid.{IsValidBytes};
ghost use Rattle.odht.specs.Tables.{OfTable};
ghost use Rattle.odht_tool_core.specs.AnyShapes.{HasLongKeys, any_format};
ghost use Rattle.odht_tool_core.specs.declared.failure.Failure.TheVariants.{Memory};
ghost use Rattle.odht_tool_writes.specs.DeleteLines.{IsDeletedBy, IsFailureBy};
ghost use Rattle.odht_tool_writes.specs.Deletes.{IsLeft, are_keys, is_fault};

use crate::commands::delete_lines::keys_of_lines;
use crate::dynamic::deletes::{NamedKeys, delete_lengths};
use crate::reports::PairRun;
use odht::{FxHashFn, UnHashFn, Xxh64HashFn};
use odht_tool_core::any::AnyShape;
use odht_tool_core::arguments::{DeleteOptions, Keys};
use odht_tool_core::failure::Failure;
use odht_tool_core::files::read_file;
use odht_tool_core::forms::Form;
use odht_tool_core::key_lists::ByteKeys;
use odht_tool_core::keys::{Word, parse_keys};
use odht_tool_core::new_file::{NewFile, ended, make_new, replace_file};
use odht_tool_core::shapes::Hash;
use odht_tool_core::status::Status;
use odht_tool_core::targets::Target;
use odht_tool_tables::dynamic::lengths_of;
use odht_tool_tables::whole::read_asked;
use std::alloc::Global;
use std::io::{BufRead, Write};
use std::os::fd::AsFd;
use std::rt::{Clock, Files};

/// Makes a new table of the pairs of the table in the file whose keys are not named, by words or
/// by the lines of `input`, and stores it in the place of the older one, which stays where
/// something fails. Not all is done where a key is absent.
pub fn delete<R: Files + AllocGlobal + Clock, I: BufRead, E: Write>(
    rt: &R,
    file: &str,
    options: &DeleteOptions,
    input: &mut I,
    errors: &mut E,
) -> Result<Status, Failure>
where
    R::File: AsFd,
{
    let target = Target::find_table(rt, file, options.breaks_links)?;
    let mut new = make_new(rt, target)?;
    let done = delete_as(rt, file, &mut new, options, input, errors);
    ended(rt, new, done)
}

// The same with the new file that replaces the older one.
fn delete_as<R: Files + AllocGlobal + Clock, I: BufRead, E: Write>(
    rt: &R,
    file: &str,
    new: &mut NewFile<R::File>,
    options: &DeleteOptions,
    input: &mut I,
    errors: &mut E,
) -> Result<Status, Failure>
where
    R::File: AsFd,
{
    let bytes = read_file(rt, new.path())?;
    let (bytes, status) = deleted(rt, file, bytes, options, input, errors)?;
    replace_file(rt, new, bytes.as_slice())?;
    Ok(status)
}

// The bytes of the new table, without the keys that the options name, by words or by the lines of
// `input`. Those of the old one are checked whole before, with the bound of searches where there is
// one. A line on `errors` tells of each key that is absent.
fn deleted<R: AllocGlobal + Clock, I: BufRead, E: Write>(
    rt: &R,
    file: &str,
    bytes: Vec<u8>,
    options: &DeleteOptions,
    input: &mut I,
    errors: &mut E,
) -> Result<(Vec<u8>, Status), Failure>
    ensures ok { let o = options.now in IfOk result (λ x. IsDeletedBy bytes.items o.hash o.kinds
        o.bound (I.remaining input.old) x.0.items x.1 o.keys) }
    ensures err { let o = options.now in IfErr result (λ failure. IsFailureBy bytes.items o.hash
        o.kinds o.bound (I.remaining input.old) failure o.keys) }
{
    let bytes = bytes.as_slice();
    let found = read_asked(bytes, options.hash, options.kinds, options.bound)?;
    let (shape, forms) = found;
    match &options.keys {
        Keys::Words(words) => {
            let words = words.as_slice();
            let keys = keys_of_words(rt.alloc(), shape, forms.key, words)?;
            let run = PairRun::new(rt, options.has_progress);
            let named = NamedKeys { words, keys: &keys };
            deleted_for(run, file, shape, bytes, &named, errors)
        }
        Keys::Lines => {
            let read = keys_of_lines(rt.alloc(), shape, forms.key, input)?;
            let run = PairRun::new(rt, options.has_progress);
            let named = NamedKeys {
                words: read.lines.as_slice(),
                keys: &read.keys,
            };
            deleted_for(run, file, shape, bytes, &named, errors)
        }
    }
}

// The same of valid bytes of a shape, and of these keys.
fn deleted_for<W: Word, R: AllocGlobal + Clock, E: Write>(
    run: PairRun<'_, R>,
    file: &str,
    shape: AnyShape,
    bytes: &[u8],
    named: &NamedKeys<'_, W>,
    errors: &mut E,
) -> Result<(Vec<u8>, Status), Failure>
    requires long { HasLongKeys shape }
    requires valid { IsValidBytes (any_format shape) bytes.now }
    requires each { length named.now.words.now ≡ length named.now.keys.now }
    ensures ok { OfTable (any_format shape) bytes.now (λ P. IfOk result
        (λ x. IsLeft (any_format shape) named.now.keys.now P x.0.items x.1)) }
    ensures memory { OnErr result (result ≡ Err Memory) }
{
    let layout = lengths_of(shape.key(), shape.value());
    match shape.hash() {
        Hash::Fx => delete_lengths::<FxHashFn, W, R, E>(run, file, layout, bytes, named, errors),
        Hash::Unhash => delete_lengths::<UnHashFn, W, R, E>(
            run, file, layout, bytes, named, errors,
        ),
        Hash::Xxh64 => delete_lengths::<Xxh64HashFn, W, R, E>(
            run, file, layout, bytes, named, errors,
        ),
    }
}

// The bytes of the keys of the words in this form, or the first word that is none.
fn keys_of_words(
    alloc: Global,
    shape: AnyShape,
    form: Form,
    words: &[String],
) -> Result<ByteKeys, Failure>
    ensures { let ws = map string_bytes words.now in MatchResult result
        (λ keys. are_keys form ws shape keys) (is_fault form ws shape) }
{
    let key = shape.key();
    parse_keys(alloc, words, key.size(), form.of(key))
}
