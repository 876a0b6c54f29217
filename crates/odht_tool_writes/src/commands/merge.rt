//! `odht merge`: a table file of the pairs of others.
ghost use Rattle.std.specs.Prelude.{◌≡◌, ◌+◌, ◌++◌, ◌∷◌, [], All, IfErr, IfOk, IfSome, Ok, OnOk};
ghost use Rattle.std.specs.Prelude.{map};
ghost use Rattle.std.specs.Vec.{vec_len};
ghost use Rattle.odht_base.specs.Valid.{IsValidBytes};
ghost use Rattle.odht_tool_core.specs.AnyShapes.{HasLongKeys, any_format, any_key, any_value};
ghost use Rattle.odht_tool_core.specs.Percents.{new_percent};
ghost use Rattle.odht_tool_core.specs.ReadyShapes.{typed_len};
ghost use Rattle.odht_tool_core.specs.declared.failure.Failure.TheVariants.{Memory};
ghost use Rattle.odht_tool_writes.specs.Merges.{IsInputOf, IsLateStop, IsMergeFailure, IsMerged};
ghost use Rattle.odht_tool_writes.specs.Merges.{IsMergedFrom, IsMergedOf, IsReadFailure, IsStoppedOf};
ghost use Rattle.odht_tool_writes.specs.Merges.{IsTableOf, all_pairs, input_pairs, shape_of_other};

use super::merged_hash::{other_keys, take_hash};
use crate::dynamic::merges::{Input, MergeFailure, MergeJob, merge_lengths};
use crate::reports::PairRun;
use odht::load::Percent;
use odht::{FxHashFn, UnHashFn, Xxh64HashFn};
use odht_tool_core::any::AnyShape;
use odht_tool_core::arguments::{MergeOptions, is_stream};
use odht_tool_core::failure::Failure;
use odht_tool_core::forms::{GivenForms, Kinds};
use odht_tool_core::job::Streams;
use odht_tool_core::keys::write_repeated;
use odht_tool_core::new_file::{NewFile, ended, make_new, replace_file};
use odht_tool_core::percents::new_percent;
use odht_tool_core::shapes::Hash;
use odht_tool_core::status::{Status, of_output};
use odht_tool_core::targets::Target;
use odht_tool_core::typed::Texts;
use odht_tool_tables::files::{finish, read_bytes};
use odht_tool_tables::whole::{have_same_sizes, read_whole, sizes_of, write_sizes};
use std::alloc::Global;
use std::io::{BufRead, Write};
use std::os::fd::AsFd;
use std::rt::{Clock, Files};

/// Makes a new table of the pairs of the files, and stores it as the file, in the place of an
/// older one, which stays where something fails; or writes it to `output`, where the name stands
/// for that. A failure of one of the files is reported here.
pub fn merge<R: Files + AllocGlobal + Clock, I: BufRead, O: Write, E: Write>(
    rt: &R,
    file: &str,
    mut options: MergeOptions,
    streams: &mut Streams<'_, '_, '_, I, O, E>,
) -> Result<Status, Failure>
where
    R::File: AsFd,
{
    if is_stream(file) {
        return match merged_files(rt, &mut options, streams.input, streams.errors)? {
            Some(bytes) => of_output(streams.output.write_all(bytes.as_slice())),
            None => Ok(Status::NotDone),
        };
    }
    let target = Target::find(rt, file, options.allowed)?;
    let mut new = make_new(rt, target)?;
    let done = merge_as(rt, &mut new, &mut options, streams.input, streams.errors);
    ended(rt, new, done)
}

// The same with the new file that becomes this file.
fn merge_as<R: Files + AllocGlobal + Clock, I: BufRead, E: Write>(
    rt: &R,
    new: &mut NewFile<R::File>,
    options: &mut MergeOptions,
    input: &mut I,
    errors: &mut E,
) -> Result<Status, Failure>
where
    R::File: AsFd,
{
    match merged_files(rt, options, input, errors)? {
        Some(bytes) => {
            replace_file(rt, new, bytes.as_slice())?;
            Ok(Status::Done)
        }
        None => Ok(Status::NotDone),
    }
}

// The bytes of the new table. None where one of the files fails, which is reported.
fn merged_files<R: Files + AllocGlobal + Clock, I: BufRead, E: Write>(
    rt: &R,
    options: &mut MergeOptions,
    input: &mut I,
    errors: &mut E,
) -> Result<Option<Vec<u8>>, Failure> {
    let name = options.first.as_str();
    let first = match read_bytes(rt, name, input) {
        Ok(first) => first,
        Err(failure) => return Ok(reported(name, failure, errors)),
    };
    let mut others = Vec::new(rt.alloc());
    for name in options.others.as_slice() {
        match read_bytes(rt, name.as_str(), input) {
            Ok(bytes) => others.push(bytes).or(Err(Failure::Memory))?,
            Err(failure) => return Ok(reported(name.as_str(), failure, errors)),
        }
    }
    take_hash(first.as_slice(), others.as_slice(), options);
    if let Some((at, size)) = other_keys(first.as_slice(), others.as_slice(), options) {
        let name = name_of(options, at.saturating_add(1));
        return Ok(reported(name, Failure::UnknownKey(size), errors));
    }
    merged_or_told(rt, first, others, options, errors)
}

// The same of files with these bytes.
fn merged_or_told<R: AllocGlobal + Clock, E: Write>(
    rt: &R,
    first: Vec<u8>,
    others: Vec<Vec<u8>>,
    options: &MergeOptions,
    errors: &mut E,
) -> Result<Option<Vec<u8>>, Failure>
    ensures made { let o = options.now in let Bs = map (λ bytes. bytes.items) others.items
        in let p = new_percent first.items o.percent
        in IfOk result (λ made. IfSome made (λ new. IsMergedOf first.items Bs o.hash o.kinds
        o.bound o.duplicates p new.items)) }
    ensures failed { let o = options.now in let Bs = map (λ bytes. bytes.items) others.items
        in let p = new_percent first.items o.percent
        in IfErr result (λ failure. IsMergeFailure first.items Bs o.hash o.kinds o.bound
        o.duplicates p (MergeFailure.New failure)) }
{
    match merged(rt, first, others, options, errors) {
        Ok(bytes) => Ok(Some(bytes)),
        Err(MergeFailure::New(failure)) => Err(failure),
        Err(unmerged) => {
            report(options, unmerged, errors);
            Ok(None)
        }
    }
}

// Reports the failure of the file of this name.
fn reported<E: Write>(name: &str, failure: Failure, errors: &mut E) -> Option<Vec<u8>> {
    let _ = finish(name, Err(failure), errors);
    None
}

// Reports why the files are not merged. A line that cannot be written is no failure.
fn report<E: Write>(options: &MergeOptions, unmerged: MergeFailure, errors: &mut E) {
    match unmerged {
        MergeFailure::Failed { at, failure } => {
            let _ = finish(name_of(options, at), Err(failure), errors);
        }
        MergeFailure::OtherSizes { at, found, first } => {
            let name = name_of(options, at);
            let _ = write_sizes(name, options.first.as_str(), found, first, errors);
        }
        MergeFailure::Twice { at, text } => {
            let _ = write_repeated(name_of(options, at), text.as_slice(), errors);
        }
        MergeFailure::New(_) => {}
    }
}

// The name of the file of this number.
fn name_of(options: &MergeOptions, at: usize) -> &str {
    if 0 < at && at <= options.others.len() {
        options.others[at - 1].as_str()
    } else {
        options.first.as_str()
    }
}

// The bytes of the new table of these files. Each is checked whole before, with the bound of
// searches where there is one.
fn merged<R: AllocGlobal + Clock, E: Write>(
    rt: &R,
    first: Vec<u8>,
    others: Vec<Vec<u8>>,
    options: &MergeOptions,
    errors: &mut E,
) -> Result<Vec<u8>, MergeFailure>
    ensures ok { let o = options.now in let Bs = map (λ bytes. bytes.items) others.items
        in let p = new_percent first.items o.percent
        in IfOk result (λ new. IsMergedOf first.items Bs o.hash o.kinds o.bound o.duplicates
        p new.items) }
    ensures err { let o = options.now in let Bs = map (λ bytes. bytes.items) others.items
        in let p = new_percent first.items o.percent
        in IfErr result (IsMergeFailure first.items Bs o.hash o.kinds o.bound o.duplicates p) }
{
    match read_whole(first.as_slice(), options.hash, options.kinds, options.bound) {
        Ok(found) => merged_for(rt, found, first, others, options, errors),
        Err(failure) => Err(MergeFailure::Failed { at: 0, failure }),
    }
}

// The same where the first file is a valid table of this shape, in these forms.
fn merged_for<R: AllocGlobal + Clock, E: Write>(
    rt: &R,
    found: (AnyShape, GivenForms),
    first: Vec<u8>,
    others: Vec<Vec<u8>>,
    options: &MergeOptions,
    errors: &mut E,
) -> Result<Vec<u8>, MergeFailure>
    requires long { HasLongKeys found.0 }
    requires valid { IsValidBytes (any_format found.0) first.items }
    ensures ok { let o = options.now in let Bs = map (λ bytes. bytes.items) others.items
        in let p = new_percent first.items o.percent
        in IfOk result (λ new. IsMergedFrom first.items Bs o.hash o.bound o.duplicates p
        new.items found.0) }
    ensures err { let o = options.now in let Bs = map (λ bytes. bytes.items) others.items
        in let p = new_percent first.items o.percent
        in IfErr result (λ u. IsLateStop first.items Bs o.hash o.bound o.duplicates p u found) }
{
    let bytes = first.as_slice();
    let percent = new_percent(bytes, options.percent);
    let inputs = inputs_of(
        rt.alloc(),
        found.0,
        first,
        others,
        options.hash,
        options.bound,
    )?;
    merged_inputs(rt, found, inputs.as_slice(), percent, options, errors)
}

// The same at this load factor, of files that are all valid tables of the lengths of this shape,
// which is that of the first.
fn merged_inputs<R: AllocGlobal + Clock, E: Write>(
    rt: &R,
    found: (AnyShape, GivenForms),
    inputs: &[Input],
    percent: Percent,
    options: &MergeOptions,
    errors: &mut E,
) -> Result<Vec<u8>, MergeFailure>
    requires { All (IsInputOf (typed_len (any_key found.0)) (typed_len (any_value found.0)))
        inputs.now }
    ensures ok { let o = options.now in IfOk result (λ new. IsMerged (any_format found.0)
        o.duplicates percent (map input_pairs inputs.now) new.items) }
    ensures err { let o = options.now in IfErr result (λ u. IsStoppedOf found
        o.duplicates percent u (map input_pairs inputs.now)) }
{
    let (shape, forms) = found;
    let texts = Texts::of(shape, forms);
    let job = MergeJob {
        texts,
        inputs,
        duplicates: options.duplicates,
        percent,
    };
    let run = PairRun::new(rt, options.has_progress);
    match shape.hash() {
        Hash::Fx => merge_lengths::<FxHashFn, R, E>(run, &job, errors),
        Hash::Unhash => merge_lengths::<UnHashFn, R, E>(run, &job, errors),
        Hash::Xxh64 => merge_lengths::<Xxh64HashFn, R, E>(run, &job, errors),
    }
}

// The files, which are valid tables of the lengths of this shape, or the first that is not; the
// first one is.
fn inputs_of(
    alloc: Global,
    shape: AnyShape,
    first: Vec<u8>,
    others: Vec<Vec<u8>>,
    hash: Option<Hash>,
    bound: Option<usize>,
) -> Result<Vec<Input>, MergeFailure>
    requires long { HasLongKeys shape }
    requires valid { IsValidBytes (any_format shape) first.items }
    ensures inputs { IfOk result (λ inputs. All
        (IsInputOf (typed_len (any_key shape)) (typed_len (any_value shape))) inputs.items) }
    ensures ok { let Bs = map (λ bytes. bytes.items) others.items in IfOk result (λ inputs.
        all_pairs shape hash bound first.items Bs ≡ Ok (map input_pairs inputs.items)) }
    ensures err { let Bs = map (λ bytes. bytes.items) others.items
        in IfErr result (λ u. IsReadFailure (all_pairs shape hash bound first.items Bs) u) }
{
    let mut inputs = first_input(alloc, shape, first)?;
    for bytes in others {
        match shape_of_other(shape, hash, bound, inputs.len(), bytes.as_slice()) {
            Ok(other) => push_input(&mut inputs, other, bytes)?,
            Err(unmerged) => return Err(unmerged),
        }
    }
    Ok(inputs)
}

// The first file alone.
fn first_input(alloc: Global, shape: AnyShape, bytes: Vec<u8>) -> Result<Vec<Input>, MergeFailure>
    ensures ok { IfOk result
        (λ inputs. inputs.items ≡ (record { shape = shape; bytes = bytes }) ∷ []) }
    ensures len { IfOk result (λ inputs. vec_len inputs ≡ 1) }
    ensures err { IfErr result (λ u. u ≡ MergeFailure.New Memory) }
{
    let mut inputs = Vec::new(alloc);
    push_input(&mut inputs, shape, bytes)?;
    Ok(inputs)
}

// Adds a file.
fn push_input(inputs: &mut Vec<Input>, shape: AnyShape, bytes: Vec<u8>) -> Result<(), MergeFailure>
    ensures ok { OnOk result
        (inputs.new.items ≡ inputs.old.items ++ (record { shape = shape; bytes = bytes }) ∷ []) }
    ensures len { OnOk result (vec_len inputs.new ≡ vec_len inputs.old + 1) }
    ensures err { IfErr result (λ u. u ≡ MergeFailure.New Memory) }
{
    let input = Input { shape, bytes };
    inputs
        .push(input)
        .map_err(|_| MergeFailure::New(Failure::Memory))
}

// The shape of a file of this number, which has to be a valid table of the same lengths.
fn shape_of_other(
    shape: AnyShape,
    hash: Option<Hash>,
    bound: Option<usize>,
    at: usize,
    bytes: &[u8],
) -> Result<AnyShape, MergeFailure>
    ensures value { result ≡ shape_of_other shape hash bound at bytes.now }
    ensures input { IfOk result (λ other.
        IsTableOf (typed_len (any_key shape)) (typed_len (any_value shape)) other bytes.now) }
{
    let kinds = Kinds {
        key: None,
        value: None,
        hash: None,
    };
    match read_whole(bytes, hash, kinds, bound) {
        Ok((other, _)) if have_same_sizes(shape, other) => Ok(other),
        Ok((other, _)) => Err(MergeFailure::OtherSizes {
            at,
            found: sizes_of(other),
            first: sizes_of(shape),
        }),
        Err(failure) => Err(MergeFailure::Failed { at, failure }),
    }
}
