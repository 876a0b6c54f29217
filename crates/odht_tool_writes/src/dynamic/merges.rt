//! `odht merge` of dynamic tables.
ghost use Rattle.std.specs.Prelude.{◌≡◌, ◌≤◌, ◌++◌, ◌∷◌, [], List, IfErr, IfOk, IfSome, Err};
ghost use Rattle.std.specs.Prelude.{OnErr, OnOk, All, Some, length, map, option_map};
ghost use Rattle.odht_base.specs.Decoded.{decoded_pairs};
ghost use Rattle.odht_base.specs.Format.{format_of};
ghost use Rattle.odht_base.specs.Table.{Pair, Table, fresh};
ghost use Rattle.odht_base.specs.Valid.{IsValidBytes};
ghost use Rattle.odht_raw.specs.DynParts.{HasLengthsOf};
ghost use Rattle.odht.specs.Dynamic.{dyn_format, dyn_store};
ghost use Rattle.odht.specs.DynOwned.{IsDynWith};
ghost use Rattle.odht_tool_core.specs.ReadyShapes.{typed_len};
ghost use Rattle.odht_tool_core.specs.StoredTexts.{key_text};
ghost use Rattle.odht_tool_core.specs.declared.failure.Failure.TheVariants.{Memory};
ghost use Rattle.odht_tool_writes.specs.Merges.{HasKeysOf, IsFilled, IsInputOf, IsMerged, IsStopped};
ghost use Rattle.odht_tool_writes.specs.Merges.{all_of, first_in, input_pairs, leaves_out, repeat_in};
ghost use Rattle.odht_tool_writes.specs.Rebuilds.{IsNewFailure};

use crate::reports::PairRun;
use crate::starts::make_lengths;
use odht::dynamic::{DynTableOwned, Layout};
use odht::hash::HashFn;
use odht::load::Percent;
use odht::raw_table::DynIter;
use odht::{FxHashFn, UnHashFn, Xxh64HashFn};
use odht_tool_core::any::AnyShape;
use odht_tool_core::arguments::Duplicates;
use odht_tool_core::failure::Failure;
use odht_tool_core::shapes::Hash;
use odht_tool_core::typed::Texts;
use odht_tool_tables::dynamic::open_valid;
use std::alloc::Global;
use std::io::Write;
use std::rt::Clock;

/// How long the text of a key is at most: two digits for each of 255 bytes.
const LONGEST_TEXT: usize = 510;

/// A file whose pairs are merged.
#[derive(Drop)]
pub struct Input {
    /// The shape of its table.
    pub shape: AnyShape,
    /// All its bytes.
    pub bytes: Vec<u8>,
}

/// Why files are not merged. Their numbers begin with 0.
#[derive(Drop)]
pub enum MergeFailure {
    /// This file is no table that is merged.
    Failed {
        at: usize,
        failure: Failure,
    },
    /// Keys and values of this file have these lengths, and not those of the first file.
    OtherSizes {
        at: usize,
        found: (u8, u8),
        first: (u8, u8),
    },
    /// This file has the key of this text, and so has one before it.
    Twice {
        at: usize,
        text: Vec<u8>,
    },
    /// The new table cannot be made.
    New(Failure),
}

/// What is merged, and how.
#[derive(Drop)]
pub struct MergeJob<'a> {
    /// The texts of keys and values, which all files have in the same lengths.
    pub texts: Texts,
    /// The files.
    pub inputs: &'a [Input],
    /// Which file's pair of a key counts.
    pub duplicates: Duplicates,
    /// The load factor of the new table.
    pub percent: Percent,
}

/// The bytes of a new table of the pairs of the files.
pub fn merge_lengths<H: HashFn, R: AllocGlobal + Clock, E: Write>(
    run: PairRun<'_, R>,
    job: &MergeJob<'_>,
    errors: &mut E,
) -> Result<Vec<u8>, MergeFailure>
    requires { let t = job.now.texts
        in All (IsInputOf (typed_len t.key) (typed_len t.value)) job.now.inputs.now }
    ensures ok { let j = job.now in let F = format_of (typed_len j.texts.key)
        (typed_len j.texts.value) H.hash in IfOk result
        (λ new. IsMerged F j.duplicates j.percent (map input_pairs j.inputs.now) new.items) }
    ensures err { let j = job.now in let F = format_of (typed_len j.texts.key)
        (typed_len j.texts.value) H.hash in IfErr result
        (IsStopped j.texts H.MIN_LEN F j.duplicates j.percent (map input_pairs j.inputs.now)) }
{
    match make_table::<H>(run.alloc(), job.texts, job.inputs, job.percent) {
        Ok(table) => merge_into(run, table, job, errors),
        Err(failure) => Err(MergeFailure::New(failure)),
    }
}

// The same where the table is empty at first.
fn merge_into<H: HashFn, R: AllocGlobal + Clock, E: Write>(
    mut run: PairRun<'_, R>,
    mut table: DynTableOwned<H>,
    job: &MergeJob<'_>,
    errors: &mut E,
) -> Result<Vec<u8>, MergeFailure>
    requires inputs { let t = job.now.texts
        in All (IsInputOf (typed_len t.key) (typed_len t.value)) job.now.inputs.now }
    requires fresh { let j = job.now
        in IsDynWith (typed_len j.texts.key) (typed_len j.texts.value)
        (λ P. fresh (length (all_of (map input_pairs j.inputs.now))) j.percent ≡ Some P) table }
    ensures ok { let j = job.now in let F = format_of (typed_len j.texts.key)
        (typed_len j.texts.value) H.hash in IfOk result
        (λ new. IsMerged F j.duplicates j.percent (map input_pairs j.inputs.now) new.items) }
    ensures err { let j = job.now in let F = format_of (typed_len j.texts.key)
        (typed_len j.texts.value) H.hash in IfErr result
        (IsStopped j.texts H.MIN_LEN F j.duplicates j.percent (map input_pairs j.inputs.now)) }
{
    let (texts, inputs, duplicates) = (job.texts, job.inputs, job.duplicates);
    for at in 0..inputs.len() {
        let input = &inputs[at];
        match repeated_in(run.alloc(), texts, &table, input, duplicates) {
            Ok(None) => {}
            Ok(Some(text)) => return Err(MergeFailure::Twice { at, text }),
            Err(failure) => return Err(MergeFailure::New(failure)),
        }
        match insert_input(&mut run, &mut table, texts, input, duplicates, errors) {
            Ok(()) => {}
            Err(failure) => return Err(MergeFailure::New(failure)),
        }
    }
    run.end(errors);
    Ok(table.into_raw_bytes())
}

// An empty table for the pairs of all files.
fn make_table<H: HashFn>(
    alloc: Global,
    texts: Texts,
    inputs: &[Input],
    percent: Percent,
) -> Result<DynTableOwned<H>, Failure>
    requires { All (IsInputOf (typed_len texts.key) (typed_len texts.value)) inputs.now }
    ensures ok { IfOk result (IsDynWith (typed_len texts.key) (typed_len texts.value)
        (λ P. fresh (length (all_of (map input_pairs inputs.now))) percent ≡ Some P)) }
    ensures err { let F = format_of (typed_len texts.key) (typed_len texts.value) H.hash
        in IfErr result
        (IsNewFailure H.MIN_LEN F (length (all_of (map input_pairs inputs.now))) percent) }
{
    let layout = Layout {
        key_len: texts.key.size(),
        value_len: texts.value.size(),
    };
    match pair_count(texts, inputs) {
        Some(count) => make_lengths::<H>(alloc, layout, count, percent),
        // So many are not in memory.
        None => Err(Failure::Memory),
    }
}

// How many pairs the files have, where that is below 2^64.
fn pair_count(texts: Texts, inputs: &[Input]) -> Option<usize>
    requires { All (IsInputOf (typed_len texts.key) (typed_len texts.value)) inputs.now }
    ensures { IfSome result (λ n. n ≡ length (all_of (map input_pairs inputs.now))) }
{
    let mut count: usize = 0;
    for input in inputs {
        count = count.checked_add(input_count(texts, input))?;
    }
    Some(count)
}

// How many pairs a file has.
fn input_count(texts: Texts, input: &Input) -> usize
    requires { IsInputOf (typed_len texts.key) (typed_len texts.value) input.now }
    ensures { result ≡ length (input_pairs input.now) }
{
    let bytes = input.bytes.as_slice();
    match input.shape.hash() {
        Hash::Fx => stated_len::<FxHashFn>(texts, bytes),
        Hash::Unhash => stated_len::<UnHashFn>(texts, bytes),
        Hash::Xxh64 => stated_len::<Xxh64HashFn>(texts, bytes),
    }
}

// The same of valid bytes.
fn stated_len<S: HashFn>(texts: Texts, bytes: &[u8]) -> usize
    requires hashes { S.MIN_LEN ≤ typed_len texts.key }
    requires valid { IsValidBytes
        (format_of (typed_len texts.key) (typed_len texts.value) S.hash) bytes.now }
    ensures { let F = format_of (typed_len texts.key) (typed_len texts.value) S.hash
        in result ≡ length (decoded_pairs F bytes.now) }
{
    let table = open_valid::<S>(texts, bytes);
    // To look at the lengths is what tells that they are short, and keys long enough for the hash
    // function.
    let _ = table.layout();
    table.len()
}

// The text of the first key of a file that is in the table, where that is a failure.
fn repeated_in<H: HashFn>(
    alloc: Global,
    texts: Texts,
    table: &DynTableOwned<H>,
    input: &Input,
    duplicates: Duplicates,
) -> Result<Option<Vec<u8>>, Failure>
    requires { IsInputOf (typed_len texts.key) (typed_len texts.value) input.now }
    ensures ok { (start : Table) (ps : List Pair)
        → IsFilled (dyn_format table.now H.hash) duplicates start ps table.now.store
        → IfOk result (λ found. option_map (λ text. text.items) found
        ≡ option_map (key_text texts) (repeat_in duplicates ps (input_pairs input.now))) }
    ensures memory { OnErr result (result ≡ Err Memory) }
{
    match (duplicates, input.shape.hash()) {
        (Duplicates::Error, Hash::Fx) => {
            let old = open_valid::<FxHashFn>(texts, input.bytes.as_slice());
            repeated_key(alloc, texts, table, old.iter())
        }
        (Duplicates::Error, Hash::Unhash) => {
            let old = open_valid::<UnHashFn>(texts, input.bytes.as_slice());
            repeated_key(alloc, texts, table, old.iter())
        }
        (Duplicates::Error, Hash::Xxh64) => {
            let old = open_valid::<Xxh64HashFn>(texts, input.bytes.as_slice());
            repeated_key(alloc, texts, table, old.iter())
        }
        _ => Ok(None),
    }
}

// The text of the first key of the pairs that is in the table.
fn repeated_key<S: HashFn, H: HashFn>(
    alloc: Global,
    texts: Texts,
    table: &DynTableOwned<H>,
    pairs: DynIter<'_, S>,
) -> Result<Option<Vec<u8>>, Failure>
    requires { All (HasLengthsOf (typed_len texts.key) (typed_len texts.value)) pairs }
    ensures ok { (ps : List Pair) → HasKeysOf ps table.now.store
        → IfOk result (λ found. option_map (λ text. text.items) found
        ≡ option_map (key_text texts) (first_in ps pairs.entry)) }
    ensures memory { OnErr result (result ≡ Err Memory) }
{
    for (key, _) in pairs {
        if table.contains_key(key) {
            let text = text_of_key(alloc, texts, key)?;
            return Ok(Some(text));
        }
    }
    Ok(None)
}

// The text of a key. The memory is asked for before, as a vector that is written to asks for it
// without a failure.
fn text_of_key(alloc: Global, texts: Texts, key: &[u8]) -> Result<Vec<u8>, Failure>
    requires { length key.now ≡ typed_len texts.key }
    ensures ok { IfOk result (λ text. text.items ≡ key_text texts key.now) }
    ensures memory { OnErr result (result ≡ Err Memory) }
{
    let mut text = Vec::with_capacity(alloc, LONGEST_TEXT)?;
    match texts.write_key(key, &mut text) {
        Ok(()) => Ok(text),
        Err(_) => Err(Failure::Memory),
    }
}

// Inserts the pairs of a file that count.
fn insert_input<H: HashFn, R: AllocGlobal + Clock, E: Write>(
    run: &mut PairRun<'_, R>,
    table: &mut DynTableOwned<H>,
    texts: Texts,
    input: &Input,
    duplicates: Duplicates,
    errors: &mut E,
) -> Result<(), Failure>
    requires input { IsInputOf (typed_len texts.key) (typed_len texts.value) input.now }
    requires key { table.old.key_len ≡ typed_len texts.key }
    requires value { table.old.value_len ≡ typed_len texts.value }
    ensures inserted { (start : Table) (ps : List Pair) → let F = dyn_format table.old H.hash
        in IsFilled F duplicates start ps table.old.store → OnOk result
        (IsFilled F duplicates start (ps ++ input_pairs input.now) table.new.store) }
    ensures lengths { table.new
        ≡ dyn_store table.old.key_len table.old.value_len table.new.store }
    ensures memory { OnErr result (result ≡ Err Memory) }
{
    match input.shape.hash() {
        Hash::Fx => {
            let old = open_valid::<FxHashFn>(texts, input.bytes.as_slice());
            insert_kept(run, table, old.iter(), duplicates, errors)
        }
        Hash::Unhash => {
            let old = open_valid::<UnHashFn>(texts, input.bytes.as_slice());
            insert_kept(run, table, old.iter(), duplicates, errors)
        }
        Hash::Xxh64 => {
            let old = open_valid::<Xxh64HashFn>(texts, input.bytes.as_slice());
            insert_kept(run, table, old.iter(), duplicates, errors)
        }
    }
}

// Inserts the pairs in turn that count.
fn insert_kept<S: HashFn, H: HashFn, R: AllocGlobal + Clock, E: Write>(
    run: &mut PairRun<'_, R>,
    table: &mut DynTableOwned<H>,
    pairs: DynIter<'_, S>,
    duplicates: Duplicates,
    errors: &mut E,
) -> Result<(), Failure>
    requires { All (HasLengthsOf table.old.key_len table.old.value_len) pairs }
    ensures inserted { (start : Table) (ps : List Pair) → let F = dyn_format table.old H.hash
        in IsFilled F duplicates start ps table.old.store
        → OnOk result (IsFilled F duplicates start (ps ++ pairs.entry) table.new.store) }
    ensures lengths { table.new
        ≡ dyn_store table.old.key_len table.old.value_len table.new.store }
    ensures memory { OnErr result (result ≡ Err Memory) }
{
    for (key, value) in pairs {
        insert_one(table, key, value, duplicates)?;
        run.count(errors);
    }
    Ok(())
}

// Inserts a pair, if it counts.
fn insert_one<H: HashFn>(
    table: &mut DynTableOwned<H>,
    key: &[u8],
    value: &[u8],
    duplicates: Duplicates,
) -> Result<(), Failure>
    requires key { length key.now ≡ table.old.key_len }
    requires value { length value.now ≡ table.old.value_len }
    ensures inserted { (start : Table) (ps : List Pair) → let F = dyn_format table.old H.hash
        in let one : Pair = record { key = key.now; value = value.now }
        in IsFilled F duplicates start ps table.old.store
        → OnOk result (IsFilled F duplicates start (ps ++ one ∷ []) table.new.store) }
    ensures lengths { table.new
        ≡ dyn_store table.old.key_len table.old.value_len table.new.store }
    ensures memory { OnErr result (result ≡ Err Memory) }
{
    if is_left_out(table, key, duplicates) {
        return Ok(());
    }
    match table.insert(key, value) {
        Ok(_) => Ok(()),
        Err(_) => Err(Failure::Memory),
    }
}

// Whether a pair of this key does not count, as the table has the key.
fn is_left_out<H: HashFn>(table: &DynTableOwned<H>, key: &[u8], duplicates: Duplicates) -> bool
    ensures { (start : Table) (ps : List Pair)
        → IsFilled (dyn_format table.now H.hash) duplicates start ps table.now.store
        → result ≡ leaves_out duplicates ps key.now }
{
    match duplicates {
        Duplicates::First => table.contains_key(key),
        _ => false,
    }
}
