//! `odht rebuild`: a table file from scratch, of another load factor or hash function.
ghost use Rattle.std.specs.Prelude.{◌≡◌, ◌≤◌, All, IfErr, IfOk, Err, OnErr, OnOk};
ghost use Rattle.odht_base.specs.Decoded.{header_count};
ghost use Rattle.odht_base.specs.Format.{format_of};
ghost use Rattle.odht_base.specs.Valid.{IsValidBytes};
ghost use Rattle.odht_raw.specs.DynParts.{HasLengthsOf};
ghost use Rattle.odht.specs.Dynamic.{dyn_format, dyn_store};
ghost use Rattle.odht.specs.Plain.{IsRunOf};
ghost use Rattle.odht.specs.Tables.{OfTable};
ghost use Rattle.odht_tool_core.specs.AnyShapes.{HasLongKeys, any_format};
ghost use Rattle.odht_tool_core.specs.InfoNumbers.{least_key_len};
ghost use Rattle.odht_tool_core.specs.Percents.{new_percent};
ghost use Rattle.odht_tool_core.specs.ReadyShapes.{hash_of};
ghost use Rattle.odht_tool_core.specs.declared.failure.Failure.TheVariants.{Memory};
ghost use Rattle.odht_tool_writes.specs.Rebuilds.{IsRebuilt, IsRebuiltOf, IsNewFailure};
ghost use Rattle.odht_tool_writes.specs.Rebuilds.{IsRebuildFailure, new_hash, rehashed};

use crate::reports::PairRun;
use crate::starts::make_lengths;
use odht::bytes::Borrowed;
use odht::dynamic::{DynTable, DynTableOwned, Layout};
use odht::hash::HashFn;
use odht::load::Percent;
use odht::raw_table::DynIter;
use odht::{FxHashFn, UnHashFn, Xxh64HashFn};
use odht_tool_core::any::{AnyShape, named_any};
use odht_tool_core::arguments::RebuildOptions;
use odht_tool_core::failure::Failure;
use odht_tool_core::files::read_file;
use odht_tool_core::found::found_any;
use odht_tool_core::new_file::{NewFile, ended, make_new, replace_file};
use odht_tool_core::percents::new_percent;
use odht_tool_core::shapes::Hash;
use odht_tool_core::status::Status;
use odht_tool_core::targets::Target;
use odht_tool_tables::checks::check_any;
use std::io::Write;
use std::os::fd::AsFd;
use std::rt::{Clock, Files};

/// Makes a new table of the pairs of the table in the file, and stores it in the place of the
/// older one, which stays where something fails.
pub fn rebuild<R: Files + AllocGlobal + Clock, E: Write>(
    rt: &R,
    file: &str,
    options: RebuildOptions,
    errors: &mut E,
) -> Result<Status, Failure>
where
    R::File: AsFd,
{
    let target = Target::find_table(rt, file, options.breaks_links)?;
    let mut new = make_new(rt, target)?;
    let done = rebuild_as(rt, &mut new, options, errors);
    ended(rt, new, done)
}

// The same with the new file that replaces the older one.
fn rebuild_as<R: Files + AllocGlobal + Clock, E: Write>(
    rt: &R,
    new: &mut NewFile<R::File>,
    options: RebuildOptions,
    errors: &mut E,
) -> Result<Status, Failure>
where
    R::File: AsFd,
{
    let bytes = read_file(rt, new.path())?;
    let bytes = rebuilt(rt, bytes, options, errors)?;
    replace_file(rt, new, bytes.as_slice())?;
    Ok(Status::Done)
}

// The bytes of the new table. Those of the old one are checked whole before, with the bound of
// searches where there is one, and freed once the new one has its pairs.
fn rebuilt<R: AllocGlobal + Clock, E: Write>(
    rt: &R,
    bytes: Vec<u8>,
    options: RebuildOptions,
    errors: &mut E,
) -> Result<Vec<u8>, Failure>
    ensures ok { IfOk result (λ new. let p = new_percent bytes.items options.percent
        in IsRebuiltOf bytes.items options.hash options.bound p new.items) }
    ensures err { let p = new_percent bytes.items options.percent
        in IfErr result (IsRebuildFailure bytes.items options.hash options.bound p) }
{
    let bytes = bytes.as_slice();
    let shape = found_any(bytes, None)?;
    let hash = new_hash(bytes, shape, options.hash)?;
    match check_any(shape, bytes, options.bound) {
        Ok(()) => {
            let percent = new_percent(bytes, options.percent);
            let run = PairRun::new(rt, options.has_progress);
            rebuilt_for(run, shape, hash, bytes, percent, errors)
        }
        Err(error) => Err(Failure::Refused(error)),
    }
}

// The same of valid bytes of a shape, and of the hash function of the new table.
fn rebuilt_for<R: AllocGlobal + Clock, E: Write>(
    run: PairRun<'_, R>,
    shape: AnyShape,
    hash: Hash,
    bytes: &[u8],
    percent: Percent,
    errors: &mut E,
) -> Result<Vec<u8>, Failure>
    requires long { HasLongKeys shape }
    requires valid { IsValidBytes (any_format shape) bytes.now }
    ensures ok { let F = rehashed (any_format shape) hash
        in OfTable (any_format shape) bytes.now
        (λ P. IfOk result (λ new. IsRebuilt F percent P new.items)) }
    ensures err { let F = rehashed (any_format shape) hash
        in IfErr result (IsNewFailure (least_key_len hash) F (header_count bytes.now) percent) }
{
    let layout = Layout {
        key_len: shape.key().size(),
        value_len: shape.value().size(),
    };
    match shape.hash() {
        Hash::Fx => { rebuilt_from::<FxHashFn, R, E>(run, layout, hash, bytes, percent, errors) }
        Hash::Unhash => {
            rebuilt_from::<UnHashFn, R, E>(run, layout, hash, bytes, percent, errors)
        }
        Hash::Xxh64 => {
            rebuilt_from::<Xxh64HashFn, R, E>(run, layout, hash, bytes, percent, errors)
        }
    }
}

// The same of lengths and of the hash function of the old table.
fn rebuilt_from<S: HashFn, R: AllocGlobal + Clock, E: Write>(
    run: PairRun<'_, R>,
    layout: Layout,
    hash: Hash,
    bytes: &[u8],
    percent: Percent,
    errors: &mut E,
) -> Result<Vec<u8>, Failure>
    requires valid { IsValidBytes (format_of layout.key_len layout.value_len S.hash) bytes.now }
    requires hashes { S.MIN_LEN ≤ layout.key_len }
    ensures ok { let F = format_of layout.key_len layout.value_len (hash_of hash)
        in OfTable (format_of layout.key_len layout.value_len S.hash) bytes.now
        (λ P. IfOk result (λ new. IsRebuilt F percent P new.items)) }
    ensures err { let F = format_of layout.key_len layout.value_len (hash_of hash)
        in IfErr result (IsNewFailure (least_key_len hash) F (header_count bytes.now) percent) }
{
    match hash {
        Hash::Fx => rebuilt_as::<S, FxHashFn, R, E>(run, layout, bytes, percent, errors),
        Hash::Unhash => rebuilt_as::<S, UnHashFn, R, E>(run, layout, bytes, percent, errors),
        Hash::Xxh64 => rebuilt_as::<S, Xxh64HashFn, R, E>(run, layout, bytes, percent, errors),
    }
}

// The hash function of the new table. The one that is named needs keys that are long enough.
fn new_hash(bytes: &[u8], shape: AnyShape, hash: Option<Hash>) -> Result<Hash, Failure>
    ensures { result ≡ new_hash bytes.now shape hash }
{
    match hash {
        None => Ok(shape.hash()),
        Some(named) => Ok(named_any(bytes, Some(named))?.hash()),
    }
}

// The same of lengths and of the hash functions of the old table and of the new one.
fn rebuilt_as<S: HashFn, H: HashFn, R: AllocGlobal + Clock, E: Write>(
    run: PairRun<'_, R>,
    layout: Layout,
    bytes: &[u8],
    percent: Percent,
    errors: &mut E,
) -> Result<Vec<u8>, Failure>
    requires valid { IsValidBytes (format_of layout.key_len layout.value_len S.hash) bytes.now }
    requires hashes { S.MIN_LEN ≤ layout.key_len }
    ensures ok { let F = format_of layout.key_len layout.value_len H.hash
        in OfTable (format_of layout.key_len layout.value_len S.hash) bytes.now
        (λ P. IfOk result (λ new. IsRebuilt F percent P new.items)) }
    ensures err { let F = format_of layout.key_len layout.value_len H.hash
        in IfErr result (IsNewFailure H.MIN_LEN F (header_count bytes.now) percent) }
{
    let old: DynTable<S, Borrowed<'_>> = DynTable::open_unchecked(layout, Borrowed::new(bytes));
    let mut table = make_lengths::<H>(run.alloc(), layout, old.len(), percent)?;
    insert_pairs(run, &mut table, old.iter(), errors)?;
    Ok(table.into_raw_bytes())
}

// Inserts the pairs in turn.
fn insert_pairs<S: HashFn, H: HashFn, R: AllocGlobal + Clock, E: Write>(
    mut run: PairRun<'_, R>,
    table: &mut DynTableOwned<H>,
    pairs: DynIter<'_, S>,
    errors: &mut E,
) -> Result<(), Failure>
    requires { All (HasLengthsOf table.old.key_len table.old.value_len) pairs }
    ensures inserted { OnOk result
        (IsRunOf (dyn_format table.old H.hash) table.old.store pairs.entry table.new.store) }
    ensures lengths { table.new
        ≡ dyn_store table.old.key_len table.old.value_len table.new.store }
    ensures memory { OnErr result (result ≡ Err Memory) }
{
    for (key, value) in pairs {
        if table.insert(key, value).is_err() {
            return Err(Failure::Memory);
        }
        run.count(errors);
    }
    run.end(errors);
    Ok(())
}
