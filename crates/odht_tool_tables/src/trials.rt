//! What makes the searches of a table short: rebuilds of it that are tried in memory.
ghost use Rattle.std.specs.Prelude.{◌≡◌, ◌≤◌, ◌&&◌, Err, IfOk, None, OnErr, length, nat_le, slice_index};
ghost use Rattle.std.specs.Result.{result_err};
ghost use Rattle.odht_base.specs.Decoded.{decoded_pairs};
ghost use Rattle.odht_base.specs.Format.{format_of};
ghost use Rattle.odht_base.specs.Hashes.{fx};
ghost use Rattle.odht_raw.specs.Frame.{IsAccepted};
ghost use Rattle.odht_tool_core.specs.InfoNumbers.{info_refusal, file_parts};
ghost use Rattle.odht_tool_core.specs.declared.failure.Failure.TheVariants.{Memory};
ghost use Rattle.odht_tool_tables.specs.Trials.{advice, first_help, has_high_load, has_long, helps};
ghost use Rattle.odht_tool_tables.specs.Trials.{is_short, is_taken, lower_load_helps};
ghost use Rattle.odht_tool_tables.specs.Trials.{mixing_helps, taken_hash};

use crate::checks::check_any;
use crate::short_inserts::{has_long_search, insert_short};
use odht::bytes::Borrowed;
use odht::dynamic::{DynTable, DynTableOwned, Layout};
use odht::error::Error;
use odht::hash::HashFn;
use odht::load::Percent;
use odht::memory_layout::DEFAULT_GROUPS;
use odht::raw_table::DynIter;
use odht::{FxHashFn, UnHashFn, Xxh64HashFn};
use odht_tool_core::advice::Advice;
use odht_tool_core::failure::Failure;
use odht_tool_core::found::found_any;
use odht_tool_core::percents::kept_percent;
use odht_tool_core::shapes::Hash;
use odht_tool_core::stored::StoredTable;
use std::alloc::Global;

/// The percentage of `Advice::LowerLoad`.
const LOWER: u8 = 50;

/// What makes the searches of the table of these bytes short: the first rebuild that has no long
/// search, of one at a lower load, where the load is high, and of one by `xxh64`, where the table
/// has another hash function. None where the table has no long search either, where `odht rebuild`
/// rejects it, or where neither rebuild helps. `Memory` where memory is short for a rebuild.
///
/// A rebuild ends at the first key whose search would be long, so that it takes time in proportion
/// to the bytes.
pub fn advice_of(alloc: Global, bytes: &[u8]) -> Result<Option<Advice>, Failure>
    ensures advice { IfOk result (λ found. found ≡ advice bytes.now) }
    ensures memory { OnErr result (result ≡ Err Memory) }
{
    if !has_long(bytes) {
        return Ok(None);
    }
    match taken_hash(bytes) {
        Some(hash) => first_help(alloc, bytes, hash),
        None => Ok(None),
    }
}

// Whether header and length fit, and a search for an absent key is long.
fn has_long(bytes: &[u8]) -> bool
    ensures { result ≡ has_long bytes.now }
{
    match StoredTable::open(bytes) {
        Ok(table) => table.has_long_search(),
        Err(_) => false,
    }
}

// The hash function of a file that `odht rebuild` takes, with `--whole` where a search is too long.
fn taken_hash(bytes: &[u8]) -> Option<Hash>
    ensures { result ≡ taken_hash bytes.now }
{
    let shape = found_any(bytes, None).ok()?;
    if is_taken(check_any(shape, bytes, Some(DEFAULT_GROUPS))) {
        Some(shape.hash())
    } else {
        None
    }
}

// Whether no rule is broken, or the bound of searches alone.
fn is_taken(checked: Result<(), Error>) -> bool
    ensures { result ≡ is_taken (result_err checked) }
{
    match checked {
        Ok(()) | Err(Error::SearchTooLong { .. }) => true,
        Err(_) => false,
    }
}

// The first help of a table of this hash function.
fn first_help(alloc: Global, bytes: &[u8], hash: Hash) -> Result<Option<Advice>, Failure>
    requires { info_refusal bytes.now ≡ None }
    ensures advice { IfOk result (λ found. found ≡ first_help bytes.now hash) }
    ensures memory { OnErr result (result ≡ Err Memory) }
{
    let lower_load = lower_load_helps(alloc, bytes, hash)?;
    if lower_load {
        return Ok(Some(Advice::LowerLoad));
    }
    let mixing = mixing_helps(alloc, bytes, hash)?;
    if mixing {
        return Ok(Some(Advice::Mixing));
    }
    Ok(None)
}

// Whether the load is high, and a rebuild at a lower one helps.
fn lower_load_helps(alloc: Global, bytes: &[u8], hash: Hash) -> Result<bool, Failure>
    requires { info_refusal bytes.now ≡ None }
    ensures helps { IfOk result (λ is_so. is_so ≡ lower_load_helps bytes.now hash) }
    ensures memory { OnErr result (result ≡ Err Memory) }
{
    if has_high_load(bytes) {
        helps(alloc, bytes, hash, Percent::new(LOWER).unwrap())
    } else {
        Ok(false)
    }
}

// Whether the hash function is another than `xxh64`, and a rebuild by that one helps, at the load
// factor of the table.
fn mixing_helps(alloc: Global, bytes: &[u8], hash: Hash) -> Result<bool, Failure>
    requires { info_refusal bytes.now ≡ None }
    ensures helps { IfOk result (λ is_so. is_so ≡ mixing_helps bytes.now hash) }
    ensures memory { OnErr result (result ≡ Err Memory) }
{
    if hash.is(Hash::Xxh64) {
        Ok(false)
    } else {
        helps(alloc, bytes, Hash::Xxh64, kept_percent(bytes))
    }
}

// Whether more than half of the slots are occupied, in percent rounded down.
fn has_high_load(bytes: &[u8]) -> bool
    requires { info_refusal bytes.now ≡ None }
    ensures { result ≡ has_high_load (file_parts bytes.now) }
{
    match StoredTable::open(bytes) {
        Ok(table) => table.has_high_load(),
        Err(_) => false,
    }
}

// Whether a rebuild by this hash function, at this load factor, has no long search. Its keys have
// to be long enough for the function.
fn helps(alloc: Global, bytes: &[u8], hash: Hash, percent: Percent) -> Result<bool, Failure>
    requires { info_refusal bytes.now ≡ None }
    ensures helps { IfOk result (λ is_so. is_so ≡ helps bytes.now hash percent) }
    ensures memory { OnErr result (result ≡ Err Memory) }
{
    match hash {
        Hash::Fx => is_short::<FxHashFn>(alloc, bytes, percent),
        Hash::Unhash => is_short::<UnHashFn>(alloc, bytes, percent),
        Hash::Xxh64 => is_short::<Xxh64HashFn>(alloc, bytes, percent),
    }
}

// The same by the hash function `H`.
fn is_short<H: HashFn>(alloc: Global, bytes: &[u8], percent: Percent) -> Result<bool, Failure>
    requires { info_refusal bytes.now ≡ None }
    ensures short { let F = format_of (slice_index bytes.now 5) (slice_index bytes.now 6) H.hash
        in IfOk result (λ short. short ≡ (nat_le H.MIN_LEN (slice_index bytes.now 5)
        && is_short F percent (decoded_pairs F bytes.now))) }
    ensures memory { OnErr result (result ≡ Err Memory) }
{
    let Ok(table) = StoredTable::open(bytes) else {
        return Ok(false);
    };
    let layout = table.layout();
    if (layout.key_len as usize) < H::MIN_LEN {
        return Ok(false);
    }
    is_rebuilt_short::<H>(alloc, layout, bytes, percent)
}

// The same of the lengths of keys and values, of which the former are long enough.
fn is_rebuilt_short<H: HashFn>(
    alloc: Global,
    layout: Layout,
    bytes: &[u8],
    percent: Percent,
) -> Result<bool, Failure>
    requires accepted { IsAccepted (format_of layout.key_len layout.value_len fx) bytes.now }
    requires hashes { H.MIN_LEN ≤ layout.key_len }
    ensures short { let F = format_of layout.key_len layout.value_len H.hash
        in IfOk result (λ short. short ≡ is_short F percent (decoded_pairs F bytes.now)) }
    ensures memory { OnErr result (result ≡ Err Memory) }
{
    // `FxHashFn` stands for any hash function, since a walk hashes nothing.
    let old: DynTable<FxHashFn, Borrowed<'_>> = DynTable::open_unchecked(
        layout,
        Borrowed::new(bytes),
    );
    let (count, percent) = (count_of(old.iter()), percent.value());
    let Ok(mut new) = DynTableOwned::<H>::with_capacity(alloc, layout, count, percent) else {
        return Err(Failure::Memory);
    };
    let whole = insert_short(&mut new, old.iter())?;
    if whole {
        Ok(!has_long_search(new.raw_bytes()))
    } else {
        Ok(false)
    }
}

// How many pairs a walk gives.
fn count_of<H: HashFn>(pairs: DynIter<'_, H>) -> usize
    requires { length pairs ≤ usize.MAX }
    ensures { result ≡ length pairs.entry }
{
    let mut count = 0_usize;
    for _pair in pairs {
        count += 1;
    }
    count
}
