//! The table that lines are added to, as it is at first: an empty one, or that of a file.
ghost use Rattle.std.specs.Prelude.{◌≡◌, ◌≤◌, None, Some, IfErr, IfOk};
ghost use Rattle.odht_base.specs.Format.{format_of};
ghost use Rattle.odht_base.specs.Table.{fresh};
ghost use Rattle.odht_base.specs.Valid.{IsImage};
ghost use Rattle.odht_header.specs.Refusals.{check_refusal_by};
ghost use Rattle.odht.specs.DynOwned.{IsDynWith};
ghost use Rattle.odht_tool_writes.specs.Inserted.{copy_failure};
ghost use Rattle.odht_tool_writes.specs.Rebuilds.{IsNewFailure};

use odht::HashTableOwned;
use odht::config::{Coded, Config};
use odht::dynamic::{DynError, DynTableOwned, Layout};
use odht::hash::HashFn;
use odht::load::Percent;
use odht_tool_core::failure::Failure;
use odht_tool_tables::dynamic::check_lengths;
use std::alloc::Global;

/// An empty table of a configuration, for that many items.
pub fn make_table<C: Config>(
    alloc: Global,
    capacity: usize,
    percent: Percent,
) -> Result<HashTableOwned<C>, Failure>
    ensures { IfOk result (λ table. fresh capacity percent ≡ Some table) }
{
    HashTableOwned::with_capacity(alloc, capacity, percent.value()).map_err(Failure::of_table)
}

/// An empty table of these lengths, for that many items.
pub fn make_lengths<H: HashFn>(
    alloc: Global,
    layout: Layout,
    capacity: usize,
    percent: Percent,
) -> Result<DynTableOwned<H>, Failure>
    ensures ok { IfOk result
        (IsDynWith layout.key_len layout.value_len (λ P. fresh capacity percent ≡ Some P)) }
    ensures err { let F = format_of layout.key_len layout.value_len H.hash
        in IfErr result (IsNewFailure H.MIN_LEN F capacity percent) }
{
    match DynTableOwned::with_capacity(alloc, layout, capacity, percent.value()) {
        Ok(table) => Ok(table),
        Err(DynError::KeyTooShort { key_len, least: _ }) => {
            Err(Failure::ShortKeys { key_size: key_len })
        }
        Err(DynError::Rejected(error)) => Err(Failure::of_table(error)),
        // The others are errors of inserts.
        Err(_) => Err(Failure::Memory),
    }
}

/// The table of these bytes of a configuration. They are checked whole before, with the bound of
/// searches where there is one, and freed once the table has a copy.
pub fn copy_table<C: Config>(
    alloc: Global,
    bytes: Vec<u8>,
    bound: Option<usize>,
) -> Result<HashTableOwned<C>, Failure>
    ensures ok { IfOk result (λ table. IsImage ⟦<C as Coded>⟧.coding.format table bytes.items) }
    ensures valid { IfOk result (λ _. let F = ⟦<C as Coded>⟧.coding.format
        in check_refusal_by F bound bytes.items ≡ None) }
    ensures err { IfErr result (λ failure. let F = ⟦<C as Coded>⟧.coding.format
        in failure ≡ copy_failure F bound bytes.items) }
{
    let bytes = bytes.as_slice();
    check_lengths::<C::H>(Layout::of::<C>(), bytes, bound).map_err(Failure::Refused)?;
    HashTableOwned::from_raw_bytes_unchecked(alloc, bytes).map_err(Failure::of_table)
}

/// The same of bytes of these lengths.
pub fn copy_lengths<H: HashFn>(
    alloc: Global,
    layout: Layout,
    bytes: Vec<u8>,
    bound: Option<usize>,
) -> Result<DynTableOwned<H>, Failure>
    requires { H.MIN_LEN ≤ layout.key_len }
    ensures ok { let F = format_of layout.key_len layout.value_len H.hash in IfOk result
        (IsDynWith layout.key_len layout.value_len (λ P. IsImage F P bytes.items)) }
    ensures valid { IfOk result (λ _. let F = format_of layout.key_len layout.value_len H.hash
        in check_refusal_by F bound bytes.items ≡ None) }
    ensures err { IfErr result (λ failure. let F = format_of layout.key_len layout.value_len H.hash
        in failure ≡ copy_failure F bound bytes.items) }
{
    let bytes = bytes.as_slice();
    check_lengths::<H>(layout, bytes, bound).map_err(Failure::Refused)?;
    // The bytes are valid, so only an allocation can fail.
    DynTableOwned::from_raw_bytes(alloc, layout, bytes).map_err(|_| Failure::Memory)
}
