//! Inserts into the tables of configurations, and of lengths that are known only at run time.
ghost use Rattle.std.specs.Prelude.{◌≡◌, Err, IfOk, OnErr, OnOk};
ghost use Rattle.odht.specs.Dynamic.{dyn_coding};
ghost use Rattle.odht_tool_core.specs.declared.failure.Failure.TheVariants.{Memory};
ghost use Rattle.odht_tool_writes.specs.Inserted.{AreInserted, IsNewInsert};

use super::Inserts;
use crate::starts::{copy_lengths, copy_table, make_lengths, make_table};
use odht::HashTableOwned;
use odht::config::{Coded, Config};
use odht::dynamic::{DynTableOwned, Layout};
use odht::hash::HashFn;
use odht::load::Percent;
use odht_tool_core::failure::Failure;
use odht_tool_core::pairs::{BytePairs, Pairs};
use odht_tool_core::text::Text;
use std::alloc::Global;

impl<C: Config> Inserts for HashTableOwned<C>
where
    C::Key: Text,
    C::Value: Text,
{
    type Pairs = Vec<(C::Key, C::Value)>;

    ghost use Rattle.std.specs.Prelude.{◌≡◌, ⊤};

    ghost coding = { λ table. ⟦<C as Coded>⟧.coding };

    ghost stands_for = { λ table P. table ≡ P };

    ghost format = { λ key_len value_len. ⟦<C as Coded>⟧.coding.format };

    ghost is_long_enough = { λ key_len. ⊤ };

    ghost is_with = { λ key_len value_len S table. S table };

    fn empty(
        alloc: Global,
        _layout: Layout,
        capacity: usize,
        percent: Percent,
    ) -> Result<HashTableOwned<C>, Failure> {
        make_table(alloc, capacity, percent)
    }

    fn copy(
        alloc: Global,
        _layout: Layout,
        bytes: Vec<u8>,
        bound: Option<usize>,
    ) -> Result<HashTableOwned<C>, Failure> {
        copy_table(alloc, bytes, bound)
    }

    fn insert_pairs(&mut self, pairs: &Vec<(C::Key, C::Value)>) -> Result<(), Failure> {
        insert_all(self, pairs.as_slice())
    }

    fn insert_new(
        &mut self,
        pairs: &Vec<(C::Key, C::Value)>,
        index: usize,
    ) -> Result<bool, Failure> {
        let (key, value) = &pairs[index];
        insert_absent(self, key, value)
    }

    fn pair_count(&self) -> usize {
        self.len()
    }

    fn all_bytes(&self) -> &[u8] {
        self.raw_bytes()
    }
}

fn insert_all<C: Config>(
    table: &mut HashTableOwned<C>,
    pairs: &[(C::Key, C::Value)],
) -> Result<(), Failure>
    ensures inserted { OnOk result
        (AreInserted ⟦<C as Coded>⟧.coding (λ P. table.old ≡ P) pairs.now (λ P. table.new ≡ P)) }
    ensures memory { OnErr result (result ≡ Err Memory) }
{
    let (_, inserted) = table.insert_all(pairs);
    match inserted {
        Ok(()) => Ok(()),
        Err(_) => Err(Failure::Memory),
    }
}

// Inserts the pair where its key has no value, and returns whether that is so.
fn insert_absent<C: Config>(
    table: &mut HashTableOwned<C>,
    key: &C::Key,
    value: &C::Value,
) -> Result<bool, Failure>
    ensures new { IfOk result (λ new. IsNewInsert ⟦<C as Coded>⟧.coding (λ P. table.old ≡ P)
        key.now value.now new (λ P. table.new ≡ P)) }
    ensures memory { OnErr result (result ≡ Err Memory) }
{
    if table.contains_key(key) {
        return Ok(false);
    }
    match table.insert(key, value) {
        Ok(_) => Ok(true),
        Err(_) => Err(Failure::Memory),
    }
}

impl<H: HashFn> Inserts for DynTableOwned<H> {
    type Pairs = BytePairs;

    ghost use Rattle.std.specs.Prelude.{◌≡◌, ◌≤◌};
    ghost use Rattle.odht_base.specs.Format.{format_of};
    ghost use Rattle.odht.specs.Dynamic.{dyn_coding};
    ghost use Rattle.odht.specs.DynOwned.{IsDynWith};

    ghost coding = { λ table. dyn_coding table H.hash };

    ghost stands_for = { λ table P. table.store ≡ P };

    ghost format = { λ key_len value_len. format_of key_len value_len H.hash };

    ghost is_long_enough = { λ key_len. H.MIN_LEN ≤ key_len };

    ghost is_with = { IsDynWith };

    fn empty(
        alloc: Global,
        layout: Layout,
        capacity: usize,
        percent: Percent,
    ) -> Result<DynTableOwned<H>, Failure> {
        make_lengths(alloc, layout, capacity, percent)
    }

    fn copy(
        alloc: Global,
        layout: Layout,
        bytes: Vec<u8>,
        bound: Option<usize>,
    ) -> Result<DynTableOwned<H>, Failure> {
        copy_lengths(alloc, layout, bytes, bound)
    }

    fn insert_pairs(&mut self, pairs: &BytePairs) -> Result<(), Failure> {
        insert_each(self, pairs)
    }

    fn insert_new(&mut self, pairs: &BytePairs, index: usize) -> Result<bool, Failure> {
        let (key, value) = pairs.at(index);
        insert_absent_bytes(self, key, value)
    }

    fn pair_count(&self) -> usize {
        self.len()
    }

    fn all_bytes(&self) -> &[u8] {
        self.raw_bytes()
    }
}

fn insert_each<H: HashFn>(table: &mut DynTableOwned<H>, pairs: &BytePairs) -> Result<(), Failure>
    ensures inserted { OnOk result (AreInserted (dyn_coding table.old H.hash)
        (λ P. table.old.store ≡ P) pairs.now (λ P. table.new.store ≡ P)) }
    ensures memory { OnErr result (result ≡ Err Memory) }
{
    for index in 0..pairs.count() {
        let (key, value) = pairs.at(index);
        // Keys and values of the lines have the lengths of the table.
        if let Err(_) = table.insert(key, value) {
            return Err(Failure::Memory);
        }
    }
    Ok(())
}

// The same of a table of lengths that are known only at run time, which those of the key and the
// value are.
fn insert_absent_bytes<H: HashFn>(
    table: &mut DynTableOwned<H>,
    key: &[u8],
    value: &[u8],
) -> Result<bool, Failure>
    ensures new { IfOk result (λ new. IsNewInsert (dyn_coding table.old H.hash)
        (λ P. table.old.store ≡ P) key.now value.now new (λ P. table.new.store ≡ P)) }
    ensures memory { OnErr result (result ≡ Err Memory) }
{
    let is_known = table.contains_key(key);
    if is_known {
        return Ok(false);
    }
    match table.insert(key, value) {
        Ok(_) => Ok(true),
        Err(_) => Err(Failure::Memory),
    }
}
