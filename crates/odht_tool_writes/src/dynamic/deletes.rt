//! `odht delete` of dynamic tables.
ghost use Rattle.std.specs.Prelude.{◌≡◌, ◌≤◌, ◌++◌, ◌∷◌, [], List, ℕ, IfOk, Err, OnErr, OnOk};
ghost use Rattle.std.specs.Prelude.{All, length, map};
ghost use Rattle.std.specs.Io.KnownBytes.{Appends};
ghost use Rattle.odht_base.specs.Format.{format_of};
ghost use Rattle.odht_base.specs.Table.{Pair, Table};
ghost use Rattle.odht_base.specs.Valid.{IsValidBytes};
ghost use Rattle.odht_raw.specs.DynParts.{HasLengthsOf};
ghost use Rattle.odht.specs.Dynamic.{dyn_format, dyn_store};
ghost use Rattle.odht.specs.DynOwned.{IsDynWith};
ghost use Rattle.odht.specs.Plain.{IsRunOf};
ghost use Rattle.odht.specs.Tables.{OfTable};
ghost use Rattle.odht_tool_core.specs.declared.failure.Failure.TheVariants.{Memory};
ghost use Rattle.odht_tool_writes.specs.Deletes.{AreNamed, IsDeleted, IsLeft, absent_lines, cleared};
ghost use Rattle.odht_tool_writes.specs.Deletes.{have_values, without};

use crate::reports::PairRun;
use crate::starts::make_lengths;
use odht::bytes::Borrowed;
use odht::dynamic::{DynTable, DynTableOwned, Layout};
use odht::hash::HashFn;
use odht::load::Percent;
use odht::memory_layout::{Header, init_parts};
use odht::raw_table::DynIter;
use odht_tool_core::failure::Failure;
use odht_tool_core::key_lists::{ByteKeys, Keys};
use odht_tool_core::keys::{Word, write_absent};
use odht_tool_core::status::Status;
use std::alloc::Global;
use std::io::{self, Write};
use std::rt::Clock;

/// Keys, each with the word or the line that is its text.
#[derive(Drop)]
pub struct NamedKeys<'a, W> {
    pub words: &'a [W],
    pub keys: &'a ByteKeys,
}

/// The bytes of the table without these keys, and whether each had a value; a line on `errors`
/// tells of each that had none.
pub fn delete_lengths<H: HashFn, W: Word, R: AllocGlobal + Clock, E: Write>(
    run: PairRun<'_, R>,
    file: &str,
    layout: Layout,
    bytes: &[u8],
    named: &NamedKeys<'_, W>,
    errors: &mut E,
) -> Result<(Vec<u8>, Status), Failure>
    requires valid { IsValidBytes (format_of layout.key_len layout.value_len H.hash) bytes.now }
    requires hashes { H.MIN_LEN ≤ layout.key_len }
    requires each { length named.now.words.now ≡ length named.now.keys.now }
    ensures ok { let F = format_of layout.key_len layout.value_len H.hash
        in OfTable F bytes.now (λ P. IfOk result
        (λ x. IsLeft F named.now.keys.now P x.0.items x.1)) }
    ensures memory { OnErr result (result ≡ Err Memory) }
{
    let old: DynTable<H, Borrowed<'_>> = DynTable::open_unchecked(layout, Borrowed::new(bytes));
    let left = left_pairs(run, &old, named.keys, errors)?;
    let are_there = are_there(&old, named.keys);
    if !are_there {
        // A line that cannot be written is no failure.
        let _ = write_absent_keys(file, &old, named.words, named.keys, errors);
    }
    Ok((left, Status::of(are_there)))
}

// The bytes of the table without these keys.
fn left_pairs<H: HashFn, R: AllocGlobal + Clock, E: Write>(
    run: PairRun<'_, R>,
    old: &DynTable<H, Borrowed<'_>>,
    keys: &ByteKeys,
    errors: &mut E,
) -> Result<Vec<u8>, Failure>
    requires { IsValidBytes (dyn_format old.now H.hash) old.now.store.0.now }
    ensures ok { let F = dyn_format old.now H.hash in OfTable F old.now.store.0.now
        (λ P. IfOk result (λ new. IsDeleted F keys.now P new.items)) }
    ensures memory { OnErr result (result ≡ Err Memory) }
{
    let named = named_keys::<H>(run.alloc(), old.layout().key_len, keys)?;
    let mut table = cleared(run.alloc(), old)?;
    insert_others(run, &mut table, &named, old.iter(), errors)?;
    Ok(table.into_raw_bytes())
}

// A table of these keys, with values of no bytes.
fn named_keys<H: HashFn>(
    alloc: Global,
    key_len: u8,
    keys: &ByteKeys,
) -> Result<DynTableOwned<H>, Failure>
    requires { H.MIN_LEN ≤ key_len }
    ensures ok { IfOk result (IsDynWith key_len 0 (AreNamed keys.now)) }
    ensures memory { OnErr result (result ≡ Err Memory) }
{
    let mut named = no_keys::<H>(alloc, key_len)?;
    for at in 0..keys.count() {
        if named.insert(keys.at(at), b"").is_err() {
            return Err(Failure::Memory);
        }
    }
    Ok(named)
}

fn no_keys<H: HashFn>(alloc: Global, key_len: u8) -> Result<DynTableOwned<H>, Failure>
    requires { H.MIN_LEN ≤ key_len }
    ensures ok { IfOk result (IsDynWith key_len 0 (AreNamed [])) }
    ensures memory { OnErr result (result ≡ Err Memory) }
{
    let layout = Layout {
        key_len,
        value_len: 0,
    };
    make_lengths::<H>(alloc, layout, 12, Percent::new(87).unwrap())
}

// An empty table of the slot count and the load factor of this one.
fn cleared<H: HashFn>(
    alloc: Global,
    old: &DynTable<H, Borrowed<'_>>,
) -> Result<DynTableOwned<H>, Failure>
    requires { IsValidBytes (dyn_format old.now H.hash) old.now.store.0.now }
    ensures ok { let t = old.now in let F = dyn_format t H.hash in OfTable F t.store.0.now
        (λ P. IfOk result (IsDynWith t.key_len t.value_len (λ Q. Q ≡ cleared P))) }
    ensures memory { OnErr result (result ≡ Err Memory) }
{
    let (layout, bytes) = (old.layout(), old.raw_bytes());
    let header = Header::of(bytes);
    let len = bytes.len();
    let Ok(mut empty) = vec![in alloc; 0; len] else {
        return Err(Failure::Memory);
    };
    init_parts(
        empty.as_mut_slice(),
        layout,
        header.slot_count(),
        0,
        header.max_load_factor(),
    );
    DynTableOwned::from_raw_bytes(alloc, layout, empty.as_slice()).map_err(|_| Failure::Memory)
}

// Inserts the pairs in turn whose keys are not named.
fn insert_others<H: HashFn, R: AllocGlobal + Clock, E: Write>(
    mut run: PairRun<'_, R>,
    table: &mut DynTableOwned<H>,
    named: &DynTableOwned<H>,
    pairs: DynIter<'_, H>,
    errors: &mut E,
) -> Result<(), Failure>
    requires { All (HasLengthsOf table.old.key_len table.old.value_len) pairs }
    ensures inserted { (ks : List (List ℕ)) → AreNamed ks named.now.store
        → (let F = dyn_format table.old H.hash in OnOk result
        (IsRunOf F table.old.store (without ks pairs.entry) table.new.store)) }
    ensures lengths { table.new
        ≡ dyn_store table.old.key_len table.old.value_len table.new.store }
    ensures memory { OnErr result (result ≡ Err Memory) }
{
    for (key, value) in pairs {
        insert_other(table, named, key, value)?;
        run.count(errors);
    }
    run.end(errors);
    Ok(())
}

// Inserts a pair whose key is not named.
fn insert_other<H: HashFn>(
    table: &mut DynTableOwned<H>,
    named: &DynTableOwned<H>,
    key: &[u8],
    value: &[u8],
) -> Result<(), Failure>
    requires key { length key.now ≡ table.old.key_len }
    requires value { length value.now ≡ table.old.value_len }
    ensures inserted { (ks : List (List ℕ)) (P : Table) (ps : List Pair)
        → AreNamed ks named.now.store → (let F = dyn_format table.old H.hash
        in let one : Pair = record { key = key.now; value = value.now }
        in IsRunOf F P (without ks ps) table.old.store → OnOk result
        (IsRunOf F P (without ks (ps ++ one ∷ [])) table.new.store)) }
    ensures lengths { table.new
        ≡ dyn_store table.old.key_len table.old.value_len table.new.store }
    ensures memory { OnErr result (result ≡ Err Memory) }
{
    if named.contains_key(key) {
        return Ok(());
    }
    match table.insert(key, value) {
        Ok(_) => Ok(()),
        Err(_) => Err(Failure::Memory),
    }
}

// Whether each key has a value.
fn are_there<H: HashFn>(table: &DynTable<H, Borrowed<'_>>, keys: &ByteKeys) -> bool
    ensures { OfTable (dyn_format table.now H.hash) table.now.store.0.now
        (λ P. result ≡ have_values P keys.now) }
{
    for at in 0..keys.count() {
        if !table.contains_key(keys.at(at)) {
            return false;
        }
    }
    true
}

// Writes a line for each word or line whose key has no value.
fn write_absent_keys<H: HashFn, W: Word, E: Write>(
    file: &str,
    table: &DynTable<H, Borrowed<'_>>,
    words: &[W],
    keys: &ByteKeys,
    errors: &mut E,
) -> io::Result<()>
    requires { length words.now ≡ length keys.now }
    ensures { OfTable (dyn_format table.now H.hash) table.now.store.0.now (λ P. OnOk result
        (Appends (E.contents errors.old) (E.contents errors.new)
        (absent_lines file.now P (map W.bytes words.now) keys.now))) }
{
    for at in 0..words.len() {
        if !table.contains_key(keys.at(at)) {
            write_absent(file, words[at].bytes(), errors)?;
        }
    }
    Ok(())
}
