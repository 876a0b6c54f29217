//! Lines of text become a table, and a table lines: what the program for table files does with a
//! file's lines.

use crate::digest::Digest;
use crate::random::{Random, Sample, items, keys_in_other_order};
use crate::stopped::Stopped;
use odht::HashTableOwned;
use odht::config::Config;
use odht::configs::{Bytes16ToU64, Bytes32Set, U64ToU32, U64ToU64};
use odht_tool_core::answers::{absent_values, are_found, write_answers, write_pair};
use odht_tool_core::keys::{NextKey, next_key, push_key};
use odht_tool_core::lines::read_pair;
use odht_tool_core::slots::dump_slots;
use odht_tool_core::text::Text;
use std::alloc::Global;
use std::io::BufWriter;

// How many bytes are gathered before they are written on.
const BUFFER_SIZE: usize = 1 << 16;

/// A round: ten tables of a tenth of the largest number of lines for each of four shapes.
pub fn round(
    alloc: Global,
    largest: usize,
    random: &mut Random,
    digest: &mut Digest,
) -> Result<(), Stopped> {
    for _ in 0..10 {
        shape::<U64ToU32>(alloc, largest / 10, random, digest)?;
        shape::<U64ToU64>(alloc, largest / 10, random, digest)?;
        shape::<Bytes16ToU64>(alloc, largest / 10, random, digest)?;
        shape::<Bytes32Set>(alloc, largest / 10, random, digest)?;
    }
    Ok(())
}

// Writes so many pairs as lines, makes a table of these lines, writes its pairs and its slots as
// lines, and looks up the keys of lines.
fn shape<C: Config>(
    alloc: Global,
    count: usize,
    random: &mut Random,
    digest: &mut Digest,
) -> Result<(), Stopped>
where
    C::Key: Text + Sample,
    C::Value: Text + Sample,
{
    let pairs: Vec<(C::Key, C::Value)> = items(alloc, count, random)?;
    let text = lines_of(alloc, pairs.as_slice())?;
    let table: HashTableOwned<C> = table_of(alloc, text.as_slice())?;
    dump(alloc, &table, digest)?;
    dump_each_slot::<C>(alloc, table.raw_bytes(), digest)?;
    let keys = keys_in_other_order(alloc, pairs.as_slice())?;
    let words = words_of(alloc, keys.as_slice())?;
    answer(alloc, &table, words.as_slice(), digest)
}

// A line for each pair.
fn lines_of<K: Text, V: Text>(alloc: Global, pairs: &[(K, V)]) -> Result<Vec<u8>, Stopped> {
    let mut output = BufWriter::with_capacity(alloc, BUFFER_SIZE, Vec::new(alloc))?;
    for (key, value) in pairs {
        write_pair(key, value, &mut output)?;
    }
    output.into_inner().or(Err(Stopped::Output))
}

// A line for each key.
fn words_of<K: Text>(alloc: Global, keys: &[K]) -> Result<Vec<u8>, Stopped> {
    let absent = absent_values::<u32>(alloc, keys.len())?;
    let mut output = BufWriter::with_capacity(alloc, BUFFER_SIZE, Vec::new(alloc))?;
    write_answers(keys, absent.as_slice(), &mut output)?;
    output.into_inner().or(Err(Stopped::Output))
}

// The table of the pairs of lines, as `odht build` makes it.
fn table_of<C: Config>(alloc: Global, text: &[u8]) -> Result<HashTableOwned<C>, Stopped>
where
    C::Key: Text,
    C::Value: Text,
{
    let mut input = text;
    let mut line = Vec::new(alloc);
    let mut table: HashTableOwned<C> = HashTableOwned::default(alloc)?;
    for number in 1..u64::MAX {
        let Some((key, value)) = read_pair::<C::Key, C::Value, &[u8]>(
            &mut input, &mut line, number,
        )?
        else {
            break;
        };
        let _ = table.insert(&key, &value)?;
    }
    Ok(table)
}

// Writes a line for each pair of the table, as `odht dump` does.
fn dump<C: Config>(
    alloc: Global,
    table: &HashTableOwned<C>,
    digest: &mut Digest,
) -> Result<(), Stopped>
where
    C::Key: Text,
    C::Value: Text,
{
    let mut output = BufWriter::with_capacity(alloc, BUFFER_SIZE, Vec::new(alloc))?;
    for (key, value) in table.iter() {
        write_pair(&key, &value, &mut output)?;
    }
    let text = output.into_inner().or(Err(Stopped::Output))?;
    digest.bytes(text.as_slice());
    Ok(())
}

// Writes a line for each slot, as `odht dump --slots` does.
fn dump_each_slot<C: Config>(
    alloc: Global,
    bytes: &[u8],
    digest: &mut Digest,
) -> Result<(), Stopped>
where
    C::Key: Text,
    C::Value: Text,
{
    let mut output = BufWriter::with_capacity(alloc, BUFFER_SIZE, Vec::new(alloc))?;
    digest.holds(dump_slots::<C, BufWriter<Vec<u8>>>(bytes, &mut output)?.is_done());
    let text = output.into_inner().or(Err(Stopped::Output))?;
    digest.bytes(text.as_slice());
    Ok(())
}

// Looks up the keys of lines, and writes a line for each, as `odht get FILE -` does.
fn answer<C: Config>(
    alloc: Global,
    table: &HashTableOwned<C>,
    words: &[u8],
    digest: &mut Digest,
) -> Result<(), Stopped>
where
    C::Key: Text,
    C::Value: Text,
{
    let mut input = words;
    let mut line = Vec::new(alloc);
    let mut keys = Vec::new(alloc);
    for _ in 1..u64::MAX {
        match next_key::<C::Key, &[u8]>(&mut input, &mut line)? {
            NextKey::Key(key) => push_key(&mut keys, key)?,
            NextKey::NoKey => return Err(Stopped::Refused),
            NextKey::End => break,
        }
    }
    let mut values = absent_values::<C::Value>(alloc, keys.len())?;
    table.get_all(keys.as_slice(), values.as_mut_slice());
    let mut output = BufWriter::with_capacity(alloc, BUFFER_SIZE, Vec::new(alloc))?;
    write_answers(keys.as_slice(), values.as_slice(), &mut output)?;
    let text = output.into_inner().or(Err(Stopped::Output))?;
    digest.holds(are_found(values.as_slice()));
    digest.bytes(text.as_slice());
    Ok(())
}
