//! Inserts into the parts of a table: slot by slot, and by groups.
ghost use Rattle.std.specs.Prelude.{◌≡◌, length, IfOk};
ghost use Rattle.odht_base.specs.Image.{image_len};
ghost use Rattle.odht_base.specs.Load.{IsSlotCount};
ghost use Rattle.odht_raw.specs.PartLengths.{ArePartLengths};

use crate::vectors::Fault;
use crate::vectors::answer::Answer;
use crate::vectors::numbers::slot_count;
use crate::vectors::words::{Case, Words};
use odht::bytes::ByteArray;
use odht::config::{Coded, Config};
use odht::error::Error;
use odht::hash::HashFn;
use odht::memory_layout::{self, HEADER_SIZE, Header};
use odht::raw_table::{RawTableMut, plain_insert};

/// What each pair's insert into the parts returns, and the bytes that they leave. The header
/// stays. Both forms of an insert are run, and have to agree.
pub fn insert<C: Config>(
    case: &Case<'_>,
    bytes: &mut [u8],
    answer: &mut Answer,
) -> Result<(), Fault> {
    let mut copy = bytes.to_vec(case.words.alloc)?;
    let mut plain = Answer::new(case.words.alloc);
    for pair in case.args {
        insert_pair::<C>(&case.words, bytes, *pair, false, answer)?;
        insert_pair::<C>(&case.words, copy.as_mut_slice(), *pair, true, &mut plain)?;
        if !answer.has_words_of(&plain) || *bytes != *copy.as_slice() {
            return answer.word(&"both forms differ");
        }
    }
    answer.table(bytes)
}

fn insert_pair<C: Config>(
    words: &Words<'_>,
    bytes: &mut [u8],
    pair: &str,
    is_plain: bool,
    answer: &mut Answer,
) -> Result<(), Fault> {
    let (key, value) = words.pair(pair)?;
    answer.former(insert_one::<C>(bytes, key, value, is_plain)?)
}

// Inserts a pair into the parts of a table in these bytes, slot by slot or by groups.
fn insert_one<C: Config>(
    bytes: &mut [u8],
    key: C::EncodedKey,
    value: C::EncodedValue,
    is_plain: bool,
) -> Result<Result<Option<C::EncodedValue>, Error>, Fault> {
    let slots = slots_of::<C>(bytes)?;
    let (table, control) = bytes.split_at_mut(memory_layout::entry_at::<C>(slots));
    let (_, entries) = table.split_at_mut(HEADER_SIZE);
    Ok(insert_into::<C::EncodedKey, C::EncodedValue, C::H>(control, entries, key, value, is_plain))
}

// The slot count in the header of bytes that are as long as it says.
fn slots_of<C: Config>(bytes: &[u8]) -> Result<usize, Fault>
    ensures { IfOk result (λ slots. IsSlotCount slots
        × (length bytes.now ≡ image_len ⟦<C as Coded>⟧.coding.format slots)) }
{
    if bytes.len() < HEADER_SIZE {
        return Err(Fault::Unread);
    }
    let slots = slot_count(Header::of(bytes).slot_count())?;
    match memory_layout::bytes_needed::<C>(slots) {
        Some(len) if len == bytes.len() => Ok(slots),
        _ => Err(Fault::Unread),
    }
}

fn insert_into<K: ByteArray, V: ByteArray, H: HashFn>(
    control: &mut [u8],
    entries: &mut [u8],
    key: K,
    value: V,
    is_plain: bool,
) -> Result<Option<V>, Error>
    requires { ArePartLengths H.MIN_LEN K.LEN V.LEN (length entries.old) (length control.old) }
{
    if is_plain {
        return plain_insert::<K, V, H>(control, entries, key, value);
    }
    let mut table: RawTableMut<'_, '_, K, V, H> = RawTableMut::new(control, entries);
    table.insert(key, value)
}
