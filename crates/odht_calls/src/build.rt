//! Tables that are built from pairs: in the caller's bytes, or in memory of their own and then
//! copied to the caller's.
ghost use Rattle.std.specs.Prelude.{◌≡◌, ◌⊎◌, length, All};
ghost use Rattle.std.specs.List.{zip};
ghost use Rattle.odht_base.specs.Valid.{IsPairOf};
ghost use Rattle.odht_raw.specs.Runs.{encoded_all};
ghost use Rattle.odht_calls.specs.Statuses.{done, too_small};
ghost use Rattle.odht_calls.specs.Builds.{IsHandedOut, BuildAnswers, BuildGrowingAnswers};

use crate::status::{BAD_PERCENT, CAPACITY, OK, TOO_SMALL, status_of};
use crate::write::{Pairs, Sizes, init, insert_items};
use odht::bytes::ByteArray;
use odht::config::{Coded, Config};
use odht::items::{Encoded, Zipped};
use odht::layout::Fixed;
use odht::load::Percent;
use odht::{HashTableOwned, bytes_needed};
use std::alloc::Global;
use std::marker::PhantomData;

/// Builds a table of the pairs at the front of `out`, with slots for as many items as there are
/// pairs, and writes its length in bytes to `len`. BAD_PERCENT and CAPACITY leave both unchanged,
/// TOO_SMALL leaves `out` unchanged. Allocates nothing.
#[inline]
pub fn collected<C: Config>(
    keys: &[C::Key],
    values: &[C::Value],
    max_load_factor_percent: u8,
    out: &mut [u8],
    len: &mut usize,
) -> u32
    requires { length values.now ≡ length keys.now }
    ensures { BuildAnswers ⟦<C as Coded>⟧.coding keys.now values.now max_load_factor_percent
        out.old len.old result out.new len.new }
{
    let Some(percent) = Percent::new(max_load_factor_percent) else {
        return BAD_PERCENT;
    };
    let percent = percent.value();
    let Some(needed) = bytes_needed::<C>(keys.len(), percent) else {
        return CAPACITY;
    };
    *len = needed;
    if out.len() < needed {
        hold_pairs::<C>(keys, values);
        return TOO_SMALL;
    }
    // There is room for each pair.
    let table = &mut out[..needed];
    let lengths: Sizes<C> = Fixed::new();
    let _ = init::<Sizes<C>, C::H>(lengths, table, keys.len(), percent);
    let pairs = Zipped::new(keys, values);
    let items: Pairs<'_, C> = Encoded {
        items: &pairs,
        config: PhantomData,
    };
    let mut accepted = 0;
    let _ = insert_items::<Sizes<C>, C::H, Pairs<'_, C>>(lengths, table, items, &mut accepted);
    OK
}

// Encodes each key and value and drops the bytes. It changes nothing: only the clause matters,
// which the proof needs. It is not a law of `ByteArray`, since a law speaks of every value of the
// logic: there a `[u8; 2]` is any list of numbers, and that it has two bytes is known only of one
// that a function has read.
#[inline(always)]
fn hold_pairs<C: Config>(keys: &[C::Key], values: &[C::Value])
    requires { length values.now ≡ length keys.now }
    ensures { let c = ⟦<C as Coded>⟧.coding
        in All (IsPairOf c.format) (encoded_all c (zip keys.now values.now)) }
{
    for index in 0..keys.len() {
        let key = C::encode_key(&keys[index]);
        let value = C::encode_value(&values[index]);
        let _ = key.as_slice();
        let _ = value.as_slice();
    }
}

/// Builds a table of the pairs in memory of its own, which starts with sixteen slots at 87 percent
/// of slots and grows, and copies it to the front of `out`. MEMORY leaves `out` and `len`
/// unchanged, TOO_SMALL leaves `out` unchanged.
#[inline]
pub fn grown<C: Config>(
    alloc: Global,
    keys: &[C::Key],
    values: &[C::Value],
    out: &mut [u8],
    len: &mut usize,
) -> u32
    requires { length values.now ≡ length keys.now }
    ensures { BuildGrowingAnswers ⟦<C as Coded>⟧.coding keys.now values.now out.old len.old result
        out.new len.new }
{
    let mut table = match HashTableOwned::<C>::default(alloc) {
        Ok(table) => table,
        Err(refused) => return status_of(&refused),
    };
    if let (_, Err(refused)) = table.insert_items(&Zipped::new(keys, values)) {
        return status_of(&refused);
    }
    hand_out(table.raw_bytes(), out, len)
}

// Copies the table to the front of `out`, if it fits, and writes its length in bytes to `len`.
pub(crate) fn hand_out(table: &[u8], out: &mut [u8], len: &mut usize) -> u32
    ensures len { len.new ≡ length table.now }
    ensures copied { IsHandedOut (λ B. B ≡ table.now) out.old result out.new len.new }
    ensures status { (result ≡ done) ⊎ (result ≡ too_small) }
{
    *len = table.len();
    if out.len() < table.len() {
        return TOO_SMALL;
    }
    out[..table.len()].copy_from_slice(table);
    OK
}
