//! A walk over the pairs of a table.
ghost use Rattle.std.specs.Iterator.{YieldsFirst, item_count};

use crate::config::Config;
use crate::raw_table::{RawIter, RawSlots};
use std::iter::FusedIterator;
use std::marker::Model;

/// The keys and values of a table, decoded, in slot order.
///
/// A contract speaks of it as of the list of the pairs that are left. A whole walk reads each
/// control byte once.
#[derive(Drop)]
pub struct Iter<'a, C: Config> {
    pub(crate) raw: RawIter<'a, C::EncodedKey, C::EncodedValue>,
}

impl<'a, C: Config> Model for Iter<'a, C> {
    ghost use Rattle.std.specs.Prelude.{List};
    ghost use Rattle.odht_raw.specs.Walks.{decoded_items};

    ghost Value = { List (C.Key × C.Value) };

    ghost view = { λ it. decoded_items C.decode_key C.decode_value it.raw };
}

impl<'a, C: Config> Iterator for Iter<'a, C> {
    type Item = (C::Key, C::Value);

    ghost next_gives = { YieldsFirst (λ left. left) };

    ghost remaining = { item_count (λ left. left) };

    #[inline(always)]
    fn next(&mut self) -> Option<(C::Key, C::Value)> {
        match self.raw.next() {
            Some((_, entry)) => Some((C::decode_key(&entry.key), C::decode_value(&entry.value))),
            None => None,
        }
    }
}

impl<'a, C: Config> FusedIterator for Iter<'a, C> {}

/// The slots that hold a pair, from a slot on, in slot order: the number of each, with its key and
/// value, decoded. A caller that stops at a pair may go on later from the number that comes with
/// it.
///
/// A contract speaks of it as of the list of the slots that are left. A whole walk reads each
/// control byte once.
#[derive(Drop)]
pub struct Slots<'a, C: Config> {
    pub(crate) raw: RawSlots<'a, C::EncodedKey, C::EncodedValue>,
}

impl<'a, C: Config> Model for Slots<'a, C> {
    ghost use Rattle.std.specs.Prelude.{ℕ, List};
    ghost use Rattle.odht_raw.specs.Walks.{decoded_numbered};

    ghost Value = { List (ℕ × (C.Key × C.Value)) };

    ghost view = { λ it. decoded_numbered C.decode_key C.decode_value it.raw };
}

impl<'a, C: Config> Iterator for Slots<'a, C> {
    type Item = (usize, (C::Key, C::Value));

    ghost next_gives = { YieldsFirst (λ left. left) };

    ghost remaining = { item_count (λ left. left) };

    #[inline(always)]
    fn next(&mut self) -> Option<(usize, (C::Key, C::Value))> {
        match self.raw.next() {
            Some((slot, (_, entry))) => Some((
                slot,
                (C::decode_key(&entry.key), C::decode_value(&entry.value)),
            )),
            None => None,
        }
    }
}

impl<'a, C: Config> FusedIterator for Slots<'a, C> {}
