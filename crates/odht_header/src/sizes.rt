//! How long tables are.
ghost use Rattle.std.specs.Prelude.{◌≡◌, ◌+◌, ◌*◌, ◌<◌, ◌≤◌, ◌^◌, ◌↔◌, MatchOption, IfSome};
ghost use Rattle.std.specs.Prelude.{ℕ, List, IsNone};
ghost use Rattle.odht_base.specs.Format.{entry_len, format_of};
ghost use Rattle.odht_base.specs.Image.{image_len};
ghost use Rattle.odht_header.specs.Layouts.{IsLayout};
ghost use Rattle.odht_header.specs.Refusals.{IsTooLarge};

use crate::bytes::ByteArray;
use crate::config::{Coded, Config};
use crate::header::HEADER_SIZE;
use crate::layout::Layout;
use crate::load::{Factor, slots_needed};
use crate::swisstable_group_query::REFERENCE_GROUP_SIZE;

/// How many bytes a table of `slot_count` slots has. None exactly where that passes `usize::MAX`.
#[inline]
pub fn bytes_needed<C: Config>(slot_count: usize) -> Option<usize>
    ensures len { let len = image_len ⟦<C as Coded>⟧.coding.format slot_count
        in MatchOption result (usize.MAX < len) (λ n. n ≡ len) }
    ensures fits { IfSome result (λ n. n < 2 ^ 64) }
{
    Layout::of::<C>().bytes_needed(slot_count)
}

/// The slot count of a new table for `max_item_count` items, and its length in bytes. None exactly
/// where no slot count is enough, or the length passes `usize::MAX`.
pub fn layout_for<C: Config>(
    max_item_count: usize,
    max_load_factor: Factor,
) -> Option<(usize, usize)>
    requires { 1 ≤ max_load_factor.0 }
    ensures some { let F = ⟦<C as Coded>⟧.coding.format
        in IfSome result (λ l. IsLayout F max_item_count max_load_factor.0 l.0 l.1) }
    ensures none { IsNone result
        ↔ IsTooLarge ⟦<C as Coded>⟧.coding.format max_item_count max_load_factor.0 }
{
    Layout::of::<C>().table_for(max_item_count, max_load_factor)
}

impl Layout {
    /// [`bytes_needed`] of a table of these lengths.
    #[inline(always)]
    pub fn bytes_needed(self, slot_count: usize) -> Option<usize>
        ensures len { (hash : List ℕ → ℕ)
            → (let len = image_len (format_of self.key_len self.value_len hash) slot_count
            in MatchOption result (usize.MAX < len) (λ n. n ≡ len)) }
        ensures fits { IfSome result (λ n. n < 2 ^ 64) }
    {
        let len = self.len_of_slots(slot_count);
        if len > usize::MAX as u128 {
            return None;
        }
        Some(len as usize)
    }

    /// [`layout_for`] of a table of these lengths.
    #[inline(always)]
    pub fn table_for(self, max_item_count: usize, max_load_factor: Factor) -> Option<(usize, usize)>
        requires { 1 ≤ max_load_factor.0 }
        ensures some { (hash : List ℕ → ℕ)
            → IfSome result (λ l. IsLayout (format_of self.key_len self.value_len hash)
            max_item_count max_load_factor.0 l.0 l.1) }
        ensures none { (hash : List ℕ → ℕ)
            → (IsNone result ↔ IsTooLarge (format_of self.key_len self.value_len hash)
            max_item_count max_load_factor.0) }
    {
        let slot_count = slots_needed(max_item_count, max_load_factor)?;
        let len = self.bytes_needed(slot_count)?;
        Some((slot_count, len))
    }

    // How many bytes a table of `slot_count` slots has.
    #[inline(always)]
    pub(crate) fn len_of_slots(self, slot_count: usize) -> u128
        ensures { (hash : List ℕ → ℕ)
            → result ≡ image_len (format_of self.key_len self.value_len hash) slot_count }
    {
        let entry = self.entry_len() as u128;
        let slots = slot_count as u128;
        HEADER_SIZE as u128 + slots * entry + slots + REFERENCE_GROUP_SIZE as u128
    }
}

/// Where the entry of a slot begins in the bytes of a table; for the number of slots, where the
/// control bytes begin.
#[inline(always)]
pub fn entry_at<C: Config>(slot: usize) -> usize
    requires { 32 + slot * entry_len ⟦<C as Coded>⟧.coding.format ≤ usize.MAX }
    ensures { result ≡ 32 + slot * entry_len ⟦<C as Coded>⟧.coding.format }
{
    HEADER_SIZE + slot * (C::EncodedKey::LEN + C::EncodedValue::LEN)
}

// How many bytes a table of `slot_count` slots has.
#[inline(always)]
pub(crate) fn len_of_slots<C: Config>(slot_count: usize) -> u128
    ensures { result ≡ image_len ⟦<C as Coded>⟧.coding.format slot_count }
{
    Layout::of::<C>().len_of_slots(slot_count)
}
