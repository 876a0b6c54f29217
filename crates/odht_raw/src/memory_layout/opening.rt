//! Opening the bytes of a table: the lengths that a header states, the checks, the parts of the bytes,
//! and the table at the front of longer bytes. The lengths of keys and values are types or numbers.
ghost use Rattle.std.specs.Prelude.{◌≡◌, ◌≤◌, ◌<◌, ℕ, List, length, slice_index, Err, IfOk, OnOk};
ghost use Rattle.std.specs.Prelude.{OnErr, Ok, ◌+◌};
ghost use Rattle.std.specs.Result.{result_err};
ghost use Rattle.odht_raw.specs.Words.{checked, controls_of, entries_of, format_of, header_slots};
ghost use Rattle.odht_raw.specs.Words.{image_len, IsImage, IsPartsOf, IsSlotCount, opening_refusal};
ghost use Rattle.odht_raw.specs.Words.{prefix_refusal, Table, TooShort, view_refusal};
ghost use Rattle.odht_raw.specs.PartLengths.{ArePairLengths};
ghost use Rattle.odht_raw.specs.Prefixes.{IsFront};
ghost use Rattle.odht_raw.specs.Dumps.{parts_of};
ghost use Rattle.odht_raw.specs.Frame.{IsAccepted};

use super::{HEADER_SIZE, Header};
use crate::config::{Coded, Config};
use crate::error::Error;
use crate::hash::HashFn;
use crate::layout::{Layout, Lengths};
use crate::raw_table::{DynRawTable, Parts, Stored};

// How many slots are checked when a view is opened.
const SLOTS_TO_CHECK: usize = 10;

/// The lengths of keys and values that the header at the front of the bytes states, of which
/// nothing is checked; `TooShort` where they are too few for one.
#[inline]
pub fn stated_layout(bytes: &[u8]) -> Result<Layout, Error>
    ensures long { OnOk result (32 ≤ length bytes.now) }
    ensures key { IfOk result (λ l. l.key_len ≡ slice_index bytes.now 5) }
    ensures value { IfOk result (λ l. l.value_len ≡ slice_index bytes.now 6) }
    ensures short { OnErr result (length bytes.now < 32) }
    ensures err { OnErr result (result ≡ Err (TooShort (length bytes.now))) }
{
    let found = bytes.len();
    if found < HEADER_SIZE {
        return Err(Error::TooShort { found });
    }
    Ok(Header::of(bytes).layout())
}

/// Checks the bytes as those of a table of these lengths only by their header and length, and
/// returns the first error: `TooShort`, then those of [`Header::check_layout`]. No slot is read,
/// and the hash function does not matter.
#[inline]
pub fn check_by_header(bytes: &[u8], layout: Layout) -> Result<(), Error>
    ensures { (hash : List ℕ → ℕ)
        → result ≡ checked (opening_refusal
        (format_of layout.key_len layout.value_len hash) bytes.now) }
{
    let found = bytes.len();
    if found < HEADER_SIZE {
        return Err(Error::TooShort { found });
    }
    Header::of(bytes).check_layout(layout, found)
}

/// Checks the bytes as those of a table of these lengths, and returns the first error: those of
/// [`check_by_header`], then those of [`Parts::sanity_check_hashes`] on the first ten slots. Bytes
/// that pass need not be valid.
///
/// [`Parts::sanity_check_hashes`]: crate::raw_table::Parts::sanity_check_hashes
#[inline(always)]
pub fn check_opening_in<L: Lengths, H: HashFn>(bytes: &[u8], lengths: L) -> Result<(), Error>
    requires pair { ArePairLengths H.MIN_LEN (L.key_len lengths) (L.value_len lengths) }
    ensures { let F = format_of (L.key_len lengths) (L.value_len lengths) H.hash
        in result ≡ checked (view_refusal F bytes.now) }
{
    check_by_header(bytes, Layout::of_lengths(lengths))?;
    parts_in::<L, H>(bytes, lengths).sanity_check_hashes(SLOTS_TO_CHECK)
}

/// [`check_opening_in`] where the lengths are numbers.
pub fn check_opening<H: HashFn>(bytes: &[u8], layout: Layout) -> Result<(), Error>
    requires hashes { H.MIN_LEN ≤ layout.key_len }
    ensures { let F = format_of layout.key_len layout.value_len H.hash
        in result ≡ checked (view_refusal F bytes.now) }
{
    check_opening_in::<Layout, H>(bytes, layout)
}

/// How many bytes the table at the front of `bytes` has, by its header. What follows is not looked
/// at, nor is any slot.
///
/// The first error: `TooShort`, then those of [`Header::sanity_check`], but `WrongLength` only
/// where there are fewer bytes than the table has. It is Ok exactly where that many bytes would be
/// accepted by
/// [`Allocation::from_raw_bytes_by_header`](super::Allocation::from_raw_bytes_by_header), and then
/// no other number of bytes at the front would. Constant time.
#[inline]
pub fn table_len<C: Config>(bytes: &[u8]) -> Result<usize, Error>
    ensures ok { IfOk result (IsFront ⟦<C as Coded>⟧.coding.format bytes.now) }
    ensures only { (n : ℕ) → IsFront ⟦<C as Coded>⟧.coding.format bytes.now n → result ≡ Ok n }
    ensures err { result_err result ≡ prefix_refusal ⟦<C as Coded>⟧.coding.format bytes.now }
{
    dynamic_table_len(bytes, Layout::of::<C>())
}

/// [`table_len`] of a table of these lengths. The hash function does not matter.
#[inline]
pub fn dynamic_table_len(bytes: &[u8], layout: Layout) -> Result<usize, Error>
    ensures ok { (hash : List ℕ → ℕ) → IfOk result
        (IsFront (format_of layout.key_len layout.value_len hash) bytes.now) }
    ensures only { (hash : List ℕ → ℕ) (n : ℕ)
        → IsFront (format_of layout.key_len layout.value_len hash) bytes.now n → result ≡ Ok n }
    ensures err { (hash : List ℕ → ℕ) → result_err result
        ≡ prefix_refusal (format_of layout.key_len layout.value_len hash) bytes.now }
{
    let found = bytes.len();
    if found < HEADER_SIZE {
        return Err(Error::TooShort { found });
    }
    Header::of(bytes).layout_len(layout, found)
}

/// The parts of bytes whose header and length fit. Of the bytes of a valid table they are its
/// parts.
#[inline(always)]
pub fn parts_in<L: Lengths, H: HashFn>(bytes: &[u8], lengths: L) -> Parts<'_, L, H>
    requires accepted { IsAccepted (format_of (L.key_len lengths) (L.value_len lengths) H.hash)
        bytes.now }
    requires pair { ArePairLengths H.MIN_LEN (L.key_len lengths) (L.value_len lengths) }
    ensures parts { let F = format_of (L.key_len lengths) (L.value_len lengths) H.hash
        in result ≡ record {
          key_len = L.key_len lengths;
          value_len = L.value_len lengths;
          parts = parts_of F bytes.now;
        } }
    ensures on_valid { let F = format_of (L.key_len lengths) (L.value_len lengths) H.hash
        in (P : Table) → IsImage F P bytes.now
        → IsPartsOf F P (entries_of F bytes.now) (controls_of F bytes.now) }
{
    let slots = Header::of(bytes).slot_count();
    cut::<L, H>(bytes, slots, lengths)
}

/// `parts_in` of bytes whose slot count is known, and which are as long as it says.
#[inline(always)]
pub(super) fn cut<L: Lengths, H: HashFn>(bytes: &[u8], slots: usize, lengths: L) -> Parts<'_, L, H>
    requires slots { slots ≡ header_slots bytes.now }
    requires count { IsSlotCount slots }
    requires long { let F = format_of (L.key_len lengths) (L.value_len lengths) H.hash
        in length bytes.now ≡ image_len F slots }
    requires pair { ArePairLengths H.MIN_LEN (L.key_len lengths) (L.value_len lengths) }
    ensures parts { let F = format_of (L.key_len lengths) (L.value_len lengths) H.hash
        in result ≡ record {
          key_len = L.key_len lengths;
          value_len = L.value_len lengths;
          parts = parts_of F bytes.now;
        } }
    ensures len { let F = format_of (L.key_len lengths) (L.value_len lengths) H.hash
        in length (controls_of F bytes.now) ≡ header_slots bytes.now + 16 }
    ensures on_valid { let F = format_of (L.key_len lengths) (L.value_len lengths) H.hash
        in (P : Table) → IsImage F P bytes.now
        → IsPartsOf F P (entries_of F bytes.now) (controls_of F bytes.now) }
{
    let control_at = HEADER_SIZE + slots * lengths.entry_len();
    let stored = Stored::new(&bytes[HEADER_SIZE..control_at], slots, lengths);
    let parts = Parts::of(&bytes[control_at..], stored);
    // For the prover: they are 16 more than the slots.
    let _ = parts.controls();
    parts
}

/// [`parts_in`] where the lengths are numbers.
#[inline(always)]
pub fn dynamic_parts<H: HashFn>(bytes: &[u8], layout: Layout) -> DynRawTable<'_, H>
    requires accepted { IsAccepted (format_of layout.key_len layout.value_len H.hash) bytes.now }
    requires hashes { H.MIN_LEN ≤ layout.key_len }
    ensures parts { let F = format_of layout.key_len layout.value_len H.hash
        in result ≡ record {
          key_len = layout.key_len;
          value_len = layout.value_len;
          parts = parts_of F bytes.now;
        } }
    ensures on_valid { let F = format_of layout.key_len layout.value_len H.hash
        in (P : Table) → IsImage F P bytes.now
        → IsPartsOf F P (entries_of F bytes.now) (controls_of F bytes.now) }
{
    parts_in::<Layout, H>(bytes, layout)
}
