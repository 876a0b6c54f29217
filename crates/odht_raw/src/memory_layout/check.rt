//! The whole check of the bytes of a table. The lengths of keys and values are types or numbers.
ghost use Rattle.std.specs.Prelude.{◌≡◌, ◌≤◌, ◌↔◌, IsOk, MatchOption, None, Some};
ghost use Rattle.odht_raw.specs.Words.{check_refusal, check_refusal_by, checked, controls_of};
ghost use Rattle.odht_raw.specs.Words.{entries_of, first_longer, format_of, IsValidBytes};
ghost use Rattle.odht_raw.specs.Words.{late_refusal, late_refusal_by};
ghost use Rattle.odht_raw.specs.DynParts.{parts_format};
ghost use Rattle.odht_raw.specs.Frame.{IsAccepted};
ghost use Rattle.odht_raw.specs.PartLengths.{ArePairLengths};

use super::allocation::{Allocation, prove_bytes};
use super::{Header, parts_in};
use crate::bytes::{Borrowed, ByteStore};
use crate::config::{Coded, Config};
use crate::error::Error;
use crate::hash::HashFn;
use crate::layout::{Fixed, Layout, Lengths};
use crate::raw_table::{Parts, check_mirror, check_slots, longer_refusal};

/// A bound of searches, in groups, that tables of hashes that vary keep: about twice the longest
/// search that was seen in random tables of up to 2^24 slots at 95 percent (docs/FORMAT.md, "How
/// long searches are"). Fuller or larger ones may exceed it.
pub const DEFAULT_GROUPS: usize = 128;

/// Checks all of the bytes, and returns the first error: first those of
/// [`Allocation::from_raw_bytes`], then those of [`Allocation::check_rest`]. Ok exactly for valid
/// bytes.
///
/// The rules and their order are those of docs/FORMAT.md, "What is rejected, and in which order".
/// It allocates nothing. Where hashes vary its time is linear in the bytes. At worst, where all
/// keys of `s` slots have one hash, it reads about `s*s/32` groups and makes `s*s/2` comparisons
/// of keys: over an hour for 2^20 slots. For untrusted bytes there is [`check_all_within`].
pub fn check_all<C: Config>(bytes: &[u8]) -> Result<(), Error>
    ensures first { result ≡ checked (check_refusal ⟦<C as Coded>⟧.coding.format bytes.now) }
    ensures valid { IsOk result ↔ IsValidBytes ⟦<C as Coded>⟧.coding.format bytes.now }
{
    let allocation: Allocation<C, Borrowed<'_>> = Allocation::from_raw_bytes(Borrowed::new(bytes))?;
    allocation.check_rest()
}

/// `check_all` with a bound of searches: after the maximum item count, and before any search for a
/// key, `SearchTooLong` of the least home from which a search may read more than `groups` groups.
/// Ok exactly for valid bytes in which each home has, among the first `groups` groups of its probe
/// order, a control byte that counts as free. Then no search, of a present or an absent key, reads
/// more. A table in which a home has none is rejected, also where the search for each of its keys
/// ends within the bound.
///
/// For untrusted bytes: whatever they are, for `s` slots it reads at most `2 * s * groups`
/// groups and makes at most `16 * s * groups` comparisons of keys. It allocates nothing. With
/// `groups` of `s / 16` or more it returns what `check_all` returns (no clause says it).
pub fn check_all_within<C: Config>(bytes: &[u8], groups: usize) -> Result<(), Error>
    ensures first { let F = ⟦<C as Coded>⟧.coding.format
        in result ≡ checked (check_refusal_by F (Some groups) bytes.now) }
    ensures valid { let F = ⟦<C as Coded>⟧.coding.format
        in IsOk result ↔ (IsValidBytes F bytes.now
        × (first_longer (controls_of F bytes.now) groups ≡ None)) }
{
    let allocation: Allocation<C, Borrowed<'_>> = Allocation::from_raw_bytes(Borrowed::new(bytes))?;
    allocation.check_rest_within(groups)
}

impl<C: Config, M: ByteStore> Allocation<C, M> {
    /// Checks what opening leaves out, and returns the first error: `LoadFactorTooSmall`,
    /// `NonZeroPadding`; of the slots in order `NonZeroEmpty`, `BadFreeControl` or
    /// `ControlMismatch`; `MirrorMismatch`, `WrongItemCount`, `TooManyItems`; and `Unreachable` of
    /// the first occupied slot at which a search slot by slot for its key does not end. Ok exactly
    /// for valid bytes.
    ///
    /// Slots are read up to 64 at a time, the free ones of these first. Where a free one has an
    /// error, these are read again, in order. For each occupied slot the control bytes of its
    /// key's probe order up to it are read, sixteen at a time. A key is compared only with keys at
    /// earlier positions that have its tag.
    pub fn check_rest(&self) -> Result<(), Error>
        ensures first { result
            ≡ checked (late_refusal ⟦<C as Coded>⟧.coding.format (M.bytes self.now)) }
        ensures valid { IsOk result ↔ IsValidBytes ⟦<C as Coded>⟧.coding.format (M.bytes self.now) }
    {
        let lengths: Fixed<C::EncodedKey, C::EncodedValue> = Fixed::new();
        check_parts::<Fixed<C::EncodedKey, C::EncodedValue>, C::H>(self.raw_bytes(), lengths, None)
    }

    /// `check_rest` with a bound of searches, as in [`check_all_within`]. Ok exactly for valid
    /// bytes in which each home has, among the first `groups` groups of its probe order, a control
    /// byte that counts as free.
    pub fn check_rest_within(&self, groups: usize) -> Result<(), Error>
        ensures first { let F = ⟦<C as Coded>⟧.coding.format
            in result ≡ checked (late_refusal_by F (Some groups) (M.bytes self.now)) }
        ensures valid { let F = ⟦<C as Coded>⟧.coding.format
            in IsOk result ↔ (IsValidBytes F (M.bytes self.now)
            × (first_longer (controls_of F (M.bytes self.now)) groups ≡ None)) }
    {
        let lengths: Fixed<C::EncodedKey, C::EncodedValue> = Fixed::new();
        let bytes = self.raw_bytes();
        check_parts::<Fixed<C::EncodedKey, C::EncodedValue>, C::H>(bytes, lengths, Some(groups))
    }
}

/// Checks what [`check_opening`](super::check_opening) leaves out, and returns the first error, as
/// [`Allocation::check_rest`] does. Ok exactly for valid bytes.
///
/// It reads what that reads.
pub fn check_dynamic<H: HashFn>(bytes: &[u8], layout: Layout) -> Result<(), Error>
    requires accepted { IsAccepted (format_of layout.key_len layout.value_len H.hash) bytes.now }
    requires hashes { H.MIN_LEN ≤ layout.key_len }
    ensures first { let F = format_of layout.key_len layout.value_len H.hash
        in result ≡ checked (late_refusal_by F None bytes.now) }
    ensures valid { let F = format_of layout.key_len layout.value_len H.hash
        in IsOk result ↔ IsValidBytes F bytes.now }
{
    check_parts::<Layout, H>(bytes, layout, None)
}

/// `check_dynamic` with a bound of searches, as in [`check_all_within`]: after the maximum item
/// count, and before any search for a key, `SearchTooLong` of the least home from which a search
/// may read more than `groups` groups. Ok exactly for valid bytes in which each home has, among
/// the first `groups` groups of its probe order, a control byte that counts as free. Then no
/// search, of a present or an absent key, reads more.
///
/// For untrusted bytes: whatever they are, for `s` slots it reads at most `2 * s * groups`
/// groups and makes at most `16 * s * groups` comparisons of keys. It allocates nothing.
pub fn check_dynamic_within<H: HashFn>(
    bytes: &[u8],
    layout: Layout,
    groups: usize,
) -> Result<(), Error>
    requires accepted { IsAccepted (format_of layout.key_len layout.value_len H.hash) bytes.now }
    requires hashes { H.MIN_LEN ≤ layout.key_len }
    ensures first { let F = format_of layout.key_len layout.value_len H.hash
        in result ≡ checked (late_refusal_by F (Some groups) bytes.now) }
    ensures valid { let F = format_of layout.key_len layout.value_len H.hash
        in IsOk result ↔ (IsValidBytes F bytes.now
        × (first_longer (controls_of F bytes.now) groups ≡ None)) }
{
    check_parts::<Layout, H>(bytes, layout, Some(groups))
}

/// Checks what [`check_opening_in`](super::check_opening_in) leaves out, with a bound of searches
/// where there is one, and returns the first error. The whole checks of all tables are this one.
pub fn check_parts<L: Lengths, H: HashFn>(
    bytes: &[u8],
    lengths: L,
    groups: Option<usize>,
) -> Result<(), Error>
    requires accepted { IsAccepted (format_of (L.key_len lengths) (L.value_len lengths) H.hash)
        bytes.now }
    requires pair { ArePairLengths H.MIN_LEN (L.key_len lengths) (L.value_len lengths) }
    ensures first { let F = format_of (L.key_len lengths) (L.value_len lengths) H.hash
        in result ≡ checked (late_refusal_by F groups bytes.now) }
    ensures valid { let F = format_of (L.key_len lengths) (L.value_len lengths) H.hash
        in MatchOption groups (IsOk result ↔ IsValidBytes F bytes.now)
        (λ g. IsOk result ↔ (IsValidBytes F bytes.now
        × (first_longer (controls_of F bytes.now) g ≡ None))) }
{
    prove_bytes(bytes);
    let table = parts_in::<L, H>(bytes, lengths);
    check_late(&Header::of(bytes), &table, groups)
}

/// What the whole check adds to opening, of a header and the parts behind it, with a bound of
/// searches where there is one: only the first error.
pub(super) fn check_late<L: Lengths, H: HashFn>(
    header: &Header<'_>,
    table: &Parts<'_, L, H>,
    groups: Option<usize>,
) -> Result<(), Error>
    requires entries { table.now.parts.entries.bytes
        ≡ entries_of (parts_format table.now H.hash) header.now }
    requires control { table.now.parts.control ≡ controls_of (parts_format table.now H.hash) header.now }
    ensures { result ≡ checked (late_refusal_by (parts_format table.now H.hash) groups header.now) }
{
    header.check_load_factor()?;
    header.check_padding()?;
    let control = table.controls();
    // Only from control bytes, before anything is searched for.
    let longer = longer_refusal(control, groups);
    let summary = check_slots(table, longer.is_none())?;
    check_mirror(control)?;
    header.check_item_count(summary.occupied)?;
    if let Some(error) = longer {
        return Err(error);
    }
    match summary.unreachable {
        Some(slot) => Err(Error::Unreachable { slot }),
        None => Ok(()),
    }
}
