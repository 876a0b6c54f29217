//! New tables, in given bytes and in newly allocated memory. The lengths of keys and values are
//! types or numbers.
ghost use Rattle.std.specs.Prelude.{◌≡◌, ◌*◌, ◌≤◌, ◌^◌, ◌↔◌, ◌⊎◌, length, replicate, IfOk, OnErr};
ghost use Rattle.std.specs.Prelude.{ℕ, List};
ghost use Rattle.odht_raw.specs.Words.{bytes_at, empty, entry_len, format_of, image, image_len};
ghost use Rattle.odht_raw.specs.Words.{IsSlotCount, overwritten_at, with_count};
ghost use Rattle.odht_raw.specs.Parts.{IsZeros, entry_format};

use super::{Allocation, HEADER_SIZE, bytes_needed};
use crate::bytes::{ByteStoreMut, OwnedBytes};
use crate::config::{Coded, Config};
use crate::error::Error;
use crate::layout::{Fixed, Layout, Lengths};
use crate::load::Factor;
use crate::raw_table::FREE;
use std::alloc::Global;

/// Makes a table of `slot_count` free slots in `data`, whatever its bytes were. The header's item
/// count is `item_count`. Each byte is written.
pub fn init_in_place<C: Config, M: ByteStoreMut>(
    mut data: M,
    slot_count: usize,
    item_count: usize,
    max_load_factor: Factor,
) -> Allocation<C, M>
    requires slots { IsSlotCount slot_count }
    requires len { length (M.bytes «data») ≡ image_len ⟦<C as Coded>⟧.coding.format slot_count }
    ensures bytes { let F = ⟦<C as Coded>⟧.coding.format
        in M.bytes result ≡ with_count (image F (empty slot_count max_load_factor.0)) item_count }
    ensures same_store { result ≡ M.holding «data» (M.bytes result) }
{
    let lengths: Fixed<C::EncodedKey, C::EncodedValue> = Fixed::new();
    init_parts(
        data.bytes_mut(),
        lengths,
        slot_count,
        item_count,
        max_load_factor,
    );
    Allocation::from_raw_bytes_unchecked(data)
}

/// `init_in_place` in the bytes themselves, of a table of these lengths. The hash function does not
/// matter.
pub fn init_parts<L: Lengths>(
    bytes: &mut [u8],
    lengths: L,
    slot_count: usize,
    item_count: usize,
    max_load_factor: Factor,
)
    requires slots { IsSlotCount slot_count }
    requires key { L.key_len lengths ≤ 255 }
    requires value { L.value_len lengths ≤ 255 }
    requires len { let F = entry_format (L.key_len lengths) (L.value_len lengths)
        in length bytes.old ≡ image_len F slot_count }
    ensures { (hash : List ℕ → ℕ)
        → (let F = format_of (L.key_len lengths) (L.value_len lengths) hash
        in bytes.new ≡ with_count (image F (empty slot_count max_load_factor.0)) item_count) }
{
    clear_entries(bytes, lengths, slot_count);
    write_empty(bytes, lengths, slot_count, item_count, max_load_factor);
}

/// Writes zeros over the entries of the bytes of a table of `slot_count` slots. No other byte
/// changes.
pub fn clear_entries<L: Lengths>(bytes: &mut [u8], lengths: L, slot_count: usize)
    requires key { L.key_len lengths ≤ 255 }
    requires value { L.value_len lengths ≤ 255 }
    requires len { let F = entry_format (L.key_len lengths) (L.value_len lengths)
        in length bytes.old ≡ image_len F slot_count }
    ensures { let F = entry_format (L.key_len lengths) (L.value_len lengths)
        in bytes.new ≡ overwritten_at bytes.old 32 (replicate (slot_count * entry_len F) 0) }
{
    let end = HEADER_SIZE + slot_count * lengths.entry_len();
    bytes[HEADER_SIZE..end].fill(0);
}

/// Writes a table of `slot_count` free slots into bytes whose entries are zeros: the header, and
/// the control bytes with their mirror. The header's item count is `item_count`. The hash function
/// does not matter.
pub fn write_empty<L: Lengths>(
    bytes: &mut [u8],
    lengths: L,
    slot_count: usize,
    item_count: usize,
    max_load_factor: Factor,
)
    requires slots { IsSlotCount slot_count }
    requires key { L.key_len lengths ≤ 255 }
    requires value { L.value_len lengths ≤ 255 }
    requires len { let F = entry_format (L.key_len lengths) (L.value_len lengths)
        in length bytes.old ≡ image_len F slot_count }
    requires zeros { let F = entry_format (L.key_len lengths) (L.value_len lengths)
        in IsZeros (slot_count * entry_len F) (bytes_at bytes.old 32 (slot_count * entry_len F)) }
    ensures { (hash : List ℕ → ℕ)
        → (let F = format_of (L.key_len lengths) (L.value_len lengths) hash
        in bytes.new ≡ with_count (image F (empty slot_count max_load_factor.0)) item_count) }
{
    let at = HEADER_SIZE + slot_count * lengths.entry_len();
    let (table, control) = bytes.split_at_mut(at);
    let (header, _entries) = table.split_at_mut(HEADER_SIZE);
    let layout = Layout::of_lengths(lengths);
    layout.write_header(header, slot_count, item_count, max_load_factor);
    control.fill(FREE);
}

/// Makes a table of `slot_count` free slots in newly allocated memory. The header's item count is
/// `item_count`. The memory is allocated as zeros, so only the header and the control bytes are
/// written.
///
/// The error is `Capacity` exactly where the length of the table in bytes passes `usize::MAX`, and
/// `Memory` where the allocation fails.
pub fn allocate<C: Config>(
    alloc: Global,
    slot_count: usize,
    item_count: usize,
    max_load_factor: Factor,
) -> Result<Allocation<C, OwnedBytes>, Error>
    requires slots { IsSlotCount slot_count }
    ensures ok { let F = ⟦<C as Coded>⟧.coding.format
        in IfOk result
        (λ a. a ≡ with_count (image F (empty slot_count max_load_factor.0)) item_count) }
    ensures capacity { (result ≡ Err Error.Capacity)
        ↔ (2 ^ 64 ≤ image_len ⟦<C as Coded>⟧.coding.format slot_count) }
    ensures memory { OnErr result ((result ≡ Err Error.Capacity) ⊎ (result ≡ Err Error.Memory)) }
{
    let Some(len) = bytes_needed::<C>(slot_count) else {
        return Err(Error::Capacity);
    };
    let mut bytes = vec![in alloc; 0; len]?;
    let lengths: Fixed<C::EncodedKey, C::EncodedValue> = Fixed::new();
    write_empty(
        bytes.as_mut_slice(),
        lengths,
        slot_count,
        item_count,
        max_load_factor,
    );
    Ok(Allocation::from_raw_bytes_unchecked(OwnedBytes::new(bytes)))
}
