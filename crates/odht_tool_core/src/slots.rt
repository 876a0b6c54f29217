//! The occupied slots of a table, a line for each.
ghost use Rattle.std.specs.Prelude.{◌≡◌, ◌+◌, ◌<◌, length, OnOk};
ghost use Rattle.std.specs.Io.KnownBytes.{Appends};
ghost use Rattle.odht_base.specs.Decoded.{header_slots};
ghost use Rattle.odht_base.specs.Load.{IsSlotCount};
ghost use Rattle.odht_raw.specs.Dumps.{parts_of};
ghost use Rattle.odht_raw.specs.Parts.{TableParts};
ghost use Rattle.odht_tool_core.specs.Endings.{IsDone};
ghost use Rattle.odht_tool_core.specs.Slots.{numbers_text, slot_line, slots_text, slots_outcome};

use crate::answers::write_pair;
use crate::digits::write_number;
use crate::failure::Failure;
use crate::forms::Form;
use crate::groups::groups_to;
use crate::status::{Status, of_output};
use crate::text::Text;
use odht_base::bytes::{Borrowed, ByteArray};
use odht_base::hash::HashFn;
use odht_base::swisstable_group_query::is_empty_or_deleted;
use odht_header::config::{Coded, Config};
use odht_raw::memory_layout::{Allocation, Entries};
use std::io::{self, Write};

/// `odht dump --slots` of bytes of a configuration: writes a line for each occupied slot, in slot
/// order, in the texts that the types of key and value have.
pub fn dump_slots<C: Config, O: Write>(bytes: &[u8], output: &mut O) -> Result<Status, Failure>
where
    C::Key: Text,
    C::Value: Text,
    ensures { IsDone (slots_outcome ⟦<C as Coded>⟧.coding (C.Key.text Form.Own)
        (C.Value.text Form.Own) bytes.now)
        (O.contents output.old) (O.contents output.new) result }
{
    let allocation = Allocation::<C, Borrowed<'_>>::from_raw_bytes(Borrowed::new(bytes)).map_err(
        Failure::Refused,
    )?;
    of_output(write_slots(&allocation, output))
}

// Writes a line for each occupied slot.
fn write_slots<C: Config, O: Write>(
    allocation: &Allocation<C, Borrowed<'_>>,
    output: &mut O,
) -> io::Result<()>
where
    C::Key: Text,
    C::Value: Text,
    ensures { let c = ⟦<C as Coded>⟧.coding
        in let B = allocation.now.0.now
        in OnOk result (Appends (O.contents output.old) (O.contents output.new)
        (slots_text c (C.Key.text Form.Own)
        (C.Value.text Form.Own) (parts_of c.format B) (header_slots B))) }
{
    let (control, entries) = allocation.data_slices();
    for slot in 0..entries.len() {
        write_slot::<C, O>(control, &entries, slot, output)?;
    }
    Ok(())
}

// Writes the line of a slot, where it is occupied: its number, its control byte, how many groups a
// search reads, and its pair.
fn write_slot<C: Config, O: Write>(
    control: &[u8],
    entries: &Entries<'_, C::EncodedKey, C::EncodedValue>,
    slot: usize,
    output: &mut O,
) -> io::Result<()>
where
    C::Key: Text,
    C::Value: Text,
    requires slots { IsSlotCount entries.now.slots }
    requires slot { slot < entries.now.slots }
    requires control { length control.now ≡ entries.now.slots + 16 }
    ensures { let parts : TableParts = record { control = control.now; entries = entries.now }
        in OnOk result (Appends (O.contents output.old) (O.contents output.new)
        (slot_line ⟦<C as Coded>⟧.coding (C.Key.text Form.Own)
        (C.Value.text Form.Own) parts slot)) }
{
    let tag = control[slot];
    if is_empty_or_deleted(tag) {
        return Ok(());
    }
    let entry = entries.get(slot);
    let groups = groups_to(C::H::hash(entry.key.as_slice()), slot, entries.len(), None);
    write_numbers(SlotNumbers { slot, tag, groups }, output)?;
    let (key, value) = (C::decode_key(&entry.key), C::decode_value(&entry.value));
    write_pair(&key, &value, output)
}

/// The numbers in the line of a slot.
#[derive(Clone, Copy)]
pub(crate) struct SlotNumbers {
    /// The number of the slot.
    pub slot: usize,
    /// Its control byte.
    pub tag: u8,
    /// How many groups a search reads.
    pub groups: usize,
}

/// Writes the numbers of a slot, each with a tab after it.
#[inline(always)]
pub(crate) fn write_numbers<O: Write>(numbers: SlotNumbers, output: &mut O) -> io::Result<()>
    ensures { OnOk result (Appends (O.contents output.old) (O.contents output.new)
        (numbers_text numbers.slot numbers.tag numbers.groups)) }
{
    write_number(numbers.slot as u64, output)?;
    output.write_all(b"\t")?;
    write_number(u64::from(numbers.tag), output)?;
    output.write_all(b"\t")?;
    write_number(numbers.groups as u64, output)?;
    output.write_all(b"\t")
}
