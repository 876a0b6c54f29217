//! The occupied slots of a table whose lengths are numbers, each on a line: as texts, or as an
//! object of JSON.
ghost use Rattle.std.specs.Prelude.{◌≡◌, ◌<◌, OnOk, length};
ghost use Rattle.std.specs.Io.KnownBytes.{Appends};
ghost use Rattle.odht_raw.specs.DynParts.{parts_format};
ghost use Rattle.odht_tool_core.specs.DumpTexts.{slot_as, slots_as};
ghost use Rattle.odht_tool_core.specs.ReadyShapes.{typed_len};
ghost use Rattle.odht_tool_core.specs.Slots.{slot_text};
ghost use Rattle.odht_tool_core.specs.StoredTexts.{key_text, value_text};

use crate::groups::groups_to;
use crate::json::slots::write_slot_object;
use crate::slots::{SlotNumbers, write_numbers};
use crate::typed::Texts;
use odht_base::hash::HashFn;
use odht_base::swisstable_group_query::is_empty_or_deleted;
use odht_raw::raw_table::DynRawTable;
use std::io::{self, Write};

/// Writes a line for each occupied slot, in slot order: its number, its control byte, how many
/// groups a search reads, and its pair.
pub fn write_slots<H: HashFn, O: Write>(
    texts: Texts,
    is_json: bool,
    table: &DynRawTable<'_, H>,
    output: &mut O,
) -> io::Result<()>
    requires key { table.now.key_len ≡ typed_len texts.key }
    requires value { table.now.value_len ≡ typed_len texts.value }
    ensures { let T = table.now.parts
        in OnOk result (Appends (O.contents output.old) (O.contents output.new)
        (slots_as is_json (parts_format table.now H.hash) texts T T.entries.slots)) }
{
    for slot in 0..table.len() {
        write_dynamic_slot(texts, is_json, table, slot, output)?;
    }
    Ok(())
}

// Writes the line of a slot, where it is occupied.
fn write_dynamic_slot<H: HashFn, O: Write>(
    texts: Texts,
    is_json: bool,
    table: &DynRawTable<'_, H>,
    slot: usize,
    output: &mut O,
) -> io::Result<()>
    requires slot { slot < table.now.parts.entries.slots }
    requires key { table.now.key_len ≡ typed_len texts.key }
    requires value { table.now.value_len ≡ typed_len texts.value }
    ensures { OnOk result (Appends (O.contents output.old) (O.contents output.new)
        (slot_as is_json (parts_format table.now H.hash) texts table.now.parts slot)) }
{
    let slots = table.len();
    let tag = table.control(slot);
    if is_empty_or_deleted(tag) {
        return Ok(());
    }
    let (key, value) = (table.key(slot), table.value(slot));
    let groups = groups_to(H::hash(key), slot, slots, None);
    let numbers = SlotNumbers { slot, tag, groups };
    if is_json {
        write_slot_object(texts, numbers, key, value, output)
    } else {
        write_slot_text(texts, numbers, key, value, output)
    }
}

// Writes the line of these numbers of a slot and of its pair.
#[inline(always)]
fn write_slot_text<O: Write>(
    texts: Texts,
    numbers: SlotNumbers,
    key: &[u8],
    value: &[u8],
    output: &mut O,
) -> io::Result<()>
    requires key { length key.now ≡ typed_len texts.key }
    requires value { length value.now ≡ typed_len texts.value }
    ensures { let n = numbers
        in OnOk result (Appends (O.contents output.old) (O.contents output.new)
        (slot_text (key_text texts) (value_text texts) n.slot n.tag n.groups
        (key.now, value.now))) }
{
    write_numbers(numbers, output)?;
    texts.write_pair(key, value, output)
}
