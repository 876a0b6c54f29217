//! Slots as objects of JSON, each on a line.
ghost use Rattle.std.specs.Prelude.{◌≡◌, OnOk, length};
ghost use Rattle.std.specs.Io.KnownBytes.{Appends};
ghost use Rattle.odht_tool_core.specs.JsonSlots.{number_fields_text, slot_object};
ghost use Rattle.odht_tool_core.specs.ReadyShapes.{typed_len};
ghost use Rattle.odht_tool_core.specs.StoredTexts.{key_text, value_text};

use crate::json::pairs::write_pair_fields;
use crate::slots::SlotNumbers;
use crate::typed::Texts;
use std::io::{self, Write};

/// Writes the object of these numbers of a slot and of its pair.
pub(crate) fn write_slot_object<O: Write>(
    texts: Texts,
    numbers: SlotNumbers,
    key: &[u8],
    value: &[u8],
    output: &mut O,
) -> io::Result<()>
    requires key { length key.now ≡ typed_len texts.key }
    requires value { length value.now ≡ typed_len texts.value }
    ensures { let n = numbers
        in OnOk result (Appends (O.contents output.old) (O.contents output.new)
        (slot_object (key_text texts) (value_text texts) n.slot n.tag n.groups
        (key.now, value.now))) }
{
    write_number_fields(numbers, output)?;
    write_pair_fields(texts, key, value, output)
}

// Writes the begin of the object of a slot: its number, its control byte and a number of groups.
fn write_number_fields<O: Write>(numbers: SlotNumbers, output: &mut O) -> io::Result<()>
    ensures { OnOk result (Appends (O.contents output.old) (O.contents output.new)
        (number_fields_text numbers.slot numbers.tag numbers.groups)) }
{
    let SlotNumbers { slot, tag, groups } = numbers;
    write!(
        output,
        "{{\"slot\":{slot},\"control\":{tag},\"groups\":{groups},"
    )
}
