//! How full a table is along its slots, which are cut into at most 64 stretches of equal length.
ghost use Rattle.std.specs.Prelude.{◌≡◌, ◌<◌, OnOk, map};
ghost use Rattle.std.specs.Io.KnownBytes.{Appends};
ghost use Rattle.odht_tool_core.specs.InfoNumbers.{stretch_len};
ghost use Rattle.odht_tool_core.specs.InfoTexts.{stretch_sign};

use std::io::{self, Write};

/// How many stretches there are at most.
pub(crate) const STRETCHES: usize = 64;

/// How many slots a stretch has, of a table of that many.
pub(crate) fn stretch_len(slot_count: usize) -> usize
    ensures { result ≡ stretch_len slot_count }
{
    (slot_count / STRETCHES).max(1)
}

/// Writes how many slots of each stretch are occupied, of a table of that many slots, a sign for
/// each.
pub(crate) fn write_stretches<O: Write>(
    slot_count: usize,
    counts: &[usize],
    output: &mut O,
) -> io::Result<()>
    ensures { OnOk result (Appends (O.contents output.old) (O.contents output.new)
        (map (stretch_sign (stretch_len slot_count)) counts.now)) }
{
    write_signs(stretch_len(slot_count), counts, output)
}

// Writes the signs of stretches of that many slots.
fn write_signs<O: Write>(len: usize, counts: &[usize], output: &mut O) -> io::Result<()>
    requires { 0 < len }
    ensures { OnOk result (Appends (O.contents output.old) (O.contents output.new)
        (map (stretch_sign len) counts.now)) }
{
    for count in counts {
        output.write_all(&[sign_of(len, *count)])?;
    }
    Ok(())
}

// The sign of a stretch: `.` where no slot is occupied, `9` where all are, else the digit of 1 and
// how many whole eighths of its slots are.
fn sign_of(len: usize, count: usize) -> u8
    requires { 0 < len }
    ensures { result ≡ stretch_sign len count }
{
    if count == 0 {
        return b'.';
    }
    let eighths = count as u128 * 8 / len as u128;
    b'1' + eighths.min(8) as u8
}
