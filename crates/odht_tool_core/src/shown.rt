//! Bytes as they are shown in a message, whatever they are.
ghost use Rattle.std.specs.Prelude.{◌≡◌, ◌++◌, Some, codes, flat_map, take};
ghost use Rattle.std.specs.Fmt.{WritesOnOk};
ghost use Rattle.odht_tool_core.specs.Shown.{more_text, shown_byte, shown_text};
ghost use Rattle.odht_tool_core.specs.Texts.{hex_digits};

use std::fmt;

/// How many bytes are shown of longer ones.
const MOST: usize = 60;

/// Bytes between quotes: printable characters as they are, others by their numbers, and of many
/// the first alone.
#[derive(Clone, Copy)]
pub(crate) struct Shown<'a>(pub(crate) &'a [u8]);

impl<'a> fmt::Display for Shown<'a> {
    ghost output = { λ shown. Some (shown_text shown.0.now) };

    fn fmt<W: fmt::Write>(&self, f: &mut fmt::Formatter<W>) -> fmt::Result {
        let bytes = self.0;
        write!(f, "\"")?;
        write_bytes(first_of(bytes), f)?;
        write!(f, "\"")?;
        write_more(bytes.len(), f)
    }
}

// The bytes that are shown.
fn first_of(bytes: &[u8]) -> &[u8]
    ensures { result.now ≡ take 60 bytes.now }
{
    if bytes.len() > MOST {
        &bytes[..MOST]
    } else {
        bytes
    }
}

// Writes what each byte is shown as.
fn write_bytes<W: fmt::Write>(bytes: &[u8], f: &mut fmt::Formatter<W>) -> fmt::Result
    ensures { WritesOnOk W.write_str_gives f.old result (flat_map shown_byte bytes.now) f.new }
{
    for byte in bytes {
        write_byte(*byte, f)?;
    }
    Ok(())
}

fn write_byte<W: fmt::Write>(byte: u8, f: &mut fmt::Formatter<W>) -> fmt::Result
    ensures { WritesOnOk W.write_str_gives f.old result (shown_byte byte) f.new }
{
    match byte {
        b'\t' => f.write_str("\\t"),
        b'"' => f.write_str("\\\""),
        b'\\' => f.write_str("\\\\"),
        b' '..=b'~' => f.write_char(char::from(byte)),
        _ => write_escape(byte, f),
    }
}

fn write_escape<W: fmt::Write>(byte: u8, f: &mut fmt::Formatter<W>) -> fmt::Result
    ensures { WritesOnOk W.write_str_gives f.old result (codes "\\x" ++ hex_digits byte) f.new }
{
    write!(f, "\\x{byte:02x}")
}

// Writes how many bytes there are, where not all are shown.
fn write_more<W: fmt::Write>(count: usize, f: &mut fmt::Formatter<W>) -> fmt::Result
    ensures { WritesOnOk W.write_str_gives f.old result (more_text count) f.new }
{
    if count > MOST {
        write!(f, "... ({count} bytes)")
    } else {
        Ok(())
    }
}
