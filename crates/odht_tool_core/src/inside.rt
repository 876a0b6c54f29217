//! The first table inside a file that begins with other bytes.
ghost use Rattle.std.specs.Prelude.{◌≡◌, IfOk, IfErr, OnOk};
ghost use Rattle.std.specs.Io.KnownBytes.{Appends};
ghost use Rattle.odht_tool_core.specs.Finds.{IsFindFailure};
ghost use Rattle.odht_tool_core.specs.Insides.{IsFirstInside, inside_text, is_followed, is_foreign};

use crate::failure::Failure;
use crate::find::find_tables;
use crate::front::front_of;
use odht_header::header::{HEADER_SIZE, Header};
use std::alloc::Global;
use std::io::{self, Write};

/// The offset of the first table inside the bytes of a file that does not begin with one's tag, if
/// there is one. It takes the time of `find_tables`, and fails as that does.
pub fn first_inside(alloc: Global, bytes: &[u8]) -> Result<Option<usize>, Failure>
    ensures ok { IfOk result (IsFirstInside bytes.now) }
    ensures err { IfErr result (IsFindFailure bytes.now) }
{
    if !is_foreign(bytes) {
        return Ok(None);
    }
    let tables = find_tables(alloc, bytes)?;
    Ok(tables.as_slice().first().copied())
}

// Whether there are as many bytes as a header has, and the first of them are not the tag.
fn is_foreign(bytes: &[u8]) -> bool
    ensures { result ≡ is_foreign bytes.now }
{
    bytes.len() >= HEADER_SIZE && Header::of(bytes).check_tag().is_err()
}

/// Whether more bytes come after a table that all bytes begin with.
pub fn is_followed(bytes: &[u8]) -> bool
    ensures { result ≡ is_followed bytes.now }
{
    match front_of(bytes) {
        Ok(table) => table.len() < bytes.len(),
        Err(_) => false,
    }
}

/// Writes a line that tells of the table at this offset.
pub fn write_inside<E: Write>(file: &str, offset: usize, errors: &mut E) -> io::Result<()>
    ensures { OnOk result
        (Appends (E.contents errors.old) (E.contents errors.new) (inside_text file.now offset)) }
{
    writeln!(
        errors,
        "odht: {file}: a table is in it at the offset {offset}: try --at {offset}, or `odht find`"
    )
}
