//! The table that begins with some bytes, whatever comes after it.
ghost use Rattle.std.specs.Prelude.{◌≡◌, ◌≤◌, IfOk, OnOk, drop, length, take};
ghost use Rattle.std.specs.Result.{result_err};
ghost use Rattle.odht_tool_core.specs.Fronts.{stated_len, front_refusal, table_front, offset_failure};
ghost use Rattle.odht_tool_core.specs.Fronts.{begins_table};
ghost use Rattle.odht_tool_core.specs.InfoNumbers.{info_refusal};

use crate::failure::Failure;
use odht_header::error::Error;
use odht_raw::memory_layout::{dynamic_table_len, stated_layout};

/// The table that begins at this byte of a file and ends where its header says; bytes after it are
/// not looked at. `PastEnd` where the file ends before that byte. Where opening by the header
/// fails, or there are fewer bytes than the header says, all bytes from there on, which opening
/// rejects with the same error.
pub fn table_at(bytes: &[u8], offset: usize) -> Result<&[u8], Failure>
    ensures past { result_err result ≡ offset_failure bytes.now offset }
    ensures table { IfOk result (λ t. t.now ≡ table_front (drop offset bytes.now)) }
    ensures opens { IfOk result (λ t. info_refusal t.now ≡ front_refusal (drop offset bytes.now)) }
{
    let len = bytes.len();
    if len < offset {
        return Err(Failure::PastEnd { offset, len });
    }
    let rest = &bytes[offset..];
    match front_of(rest) {
        Ok(table) => Ok(table),
        Err(_) => Ok(rest),
    }
}

/// Whether these bytes begin with the header of a table, whatever comes after it.
pub fn begins_table(bytes: &[u8]) -> bool
    ensures { result ≡ begins_table bytes.now }
{
    match front_of(bytes) {
        Ok(_) | Err(Error::WrongLength { .. }) => true,
        Err(_) => false,
    }
}

/// The table that these bytes begin with. The errors are those of opening by the header, but
/// `WrongLength` only where there are fewer bytes than the header says.
pub fn front_of(bytes: &[u8]) -> Result<&[u8], Error>
    ensures err { result_err result ≡ front_refusal bytes.now }
    ensures table { IfOk result (λ t. t.now ≡ take (stated_len bytes.now) bytes.now) }
    ensures enough { OnOk result (stated_len bytes.now ≤ length bytes.now) }
{
    let layout = stated_layout(bytes)?;
    let len = dynamic_table_len(bytes, layout)?;
    Ok(&bytes[..len])
}
