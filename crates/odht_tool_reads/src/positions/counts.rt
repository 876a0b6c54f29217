//! `odht count` of a regular file that is read by position: its header, and no slot.
ghost use Rattle.std.specs.Prelude.{◌≡◌, ℕ, List, Ok, None, length, IfSome};
ghost use Rattle.odht_tool_core.specs.Endings.{IsDone};
ghost use Rattle.odht_tool_reads.specs.Listings.{count_opened, count_outcome};
ghost use Rattle.odht_tool_reads.specs.Positions.{ByPosition, table_read};

use super::read_start;
use crate::commands::count::write_count;
use odht::memory_layout::Header;
use odht::read_at::ReadAt;
use odht_tool_core::failure::Failure;
use odht_tool_core::status::{Status, of_output};
use std::io::Write;

/// `odht count` of a source of that many bytes: of the table at the offset, or of all bytes. Writes
/// the label, and how many items the header counts. None where the header and the length do not
/// fit, or a read failed: nothing was written then, and reading all bytes says why.
///
/// Over any source, for any list of bytes that it gives in each read: what is written is what
/// [`count_file`](crate::commands::count::count_file) writes of the table in this list, if it does
/// not check it.
pub fn count_at<S: ReadAt + Drop, O: Write>(
    source: S,
    len: usize,
    offset: Option<usize>,
    label: &str,
    output: &mut O,
) -> Result<Option<Status>, Failure>
    ensures { (B : List ℕ) → S.gives source B → length B ≡ len → ByPosition
        (O.contents output.old) (O.contents output.new)
        (IsDone (count_outcome label.now (table_read B offset) None)
        (O.contents output.old) (O.contents output.new)) result }
{
    let Some(count) = stated_count(&source, len, offset) else {
        return Ok(None);
    };
    let status = of_output(write_count(label, count, output))?;
    Ok(Some(status))
}

// How many items the header of the table counts, if it and the length fit.
fn stated_count<S: ReadAt>(source: &S, len: usize, offset: Option<usize>) -> Option<usize>
    ensures { (B : List ℕ) → S.gives source.now B → length B ≡ len
        → IfSome result (λ n. count_opened (table_read B offset) ≡ Ok n) }
{
    let start = read_start(source, len, offset)?;
    let header = Header::of(&start.header);
    match header.check_layout(header.layout(), start.len) {
        Ok(()) => Some(header.item_count()),
        Err(_) => None,
    }
}
