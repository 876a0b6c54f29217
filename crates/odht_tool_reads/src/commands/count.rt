//! `odht count`: how many items a table file has.
ghost use Rattle.std.specs.Prelude.{◌≡◌, OnOk};
ghost use Rattle.std.specs.Io.KnownBytes.{Appends};
ghost use Rattle.odht_tool_core.specs.AnyShapes.{HasLongKeys, any_format};
ghost use Rattle.odht_tool_core.specs.Endings.{IsDone};
ghost use Rattle.odht_tool_reads.specs.Listings.{count_checked, count_line, count_opened};
ghost use Rattle.odht_tool_reads.specs.Listings.{count_outcome, counted};

use odht_header::header::Header;
use odht_tool_core::any::AnyShape;
use odht_tool_core::failure::Failure;
use odht_tool_core::found::found_any;
use odht_tool_core::shapes::Hash;
use odht_tool_core::status::{Status, of_output};
use odht_tool_core::stored::StoredTable;
use odht_tool_tables::checks::check_any;
use std::io::{self, Write};

/// `odht count` of the bytes of a file: writes the label, and how many items the header counts; or
/// fails with the first error of the header and the length. If the file is checked, by a hash
/// function or none and a bound or none, it fails with the first rule that the bytes break, as
/// `check` finds it.
pub fn count_file<O: Write>(
    label: &str,
    bytes: &[u8],
    checked: Option<(Option<Hash>, Option<usize>)>,
    output: &mut O,
) -> Result<Status, Failure>
    ensures { IsDone (count_outcome label.now bytes.now checked)
        (O.contents output.old) (O.contents output.new) result }
{
    let count = match checked {
        Some((hash, bound)) => count_checked(bytes, hash, bound)?,
        None => count_opened(bytes)?,
    };
    of_output(write_count(label, count, output))
}

// How many items a table has that is checked before.
fn count_checked(bytes: &[u8], hash: Option<Hash>, bound: Option<usize>) -> Result<usize, Failure>
    ensures { result ≡ count_checked bytes.now hash bound }
{
    let shape = found_any(bytes, hash)?;
    count_any(shape, bytes, bound)
}

// How many items the header counts, if it and the length fit.
fn count_opened(bytes: &[u8]) -> Result<usize, Failure>
    ensures { result ≡ count_opened bytes.now }
{
    StoredTable::open(bytes).map_err(Failure::Refused)?;
    Ok(Header::of(bytes).item_count())
}

// How many items a table of this shape has, or the first rule that it breaks.
fn count_any(shape: AnyShape, bytes: &[u8], bound: Option<usize>) -> Result<usize, Failure>
    requires { HasLongKeys shape }
    ensures { result ≡ counted (any_format shape) bound bytes.now }
{
    match check_any(shape, bytes, bound) {
        Ok(()) => Ok(Header::of(bytes).item_count()),
        Err(error) => Err(Failure::Refused(error)),
    }
}

/// Writes a label, and a count.
pub(crate) fn write_count<O: Write>(label: &str, count: usize, output: &mut O) -> io::Result<()>
    ensures { OnOk result (Appends (O.contents output.old) (O.contents output.new)
        (count_line label.now count)) }
{
    writeln!(output, "{label}{count}")
}
