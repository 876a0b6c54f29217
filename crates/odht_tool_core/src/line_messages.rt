//! What is said of a line of standard input of which no pair is inserted.
ghost use Rattle.std.specs.Prelude.{◌≡◌, IfOk, Some, string_bytes};
ghost use Rattle.odht_tool_core.specs.PairLines.{line_text, no_delimiter_text, repeated_text};
ghost use Rattle.odht_tool_core.specs.PairLines.{earlier_text};

use crate::failure::LineFault;
use crate::misread::{Misread, Wanted, front_of, write_place};
use crate::shown::Shown;
use std::alloc::{AllocError, Global};
use std::fmt;

/// What is said of the fault of the line of this number, by what its key and its value should be,
/// and the byte that stands between them.
pub fn line_message(
    alloc: Global,
    number: u64,
    fault: LineFault,
    wanted: (Wanted, Wanted),
    line: &[u8],
    delimiter: u8,
) -> Result<String, AllocError>
    ensures { IfOk result (λ s. string_bytes s
        ≡ line_text delimiter number fault wanted.0 wanted.1 line.now) }
{
    match fault {
        LineFault::NoTab if delimiter != b'\t' => {
            let uncut = Uncut {
                number,
                line,
                delimiter: &[delimiter],
            };
            format!(in alloc; "{uncut}")
        }
        _ => Misread::of_line(number, fault, wanted, line, delimiter).message(alloc),
    }
}

/// What is said of the line of this number where an earlier one had its key.
pub fn repeated_message(
    alloc: Global,
    number: u64,
    line: &[u8],
    delimiter: u8,
) -> Result<String, AllocError>
    ensures { IfOk result (λ s. string_bytes s ≡ repeated_text delimiter number line.now) }
{
    let key = front_of(line, delimiter);
    let repeated = Repeated { number, key };
    format!(in alloc; "{repeated}")
}

// A line that has no such byte.
#[derive(Clone, Copy)]
struct Uncut<'a> {
    number: u64,
    line: &'a [u8],
    delimiter: &'a [u8],
}

impl<'a> fmt::Display for Uncut<'a> {
    ghost output = { λ it. Some (no_delimiter_text it.delimiter.now it.number it.line.now) };

    fn fmt<W: fmt::Write>(&self, f: &mut fmt::Formatter<W>) -> fmt::Result {
        write_place(Some(self.number), f)?;
        let (line, delimiter) = (Shown(self.line), Shown(self.delimiter));
        write!(f, "{line} has no {delimiter} between key and value")
    }
}

// A line whose key an earlier line had.
#[derive(Clone, Copy)]
struct Repeated<'a> {
    number: u64,
    key: &'a [u8],
}

impl<'a> fmt::Display for Repeated<'a> {
    ghost output = { λ it. Some (earlier_text it.number it.key.now) };

    fn fmt<W: fmt::Write>(&self, f: &mut fmt::Formatter<W>) -> fmt::Result {
        write_place(Some(self.number), f)?;
        let key = Shown(self.key);
        write!(f, "the key {key} is in the table already")
    }
}
