//! Strings of JSON of what is displayed.
ghost use Rattle.std.specs.Prelude.{◌≡◌, IfSome, IsNone, IsOk, OnOk, flat_map};
ghost use Rattle.std.specs.Fmt.{WritesText};
ghost use Rattle.std.specs.Io.KnownBytes.{Appends};
ghost use Rattle.odht_tool_core.specs.Json.{json_byte, json_string};

use crate::json::write_escaped;
use std::fmt;
use std::io::{self, ErrorKind, Write};

/// A writer of what stands in a string. It keeps the error that `fmt::Error` cannot carry.
#[derive(Drop)]
struct Inside<'a, O> {
    output: &'a mut O,
    error: Option<io::Error>,
}

impl<O: Write> fmt::Write for Inside<'_, O> {
    ghost write_str_gives = { λ s bs t. (t.output.ghost_name ≡ s.output.ghost_name)
        × Appends (O.contents s.output.now) (O.contents t.output.now) (flat_map json_byte bs) };

    fn write_str(&mut self, text: &str) -> fmt::Result {
        match write_escaped(text.as_bytes(), self.output) {
            Ok(()) => Ok(()),
            Err(error) => {
                self.error = Some(error);
                Err(fmt::Error)
            }
        }
    }
}

/// Writes what is displayed as a string of JSON.
pub(crate) fn write_displayed<D: fmt::Display + Drop, O: Write>(
    shown: D,
    output: &mut O,
) -> io::Result<()>
    ensures { OnOk result (IfSome (D.output shown)
        (λ text. Appends (O.contents output.old) (O.contents output.new) (json_string text))) }
{
    output.write_all(b"\"")?;
    write_inside(shown, output)?;
    output.write_all(b"\"")
}

// Writes each byte as it stands in a string.
fn write_inside<D: fmt::Display + Drop, O: Write>(shown: D, output: &mut O) -> io::Result<()>
    ensures { OnOk result (IfSome (D.output shown) (λ text.
        Appends (O.contents output.old) (O.contents output.new) (flat_map json_byte text))) }
{
    let mut inside = Inside {
        output,
        error: None,
    };
    let written = write_shown(shown, &mut inside);
    let Inside { output, error } = inside;
    // No effect at run time. The proof reads what the writer holds from this use of it.
    let _ = &*output;
    first_error(error, written)
}

fn write_shown<D: fmt::Display + Drop, T: fmt::Write>(shown: D, to: &mut T) -> fmt::Result
    ensures { OnOk result (WritesText T.write_str_gives to.old (D.output shown) to.new) }
{
    write!(to, "{shown}")
}

// The error of the writer, where it has one.
fn first_error(error: Option<io::Error>, written: fmt::Result) -> io::Result<()>
    ensures { OnOk result (IsNone error × IsOk written) }
{
    match (error, written) {
        (Some(error), _) => Err(error),
        (None, Ok(())) => Ok(()),
        (None, Err(_)) => Err(io::Error::from(ErrorKind::Other)),
    }
}
