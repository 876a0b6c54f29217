//! The errors of tables, as the program writes them.
ghost use Rattle.std.specs.Prelude.{◌≡◌, Some, flat_map};
ghost use Rattle.std.specs.Fmt.{WritesOnOk};
ghost use Rattle.odht_tool_core.specs.Refusals.{advice_text, foreign_text, refusal_text, spaced_digits};

use crate::shown::Shown;
use odht_header::error::Error;
use std::fmt;

/// An error of a table, with what can be done about it.
#[derive(Clone, Copy, Debug)]
pub struct Refusal(pub Error);

impl fmt::Display for Refusal {
    ghost output = { λ refusal. Some (refusal_text refusal.0) };

    fn fmt<W: fmt::Write>(&self, f: &mut fmt::Formatter<W>) -> fmt::Result {
        match self.0 {
            Error::WrongTag { found } => write_foreign(&found, f),
            error => {
                let advice = advice_of(&error);
                write!(f, "{error}{advice}")
            }
        }
    }
}

// What can be done about an error: of a bound of searches, that there need be none.
fn advice_of(error: &Error) -> &'static str
    ensures { result.now ≡ advice_text error.now }
{
    match error {
        Error::SearchTooLong { .. } => "; --whole works without this bound",
        _ => "",
    }
}

// Writes that these are not the first bytes of a table.
fn write_foreign<W: fmt::Write>(found: &[u8; 4], f: &mut fmt::Formatter<W>) -> fmt::Result
    ensures { WritesOnOk W.write_str_gives f.old result (foreign_text found.now) f.new }
{
    write!(f, "not an odht table: it begins with")?;
    write_all_spaced(found, f)?;
    let shown = Shown(found);
    write!(f, ", {shown}")
}

// Writes a space and two digits in base 16 for each byte.
fn write_all_spaced<W: fmt::Write>(bytes: &[u8], f: &mut fmt::Formatter<W>) -> fmt::Result
    ensures { WritesOnOk W.write_str_gives f.old result (flat_map spaced_digits bytes.now) f.new }
{
    for byte in bytes {
        write_spaced_digits(*byte, f)?;
    }
    Ok(())
}

fn write_spaced_digits<W: fmt::Write>(byte: u8, f: &mut fmt::Formatter<W>) -> fmt::Result
    ensures { WritesOnOk W.write_str_gives f.old result (spaced_digits byte) f.new }
{
    write!(f, " {byte:02x}")
}
