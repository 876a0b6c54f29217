//! Texts that are no key or no value, as messages tell of them.
ghost use Rattle.std.specs.Prelude.{◌≡◌, ◌↔◌, IfOk, IsTrue, Some, string_bytes};
ghost use Rattle.std.specs.Fmt.{WritesOnOk};
ghost use Rattle.odht_tool_core.specs.Misreads.{fault_text, misread_text, part_of, place_text};
ghost use Rattle.odht_tool_core.specs.Misreads.{wanted_by, wanted_text};

use crate::failure::LineFault;
use crate::places::place_of;
use crate::shown::Shown;
use std::alloc::{AllocError, Global};
use std::fmt;

/// What a text has to be.
#[derive(Clone, Copy, Debug)]
pub enum Wanted {
    /// Nothing at all.
    Nothing,
    /// The decimal digits of a number of 32 bits.
    U32,
    /// Those of a number of 64 bits.
    U64,
    /// Those of a number of 32 bits with a sign.
    I32,
    /// Those of a number of 64 bits with a sign.
    I64,
    /// Two hexadecimal digits for each of that many bytes.
    Bytes(usize),
    /// A plain text of at most that many bytes.
    Text(usize),
}

impl Wanted {
    /// Whether it is nothing at all.
    pub(crate) fn is_nothing(self) -> bool
        ensures { IsTrue result ↔ (self ≡ Wanted.Nothing) }
    {
        match self {
            Wanted::Nothing => true,
            _ => false,
        }
    }
}

impl fmt::Display for Wanted {
    ghost output = { λ wanted. Some (wanted_text wanted) };

    fn fmt<W: fmt::Write>(&self, f: &mut fmt::Formatter<W>) -> fmt::Result {
        match *self {
            Wanted::Nothing => write!(f, "empty"),
            Wanted::U32 => write!(f, "a number below 2^32"),
            Wanted::U64 => write!(f, "a number below 2^64"),
            Wanted::I32 => write!(f, "a number from -2^31 to 2^31 - 1"),
            Wanted::I64 => write!(f, "a number from -2^63 to 2^63 - 1"),
            Wanted::Bytes(count) => {
                let digits = 2 * count as u128;
                write!(f, "{digits} hexadecimal digits")
            }
            Wanted::Text(count) => {
                let most = count as u128;
                write!(
                    f,
                    "a text of at most {most} bytes without NUL, tab and line end"
                )
            }
        }
    }
}

/// A text that is no key or no value.
#[derive(Clone, Copy)]
pub struct Misread<'a> {
    /// The number of its line of standard input; none of a word of the command line.
    pub line: Option<u64>,
    /// What is wrong with it.
    pub fault: LineFault,
    /// What it should be, where it is that of a key or a value.
    pub wanted: Wanted,
    /// The text.
    pub text: &'a [u8],
}

impl<'a> Misread<'a> {
    /// The same of a line, by what is wrong with it, what its key and its value should be, and the
    /// byte between them.
    pub(crate) fn of_line(
        number: u64,
        fault: LineFault,
        wanted: (Wanted, Wanted),
        line: &'a [u8],
        delimiter: u8,
    ) -> Misread<'a>
        ensures line { result.line ≡ Some number }
        ensures fault { result.fault ≡ fault }
        ensures wanted { result.wanted ≡ wanted_by fault wanted.0 wanted.1 }
        ensures text { result.text.now ≡ part_of delimiter fault line.now }
    {
        let (of_key, of_value) = wanted;
        let (wanted, text) = match fault {
            LineFault::NoTab => (of_key, line),
            LineFault::Key => (of_key, front_of(line, delimiter)),
            LineFault::Value => (of_value, back_of(line, delimiter)),
        };
        Misread {
            line: Some(number),
            fault,
            wanted,
            text,
        }
    }

    /// What is said of it.
    pub fn message(&self, alloc: Global) -> Result<String, AllocError>
        ensures { let m = self.now
            in IfOk result
            (λ s. string_bytes s ≡ misread_text m.line m.fault m.wanted m.text.now) }
    {
        format!(in alloc; "{self}")
    }
}

/// What comes before the first delimiter of a line.
pub(crate) fn front_of(line: &[u8], delimiter: u8) -> &[u8]
    ensures { result.now ≡ part_of delimiter LineFault.Key line.now }
{
    &line[..place_of(line, delimiter)]
}

// What comes after it.
fn back_of(line: &[u8], delimiter: u8) -> &[u8]
    ensures { result.now ≡ part_of delimiter LineFault.Value line.now }
{
    let at = place_of(line, delimiter);
    if at < line.len() {
        &line[at + 1..]
    } else {
        b""
    }
}

impl<'a> fmt::Display for Misread<'a> {
    ghost output = { λ m. Some (misread_text m.line m.fault m.wanted m.text.now) };

    fn fmt<W: fmt::Write>(&self, f: &mut fmt::Formatter<W>) -> fmt::Result {
        write_place(self.line, f)?;
        write_fault(self.fault, self.wanted, self.text, f)
    }
}

/// Writes the number of the line, where there is one.
pub(crate) fn write_place<W: fmt::Write>(
    line: Option<u64>,
    f: &mut fmt::Formatter<W>,
) -> fmt::Result
    ensures { WritesOnOk W.write_str_gives f.old result (place_text line) f.new }
{
    match line {
        Some(number) => write!(f, "standard input, line {number}: "),
        None => Ok(()),
    }
}

fn write_fault<W: fmt::Write>(
    fault: LineFault,
    wanted: Wanted,
    text: &[u8],
    f: &mut fmt::Formatter<W>,
) -> fmt::Result
    ensures { WritesOnOk W.write_str_gives f.old result (fault_text fault wanted text.now) f.new }
{
    let text = Shown(text);
    match fault {
        LineFault::NoTab => write!(f, "{text} has no tab between key and value"),
        LineFault::Key => write!(f, "the key {text} is not {wanted}"),
        LineFault::Value => write!(f, "the value {text} is not {wanted}"),
    }
}
