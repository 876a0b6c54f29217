//! Why a command stopped.
ghost use Rattle.std.specs.Prelude.{◌≡◌};
ghost use Rattle.odht_tool_core.specs.Endings.{failure_of};

use crate::obstacles::Obstacle;
use crate::refusal::Refusal;
use crate::shapes::Part;
use odht_header::error::Error;
use std::alloc::AllocError;
use std::{fmt, io};

/// Why a command stopped, as it is printed after the name of its file.
#[derive(Debug, Drop)]
pub enum Failure {
    /// The file could not be read.
    Read(io::Error),
    /// The new file could not be written, or not be renamed.
    Write(io::Error),
    /// The file is not replaced, for this reason.
    Obstacle(Obstacle),
    /// The file is not replaced, since it is no table.
    NoTable,
    /// The file is written, and the system could not store its name.
    Folder(io::Error),
    /// There is a file of the name that the new one has until it is stored.
    Beside(String),
    /// The bytes are no table, or not one of this shape.
    Refused(Error),
    /// The keys of a table have that many bytes, and the hash that was named needs more.
    ShortKeys { key_size: u8 },
    /// The control bytes are not the tags of the keys under any hash function.
    NoHash { key_size: u8, value_size: u8 },
    /// Keys are said to be of another type than this, which they are of.
    OtherKey(Part),
    /// Values are said to be of another type than this, which they are of.
    OtherValue(Part),
    /// Nothing is said of keys, of that many bytes, and the table does not show which type they are
    /// of.
    UnknownKey(u8),
    /// Nothing is said of values, of that many bytes, and the table does not show which type they
    /// are of.
    UnknownValue(u8),
    /// The file ends before this byte.
    PastEnd { offset: usize, len: usize },
    /// There are headers of tables that overlap, more than a file has that is not forged.
    Forged,
    /// Standard input could not be read.
    Input(io::Error),
    /// A line of standard input cannot be parsed. Its text is told by [`crate::misread::Misread`].
    Line { number: u64, fault: LineFault },
    /// Standard output could not be written.
    Output(io::Error),
    /// An allocation failed.
    Memory,
    /// A word, or the text of a line of standard input, is no key or no value: what is said of it.
    Misread(String),
}

/// What is wrong with a line of standard input.
#[derive(Clone, Copy, Debug)]
pub enum LineFault {
    /// There is no tab between a key and a value.
    NoTab,
    /// The text before the tab is no key of the shape.
    Key,
    /// The text after the tab is no value of the shape.
    Value,
}

impl fmt::Display for LineFault {
    fn fmt<W: fmt::Write>(&self, f: &mut fmt::Formatter<W>) -> fmt::Result {
        match self {
            LineFault::NoTab => write!(f, "no tab between key and value"),
            LineFault::Key => write!(f, "not a key of the table's shape"),
            LineFault::Value => write!(f, "not a value of the table's shape"),
        }
    }
}

impl fmt::Display for Failure {
    fn fmt<W: fmt::Write>(&self, f: &mut fmt::Formatter<W>) -> fmt::Result {
        match self {
            Failure::Read(error) => write!(f, "cannot be read: {error}"),
            Failure::Write(error) => write!(f, "cannot be written: {error}"),
            Failure::Obstacle(obstacle) => write!(f, "cannot be written: {obstacle}"),
            Failure::NoTable => write!(
                f,
                "cannot be written: it is not an odht table, and would be lost; --force replaces it"
            ),
            Failure::Folder(error) => write!(
                f,
                "is written, but a power cut may undo that, as its folder cannot be stored: {error}"
            ),
            Failure::Beside(name) => write!(
                f,
                "{name} is there: another run is at work, or was interrupted; remove it if none is"
            ),
            Failure::Refused(error) => {
                let refusal = Refusal(*error);
                write!(f, "{refusal}")
            }
            Failure::ShortKeys { key_size } => {
                write!(f, "its keys have {key_size} bytes, and unhash needs 4")
            }
            Failure::NoHash {
                key_size,
                value_size,
            } => write_no_hash(*key_size, *value_size, f),
            Failure::OtherKey(part) => write!(f, "--key does not fit its keys, which are {part}"),
            Failure::OtherValue(part) => {
                write!(f, "--value does not fit its values, which are {part}")
            }
            Failure::UnknownKey(size) => {
                write!(f, "does not show what its keys are: --key says whether ")?;
                write_fitting(*size, f)
            }
            Failure::UnknownValue(size) => {
                write!(
                    f,
                    "does not show what its values are: --value says whether "
                )?;
                write_fitting(*size, f)
            }
            Failure::PastEnd { offset, len } => {
                write!(f, "has {len} bytes, and so none at the offset {offset}")
            }
            Failure::Forged => write!(
                f,
                "is forged: it has headers that overlap, and no tables for them"
            ),
            Failure::Input(error) => write!(f, "standard input cannot be read: {error}"),
            Failure::Line { number, fault } => {
                write!(f, "standard input, line {number}: {fault}")
            }
            Failure::Output(error) => write!(f, "standard output cannot be written: {error}"),
            Failure::Memory => write!(f, "out of memory"),
            Failure::Misread(message) => write!(f, "{message}"),
        }
    }
}

// Writes the types that keys or values of that many bytes may be of.
fn write_fitting<W: fmt::Write>(size: u8, f: &mut fmt::Formatter<W>) -> fmt::Result {
    match size {
        4 => write!(f, "u32, i32, u32be, text:4 or bytes:4"),
        8 => write!(f, "u64, i64, u64be, text:8 or bytes:8"),
        _ => write!(f, "text:{size} or bytes:{size}"),
    }
}

fn write_no_hash<W: fmt::Write>(
    key_size: u8,
    value_size: u8,
    f: &mut fmt::Formatter<W>,
) -> fmt::Result {
    write!(
        f,
        "the control bytes fit no hash function with keys of {key_size} and values of {value_size} bytes; `odht check` and `odht info` say more"
    )
}

impl std::error::Error for Failure {}

impl From<AllocError> for Failure {
    ghost use Rattle.std.specs.Prelude.{◌≡◌};
    ghost use Rattle.odht_tool_core.specs.declared.failure.Failure.TheVariants.{Memory};

    ghost from_gives = { λ _ f. f ≡ Memory };

    fn from(_refused: AllocError) -> Failure {
        Failure::Memory
    }
}

impl Failure {
    /// The failure for an error of a table: [`Error::Memory`] is [`Failure::Memory`].
    pub fn of_table(error: Error) -> Failure
        ensures { result ≡ failure_of error }
    {
        match error {
            Error::Memory => Failure::Memory,
            _ => Failure::Refused(error),
        }
    }

    /// The failure for an error of what comes before a file is written.
    pub fn of_writing(error: io::Error) -> Failure {
        match error.kind() {
            io::ErrorKind::OutOfMemory => Failure::Memory,
            _ => Failure::Write(error),
        }
    }
}
