//! Why a run stopped.

use odht::error::Error;
use odht_tool_core::failure::Failure;
use std::alloc::{AllocError, AllocFailed};
use std::{fmt, io};

/// Why a run stopped before its digest was printed.
#[derive(Clone, Copy, Debug, PartialEq, Eq)]
pub enum Stopped {
    /// The words name no run.
    Usage,
    /// Memory was exhausted.
    Memory,
    /// The digest could not be written.
    Output,
    /// A call returned an error where none is due.
    Refused,
}

impl fmt::Display for Stopped {
    fn fmt<W: fmt::Write>(&self, f: &mut fmt::Formatter<W>) -> fmt::Result {
        match self {
            Stopped::Usage => write!(f, "usage: odht_bench JOB ROUNDS LARGEST SEED"),
            Stopped::Memory => write!(f, "out of memory"),
            Stopped::Output => write!(f, "write failed"),
            Stopped::Refused => write!(f, "a call failed"),
        }
    }
}

impl From<AllocError> for Stopped {
    fn from(_: AllocError) -> Stopped {
        Stopped::Memory
    }
}

impl<T: Drop> From<AllocFailed<T>> for Stopped {
    fn from(_: AllocFailed<T>) -> Stopped {
        Stopped::Memory
    }
}

impl From<io::Error> for Stopped {
    fn from(_: io::Error) -> Stopped {
        Stopped::Output
    }
}

impl From<Error> for Stopped {
    fn from(_: Error) -> Stopped {
        Stopped::Refused
    }
}

impl From<Failure> for Stopped {
    fn from(_: Failure) -> Stopped {
        Stopped::Refused
    }
}
