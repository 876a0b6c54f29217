//! How a run of the program ended.
ghost use Rattle.std.specs.Prelude.{◌≡◌, ◌↔◌, IsTrue, if◌then◌else◌};
ghost use Rattle.odht_tool_core.specs.Endings.{IsWritten};
ghost use Rattle.odht_tool_core.specs.Statuses.{failure_status};

use crate::arguments::Topic;
use crate::failure::Failure;
use std::io;

/// How a run ended.
#[derive(Clone, Copy)]
pub enum Status {
    /// All was done.
    Done,
    /// A table was rejected, a key is absent, tables differ, or a command failed that has no such
    /// answer.
    NotDone,
    /// The words cannot be parsed.
    Misused,
    /// `get`, `delete` or `diff` failed.
    Trouble,
}

impl Status {
    /// The exit status that stands for it.
    pub fn code(self) -> u8
        ensures done { self ≡ Status.Done → result ≡ 0 }
        ensures not_done { self ≡ Status.NotDone → result ≡ 1 }
        ensures misused { self ≡ Status.Misused → result ≡ 2 }
        ensures trouble { self ≡ Status.Trouble → result ≡ 2 }
    {
        match self {
            Status::Done => 0,
            Status::NotDone => 1,
            Status::Misused | Status::Trouble => 2,
        }
    }

    /// Whether all was done.
    pub fn is_done(self) -> bool
        ensures { IsTrue result ↔ (self ≡ Status.Done) }
    {
        match self {
            Status::Done => true,
            _ => false,
        }
    }

    /// `Done` where all is as it should be, and else `NotDone`.
    pub fn of(is_done: bool) -> Status
        ensures { result ≡ if is_done then Status.Done else Status.NotDone }
    {
        if is_done {
            Status::Done
        } else {
            Status::NotDone
        }
    }

    /// How a command ends if it fails: `Trouble` if `NotDone` is one of its answers, that a key is
    /// absent or that tables differ.
    pub fn of_failure(topic: Topic) -> Status
        ensures { result ≡ failure_status topic }
    {
        match topic {
            Topic::Get | Topic::Delete | Topic::Diff => Status::Trouble,
            _ => Status::NotDone,
        }
    }
}

/// The end of a command that did nothing but write.
pub fn of_output(written: io::Result<()>) -> Result<Status, Failure>
    ensures { IsWritten written result }
{
    written.map_err(Failure::Output)?;
    Ok(Status::Done)
}
