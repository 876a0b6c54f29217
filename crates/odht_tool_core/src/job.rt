//! What commands need: the job of one that reads a file, and the streams.
ghost use Rattle.std.specs.Prelude.{◌≡◌};
ghost use Rattle.odht_tool_core.specs.JsonAnswers.{printed_as};

use crate::json::answers::Printed;
use std::alloc::Global;

/// The bytes that a command reads, and how it tells of them.
#[derive(Clone, Copy)]
pub struct Job<'a> {
    /// Where it takes memory.
    pub alloc: Global,
    /// The name of the file.
    pub file: &'a str,
    /// Whether there may be no other file.
    pub is_one: bool,
    /// The byte of the file at which the bytes begin. None where they begin the file.
    pub at: Option<usize>,
    /// The bytes.
    pub bytes: &'a [u8],
    /// The bound of searches, in groups, where there is one.
    pub bound: Option<usize>,
    /// Whether it writes objects of JSON.
    pub is_json: bool,
    /// Whether it writes values without their keys.
    pub is_values: bool,
}

impl Job<'_> {
    /// What is printed of each key.
    pub fn printed(&self) -> Printed
        ensures { result ≡ printed_as self.now.is_json self.now.is_values }
    {
        Printed {
            is_json: self.is_json,
            is_values: self.is_values,
        }
    }
}

/// What a command reads lines from, and what it writes to.
#[derive(Drop)]
pub struct Streams<'i, 'o, 'e, I, O, E> {
    pub input: &'i mut I,
    pub output: &'o mut O,
    pub errors: &'e mut E,
}
