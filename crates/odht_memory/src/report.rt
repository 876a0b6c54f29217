//! What a run has to say: lines of a label and what was found, kept until the run ends.
//!
//! A call that adds a line cannot fail, so a case is a list of calls, and nothing is written while
//! a request may fail.
use odht::HashTableOwned;
use odht::configs::DirectU32ToU32;
use odht::error::Error;
use std::io::{self, Write};

/// The tables of these runs, in which a key below the slot count has its own slot as its home.
pub type Table = HashTableOwned<DirectU32ToU32>;

// The most lines that a case has.
const LINES: usize = 48;

// What was found.
#[derive(Clone, Copy)]
enum Found {
    Number(u64),
    Word(&'static str),
}

/// The lines of a run, in the order in which they were added.
#[derive(Drop)]
pub struct Report {
    lines: [(&'static str, Found); LINES],
    used: usize,
}

impl Report {
    pub fn new() -> Self {
        Report {
            lines: [("", Found::Word("")); LINES],
            used: 0,
        }
    }

    // A line past the last place is left out, and so is missing from what is printed.
    fn add(&mut self, label: &'static str, found: Found) {
        let at = self.used;
        if let Some(line) = self.lines.get_mut(at) {
            *line = (label, found);
            self.used = at.wrapping_add(1);
        }
    }

    /// Adds a number.
    pub fn number(&mut self, label: &'static str, number: u64) {
        self.add(label, Found::Number(number));
    }

    /// Adds a length, a count or an index.
    pub fn size(&mut self, label: &'static str, size: usize) {
        self.add(label, Found::Number(size as u64));
    }

    /// Adds whether something holds.
    pub fn holds(&mut self, label: &'static str, is_so: bool) {
        self.add(label, Found::Word(if is_so { "yes" } else { "no" }));
    }

    /// Adds a number that may be absent.
    pub fn option(&mut self, label: &'static str, number: Option<u64>) {
        match number {
            Some(number) => self.number(label, number),
            None => self.add(label, Found::Word("none")),
        }
    }

    /// Adds the result of a lookup.
    pub fn value(&mut self, label: &'static str, value: Option<u32>) {
        match value {
            Some(value) => self.number(label, value as u64),
            None => self.add(label, Found::Word("none")),
        }
    }

    /// Adds whether a call failed, and why.
    pub fn result<T>(&mut self, call: &'static str, answer: &Result<T, Error>) {
        let word = match answer {
            Ok(_) => "ok",
            Err(Error::Memory) => "memory",
            Err(_) => "another error",
        };
        self.add(call, Found::Word(word));
    }

    /// Adds how many items and bytes a table has, and how many keys below 100 are found with the
    /// values that `value_of` gives them.
    pub fn table(&mut self, table: &Table) {
        let mut found = 0;
        for key in 0..100 {
            if table.get(&key) == Some(value_of(key)) {
                found = u64::wrapping_add(found, 1);
            }
        }
        self.size("items", table.len());
        self.size("bytes", table.raw_bytes().len());
        self.number("keys found", found);
    }

    /// Writes the lines.
    pub fn write<W: Write>(&self, output: &mut W) -> io::Result<()> {
        for (label, found) in self.lines.iter().take(self.used) {
            match found {
                Found::Number(number) => writeln!(output, "{label}: {number}")?,
                Found::Word(word) => writeln!(output, "{label}: {word}")?,
            }
        }
        Ok(())
    }
}

/// The value of a key.
pub fn value_of(key: u32) -> u32 {
    key.wrapping_add(100)
}

/// Inserts the keys 0 to 12, each with its value, and counts those that were accepted.
pub fn insert_thirteen(table: &mut Table) -> u64 {
    let mut accepted = 0;
    for key in 0..13 {
        if table.insert(&key, &value_of(key)).is_ok() {
            accepted = u64::wrapping_add(accepted, 1);
        }
    }
    accepted
}
