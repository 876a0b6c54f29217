//! Files of vectors: what their lines say, and which of their cases hold.
mod answer;
mod group_starts;
mod numbers;
mod tables;
mod words;

use answer::Answer;
use odht::Xxh64HashFn;
use odht::configs::{DirectU32ToU32, Pairs, Plain, U32ToU32};
use std::alloc::{AllocError, AllocFailed, Global};
use std::fmt;
use std::io::Write;
use std::ops::Range;
use words::{Case, Words, number};

/// Why a line or a run ended.
#[derive(Clone, Copy, Debug, PartialEq, Eq)]
pub enum Fault {
    /// A line was not understood.
    Unread,
    /// Memory was exhausted.
    Memory,
    /// A file could not be read.
    Input,
    /// A line could not be written.
    Output,
}

impl fmt::Display for Fault {
    fn fmt<W: fmt::Write>(&self, f: &mut fmt::Formatter<W>) -> fmt::Result {
        match self {
            Fault::Unread => write!(f, "not understood"),
            Fault::Memory => write!(f, "memory"),
            Fault::Input => write!(f, "read failed"),
            Fault::Output => write!(f, "write failed"),
        }
    }
}

impl From<AllocError> for Fault {
    fn from(_: AllocError) -> Fault {
        Fault::Memory
    }
}

impl<T: Drop> From<AllocFailed<T>> for Fault {
    fn from(_: AllocFailed<T>) -> Fault {
        Fault::Memory
    }
}

/// A run through files: where it is, and how many cases held and did not.
#[derive(Drop)]
pub struct Run {
    alloc: Global,
    names: Vec<(String, Vec<u8>)>,
    title: String,
    config: String,
    held_here: usize,
    held: usize,
    failed: usize,
}

impl Run {
    /// Before the first file.
    pub fn new(alloc: Global) -> Run {
        Run {
            alloc,
            names: Vec::new(alloc),
            title: String::new(alloc),
            config: String::new(alloc),
            held_here: 0,
            held: 0,
            failed: 0,
        }
    }

    /// Runs the cases of a file. Its sections are printed with how many held, and what does not
    /// hold, line by line.
    pub fn file(&mut self, text: &str, output: &mut impl Write) -> Result<(), Fault> {
        self.names.clear();
        for line in text.lines() {
            self.line(line, output)?;
        }
        if self.title.is_empty() {
            return self.fail("a file", &"without a section", output);
        }
        self.end_section(output)
    }

    /// Prints how many cases held, and returns whether all did and there was one.
    pub fn end(&self, output: &mut impl Write) -> Result<bool, Fault> {
        let (held, failed) = (self.held, self.failed);
        say(output, &format_args!("{held} cases held, {failed} did not"))?;
        output.flush().or(Err(Fault::Output))?;
        Ok(failed == 0 && held > 0)
    }

    fn line(&mut self, line: &str, output: &mut impl Write) -> Result<(), Fault> {
        if line.is_empty() || line.starts_with('#') {
            return Ok(());
        }
        match line.strip_prefix("== ") {
            Some(title) => self.begin_section(title, output),
            None if self.title.is_empty() => self.fail(line, &"in no section", output),
            None => self.cases(line, output),
        }
    }

    fn begin_section(&mut self, title: &str, output: &mut impl Write) -> Result<(), Fault> {
        self.end_section(output)?;
        self.title.push_str(title)?;
        Ok(())
    }

    // Runs a line, or one of `each` once for each number of its range.
    fn cases(&mut self, line: &str, output: &mut impl Write) -> Result<(), Fault> {
        let Some(words) = line.strip_prefix("each ") else {
            return self.case(line, output);
        };
        let Some((numbers, line)) = range_and_line(words) else {
            return self.fail(words, &"not understood", output);
        };
        for number in numbers {
            let line = with_number(self.alloc, line, number)?;
            self.case(line.as_str(), output)?;
        }
        Ok(())
    }

    // Runs a case, or keeps what a line defines.
    fn case(&mut self, line: &str, output: &mut impl Write) -> Result<(), Fault> {
        match self.read(line, output) {
            Err(Fault::Unread) => self.fail(line, &"not understood", output),
            ended => ended,
        }
    }

    fn read(&mut self, line: &str, output: &mut impl Write) -> Result<(), Fault> {
        if let Some(config) = line.strip_prefix("config ") {
            self.config.clear();
            return Ok(self.config.push_str(config)?);
        }
        match line.strip_prefix("let ") {
            Some(definition) => self.define(definition),
            None => self.compare(line, output),
        }
    }

    fn words(&self) -> Words<'_> {
        Words {
            alloc: self.alloc,
            names: self.names.as_slice(),
        }
    }

    // Keeps the bytes of a name.
    fn define(&mut self, definition: &str) -> Result<(), Fault> {
        let (name, bytes) = definition.split_once(" = ").ok_or(Fault::Unread)?;
        let bytes = self.words().bytes(bytes)?;
        let name = String::from_str(self.alloc, name)?;
        Ok(self.names.push((name, bytes))?)
    }

    // Compares the answer to a case with the one that is expected.
    fn compare(&mut self, line: &str, output: &mut impl Write) -> Result<(), Fault> {
        let (asked, expected) = line.split_once(" = ").ok_or(Fault::Unread)?;
        let words = self.words();
        let answer = answer_to(&words, self.config.as_str(), asked)?;
        if !answer.is_as(&words, expected)? {
            return self.fail(line, &answer, output);
        }
        self.held_here = self.held_here.wrapping_add(1);
        Ok(())
    }

    fn fail(
        &mut self,
        line: &str,
        found: &impl fmt::Display,
        output: &mut impl Write,
    ) -> Result<(), Fault> {
        self.failed = self.failed.wrapping_add(1);
        say(output, &format_args!("{line}\n    {found}"))
    }

    // Reports the section that ends, of which one case at least has to hold.
    fn end_section(&mut self, output: &mut impl Write) -> Result<(), Fault> {
        if self.title.is_empty() {
            return Ok(());
        }
        let (title, held) = (self.title.as_str(), self.held_here);
        say(output, &format_args!("{title}: {held} held"))?;
        if held == 0 {
            say(output, &"    a section where none held")?;
            self.failed = self.failed.wrapping_add(1);
        }
        self.held = self.held.wrapping_add(held);
        self.held_here = 0;
        self.title.clear();
        self.config.clear();
        Ok(())
    }
}

// Writes a line. One that cannot be written stops the run.
fn say(output: &mut impl Write, line: &impl fmt::Display) -> Result<(), Fault> {
    writeln!(output, "{line}").or(Err(Fault::Output))
}

// The numbers of a range, and the line after these words. No range is empty.
fn range_and_line(words: &str) -> Option<(Range<usize>, &str)> {
    let (first, rest) = words.split_once(' ')?;
    let (last, line) = rest.split_once(' ')?;
    let first = number(first).ok()?;
    let end = number(last).ok()?.checked_add(1)?;
    if first < end {
        Some((first..end, line))
    } else {
        None
    }
}

// The line with the number in decimal digits for `{}`, and its lowest byte in hexadecimal digits
// for `{x}`.
fn with_number(alloc: Global, line: &str, number: usize) -> Result<String, AllocError> {
    let decimal = number.to_string(alloc)?;
    let digits = format!(in alloc; "{:02x}", number % 256)?;
    line.replace(alloc, "{}", decimal.as_str())?
        .as_str()
        .replace(alloc, "{x}", digits.as_str())
}

// The answer to the words of a case: of a call by itself, or of one for a configuration.
fn answer_to(words: &Words<'_>, config: &str, asked: &str) -> Result<Answer, Fault> {
    let mut answer = Answer::new(words.alloc);
    let asked: Vec<&str> = asked.split(' ').collect(words.alloc)?;
    let [call, args @ ..] = asked.as_slice() else {
        return Err(Fault::Unread);
    };
    let case = Case {
        words: *words,
        call: *call,
        args,
    };
    if config.is_empty() {
        numbers::answer(&case, &mut answer)?;
    } else {
        configured(&case, config, &mut answer)?;
    }
    Ok(answer)
}

// Answers a call for a configuration.
fn configured(case: &Case<'_>, config: &str, answer: &mut Answer) -> Result<(), Fault> {
    let (name, shape) = config.split_once(' ').ok_or(Fault::Unread)?;
    match name {
        "u32_u32" => tables::answer::<U32ToU32>(case, shape, answer),
        "u32_u32_direct" => tables::answer::<DirectU32ToU32>(case, shape, answer),
        "u64_u32" => tables::answer::<Plain<[u8; 8], [u8; 4]>>(case, shape, answer),
        "u8_none" => tables::answer::<Plain<[u8; 1], [u8; 0]>>(case, shape, answer),
        "none_none" => tables::answer::<Plain<[u8; 0], [u8; 0]>>(case, shape, answer),
        "b16_u32_xxh64" => {
            tables::answer::<Pairs<[u8; 16], u32, Xxh64HashFn>>(case, shape, answer)
        }
        _ => Err(Fault::Unread),
    }
}
