//! The line that reports the progress of a long run.
ghost use Rattle.std.specs.Prelude.{◌≡◌, None, OnOk, replicate};
ghost use Rattle.std.specs.Io.KnownBytes.{Appends};
ghost use Rattle.odht_tool_core.specs.Progress.{copied_line, drawn_bar, filled, progress_bar, taken_line};

use crate::files::input_len;
use std::io::{self, IsTerminal, Write};
use std::rt::{Clock, Files};
use std::time::{Duration, Instant};

/// How many characters wide the bar is.
const WIDTH: u128 = 40;

/// What a run has taken of its input.
#[derive(Clone, Copy)]
pub struct Taken {
    pub lines: u64,
    /// How many pairs the table has by now.
    pub pairs: u64,
    /// The bytes of the lines, with one for the end of each.
    pub bytes: u64,
}

/// Whether lines of progress are requested, and of how many bytes a bar is drawn in them.
#[derive(Clone, Copy)]
pub struct Watch {
    pub is_asked: bool,
    pub drawn: Option<u64>,
}

impl Watch {
    /// Lines without a bar, where they are requested.
    pub fn of(is_asked: bool) -> Watch
        ensures asked { result.is_asked ≡ is_asked }
        ensures plain { result.drawn ≡ None }
    {
        Watch {
            is_asked,
            drawn: None,
        }
    }

    /// The same lines, with a bar where standard input is a file and `errors` a terminal.
    pub fn with_bar<R: Files, E: IsTerminal>(self, rt: &R, errors: &E) -> Watch
        ensures { result.is_asked ≡ self.is_asked }
    {
        let is_drawn = self.is_asked && errors.is_terminal();
        Watch {
            is_asked: self.is_asked,
            drawn: if is_drawn { input_len(rt) } else { None },
        }
    }
}

/// When the next line is due, and what is known of the input.
#[derive(Clone, Copy)]
pub struct Progress {
    begun: Option<Instant>,
    since: Option<Instant>,
    drawn: Option<u64>,
}

impl Progress {
    /// A line each second from now on, and a last one, where they are requested. Without a clock
    /// there are none.
    pub fn new<R: Clock>(rt: &R, watch: Watch) -> Progress {
        let begun = if watch.is_asked {
            Instant::now(rt).ok()
        } else {
            None
        };
        Progress {
            begun,
            since: begun,
            drawn: watch.drawn,
        }
    }

    /// Writes a line of what is taken, where a second or more has passed since the last one, or
    /// since the start.
    pub fn report<R: Clock, E: Write>(
        &mut self,
        rt: &R,
        taken: Taken,
        errors: &mut E,
    ) -> io::Result<()> {
        match self.due(rt)? {
            Some(seconds) => write_taken(taken, seconds, self.drawn, errors),
            None => Ok(()),
        }
    }

    /// The same of pairs that are copied from a table.
    pub fn report_pairs<R: Clock, E: Write>(
        &mut self,
        rt: &R,
        pair_count: u64,
        errors: &mut E,
    ) -> io::Result<()> {
        match self.due(rt)? {
            Some(seconds) => write_copied(pair_count, seconds, errors),
            None => Ok(()),
        }
    }

    /// Writes a last line, of all that was taken, where lines are requested.
    pub fn end<R: Clock, E: Write>(self, rt: &R, taken: Taken, errors: &mut E) -> io::Result<()> {
        match self.seconds(rt)? {
            Some(seconds) => write_taken(taken, seconds, self.drawn, errors),
            None => Ok(()),
        }
    }

    /// The same of pairs that were copied from a table.
    pub fn end_pairs<R: Clock, E: Write>(
        self,
        rt: &R,
        pair_count: u64,
        errors: &mut E,
    ) -> io::Result<()> {
        match self.seconds(rt)? {
            Some(seconds) => write_copied(pair_count, seconds, errors),
            None => Ok(()),
        }
    }

    // The seconds since the start, where lines are requested.
    fn seconds<R: Clock>(self, rt: &R) -> io::Result<Option<u64>> {
        let Some(begun) = self.begun else {
            return Ok(None);
        };
        let now = Instant::now(rt)?;
        Ok(Some(now.duration_since(begun).as_secs()))
    }

    // The seconds since the start, where a line is due. The next one is then due a second later.
    fn due<R: Clock>(&mut self, rt: &R) -> io::Result<Option<u64>> {
        let (Some(begun), Some(since)) = (self.begun, self.since) else {
            return Ok(None);
        };
        let now = Instant::now(rt)?;
        if now.duration_since(since) < Duration::from_secs(1) {
            return Ok(None);
        }
        self.since = Some(now);
        Ok(Some(now.duration_since(begun).as_secs()))
    }
}

/// Writes how much of the input is taken after that many seconds, with a bar, where it is said to
/// have that many bytes.
pub fn write_taken<E: Write>(
    taken: Taken,
    seconds: u64,
    drawn: Option<u64>,
    errors: &mut E,
) -> io::Result<()>
    ensures { OnOk result (Appends (E.contents errors.old) (E.contents errors.new)
        (taken_line taken seconds drawn)) }
{
    let Taken {
        lines,
        pairs,
        bytes,
    } = taken;
    write!(
        errors,
        "odht: {lines} lines, {pairs} pairs, {bytes} bytes, {seconds} seconds"
    )?;
    write_drawn(bytes, drawn, errors)?;
    errors.write_all(b"\n")
}

/// Writes how many pairs are copied after that many seconds.
pub fn write_copied<E: Write>(pairs: u64, seconds: u64, errors: &mut E) -> io::Result<()>
    ensures { OnOk result (Appends (E.contents errors.old) (E.contents errors.new)
        (copied_line pairs seconds)) }
{
    writeln!(errors, "odht: {pairs} pairs, {seconds} seconds")
}

// The bar, where one is drawn.
fn write_drawn<E: Write>(bytes: u64, drawn: Option<u64>, errors: &mut E) -> io::Result<()>
    ensures { OnOk result (Appends (E.contents errors.old) (E.contents errors.new)
        (drawn_bar bytes drawn)) }
{
    match drawn {
        None => errors.write_all(b""),
        Some(total) => {
            errors.write_all(b"  ")?;
            write_bar(bytes, total, errors)
        }
    }
}

// A bar of forty characters, `#` for the share of the bytes that is taken, and `.` for the rest.
fn write_bar<E: Write>(bytes: u64, total: u64, errors: &mut E) -> io::Result<()>
    ensures { OnOk result (Appends (E.contents errors.old) (E.contents errors.new)
        (progress_bar bytes total)) }
{
    let signs = filled(bytes, total);
    write_signs(b'#', signs, errors)?;
    write_signs(b'.', WIDTH - signs, errors)
}

// How many of the forty characters stand for what is taken.
fn filled(bytes: u64, total: u64) -> u128
    ensures { result ≡ filled bytes total }
{
    if total == 0 {
        return WIDTH;
    }
    (bytes as u128 * WIDTH / total as u128).min(WIDTH)
}

// Writes a character that many times.
fn write_signs<E: Write>(sign: u8, count: u128, errors: &mut E) -> io::Result<()>
    ensures { OnOk result (Appends (E.contents errors.old) (E.contents errors.new)
        (replicate count sign)) }
{
    for _ in 0..count {
        errors.write_all(&[sign])?;
    }
    Ok(())
}
