//! The lines of `odht build`, as its options say: which line of a key counts, what stands between
//! key and value, and whether a table is stored at all.
ghost use Rattle.std.specs.Prelude.{◌<◌, IfErr, IfSome, OnOk, length, slice_get};
ghost use Rattle.odht_tool_writes.specs.Faults.{TellsRepeated};
ghost use Rattle.odht_tool_writes.specs.Inserted.{IsLineRefused, IsLineTaken};

use crate::inserts::{Inserts, LineJob, fill, next_pair};
use crate::reports::{BATCH, LineReports, with_line};
use crate::warnings::warn_of_long;
use odht_tool_core::arguments::{Duplicates, is_stream};
use odht_tool_core::failure::Failure;
use odht_tool_core::forms::Forms;
use odht_tool_core::job::Streams;
use odht_tool_core::line_messages::repeated_message;
use odht_tool_core::new_file::{NewFile, ended, make_new, replace_file};
use odht_tool_core::pairs::Pairs;
use odht_tool_core::status::{Status, of_output};
use odht_tool_core::targets::{Allowed, Target};
use std::alloc::Global;
use std::io::{BufRead, Write};
use std::os::fd::AsFd;
use std::rt::{Clock, Files};

/// Where a table goes.
#[derive(Drop)]
pub enum Place<F: Drop> {
    /// It is not stored.
    Nowhere,
    /// To standard output.
    Output,
    /// It is stored by this new file.
    File(NewFile<F>),
}

/// The place that the name of a file stands for. With `--check-only` it is not looked at. The
/// caller hands it to [`left`], whether or not it fails later.
pub fn place_of<R: Files + AllocGlobal>(
    rt: &R,
    file: &str,
    is_check: bool,
    allowed: Allowed,
) -> Result<Place<R::File>, Failure> {
    if is_check {
        Ok(Place::Nowhere)
    } else if is_stream(file) {
        Ok(Place::Output)
    } else {
        let target = Target::find(rt, file, allowed)?;
        Ok(Place::File(make_new(rt, target)?))
    }
}

/// How a command ends that did this with its place. A new file that replaced nothing is removed.
pub fn left<R: Files>(
    rt: &R,
    place: Place<R::File>,
    done: Result<Status, Failure>,
) -> Result<Status, Failure> {
    match place {
        Place::File(new) => ended(rt, new, done),
        Place::Nowhere | Place::Output => done,
    }
}

/// Whether lines are only read: no table is stored, nor needed to find a key that is there twice.
pub fn makes_no_table(duplicates: Duplicates, is_check: bool) -> bool {
    match duplicates {
        Duplicates::Error => false,
        _ => is_check,
    }
}

/// Adds the lines to the table, and puts it in its place.
pub fn insert_lines<
    T: Inserts,
    F: Forms,
    R: Files + AllocGlobal + Clock,
    I: BufRead,
    O: Write,
    E: Write,
>(
    job: &LineJob<'_, R, F>,
    place: &mut Place<R::File>,
    mut table: T,
    streams: &mut Streams<'_, '_, '_, I, O, E>,
) -> Result<Status, Failure>
where
    R::File: AsFd,
{
    let errors = &mut *streams.errors;
    match job.duplicates {
        Duplicates::Last => fill(job, &mut table, streams.input, errors)?,
        Duplicates::First => fill_new(job, &mut table, false, streams.input, errors)?,
        Duplicates::Error => fill_new(job, &mut table, true, streams.input, errors)?,
    }
    match place {
        Place::Nowhere => Ok(Status::Done),
        Place::Output => {
            let status = of_output(streams.output.write_all(table.all_bytes()))?;
            warn_of_long(job.rt.alloc(), "FILE", table.all_bytes(), errors);
            Ok(status)
        }
        Place::File(new) => {
            replace_file(job.rt, new, table.all_bytes())?;
            warn_of_long(job.rt.alloc(), new.path(), table.all_bytes(), errors);
            Ok(Status::Done)
        }
    }
}

/// Reads the pair of each line, and makes no table of them.
pub fn check_lines<P: Pairs, F: Forms, R: AllocGlobal + Clock, I: BufRead, E: Write>(
    job: &LineJob<'_, R, F>,
    input: &mut I,
    errors: &mut E,
) -> Result<Status, Failure> {
    let mut reports = LineReports::new(job.rt, job.watch);
    let alloc: Global = job.rt.alloc();
    let mut pair = P::none(alloc, job.layout);
    let mut line = Vec::new(alloc);
    let mut bytes: u64 = 0;
    for number in 1..u64::MAX {
        if !next_pair(alloc, input, &mut line, number, job.forms, &mut pair)? {
            reports.end(number, 0, bytes, errors);
            break;
        }
        pair.remove_all();
        bytes = with_line(bytes, line.as_slice());
        if number % BATCH as u64 == 0 {
            reports.report(number, 0, bytes, errors);
        }
    }
    Ok(Status::Done)
}

// Inserts the pair of each line whose key has no value. One that has is left out, or, where each
// key is to be there once, a failure.
fn fill_new<T: Inserts, F: Forms, R: AllocGlobal + Clock, I: BufRead, E: Write>(
    job: &LineJob<'_, R, F>,
    table: &mut T,
    is_once: bool,
    input: &mut I,
    errors: &mut E,
) -> Result<(), Failure> {
    let mut reports = LineReports::new(job.rt, job.watch);
    let (alloc, forms): (Global, F) = (job.rt.alloc(), job.forms);
    let mut pair = T::Pairs::none(alloc, job.layout);
    let mut text = Vec::new(alloc);
    let mut bytes: u64 = 0;
    for number in 1..u64::MAX {
        pair.remove_all();
        if !next_pair(alloc, input, &mut text, number, forms, &mut pair)? {
            reports.end(number, table.pair_count(), bytes, errors);
            break;
        }
        let text = text.as_slice();
        let line = Line {
            number,
            text,
            delimiter: forms.delimiter(),
        };
        insert_line(alloc, table, &pair, is_once, line)?;
        bytes = with_line(bytes, text);
        if number % BATCH as u64 == 0 {
            reports.report(number, table.pair_count(), bytes, errors);
        }
    }
    Ok(())
}

// A line, with the byte that stands between key and value.
#[derive(Clone, Copy)]
struct Line<'a> {
    number: u64,
    text: &'a [u8],
    delimiter: u8,
}

// Inserts the pair of this line where its key has no value. Where it has one, and each key is to be
// there once, the failure tells of the line.
fn insert_line<T: Inserts>(
    alloc: Global,
    table: &mut T,
    pair: &T::Pairs,
    is_once: bool,
    line: Line<'_>,
) -> Result<(), Failure>
    requires { 0 < length (T.Pairs.items pair.now) }
    ensures taken { OnOk result (IfSome (slice_get (T.Pairs.items pair.now) 0) (λ p.
        IsLineTaken (T.coding table.old) (T.stands_for table.old) p.0 p.1 is_once
        (T.stands_for table.new))) }
    ensures refused { IfErr result (λ failure. IfSome (slice_get (T.Pairs.items pair.now) 0) (λ p.
        IsLineRefused (T.coding table.old) (T.stands_for table.old) p.0 p.1 is_once
        line.entry.delimiter line.entry.text.now line.entry.number (T.stands_for table.new)
        failure)) }
{
    if table.insert_new(pair, 0)? || !is_once {
        Ok(())
    } else {
        Err(repeated(alloc, line.number, line.text, line.delimiter))
    }
}

// The failure of this line, whose key an earlier one had.
#[cold]
#[inline(never)]
fn repeated(alloc: Global, number: u64, line: &[u8], delimiter: u8) -> Failure
    ensures { TellsRepeated delimiter line.now number result }
{
    match repeated_message(alloc, number, line, delimiter) {
        Ok(message) => Failure::Misread(message),
        Err(_) => Failure::Memory,
    }
}
