//! Runs the commands, each from its parsed words to the status of the program.
use crate::pairs::of_words;
use odht_tool_core::arguments::{Command, Keys, Misuse, Reading, Request};
use odht_tool_core::failure::Failure;
use odht_tool_core::files::input_len;
use odht_tool_core::front::table_at;
use odht_tool_core::help::{write_help, write_version};
use odht_tool_core::inside::{first_inside, is_followed, write_inside};
use odht_tool_core::job::{Job, Streams};
use odht_tool_core::json::answers::Printed;
use odht_tool_core::status::{Status, of_output};
use odht_tool_reads::bounds::check_bound;
use odht_tool_reads::commands::diff;
use odht_tool_reads::lookups::Coming;
use odht_tool_reads::lookups::arriving::Arriving;
use odht_tool_reads::positions::{self, Asked, Reached};
use odht_tool_tables::files::{finish, finish_as, read_table_bytes, read_tagged};
use odht_tool_writes::commands::{build, delete, merge, rebuild};
use std::alloc::Global;
use std::io::{BufRead, IsTerminal, Write};
use std::os::fd::AsFd;
use std::os::unix::fs::FileExt;
use std::rt::{Clock, Files};

mod readings;
mod unfit;
mod whole;

use readings::{count_label, run_reading};
use unfit::{check_command, check_reading};
use whole::{open_for_long, read_from, read_opened};

/// Does what the words ask for. Each failure is reported by a line on `errors`; where that cannot
/// be written either, only the status reports it. Where nobody reads `output` any more, nothing
/// is reported.
pub fn run<R: Files + AllocGlobal + Clock, I: BufRead + Arriving, O: Write, E: Write + IsTerminal>(
    rt: &R,
    request: Result<Request, Misuse>,
    streams: &mut Streams<'_, '_, '_, I, O, E>,
) -> Status
where
    R::File: AsFd + FileExt,
{
    match request {
        Ok(Request::Help(topic)) => {
            let done = of_output(write_help(topic, streams.output));
            finish("help", flushed(done, streams.output), streams.errors)
        }
        Ok(Request::Version) => {
            let done = of_output(write_version(streams.output));
            finish("version", flushed(done, streams.output), streams.errors)
        }
        Ok(Request::Run { file, command, .. }) => {
            let file = file.as_str();
            let failed = command.failed();
            let done = run_command(rt, file, command, streams);
            finish_as(file, flushed(done, streams.output), failed, streams.errors)
        }
        Err(misuse) => {
            report_misuse(&misuse, streams.errors);
            misuse.status()
        }
    }
}

// Reports why the words cannot be parsed: if there is none, by the help of all commands.
fn report_misuse<E: Write>(misuse: &Misuse, errors: &mut E) {
    if misuse.is_empty() {
        let _ = write_help(None, errors);
    } else {
        let _ = writeln!(errors, "odht: {misuse}");
    }
}

// How a command ended, once all that it wrote has left the buffer.
fn flushed<O: Write>(done: Result<Status, Failure>, output: &mut O) -> Result<Status, Failure> {
    match output.flush() {
        Ok(()) => done,
        Err(error) => done.and(Err(Failure::Output(error))),
    }
}

fn run_command<
    R: Files + AllocGlobal + Clock,
    I: BufRead + Arriving,
    O: Write,
    E: Write + IsTerminal,
>(
    rt: &R,
    file: &str,
    command: Command,
    streams: &mut Streams<'_, '_, '_, I, O, E>,
) -> Result<Status, Failure>
where
    R::File: AsFd + FileExt,
{
    if let Some(status) = check_command(rt, file, &command, streams.errors)? {
        return Ok(status);
    }
    match command {
        Command::Read {
            others,
            at,
            reading,
        } => read_files(rt, file, others.as_slice(), at, &reading, streams),
        Command::Build(mut options) => {
            options.watch = options.watch.with_bar(rt, streams.errors);
            build::build(rt, file, options, streams)
        }
        Command::Delete(options) => {
            delete::delete(rt, file, &options, streams.input, streams.errors)
        }
        Command::Rebuild(options) => rebuild::rebuild(rt, file, options, streams.errors),
        Command::Diff(options) => diff::diff(rt, file, options, streams),
        Command::Merge(options) => merge::merge(rt, file, options, streams),
        Command::Put { options, words } if !words.is_empty() => {
            build::put(rt, file, options, streams).map_err(|failure| of_words(rt.alloc(), failure))
        }
        Command::Put { mut options, .. } => {
            options.watch = options.watch.with_bar(rt, streams.errors);
            build::put(rt, file, options, streams)
        }
    }
}

// Runs a command that only reads its file, on this file and on others. Where there are others,
// each failure is reported, and the next one is read; but where the output cannot be written, no
// more is.
fn read_files<R: Files + AllocGlobal, I: BufRead + Arriving, O: Write, E: Write>(
    rt: &R,
    file: &str,
    others: &[String],
    at: Option<usize>,
    reading: &Reading,
    streams: &mut Streams<'_, '_, '_, I, O, E>,
) -> Result<Status, Failure>
where
    R::File: FileExt,
{
    let is_one = others.is_empty();
    let done = read_one(rt, file, is_one, at, reading, streams);
    if is_one {
        return done;
    }
    let mut is_done = is_read(file, done, streams.output, streams.errors)?;
    for other in others {
        let file = other.as_str();
        let done = read_one(rt, file, is_one, at, reading, streams);
        is_done = is_read(file, done, streams.output, streams.errors)? && is_done;
    }
    Ok(Status::of(is_done))
}

// Reports the failure of a file, but one of the output, behind what was written of the files before
// it. Returns whether all was done.
fn is_read<O: Write, E: Write>(
    file: &str,
    done: Result<Status, Failure>,
    output: &mut O,
    errors: &mut E,
) -> Result<bool, Failure> {
    match done {
        Ok(status) => Ok(status.is_done()),
        Err(Failure::Output(error)) => Err(Failure::Output(error)),
        done => {
            let written = output.flush();
            let status = finish(file, done, errors);
            written.map_err(Failure::Output)?;
            Ok(status.is_done())
        }
    }
}

fn read_one<R: Files + AllocGlobal, I: BufRead + Arriving, O: Write, E: Write>(
    rt: &R,
    file: &str,
    is_one: bool,
    at: Option<usize>,
    reading: &Reading,
    streams: &mut Streams<'_, '_, '_, I, O, E>,
) -> Result<Status, Failure>
where
    R::File: FileExt,
{
    if reading.is_search() {
        return search_one(rt, file, is_one, reading, streams);
    }
    let opened = open_for_long(rt, file, is_live(rt, reading));
    let (coming, opened) = match read_by_position(rt, file, is_one, at, reading, streams)? {
        Some(Reached::End(status)) => return Ok(status),
        Some(Reached::Line(coming)) => (coming, opened),
        None => (Coming::all(is_live(rt, reading)), None),
    };
    check_reading(rt, file, at, reading)?;
    let (bytes, begins) = match opened {
        Some(opened) => (read_opened(rt.alloc(), opened)?, at),
        None => read_from(rt, file, at, streams.input)?,
    };
    let table = match begins {
        Some(offset) => table_at(bytes.as_slice(), offset)?,
        None => bytes.as_slice(),
    };
    let job = Job {
        alloc: rt.alloc(),
        file,
        is_one,
        at,
        bytes: table,
        bound: None,
        is_json: false,
        is_values: false,
    };
    let done = run_reading(&job, reading, coming, streams);
    with_hint(&job, done, reading.failed(), streams.output, streams.errors)
}

// Runs a command that looks for tables at every byte of its file. It needs no bytes before the
// first tag.
fn search_one<R: Files + AllocGlobal, I: BufRead + Arriving, O: Write, E: Write>(
    rt: &R,
    file: &str,
    is_one: bool,
    reading: &Reading,
    streams: &mut Streams<'_, '_, '_, I, O, E>,
) -> Result<Status, Failure> {
    let tagged = read_tagged(rt, file, streams.input)?;
    let job = Job {
        alloc: rt.alloc(),
        file,
        is_one,
        at: Some(tagged.skipped),
        bytes: tagged.bytes.as_slice(),
        bound: None,
        is_json: false,
        is_values: false,
    };
    run_reading(&job, reading, Coming::all(false), streams)
}

// Whether lines are answered as they come: where they are keys, and standard input is no file.
fn is_live<R: Files>(rt: &R, reading: &Reading) -> bool {
    match reading {
        Reading::Get {
            keys: Keys::Lines,
            ..
        } => input_len(rt).is_none(),
        _ => false,
    }
}

// Looks up the keys of words, or of lines while they are few for the file, or counts the items,
// without reading all of the file. None where that does not do: no line was read then.
fn read_by_position<R: Files + AllocGlobal, I: BufRead + Arriving, O: Write, E>(
    rt: &R,
    file: &str,
    is_one: bool,
    at: Option<usize>,
    reading: &Reading,
    streams: &mut Streams<'_, '_, '_, I, O, E>,
) -> Result<Option<Reached>, Failure>
where
    R::File: FileExt,
{
    match reading {
        Reading::Get {
            hash,
            kinds,
            bound,
            is_values,
            is_json,
            keys,
        } => {
            let asked = Asked {
                alloc: rt.alloc(),
                at,
                hash: *hash,
                kinds: *kinds,
                bound: *bound,
                printed: Printed {
                    is_json: *is_json,
                    is_values: *is_values,
                },
                most: None,
            };
            get_by_position(rt, file, &asked, keys, streams)
        }
        Reading::Count {
            is_checked: false,
            ..
        } => {
            let Some((source, len)) = positions::open_regular(rt, file) else {
                return Ok(None);
            };
            let label = count_label(rt.alloc(), file, is_one)?;
            let status = positions::count_at(source, len, at, label.as_str(), streams.output)?;
            Ok(status.map(Reached::End))
        }
        _ => Ok(None),
    }
}

// Looks up the keys of words, or of lines while they are few for the file.
fn get_by_position<R: Files + AllocGlobal, I: BufRead + Arriving, O: Write, E>(
    rt: &R,
    file: &str,
    asked: &Asked,
    keys: &Keys,
    streams: &mut Streams<'_, '_, '_, I, O, E>,
) -> Result<Option<Reached>, Failure>
where
    R::File: FileExt,
{
    let Some((source, len)) = positions::open_regular(rt, file) else {
        return Ok(None);
    };
    match keys {
        Keys::Words(words) => {
            let words = words.as_slice();
            let status = positions::get_words_at(asked, source, len, words, streams.output)?;
            Ok(status.map(Reached::End))
        }
        Keys::Lines => {
            let asked = match input_len(rt) {
                Some(input_len) if positions::are_few(input_len, len) => *asked,
                None if positions::most_few(len) > 0 => Asked {
                    most: Some(positions::most_few(len)),
                    ..*asked
                },
                _ => return Ok(None),
            };
            positions::get_lines_at(&asked, source, len, streams.input, streams.output).map_err(
                |failure| longer_failure(rt, file, &asked, failure),
            )
        }
    }
}

// Why lines were not looked up by position: that a search may read more groups than the bound,
// where the whole file has such a search.
fn longer_failure<R: Files + AllocGlobal>(
    rt: &R,
    file: &str,
    asked: &Asked,
    failure: Failure,
) -> Failure {
    match failure {
        Failure::Read(error) => match test_bound(rt, file, asked) {
            Ok(()) => Failure::Read(error),
            Err(failure) => failure,
        },
        failure => failure,
    }
}

// Tests the bound of searches in all of the table.
fn test_bound<R: Files + AllocGlobal>(rt: &R, file: &str, asked: &Asked) -> Result<(), Failure> {
    let offset = asked.at.unwrap_or(0);
    let mut nothing: &[u8] = &[];
    let bytes = read_table_bytes(rt, file, offset, &mut nothing)?;
    let table = match asked.at {
        Some(offset) => table_at(bytes.as_slice(), offset)?,
        None => bytes.as_slice(),
    };
    check_bound(table, asked.bound).map_err(Failure::Refused)
}

// Where the bytes of the job are no table, and one is further on, or begins them: reports the
// failure, with this status, and tells where the table is.
fn with_hint<O: Write, E: Write>(
    job: &Job<'_>,
    done: Result<Status, Failure>,
    failed: Status,
    output: &mut O,
    errors: &mut E,
) -> Result<Status, Failure> {
    let Some(inside) = hinted_offset(job.alloc, job.bytes) else {
        return done;
    };
    let done = match flushed(done, output) {
        Err(Failure::Output(error)) => return Err(Failure::Output(error)),
        done => done,
    };
    let status = finish_as(job.file, done, failed, errors);
    let offset = job.at.unwrap_or(0);
    // A hint that cannot be written is no failure.
    let _ = write_inside(job.file, offset.saturating_add(inside), errors);
    Ok(status)
}

// Where a table is in bytes that are none. None where there is no table, memory is short, or
// headers overlap.
fn hinted_offset(alloc: Global, bytes: &[u8]) -> Option<usize> {
    if is_followed(bytes) {
        return Some(0);
    }
    first_inside(alloc, bytes).ok()?
}
