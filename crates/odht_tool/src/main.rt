//! `odht`: prints what table files hold, checks them, makes them and adds to them.
//!
//! docs/TOOL.md describes each command.
#![tactic(auto)]

mod commands;
mod pairs;
mod streams;

use odht_tool_core::arguments::parse;
use odht_tool_core::job::Streams;
use odht_tool_core::status::Status;
use pairs::lines_of_words;
use std::alloc::Global;
use std::env;
use std::io::{self, BufReader, BufWriter, ErrorKind};
use std::process::ExitCode;
use streams::{Sink, Source};

/// How many bytes are read and written at once.
const BUFFER_SIZE: usize = 1 << 16;

fn main(rt: HostRuntime) -> ExitCode {
    match run(&rt) {
        Ok(status) => ExitCode::from(status.code()),
        // Where standard error cannot be written either, only the exit status reports it.
        Err(error) if error.kind() == ErrorKind::InvalidData => {
            let _ = eprintln!(rt; "odht: a word is no UTF-8 text");
            ExitCode::from(Status::Misused.code())
        }
        // No word was read, so the status is none that a command has as its answer.
        Err(error) => {
            let _ = eprintln!(rt; "odht: {error}");
            ExitCode::from(Status::Trouble.code())
        }
    }
}

// Runs the command that the arguments name. An error is one of memory, or `InvalidData`: an
// argument is no text.
fn run(rt: &HostRuntime) -> io::Result<Status> {
    let alloc: Global = rt.alloc();
    let words: Vec<String> = env::args(rt)?.skip(1).collect(alloc)?;
    let request = parse(alloc, words);
    let lines = lines_of_words(alloc, &request)?;
    let (reads_null, writes_null) = match &request {
        Ok(request) => (request.reads_null(), request.writes_null()),
        Err(_) => (false, false),
    };
    let source = Source {
        reader: rt.stdin(),
        given: lines.as_slice(),
        is_given: !lines.is_empty(),
        has_null: reads_null,
    };
    let sink = Sink {
        writer: rt.stdout(),
        has_null: writes_null,
    };
    let mut input = BufReader::with_capacity(alloc, BUFFER_SIZE, source)?;
    let mut output = BufWriter::with_capacity(alloc, BUFFER_SIZE, sink)?;
    let mut errors = rt.stderr();
    let mut streams = Streams {
        input: &mut input,
        output: &mut output,
        errors: &mut errors,
    };
    Ok(commands::run(rt, request, &mut streams))
}
