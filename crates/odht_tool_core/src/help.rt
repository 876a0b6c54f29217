//! The texts of `--help` and `--version`.
use crate::arguments::Topic;
use crate::generated::help::{summary_of, text_of};
use crate::generated::shapes::READY;
use crate::generated::topics::TOPICS;
use crate::generated::version::VERSION;
use std::io::{self, Write};

/// How the program was made of its source: with the proofs of its contracts.
const MADE: &str = "proved";

/// Writes the version of the program, of the format of its files, and whether it is proved.
pub fn write_version<W: Write>(output: &mut W) -> io::Result<()> {
    writeln!(output, "odht {VERSION} ({MADE}), file format version 2")
}

/// Writes the help text of a command, or of all.
pub fn write_help<W: Write>(topic: Option<Topic>, output: &mut W) -> io::Result<()> {
    match topic {
        Some(topic) => {
            output.write_all(text_of(topic).as_bytes())?;
            output.write_all(end_of(topic).as_bytes())
        }
        None => write_general(output),
    }
}

fn write_general<W: Write>(output: &mut W) -> io::Result<()> {
    for topic in TOPICS {
        output.write_all(summary_of(topic).as_bytes())?;
    }
    output.write_all(GENERAL.as_bytes())
}

// What comes after the help text of a command: for `build` the ready shapes.
fn end_of(topic: Topic) -> &'static str {
    match topic {
        Topic::Build => READY,
        _ => "",
    }
}

const GENERAL: &str = "\
odht help COMMAND    prints the help of a command, like odht COMMAND --help or -h
odht --version       prints the version of the program and of the format; also -V

With - as FILE a command reads a table from standard input; build and merge
write one to standard output. The value of an option is the next word, or
follows a =. Words that begin with a hyphen come after --, which ends the
options.

Status 0: done; 1: rejected, failed, a key is absent, no table is found, or
tables differ; 2: the words are not understood or not read, or get, delete or
diff failed.
";
