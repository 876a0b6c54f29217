//! Runs the cases of files of vectors, and prints how many held.
//!
//! data/README.md describes such a file. Each case that does not hold, each line that is not
//! understood and each section without a case is printed, and the program then ends with status 1.
#![tactic(auto)]

mod vectors;

use std::io::{BufWriter, Write};
use std::process::ExitCode;
use std::{env, fs};
use vectors::{Fault, Run};

fn main(rt: HostRuntime) -> ExitCode {
    match run_files(&rt) {
        Ok(true) => ExitCode::SUCCESS,
        Ok(false) => ExitCode::FAILURE,
        Err(fault) => {
            // Where writing to standard error fails too, only the status reports the fault.
            let _ = eprintln!(rt; "{fault}");
            ExitCode::FAILURE
        }
    }
}

// Runs the files that the arguments name.
fn run_files(rt: &HostRuntime) -> Result<bool, Fault> {
    let mut output = BufWriter::new(rt.alloc(), rt.stdout()).or(Err(Fault::Memory))?;
    let mut run = Run::new(rt.alloc());
    for path in env::args(rt).or(Err(Fault::Input))?.skip(1) {
        let text = fs::read_to_string(rt, path.as_str()).or(Err(Fault::Input))?;
        run.file(text.as_str(), &mut output)?;
    }
    run.end(&mut output)
}
