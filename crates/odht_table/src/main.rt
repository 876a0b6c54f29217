//! Reads a script from standard input and answers each of its lines on standard output.
//!
//! The script works on one table from `u64` to `u32`, which grows as it fills. `script::run` says
//! what each line does.
#![tactic(auto)]

ghost use Rattle.std.specs.Prelude.{IfOk, OnOk, IfSome, IsErrOf, List, ℕ};
ghost use Rattle.std.specs.Io.KnownBytes.{IsAtEnd, Appends};
ghost use Rattle.odht_table.specs.Scripts.{IsAnsweredBy};
ghost use Rattle.odht_table.specs.declared.script.Fault.{Fault};

mod script;

use odht::config::Coded;
use odht::configs::U64ToU32;
use script::{Fault, run};
use std::alloc::Global;
use std::io::{BufWriter, Read, Write};
use std::process::ExitCode;

fn main(rt: HostRuntime) -> ExitCode {
    match run_buffered(rt.alloc(), &mut rt.stdin(), rt.stdout()) {
        Ok(_) => ExitCode::SUCCESS,
        Err(fault) => {
            // Where writing to standard error fails too, only the status reports the fault.
            let _ = eprintln!(rt; "{fault}");
            ExitCode::FAILURE
        }
    }
}

// Answers come in small pieces: a buffer joins them. The writer is returned once the buffer is
// empty.
fn run_buffered<R: Read, W: Write + Drop>(
    alloc: Global,
    input: &mut R,
    output: W,
) -> Result<W, Fault>
    ensures answers { IfOk result (λ writer. IfSome (R.remaining input.old)
        (λ script. (text : List ℕ) × IsAnsweredBy ⟦<U64ToU32 as Coded>⟧.coding script text
        × Appends (W.contents output) (W.contents writer) text)) }
    ensures end { OnOk result (IsAtEnd (R.remaining input.new)) }
    ensures write { IsErrOf result Fault.Write → IsAtEnd (R.remaining input.new) }
{
    let mut output = BufWriter::new(alloc, output).or(Err(Fault::Memory))?;
    run(alloc, input, &mut output)?;
    output.into_inner().or(Err(Fault::Write))
}
