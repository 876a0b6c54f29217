//! Runs a job of the benchmark on inputs that it makes of a seed, and prints a digest of what all
//! its calls returned.
//!
//! The words are the name of the job, how many rounds it has, how many items the largest list of a
//! round has, and the seed. docs/PERF.md says what each job is and how its times are compared;
//! bench/workloads.txt has the runs that count. It prints no times, and the same line for the same
//! words.
#![tactic(auto)]

mod digest;
mod jobs;
mod random;
mod stopped;

use digest::Digest;
use jobs::{build, check, lookup, order, symbols, text};
use random::Random;
use std::alloc::Global;
use std::env;
use std::process::ExitCode;
use stopped::Stopped;

fn main(rt: HostRuntime) -> ExitCode {
    match run(&rt) {
        Ok(()) => ExitCode::SUCCESS,
        Err(stopped) => {
            // Where writing to standard error fails too, the status alone reports the fault.
            let _ = eprintln!(rt; "odht_bench: {stopped}");
            ExitCode::FAILURE
        }
    }
}

// Runs the job that the words name, and prints its digest.
fn run(rt: &HostRuntime) -> Result<(), Stopped> {
    let alloc: Global = rt.alloc();
    let words: Vec<String> = env::args(rt)?.skip(1).collect(alloc)?;
    let [job, rounds, largest, seed] = words.as_slice() else {
        return Err(Stopped::Usage);
    };
    let mut random = Random::new(number(seed)?);
    let mut digest = Digest::new();
    let largest = number(largest)? as usize;
    for _ in 0..number(rounds)? {
        run_round(alloc, job.as_str(), largest, &mut random, &mut digest)?;
    }
    println!(rt; "{} {:016x}", job, digest.value())?;
    Ok(())
}

fn number(word: &String) -> Result<u64, Stopped> {
    word.as_str().parse().or(Err(Stopped::Usage))
}

// Runs one round of a job, by its name.
fn run_round(
    alloc: Global,
    job: &str,
    largest: usize,
    random: &mut Random,
    digest: &mut Digest,
) -> Result<(), Stopped> {
    match job {
        "build" => build::round(alloc, largest, random, digest),
        "lookup" => lookup::round(alloc, largest, random, digest),
        "symbols" => symbols::round(alloc, largest, random, digest),
        "check" => check::round(alloc, largest, random, digest),
        "order" => order::round(alloc, largest, random, digest),
        "text" => text::round(alloc, largest, random, digest),
        "all" => {
            build::round(alloc, largest, random, digest)?;
            lookup::round(alloc, largest, random, digest)?;
            symbols::round(alloc, largest, random, digest)?;
            check::round(alloc, largest, random, digest)?;
            order::round(alloc, largest, random, digest)?;
            text::round(alloc, largest, random, digest)
        }
        _ => Err(Stopped::Usage),
    }
}
