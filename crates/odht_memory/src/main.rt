//! Runs one call, whose name is what standard input has. What it returned, and what the table then
//! holds, are lines on standard output.
//!
//! The tests have each of its requests for memory fail in turn, and the gate runs it with ample
//! memory.
#![tactic(auto)]

mod dynamic;
mod index;
mod owned;
mod parts;
mod quiet;
mod report;

use report::Report;
use std::alloc::Global;
use std::io::{self, ErrorKind, Read};

fn main(rt: HostRuntime) -> io::Result<()> {
    let mut given = [0; 64];
    let length = rt.stdin().read(&mut given)?;
    let mut report = Report::new();
    let is_known = match std::str::from_utf8(&given[..length]) {
        Ok(call) => run(rt.alloc(), call.trim_end(), &mut report),
        Err(_) => false,
    };
    if !is_known {
        return Err(io::Error::from(ErrorKind::InvalidInput));
    }
    report.write(&mut rt.stdout())
}

// Runs a call by its name, and returns whether there is one of that name.
fn run(alloc: Global, call: &str, report: &mut Report) -> bool {
    match call {
        "with_capacity" => owned::with_capacity(alloc, report),
        "default" => owned::default(alloc, report),
        "from_iterator" => owned::from_iterator(alloc, report),
        "insert" => owned::insert(alloc, report),
        "insert_all" => owned::insert_all(alloc, report),
        "extend" => owned::extend(alloc, report),
        "reserve" => owned::reserve(alloc, report),
        "clear" => quiet::clear(alloc, report),
        "clone" => owned::clone(alloc, report),
        "from_raw_bytes" => owned::from_raw_bytes(alloc, report),
        "from_raw_bytes_within" => owned::from_raw_bytes_within(alloc, report),
        "from_raw_bytes_unchecked" => owned::from_raw_bytes_unchecked(alloc, report),
        "refused_bytes" => owned::refused_bytes(alloc, report),
        "dynamic" => dynamic::grow(alloc, report),
        "dynamic_reserve" => dynamic::reserve(alloc, report),
        "index" => index::build(alloc, report),
        "allocate" => parts::allocation(alloc, report),
        "probe_order" => parts::order(alloc, report),
        "below_the_maximum" => quiet::below_the_maximum(alloc, report),
        "insert_order" => quiet::insert_order(alloc, report),
        "view" => quiet::view(report),
        "numbers" => quiet::numbers(report),
        _ => return false,
    }
    true
}
