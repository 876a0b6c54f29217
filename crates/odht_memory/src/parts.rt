//! Calls of the crate below the tables.
use crate::report::Report;
use odht::bytes::OwnedBytes;
use odht::configs::DirectU32ToU32;
use odht::error::Error;
use odht::load::{Factor, slots_needed};
use odht::memory_layout::{Allocation, allocate};
use odht::raw_table::probe_order;
use std::alloc::Global;

/// Makes the bytes of an empty table of sixteen slots.
pub fn allocation(alloc: Global, report: &mut Report) {
    let factor = Factor::from_percent(87);
    let Some(slots) = slots_needed(13, factor) else {
        return;
    };
    let made: Result<Allocation<DirectU32ToU32, OwnedBytes>, Error> = allocate(
        alloc, slots, 0, factor,
    );
    report.result("allocate", &made);
    if let Ok(made) = made {
        report.size("bytes", made.raw_bytes().len());
    }
}

/// Lists the sixteen slots from the last on.
pub fn order(alloc: Global, report: &mut Report) {
    let Some(slots) = slots_needed(15, Factor::from_percent(100)) else {
        return;
    };
    let order = probe_order(alloc, slots - 1, slots);
    report.result("probe_order", &order);
    if let Ok(order) = order {
        report.size("slots", order.len());
        report.option(
            "the first",
            order.as_slice().first().map(|slot| *slot as u64),
        );
    }
}
