//! An index from path hashes to numbers.
use crate::report::Report;
use odht_index::Index;
use std::alloc::Global;

/// Builds an index of three pairs, of which two have one path, and looks into it.
pub fn build(alloc: Global, report: &mut Report) {
    let pairs = [([5; 16], 1), ([6; 16], 2), ([5; 16], 3)];
    let built = odht_index::build(alloc, &pairs);
    report.result("build", &built);
    if let Ok(bytes) = built {
        tell_index(bytes.as_slice(), report);
    }
}

// Adds how many bytes an index has, and the numbers of three paths.
fn tell_index(bytes: &[u8], report: &mut Report) {
    let opened = Index::open(bytes);
    report.result("open", &opened);
    if let Ok(index) = opened {
        report.size("bytes", bytes.len());
        report.value("the number of 5", index.lookup(&[5; 16]));
        report.value("the number of 6", index.lookup(&[6; 16]));
        report.value("the number of 7", index.lookup(&[7; 16]));
    }
}
