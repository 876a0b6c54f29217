//! The lines that report how far a run is. One that cannot be written is no failure.
use odht_tool_core::progress::{Progress, Taken, Watch};
use std::alloc::Global;
use std::io::Write;
use std::rt::Clock;

/// How many lines or pairs there are from one report, where it is due, to the next.
pub const BATCH: usize = 1024;

/// The reports of a run over lines.
#[derive(Drop)]
pub struct LineReports<'a, R> {
    rt: &'a R,
    progress: Progress,
}

impl<'a, R: Clock> LineReports<'a, R> {
    pub fn new(rt: &'a R, watch: Watch) -> Self {
        LineReports {
            rt,
            progress: Progress::new(rt, watch),
        }
    }

    /// Reports that this many lines were read, of that many bytes, and how many pairs there are by
    /// now.
    #[inline(never)]
    pub fn report<E: Write>(&mut self, lines: u64, pairs: usize, bytes: u64, errors: &mut E) {
        let _ = self
            .progress
            .report(self.rt, taken(lines, pairs, bytes), errors);
    }

    /// Reports the end of a run, whose lines have the numbers below this one.
    #[cold]
    #[inline(never)]
    pub fn end<E: Write>(&self, end: u64, pairs: usize, bytes: u64, errors: &mut E) {
        let taken = taken(end.saturating_sub(1), pairs, bytes);
        let _ = self.progress.end(self.rt, taken, errors);
    }
}

fn taken(lines: u64, pairs: usize, bytes: u64) -> Taken {
    Taken {
        lines,
        pairs: pairs as u64,
        bytes,
    }
}

/// `bytes`, plus the bytes of this line and its end.
#[inline(always)]
pub fn with_line(bytes: u64, line: &[u8]) -> u64 {
    bytes.saturating_add(line.len() as u64 + 1)
}

/// A run over the pairs of tables: the system, and how far the run is.
#[derive(Drop)]
pub struct PairRun<'a, R> {
    rt: &'a R,
    progress: Progress,
    count: u64,
}

impl<'a, R: AllocGlobal + Clock> PairRun<'a, R> {
    pub fn new(rt: &'a R, is_asked: bool) -> Self {
        PairRun {
            rt,
            progress: Progress::new(rt, Watch::of(is_asked)),
            count: 0,
        }
    }

    pub fn alloc(&self) -> Global {
        self.rt.alloc()
    }

    /// Counts a pair. A report may then be due.
    pub fn count<E: Write>(&mut self, errors: &mut E) {
        self.count = self.count.saturating_add(1);
        if self.count % BATCH as u64 == 0 {
            let _ = self.progress.report_pairs(self.rt, self.count, errors);
        }
    }

    /// Reports that all pairs are copied.
    pub fn end<E: Write>(&self, errors: &mut E) {
        let _ = self.progress.end_pairs(self.rt, self.count, errors);
    }
}
