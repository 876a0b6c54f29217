//! Tables of lengths that are numbers, by command.

pub mod diffs;
pub mod gets;
