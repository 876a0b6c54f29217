//! Tables of lengths that are numbers, by command.

pub mod deletes;
pub mod merges;
