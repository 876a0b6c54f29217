//! The commands, a module each.

pub mod build;
pub mod delete;
pub mod delete_lines;
pub mod merge;
mod merged_hash;
pub mod rebuild;
