//! `odht_tool_tables`: what the commands that read tables and those that make them both need: the
//! bytes of a file, their whole check, and tables of lengths that are numbers.
#![tactic(auto)]

pub mod checks;
pub mod dynamic;
pub mod files;
pub mod generated;
mod short_inserts;
pub mod trials;
pub mod whole;
