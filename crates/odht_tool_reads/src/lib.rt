//! `odht_tool_reads`: the commands of `odht_tool` that read tables and write none.
#![tactic(auto)]

pub mod bounds;
pub mod commands;
mod dynamic;
pub mod lookups;
pub mod positions;
