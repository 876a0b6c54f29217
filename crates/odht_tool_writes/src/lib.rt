//! `odht_tool_writes`: the commands of `odht_tool` that make tables or replace them.
#![tactic(auto)]

pub mod commands;
mod dynamic;
mod inserts;
mod reports;
mod starts;
mod warnings;
