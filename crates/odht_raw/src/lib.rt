//! `odht_raw`: the bytes of a table, its parts, and searches, inserts and walks in them. `odht`
//! has the tables over them.
#![tactic(auto)]

pub use odht_base::{bytes, hash, load, swisstable_group_query};
pub use odht_header::{config, error, layout};

pub mod items;
pub mod memory_layout;
pub mod raw_table;
pub mod read_at;
