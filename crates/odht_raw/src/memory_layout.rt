//! The bytes of a table: the header, the entries, and the control bytes with their mirror.
//!
//! Offsets and lengths are those of docs/FORMAT.md, "Layout".

mod allocation;
mod check;
mod inserts;
mod new_tables;
mod opening;

pub use crate::raw_table::{Entries, EntryMetadata};
pub use allocation::Allocation;
pub(crate) use allocation::prove_bytes;
pub use check::{
    DEFAULT_GROUPS, check_all, check_all_within, check_dynamic, check_dynamic_within, check_parts,
};
pub use inserts::{insert_dynamic, insert_dynamic_into, insert_items_dynamic, insert_items_in};
pub use new_tables::{allocate, clear_entries, init_in_place, init_parts, write_empty};
pub use odht_header::header::{HEADER_SIZE, Header, LEAST_FACTOR, is_accepted, write_header};
pub use odht_header::sizes::{bytes_needed, entry_at, layout_for};
pub use opening::{
    check_by_header, check_opening, check_opening_in, dynamic_parts, dynamic_table_len, parts_in,
    stated_layout, table_len,
};
