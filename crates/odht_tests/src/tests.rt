//! What neither a contract nor a vector says, and what the calls for C cannot reach: lists at many
//! lengths of keys and values beside a map of std, raw tables without a free slot, owned tables,
//! and the index. `odht_memory` has exhausted memory, tests/c the calls for C, and
//! `odht_interface` each public name with its types.
mod builds;
mod checks;
mod collected_items;
mod dynamic_inserts;
mod dynamic_lists;
mod dynamic_orders;
mod dynamic_tables;
mod failing_streams;
mod file_tables;
mod first_table;
mod full_tables;
mod index;
mod insert_orders;
mod large_lists;
mod list_properties;
mod lookups;
mod lossless;
mod owned_tables;
mod parts;
mod prefixes;
mod probe_sequences;
mod random;
mod rejected_stores;
mod slot_counts;
mod walks;
