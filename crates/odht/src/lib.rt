//! `odht`: a hash table that is used in the form in which it is stored.
//!
//! [`HashTableOwned`] owns its bytes and grows; [`HashTable`] is a view of bytes of any kind, and
//! does not grow. Both have the bytes of docs/FORMAT.md.
#![tactic(auto)]

pub use hash_table::{HashTable, bytes_needed};
pub use hash_table_owned::HashTableOwned;
pub use iter::{Iter, Slots};
pub use odht_base::hash::{FxHashFn, HashFn, UnHashFn, Xxh64HashFn};
pub use odht_base::{bytes, hash, load, swisstable_group_query};
pub use odht_raw::config::{Config, Lossless};
pub use odht_raw::{config, error, items, layout, memory_layout, raw_table, read_at};

pub mod configs;
pub mod dynamic;
mod equality;
pub mod growth;
mod hash_table;
mod hash_table_owned;
mod insert_order;
mod iter;
pub mod laws;
pub mod lookups;
mod new_tables;
mod prefix;
