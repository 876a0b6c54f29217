//! The base of `odht`: load factors, hashes, byte arrays and stores of bytes.
//!
//! The definitions that all contracts cite are in `specs/`, from numbers up to tables and their
//! bytes.
#![tactic(auto)]

pub mod bytes;
pub mod hash;
pub mod laws;
pub mod load;
pub mod swisstable_group_query;
