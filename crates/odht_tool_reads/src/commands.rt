//! The commands, a module each.

pub mod check;
pub mod count;
pub mod diff;
pub mod dump;
pub mod find;
pub mod get;
pub mod keys;
pub mod order;
