//! The jobs: what users of the library wait for.

pub mod build;
pub mod check;
pub mod lookup;
pub mod order;
pub mod symbols;
pub mod text;
