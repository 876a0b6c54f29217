//! The table for programs in C, and in any language that calls C.
#![tactic(auto)]

mod any;
mod generated;
mod version;
