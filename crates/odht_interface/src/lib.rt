//! Tests that use each public name of odht 0.3.1, with the types of its arguments and of its result
//! written out: one that goes missing, or has another type, does not compile. They are a crate of
//! their own so that they are built and proved beside the other tests.
#![tactic(auto)]

#[cfg(test)]
mod base;
#[cfg(test)]
mod checks;
#[cfg(test)]
mod errors;
#[cfg(test)]
mod groups;
#[cfg(test)]
mod layout;
#[cfg(test)]
mod queries;
#[cfg(test)]
mod raw;
#[cfg(test)]
mod tables;
