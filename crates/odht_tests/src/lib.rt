//! Tests over several crates: what neither a contract nor a vector says.
#![tactic(auto)]

#[cfg(test)]
mod tests;
