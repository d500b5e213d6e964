//! Tests of the walk over a file in a store. No other crate uses this one.
#![tactic(auto)]

#[cfg(test)]
mod tests;
