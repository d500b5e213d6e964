//! Tests of what rules mean on whole documents. No other crate uses this one.
#![tactic(auto)]

#[cfg(test)]
mod predicates;
#[cfg(test)]
mod trees;
