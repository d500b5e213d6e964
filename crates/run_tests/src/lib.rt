//! Tests of the top call and of the texts for people. No other crate uses this one.
#![tactic(auto)]

#[cfg(test)]
mod runs;
#[cfg(test)]
mod usage;
