//! The outcomes of a run of `acl`, each with its number and its line.
#![tactic(auto)]

mod outcome;
mod outcome_line;

pub use outcome::{Outcome, status};
pub use outcome_line::outcome_text;

#[cfg(test)]
mod tests;
