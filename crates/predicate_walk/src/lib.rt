//! Finds which predicates hold at which elements of a document, by one walk for all of them.
#![tactic(auto)]

mod machine;
mod name_rows;
mod question;
mod rows;
mod targets;
mod truths;
mod walk;

pub use question::does_pass;
pub use truths::{PredRef, find_truths};
