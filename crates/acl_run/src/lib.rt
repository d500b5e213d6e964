//! The top call of `acl`. It does what a command line asks for: it reads sources and a store of bytes, and writes to
//! sinks.
#![tactic(auto)]

mod encode;
mod preview;
mod readers;
mod sample;
mod seal;
mod top;
mod view;
mod writing;

pub use acl_outcome::{Outcome, outcome_text, status};
pub use top::run;
