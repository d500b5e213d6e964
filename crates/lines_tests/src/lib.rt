//! Tests of the lines of documents, read and written. No other crate uses this one.
#![tactic(auto)]

#[cfg(test)]
mod reading;
#[cfg(test)]
mod written;
