//! Tests of paths, licences and keys. No other crate uses this one.
#![tactic(auto)]

#[cfg(test)]
mod licences;
#[cfg(test)]
mod paths;
