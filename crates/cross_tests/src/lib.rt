//! Tests that compare parts of the project with each other on pseudorandom documents. No other crate
//! uses this one.
#![tactic(auto)]

mod documents;
mod draws;

pub use documents::some_document;
pub use draws::Draws;

#[cfg(test)]
mod tests;
