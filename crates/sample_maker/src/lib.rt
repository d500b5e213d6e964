//! The sample document, a hospital with as many folders as asked for, and the line with its numbers.
#![tactic(auto)]

mod counts;
mod folders;
mod laws;
mod line;
mod rule;

pub use folders::hospital;
pub use laws::hospitals_are_documents;
pub use line::sample_line;

#[cfg(test)]
mod tests;
