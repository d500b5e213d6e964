//! The tag dictionary of a document: numbers of element names, and names of numbers.
#![tactic(auto)]

mod dictionary;
mod fault;
mod laws;

pub use dictionary::Dictionary;
pub use fault::{DictFault, TagFault};
pub use laws::a_section_is_of_one_dictionary;

#[cfg(test)]
mod tests;
