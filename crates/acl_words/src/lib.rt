//! Parses the command line: which command it asks for, which files it names, and which argument is the first wrong one.
//!
//! In names, `words` are the arguments without the program's name, and a `word` is one of them.
#![tactic(auto)]

mod files;
mod options;
mod prefixes;
mod request;
mod words;

pub use files::{Files, Input, named_files};
pub use prefixes::refused_word;
pub use request::{Request, Shown};
pub use words::read_words;

#[cfg(test)]
mod tests;
