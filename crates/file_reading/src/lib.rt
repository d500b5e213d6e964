//! Reads the document of a file from an untrusted store.
#![tactic(auto)]

mod fault;
mod file;
mod stream;

pub use fault::FileFault;
pub use file::read_file;

#[cfg(test)]
mod tests;
