//! Writes a document as its Skip index stream, in two passes. The first measures the contents from the leaves upwards,
//! and the second writes each byte once. `encode_file` also makes the encrypted file, in which the stream is enciphered
//! in place.
#![tactic(auto)]

mod encoded;
mod fault;
mod file;
mod heads;
mod height;
mod laws;
mod locking;
mod measure_fault;
mod measured;
mod measures;
mod measuring;
mod plain;
mod stream;
mod tally;
mod writing;

pub use encoded::Encoded;
pub use fault::EncodeFault;
pub use file::encode_file;
pub use laws::words_on_bits_are_the_same;
pub use plain::Plain;
pub use stream::plain_stream;

#[cfg(test)]
mod tests;
