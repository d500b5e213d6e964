//! Sets of numbers from 0 to 255, lists of flags, bit strings in bytes, and pieces of texts. Only lists of flags
//! allocate memory.
#![tactic(auto)]

pub use bit_reader::BitIn;
pub use bit_writer::{BitOut, bits_put_are_bits_taken};
pub use flags::Flags;
pub use number_set::{Row, sets_have_what_passes};
pub use piece::Piece;
pub use shortage::Short;

mod bit_reader;
mod bit_writer;
mod flags;
mod number_set;
mod piece;
mod shortage;
#[cfg(test)]
mod tests;
