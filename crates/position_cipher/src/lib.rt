//! Enciphers and deciphers fragments of a stream by AES-128. Each block is masked with its number in the stream.
#![tactic(auto)]

pub use block_mask::mask;
pub use fragment::{lock_fragment, unlock_fragment};
pub use laws::{numbers_have_their_own_masks, unlocking_undoes_locking};

mod block_mask;
mod fragment;
mod laws;
#[cfg(test)]
mod tests;
