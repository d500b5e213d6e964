//! AES-128: AES with a key of 16 bytes (FIPS 197, 2001, updated 2023).
#![tactic(auto)]

pub use key128::Key128;
pub use laws::{
    definitions_give_the_examples, field_inverse_is_an_inverse, inverse_cipher_undoes_cipher,
};

mod key128;
mod laws;
mod rounds;
mod schedule;
mod tables;
#[cfg(test)]
mod tests;
