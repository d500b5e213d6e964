//! A key of 16 bytes with its schedules, which are computed once. Section numbers are those of FIPS 197 (2001, updated
//! 2023).
ghost use Rattle.std.specs.Prelude.{◌≡◌, ℕ, ◌+◌, ◌-◌, ◌≤◌, List};
ghost use Rattle.aes_block.specs.Aes.{cipher, full_rounds, inverse_cipher, inverse_rounds, key_expansion};
ghost use Rattle.aes_block.specs.inside.ColumnWords.{block_of_words};

use crate::rounds::{
    add_key, full_round, inverse_full_round, inverse_last_round, last_round, load, store,
};
use crate::schedule::{expand, inverse_keys};
use std::marker::Model;

/// A key of AES-128. In contracts it is the list of the key's bytes.
///
/// [`encrypt`](Key128::encrypt) and [`decrypt`](Key128::decrypt) look bytes up in tables, so their time may leak
/// information about the key and the block.
#[derive(Drop)]
pub struct Key128 {
    // The words of the key's expansion.
    words: [u32; 44],
    // The same words, those of the full rounds multiplied by the matrix of InvMixColumns().
    mixed: [u32; 44],
}

impl Model for Key128 {
    ghost use Rattle.std.specs.Prelude.{ℕ, List};
    ghost use Rattle.aes_block.specs.inside.ColumnWords.{block_of_round};
    ghost use Rattle.aes_block.specs.inside.Schedules.{AreSchedules};

    ghost Value = { List ℕ };

    ghost view = { λ k. block_of_round k.words 0 };

    ghost invariant = { λ k. AreSchedules k.words k.mixed };
}

impl Key128 {
    /// Computes the schedules of `key`.
    pub fn new(key: [u8; 16]) -> Key128
        ensures { result ≡ key }
    {
        let words = expand(key);
        let mixed = inverse_keys(&words);
        Key128 { words, mixed }
    }

    /// The cipher of `block` (5.1).
    pub fn encrypt(&self, block: [u8; 16]) -> [u8; 16]
        ensures cipher { result ≡ cipher self.now block }
        ensures undone { inverse_cipher self.now result ≡ block }
    {
        let start = add_key(load(&block), &self.words, 0);
        let third = self.three_rounds(start, 1);
        let sixth = self.three_rounds(third, 4);
        let ninth = self.three_rounds(sixth, 7);
        store(add_key(last_round(ninth), &self.words, 10))
    }

    /// The inverse cipher of `block` (5.3), by the equivalent inverse cipher (5.3.5).
    pub fn decrypt(&self, block: [u8; 16]) -> [u8; 16]
        ensures inverse { result ≡ inverse_cipher self.now block }
        ensures undone { cipher self.now result ≡ block }
    {
        let start = add_key(load(&block), &self.words, 10);
        let third = self.three_inverse_rounds(start, 9);
        let sixth = self.three_inverse_rounds(third, 6);
        let ninth = self.three_inverse_rounds(sixth, 3);
        store(add_key(inverse_last_round(ninth), &self.words, 0))
    }

    /// Three full rounds, from `round` on. They are not a loop, since there the compiler moves the state to and from
    /// vector registers in each round, which costs a third of the time.
    #[inline(always)]
    fn three_rounds(&self, state: [u32; 4], round: usize) -> [u32; 4]
        requires low { 1 ≤ round }
        requires high { round ≤ 7 }
        ensures { (block : List ℕ)
            → block_of_words state ≡ full_rounds (key_expansion self.now) block (round - 1)
            → block_of_words result ≡ full_rounds (key_expansion self.now) block (round + 2) }
    {
        let first = add_key(full_round(state), &self.words, round);
        let second = add_key(full_round(first), &self.words, round + 1);
        add_key(full_round(second), &self.words, round + 2)
    }

    /// Three full rounds of the inverse cipher, from `round` down.
    #[inline(always)]
    fn three_inverse_rounds(&self, state: [u32; 4], round: usize) -> [u32; 4]
        requires low { 3 ≤ round }
        requires high { round ≤ 9 }
        ensures { inverse_rounds (key_expansion self.now) (block_of_words result) (round - 3)
            ≡ inverse_rounds (key_expansion self.now) (block_of_words state) round }
    {
        let first = add_key(inverse_full_round(state), &self.mixed, round);
        let second = add_key(inverse_full_round(first), &self.mixed, round - 1);
        add_key(inverse_full_round(second), &self.mixed, round - 2)
    }
}
