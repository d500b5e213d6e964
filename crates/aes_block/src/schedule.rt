//! Key expansion, and the round keys of the inverse cipher.
ghost use Rattle.std.specs.Prelude.{◌≡◌, ℕ, ◌<◌, ◌≤◌, [], ◌∷◌, slice_index};
ghost use Rattle.aes_block.specs.Aes.{expansion_step, inverse_mix_word, key_expansion, rot_word, sub_word, word, xor_bytes};
ghost use Rattle.aes_block.specs.inside.ColumnWords.{block_of_round, times_word, word_bytes};

use crate::rounds::{
    first_byte, fourth_byte, inverse_mixed, load, second_byte, substituted, third_byte,
};
use crate::tables::SUB_BYTE;

// The powers of x in the field, from x^0 on.
static ROUND_CONSTANTS: [u8; 10] = [0x01, 0x02, 0x04, 0x08, 0x10, 0x20, 0x40, 0x80, 0x1b, 0x36];

/// SubWord() of RotWord() of a word, with the round constant added to its first byte.
fn turned(before: u32, constant: u8) -> u32
    ensures { word_bytes result ≡ xor_bytes (sub_word (rot_word (word_bytes before)))
        (constant ∷ 0 ∷ 0 ∷ 0 ∷ []) }
{
    u32::from_be_bytes([
        SUB_BYTE[second_byte(before)] ^ constant,
        SUB_BYTE[third_byte(before)],
        SUB_BYTE[fourth_byte(before)],
        SUB_BYTE[first_byte(before)],
    ])
}

/// What is added to word `i - 4` to give word `i`, computed from the word before it.
fn step(i: usize, before: u32) -> u32
    requires low { 4 ≤ i }
    requires high { i < 44 }
    ensures { word_bytes result ≡ expansion_step 4 i (word_bytes before) }
{
    if i % 4 == 0 {
        turned(before, ROUND_CONSTANTS[i / 4 - 1])
    } else {
        before
    }
}

/// The words of a key's expansion.
pub(crate) fn expand(key: [u8; 16]) -> [u32; 44]
    ensures given { block_of_round result 0 ≡ key }
    ensures words { (i : ℕ) → i < 44
        → word_bytes (slice_index result i) ≡ word (key_expansion key) i }
{
    let [a, b, c, d] = load(&key);
    let mut words = [0; 44];
    words[0] = a;
    words[1] = b;
    words[2] = c;
    words[3] = d;
    'further: for i in 4..44 {
        words[i] = words[i - 4] ^ step(i, words[i - 1]);
    }
    words
}

/// The product of a word with the matrix of InvMixColumns(), by the tables of the inverse substitution.
fn inverse_mixed_word(word: u32) -> u32
    ensures { word_bytes result ≡ times_word inverse_mix_word word }
{
    let s = substituted(word, word, word, word);
    inverse_mixed(s, s, s, s)
}

/// The words of the inverse cipher's round keys. Those of the full rounds are multiplied by the matrix of
/// InvMixColumns().
pub(crate) fn inverse_keys(words: &[u32; 44]) -> [u32; 44]
    ensures { (i : ℕ) → 4 ≤ i → i < 40 → word_bytes (slice_index result i)
        ≡ times_word inverse_mix_word (slice_index words.now i) }
{
    let mut keys = *words;
    'mix: for i in 4..40 {
        keys[i] = inverse_mixed_word(words[i]);
    }
    keys
}
