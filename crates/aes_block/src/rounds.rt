//! The rounds of the cipher and of its inverse. A state is four words, one for each column, with row 0 in the highest
//! byte. A full round looks up in a table what each byte contributes to its column.
ghost use Rattle.std.specs.Prelude.{◌≡◌, ◌<◌, [], ◌∷◌, length};
ghost use Rattle.aes_block.specs.Aes.{add_round_key, inverse_mix_columns, inverse_mix_word, inverse_shift_rows, inverse_sub_byte, inverse_sub_bytes, mix_columns, mix_word, shift_rows, sub_byte, sub_bytes, word_product};
ghost use Rattle.aes_block.specs.inside.ColumnWords.{block_of_round, block_of_words, word_byte, word_bytes};

use crate::tables::{
    INVERSE_MIX_FIRST, INVERSE_MIX_FOURTH, INVERSE_MIX_SECOND, INVERSE_MIX_THIRD, INVERSE_SUB_BYTE,
    MIX_FIRST, MIX_FOURTH, MIX_SECOND, MIX_THIRD, SUB_BYTE,
};

/// The state of a block.
#[inline(always)]
pub(crate) fn load(block: &[u8]) -> [u32; 4]
    requires { length block.now ≡ 16 }
    ensures { block_of_words result ≡ block.now }
{
    [
        u32::from_be_bytes([block[0], block[1], block[2], block[3]]),
        u32::from_be_bytes([block[4], block[5], block[6], block[7]]),
        u32::from_be_bytes([block[8], block[9], block[10], block[11]]),
        u32::from_be_bytes([block[12], block[13], block[14], block[15]]),
    ]
}

/// The block of a state.
#[inline(always)]
pub(crate) fn store(state: [u32; 4]) -> [u8; 16]
    ensures { result ≡ block_of_words state }
{
    let [a, b, c, d] = state;
    let [a0, a1, a2, a3] = a.to_be_bytes();
    let [b0, b1, b2, b3] = b.to_be_bytes();
    let [c0, c1, c2, c3] = c.to_be_bytes();
    let [d0, d1, d2, d3] = d.to_be_bytes();
    [
        a0, a1, a2, a3, b0, b1, b2, b3, c0, c1, c2, c3, d0, d1, d2, d3,
    ]
}

/// The highest byte of a word, as an index.
#[inline(always)]
pub(crate) fn first_byte(word: u32) -> usize
    ensures { result ≡ word_byte word 0 }
{
    (word >> 24) as usize
}

/// The second highest byte of a word, as an index.
#[inline(always)]
pub(crate) fn second_byte(word: u32) -> usize
    ensures { result ≡ word_byte word 1 }
{
    ((word >> 16) % 0x100) as usize
}

/// The third highest byte of a word, as an index.
#[inline(always)]
pub(crate) fn third_byte(word: u32) -> usize
    ensures { result ≡ word_byte word 2 }
{
    ((word >> 8) % 0x100) as usize
}

/// The lowest byte of a word, as an index.
#[inline(always)]
pub(crate) fn fourth_byte(word: u32) -> usize
    ensures { result ≡ word_byte word 3 }
{
    (word % 0x100) as usize
}

/// Adds a round key to the state.
#[inline(always)]
pub(crate) fn add_key(state: [u32; 4], keys: &[u32; 44], round: usize) -> [u32; 4]
    requires { round < 11 }
    ensures { block_of_words result
        ≡ add_round_key (block_of_words state) (block_of_round keys.now round) }
{
    let [a, b, c, d] = state;
    [
        a ^ keys[4 * round],
        b ^ keys[4 * round + 1],
        c ^ keys[4 * round + 2],
        d ^ keys[4 * round + 3],
    ]
}

/// The mixed column of four substituted bytes: row 0 of `a`, row 1 of `b`, row 2 of `c` and row 3 of `d`.
#[inline(always)]
fn mixed(a: u32, b: u32, c: u32, d: u32) -> u32
    ensures { word_bytes result ≡ word_product mix_word
        (sub_byte (word_byte a 0)) (sub_byte (word_byte b 1))
        (sub_byte (word_byte c 2)) (sub_byte (word_byte d 3)) }
{
    MIX_FIRST[first_byte(a)]
        ^ MIX_SECOND[second_byte(b)]
        ^ MIX_THIRD[third_byte(c)]
        ^ MIX_FOURTH[fourth_byte(d)]
}

/// The same with the inverse substitution and the matrix of InvMixColumns().
#[inline(always)]
pub(crate) fn inverse_mixed(a: u32, b: u32, c: u32, d: u32) -> u32
    ensures { word_bytes result ≡ word_product inverse_mix_word
        (inverse_sub_byte (word_byte a 0)) (inverse_sub_byte (word_byte b 1))
        (inverse_sub_byte (word_byte c 2)) (inverse_sub_byte (word_byte d 3)) }
{
    INVERSE_MIX_FIRST[first_byte(a)]
        ^ INVERSE_MIX_SECOND[second_byte(b)]
        ^ INVERSE_MIX_THIRD[third_byte(c)]
        ^ INVERSE_MIX_FOURTH[fourth_byte(d)]
}

/// The column of the substituted bytes, not mixed.
#[inline(always)]
pub(crate) fn substituted(a: u32, b: u32, c: u32, d: u32) -> u32
    ensures { word_bytes result ≡ sub_byte (word_byte a 0) ∷ sub_byte (word_byte b 1)
        ∷ sub_byte (word_byte c 2) ∷ sub_byte (word_byte d 3) ∷ [] }
{
    u32::from_be_bytes([
        SUB_BYTE[first_byte(a)],
        SUB_BYTE[second_byte(b)],
        SUB_BYTE[third_byte(c)],
        SUB_BYTE[fourth_byte(d)],
    ])
}

/// The column of the bytes under the inverse substitution, not mixed.
#[inline(always)]
fn inverse_substituted(a: u32, b: u32, c: u32, d: u32) -> u32
    ensures { word_bytes result
        ≡ inverse_sub_byte (word_byte a 0) ∷ inverse_sub_byte (word_byte b 1)
        ∷ inverse_sub_byte (word_byte c 2) ∷ inverse_sub_byte (word_byte d 3) ∷ [] }
{
    u32::from_be_bytes([
        INVERSE_SUB_BYTE[first_byte(a)],
        INVERSE_SUB_BYTE[second_byte(b)],
        INVERSE_SUB_BYTE[third_byte(c)],
        INVERSE_SUB_BYTE[fourth_byte(d)],
    ])
}

/// A full round of the cipher, without its round key.
#[inline(always)]
pub(crate) fn full_round(state: [u32; 4]) -> [u32; 4]
    ensures { block_of_words result ≡ mix_columns (shift_rows (sub_bytes (block_of_words state))) }
{
    let [a, b, c, d] = state;
    [
        mixed(a, b, c, d),
        mixed(b, c, d, a),
        mixed(c, d, a, b),
        mixed(d, a, b, c),
    ]
}

/// The last round of the cipher, without its round key.
#[inline(always)]
pub(crate) fn last_round(state: [u32; 4]) -> [u32; 4]
    ensures { block_of_words result ≡ shift_rows (sub_bytes (block_of_words state)) }
{
    let [a, b, c, d] = state;
    [
        substituted(a, b, c, d),
        substituted(b, c, d, a),
        substituted(c, d, a, b),
        substituted(d, a, b, c),
    ]
}

/// A full round of the inverse cipher, without its round key.
#[inline(always)]
pub(crate) fn inverse_full_round(state: [u32; 4]) -> [u32; 4]
    ensures { block_of_words result
        ≡ inverse_mix_columns (inverse_sub_bytes (inverse_shift_rows (block_of_words state))) }
{
    let [a, b, c, d] = state;
    [
        inverse_mixed(a, d, c, b),
        inverse_mixed(b, a, d, c),
        inverse_mixed(c, b, a, d),
        inverse_mixed(d, c, b, a),
    ]
}

/// The last round of the inverse cipher, without its round key.
#[inline(always)]
pub(crate) fn inverse_last_round(state: [u32; 4]) -> [u32; 4]
    ensures { block_of_words result
        ≡ inverse_sub_bytes (inverse_shift_rows (block_of_words state)) }
{
    let [a, b, c, d] = state;
    [
        inverse_substituted(a, d, c, b),
        inverse_substituted(b, a, d, c),
        inverse_substituted(c, b, a, d),
        inverse_substituted(d, c, b, a),
    ]
}
