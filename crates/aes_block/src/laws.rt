//! Laws of the definitions. These functions do nothing: their contracts are the laws.
ghost use Rattle.std.specs.Prelude.{◌≡◌, ℕ, ◌<◌, List};
ghost use Rattle.aes_block.specs.Aes.{AreBytes, cipher, inverse_cipher, sub_byte};
ghost use Rattle.aes_block.specs.inside.Examples.{example_block, example_cipher_128, example_cipher_256, example_key_128, example_key_256};
ghost use Rattle.aes_block.specs.Field.{field_inverse, mul};

/// A law: under a key of 16 bytes, the cipher and the inverse cipher of a block are blocks, and each undoes the other.
pub fn inverse_cipher_undoes_cipher()
    ensures deciphered { (key block : List ℕ) → AreBytes 16 key → AreBytes 16 block
        → inverse_cipher key (cipher key block) ≡ block }
    ensures enciphered { (key block : List ℕ) → AreBytes 16 key → AreBytes 16 block
        → cipher key (inverse_cipher key block) ≡ block }
    ensures cipher { (key block : List ℕ) → AreBytes 16 key → AreBytes 16 block
        → AreBytes 16 (cipher key block) }
    ensures inverse { (key block : List ℕ) → AreBytes 16 key → AreBytes 16 block
        → AreBytes 16 (inverse_cipher key block) }
{}

/// A law: the definitions agree with the standard's examples (4.2, 5.1.1, appendix C).
pub fn definitions_give_the_examples()
    ensures product { mul 0x57 0x83 ≡ 0xc1 }
    ensures substitution { sub_byte 0x53 ≡ 0xed }
    ensures key_of_16_bytes { cipher example_key_128 example_block ≡ example_cipher_128 }
    ensures key_of_32_bytes { cipher example_key_256 example_block ≡ example_cipher_256 }
{}

/// A law: a byte other than 0 times its inverse in the field is 1, and the inverse of 0 is 0 (4.4).
pub fn field_inverse_is_an_inverse()
    ensures product { (b : ℕ) → 0 < b → b < 256 → mul b (field_inverse b) ≡ 1 }
    ensures zero { field_inverse 0 ≡ 0 }
{}
