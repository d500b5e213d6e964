//! Laws of fragments and masks. These functions do nothing: their contracts are the laws.
ghost use Rattle.std.specs.Prelude.{◌≡◌, ◌≢◌, ◌<◌, ◌^◌, ℕ, List};
ghost use Rattle.aes_block.specs.Aes.{AreBytes};
ghost use Rattle.position_cipher.specs.Fragments.{block_mask, locked_block, locked_fragment, unlocked_fragment};

/// A law, for a key of 16 bytes, any index and a fragment of 256 bytes: deciphering undoes enciphering, and enciphering
/// undoes deciphering. An enciphered or deciphered fragment has 256 bytes.
pub fn unlocking_undoes_locking()
    ensures unlocked { (key bytes : List ℕ) (index : ℕ) → AreBytes 16 key → AreBytes 256 bytes
        → unlocked_fragment key index (locked_fragment key index bytes) ≡ bytes }
    ensures locked { (key bytes : List ℕ) (index : ℕ) → AreBytes 16 key → AreBytes 256 bytes
        → locked_fragment key index (unlocked_fragment key index bytes) ≡ bytes }
    ensures locked_bytes { (key bytes : List ℕ) (index : ℕ) → AreBytes 16 key → AreBytes 256 bytes
        → AreBytes 256 (locked_fragment key index bytes) }
    ensures unlocked_bytes { (key bytes : List ℕ) (index : ℕ) → AreBytes 16 key
        → AreBytes 256 bytes → AreBytes 256 (unlocked_fragment key index bytes) }
{}

/// A law: different numbers below 2^128 have different masks. So equal blocks that are enciphered with different
/// numbers, under a key of 16 bytes, have different ciphers.
pub fn numbers_have_their_own_masks()
    ensures masks { (m n : ℕ) → m < 2 ^ 128 → n < 2 ^ 128 → m ≢ n → block_mask m ≢ block_mask n }
    ensures blocks { (key block : List ℕ) (m n : ℕ) → AreBytes 16 key → AreBytes 16 block
        → m < 2 ^ 128 → n < 2 ^ 128 → m ≢ n → locked_block key m block ≢ locked_block key n block }
{}
