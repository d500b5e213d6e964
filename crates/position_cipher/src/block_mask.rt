//! The mask of a block is its number in the whole stream, so no two blocks have the same mask.
ghost use Rattle.std.specs.Prelude.{◌≡◌, length};
ghost use Rattle.aes_block.specs.Aes.{xor_bytes};
ghost use Rattle.position_cipher.specs.Fragments.{block_mask};

/// The number of a block in 16 bytes, big-endian.
pub fn mask(number: u64) -> [u8; 16]
    ensures { result ≡ block_mask number }
{
    u128::from(number).to_be_bytes()
}

/// The exclusive or of a block and the mask of its number.
pub(crate) fn masked(block: &[u8], number: u64) -> [u8; 16]
    requires { length block.now ≡ 16 }
    ensures { result ≡ xor_bytes block.now (block_mask number) }
{
    let mut sum = mask(number);
    'bytes: for i in 0..16 {
        sum[i] = block[i] ^ sum[i];
    }
    sum
}
