//! Enciphers and deciphers fragments; in names, *lock* means encipher and *unlock* means decipher. A fragment is 16
//! blocks of 16 bytes. Blocks are numbered over all fragments.
ghost use Rattle.std.specs.Prelude.{◌≡◌, ◌+◌, ◌*◌, ◌<◌, length};
ghost use Rattle.position_cipher.specs.Fragments.{locked_block, locked_fragment, unlocked_block, unlocked_fragment};

use crate::block_mask::masked;
use aes_block::Key128;

/// The blocks of a fragment.
const BLOCKS: usize = 16;

/// The bytes of a block.
const BLOCK_LEN: usize = 16;

/// The number, in the whole stream, of block `k` of a fragment.
fn number_of(index: u32, k: usize) -> u64
    requires { k < BLOCKS }
    ensures { result ≡ 16 * index + k }
{
    BLOCKS as u64 * u64::from(index) + k as u64
}

/// Enciphers the block with a number in place.
fn lock_block(key: &Key128, number: u64, block: &mut [u8])
    requires { length block.old ≡ 16 }
    ensures locked { block.new ≡ locked_block key.now number block.old }
    ensures undone { unlocked_block key.now number block.new ≡ block.old }
{
    block.copy_from_slice(&key.encrypt(masked(block, number)));
}

/// Deciphers the block with a number in place.
fn unlock_block(key: &Key128, number: u64, block: &mut [u8])
    requires { length block.old ≡ 16 }
    ensures unlocked { block.new ≡ unlocked_block key.now number block.old }
    ensures undone { locked_block key.now number block.new ≡ block.old }
{
    let mut cipher = [0; BLOCK_LEN];
    cipher.copy_from_slice(block);
    block.copy_from_slice(&key.decrypt(cipher));
    block.copy_from_slice(&masked(block, number));
}

/// Enciphers a fragment in place. `index` is its number in the stream, from 0.
pub fn lock_fragment(key: &Key128, index: u32, bytes: &mut [u8; 256])
    ensures locked { bytes.new ≡ locked_fragment key.now index bytes.old }
    ensures undone { unlocked_fragment key.now index bytes.new ≡ bytes.old }
{
    'each: for k in 0..BLOCKS {
        lock_block(
            key,
            number_of(index, k),
            &mut bytes[BLOCK_LEN * k..BLOCK_LEN * (k + 1)],
        );
    }
}

/// Deciphers a fragment in place. `index` is its number in the stream, from 0.
pub fn unlock_fragment(key: &Key128, index: u32, bytes: &mut [u8; 256])
    ensures unlocked { bytes.new ≡ unlocked_fragment key.now index bytes.old }
    ensures undone { locked_fragment key.now index bytes.new ≡ bytes.old }
{
    'each: for k in 0..BLOCKS {
        unlock_block(
            key,
            number_of(index, k),
            &mut bytes[BLOCK_LEN * k..BLOCK_LEN * (k + 1)],
        );
    }
}
