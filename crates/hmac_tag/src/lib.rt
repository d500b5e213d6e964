//! HMAC with SHA-256 (FIPS 198-1). The inner digest is that of the key's block, combined with the inner pad, and the
//! message. The tag is the digest of the key's block, combined with the outer pad, and the inner digest. Pads are
//! combined by exclusive or.
#![tactic(auto)]

ghost use Rattle.std.specs.Prelude.{◌≡◌, ◌≤◌, length, replicate, ◌++◌};
ghost use Rattle.sha2.specs.Sha256.{sha256};
ghost use Rattle.hmac_tag.specs.Hmac.{block_key, exclusive_or, hmac, zero_filled_bytes};

use sha2::{Digest, Sha256};

#[cfg(test)]
mod tests;

/// The length of a block of SHA-256 in bytes; B in the standard.
const BLOCK_LEN: usize = 64;

/// The byte that the inner pad repeats.
const INNER_BYTE: u8 = 0x36;

/// The byte that the outer pad repeats.
const OUTER_BYTE: u8 = 0x5C;

/// The tag of `message` under `key`: 32 bytes, for a key and a message of any length.
///
/// The message is not copied.
pub fn hmac(key: &[u8], message: &[u8]) -> [u8; 32]
    ensures { result ≡ hmac key.now message.now }
{
    let block = block_of_key(key);
    let inner_digest = digest_after(&padded_block(&block, INNER_BYTE), message);
    digest_after(&padded_block(&block, OUTER_BYTE), &inner_digest)
}

/// The key's block: the key, or the digest of a key that is longer than a block, padded with zeros.
#[tactic(auto, using(crate::proofs::Pads::block_keys))]
fn block_of_key(key: &[u8]) -> [u8; 64]
    ensures { result ≡ block_key key.now }
{
    if key.len() > BLOCK_LEN {
        zero_filled_block(&Sha256::digest(key))
    } else {
        zero_filled_block(key)
    }
}

/// `bytes`, padded with zeros to a block.
fn zero_filled_block(bytes: &[u8]) -> [u8; 64]
    requires { length bytes.now ≤ 64 }
    ensures { result ≡ zero_filled_bytes bytes.now }
{
    let mut block = [0; BLOCK_LEN];
    block[..bytes.len()].copy_from_slice(bytes);
    block
}

/// The block, each byte combined with `pad` by exclusive or.
fn padded_block(block: &[u8; 64], pad: u8) -> [u8; 64]
    ensures { result ≡ exclusive_or block.now (replicate 64 pad) }
{
    let mut padded = *block;
    for byte in padded.iter_mut() {
        *byte ^= pad;
    }
    padded
}

/// The digest of the block followed by `rest`.
fn digest_after(block: &[u8; 64], rest: &[u8]) -> [u8; 32]
    ensures { result ≡ sha256 (block.now ++ rest.now) }
{
    let mut hasher = Sha256::new();
    hasher.update(block);
    hasher.update(rest);
    hasher.finalize()
}
