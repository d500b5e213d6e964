//! The digests of the strings that are hashed for a file. The parts of a string are hashed in place, without a copy.

ghost use Rattle.std.specs.Prelude.{◌≡◌};
ghost use Rattle.sha2.specs.Sha256.{sha256};
ghost use Rattle.merkle_chunks.specs.Strings.{leaf_string, node_string, root_string};
ghost use Rattle.merkle_chunks.specs.File.{key_check};

use sha2::{Digest as _, Sha256};

/// A SHA-256 digest.
pub type Digest = [u8; 32];

/// The first byte of a leaf string. Each kind of string has another first byte, so no string is of two kinds.
const LEAF: [u8; 1] = [0];

/// The first byte of a node string.
const NODE: [u8; 1] = [1];

/// The first byte of the root string.
const ROOT: [u8; 1] = [2];

/// The first byte of the string hashed for the key check.
const KEY: [u8; 1] = [4];

/// The digest of a fragment, from its index and its enciphered bytes.
pub fn leaf_digest(index: u64, cipher: &[u8; 256]) -> Digest
    ensures { result ≡ sha256 (leaf_string index cipher.now) }
{
    let mut hasher = Sha256::new();
    hasher.update(&LEAF);
    hasher.update(&index.to_be_bytes());
    hasher.update(cipher);
    hasher.finalize()
}

/// The digest of a node, from those of its children. An absent right child is 32 zeros.
pub fn node_digest(left: &Digest, right: &Digest) -> Digest
    ensures { result ≡ sha256 (node_string left.now right.now) }
{
    let mut hasher = Sha256::new();
    hasher.update(&NODE);
    hasher.update(left);
    hasher.update(right);
    hasher.finalize()
}

/// The root of a file: the digest of its header and its top digest.
pub fn root_of(header: &[u8; 64], top: &Digest) -> Digest
    ensures { result ≡ sha256 (root_string header.now top.now) }
{
    let mut hasher = Sha256::new();
    hasher.update(&ROOT);
    hasher.update(header);
    hasher.update(top);
    hasher.finalize()
}

/// The check of a document key: 16 bytes of the header by which a reader sees that its key is the right one.
pub fn key_check(key: &[u8; 16]) -> [u8; 16]
    ensures { result ≡ key_check key.now }
{
    let mut hasher = Sha256::new();
    hasher.update(&KEY);
    hasher.update(key);
    let digest: Digest = hasher.finalize();
    let mut check = [0; 16];
    check.copy_from_slice(&digest[..16]);
    check
}
