//! The answer of `encode_file`.

use acl_model::Bytes;
use merkle_chunks::Digest;

/// An encrypted file, and the root against which its readers check it.
#[derive(Debug, Drop)]
pub struct Encoded {
    /// The header, the enciphered stream and the table of digests.
    pub bytes: Bytes,
    /// The digest of the header and the table's top digest. A licence contains it, to identify the file.
    pub root: Digest,
}
