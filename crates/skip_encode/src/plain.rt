//! The answer of `plain_stream`.

use acl_model::Bytes;

/// A plain stream, and the numbers of the header that a reader needs.
#[derive(Debug, Drop)]
pub struct Plain {
    /// The dictionary section, the tree section, and zeros up to a multiple of 256 bytes, the size of a fragment.
    pub bytes: Bytes,
    /// The length of the tree section in bytes.
    pub tree: u64,
    /// The length of the dictionary section in bytes.
    pub dictionary: u32,
    /// The number of names.
    pub tags: u16,
    /// The depth: the greatest number of elements nested in each other, the root included.
    pub depth: u16,
}
