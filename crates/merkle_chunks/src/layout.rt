//! The lengths of a file's parts, as in `specs/Layout.antt`.

/// The number of bytes of a header.
pub const HEADER_LEN: usize = 64;

/// The number of bytes of a fragment.
pub const FRAGMENT_LEN: usize = 256;

/// The number of bytes of a digest.
pub const DIGEST_LEN: usize = 32;

/// The number of fragments of a chunk.
pub const CHUNK_FRAGMENTS: u32 = 16;

/// The level of the table with a digest for each chunk.
pub const CHUNK_LEVEL: u32 = 4;

/// The most levels that a table has above its leaves.
pub const MOST_TOP_LEVEL: usize = 17;
