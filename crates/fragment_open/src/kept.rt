//! What is kept of the last good opening, so that the next one in the same chunk is hashed only up to the chunk's
//! digest.

/// The digest of a chunk of 16 fragments, and the number of the chunk.
#[derive(Clone, Copy)]
pub(crate) struct Kept {
    pub chunk: u32,
    pub digest: [u8; 32],
}
