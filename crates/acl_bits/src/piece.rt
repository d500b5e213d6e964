//! A part of a text or of a raw attribute: at most 256 bytes, stored in the value itself.

use arrayvec::ArrayVec;

/// A part of a text or of an attribute. Each part has 1 to 256 bytes, but for an empty text or attribute, which is one
/// empty part.
#[derive(Clone, Debug, Drop, PartialEq, Eq)]
pub struct Piece {
    /// Its bytes.
    pub bytes: ArrayVec<u8, 256>,
    /// Whether this is the last part of the text or the attribute.
    pub last: bool,
}
