//! The events that a walk gives, in document order.

use acl_bits::{Piece, Row};

/// An event of a document. Each attribute and each text comes in pieces.
#[derive(Clone, Debug, Drop, PartialEq, Eq)]
pub enum Event {
    /// An element begins.
    Begin {
        /// The number of its name among the walk's names, from 0; 256 for a dummy.
        tag: u16,
        /// The numbers of the names inside it, and possibly others. The set isn't empty where the
        /// element has a child, even a dummy.
        below: Row,
    },
    /// A piece of an attribute of the innermost open element.
    Attr(Piece),
    /// The attributes of the innermost open element have ended.
    HeadEnd,
    /// A piece of a text of the innermost open element.
    Text(Piece),
    /// The innermost open element ends.
    Finish {
        /// The tag of its `Begin`.
        tag: u16,
    },
    /// The document has ended. This event comes again at each further call.
    End,
}
