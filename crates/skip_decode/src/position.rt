//! Positions in a stream: the open elements, and what comes next.

use acl_bits::Row;

/// An open element.
#[derive(Clone, Copy, Debug)]
pub(crate) struct Level {
    /// Its tag set, as its head has it: the numbers of the names of the elements inside it.
    pub below: Row,
    /// The numbers in the heads of its children that were read: of their names, and in their tag sets.
    pub met: Row,
    /// The byte offset in the stream where its content ends.
    pub end: u32,
    /// By how many bytes the heads of its children that are still to come may be shorter with lengths
    /// in one bit less. If they are shorter by more, its width isn't the least.
    pub spare: u32,
    /// The number of binary digits of its content's length. The heads of its children have their
    /// lengths in so many bits.
    pub width: u32,
    /// The number of its name.
    pub tag: u16,
}

/// What comes next at a position.
#[derive(Clone, Copy, Debug, PartialEq, Eq)]
pub(crate) enum Next {
    /// The head of the root.
    Root,
    /// The number of attributes of the innermost open element.
    Count,
    /// This many attributes of it, and then the end of its attributes.
    Attributes(u16),
    /// The rest of an attribute of it.
    Attribute {
        /// How many bytes of the attribute are left, at least 1.
        left: u32,
        /// The number of attributes after this one.
        more: u16,
    },
    /// A text or child of it, or its end.
    Item,
    /// The rest of a text in it: this many bytes, at least 1.
    Text(u32),
    /// Its end. Its content was passed.
    Finish,
    /// The end of the document.
    End,
}

/// The numbers in a header by which a stream is read.
#[derive(Clone, Copy, Debug)]
pub(crate) struct Numbers {
    /// The length of its dictionary section in bytes.
    pub dictionary: u32,
    /// The length of its tree section in bytes.
    pub tree: u32,
    /// How many names it has.
    pub names: u16,
    /// How many elements may be open at once.
    pub depth: u16,
}
