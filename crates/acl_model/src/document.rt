//! A document: one root element, and in each element a name, raw attributes, and texts and elements in order.

use crate::sequence::{Bytes, Name, Sequence};
use sqlite_items::{Boxed, Items};

/// A document, or a view of one.
#[derive(Debug, Drop)]
pub struct Doc {
    pub root: Element,
}

/// An element with all that is inside it.
#[cycle(tree)]
#[derive(Debug, Drop)]
pub struct Element {
    /// 1 to 255 bytes. The name `-` occurs only in views: it is that of a dummy, an element that is denied but shown
    /// for what is inside it.
    pub name: Name,
    /// Each as it was in its line: a name, a space, a type in capital letters, and perhaps a space and a value.
    pub attributes: Sequence<Bytes>,
    /// Texts and child elements, in document order.
    pub items: Items<Item>,
}

/// A part of an element's content.
#[cycle(tree)]
#[derive(Debug, Drop)]
pub enum Item {
    /// The bytes as they were in their line, with their escapes.
    Text(Bytes),
    Child(Boxed<Element>),
}
