//! A `Vec` whose model in contracts is the list of its elements, and three aliases of it.

ghost use Rattle.std.specs.Prelude.{◌≡◌, [], length, ◌==◌, IfOk};

use std::alloc::{AllocError, Global};
use std::marker::Model;

/// A list in one piece of memory. In contracts it is the list of its elements; where they are stored doesn't matter.
#[derive(Debug, Drop)]
pub struct Sequence<T> {
    elements: Vec<T>,
}

/// Any bytes: a text, a raw attribute, a rule's id.
pub type Bytes = Sequence<u8>;

/// The name of an element or an attribute, as it is in a document.
pub type Name = Sequence<u8>;

/// The place of an element: on the path from the root down to it, the number of each element among the element children
/// of its parent, counted from 1. The place of the root is empty.
pub type Place = Sequence<u64>;

impl<T> Model for Sequence<T> {
    ghost use Rattle.std.specs.Prelude.{List};
    ghost use Rattle.std.specs.Coded.{coded_list};

    ghost Value = { List T };

    ghost coded = { coded_list T.code };

    ghost view = { λ s. s.elements.items };
}

impl<T> Sequence<T> {
    /// The empty list, which allocates no memory.
    pub fn new(alloc: Global) -> Sequence<T>
        ensures { result ≡ [] }
    {
        Sequence {
            elements: Vec::new(alloc),
        }
    }

    /// The elements of a `Vec`, without a copy.
    pub fn from_vec(elements: Vec<T>) -> Sequence<T>
        ensures { result ≡ elements.items }
    {
        Sequence { elements }
    }

    /// The elements as a `Vec`, without a copy.
    pub fn into_vec(self) -> Vec<T>
        ensures { result.items ≡ self }
    {
        let Sequence { elements } = self;
        elements
    }

    pub fn as_slice(&self) -> &[T]
        ensures { result.now ≡ self.now }
    {
        self.elements.as_slice()
    }

    pub fn len(&self) -> usize
        ensures { result ≡ length self.now }
    {
        self.elements.len()
    }

    pub fn is_empty(&self) -> bool
        ensures { result ≡ (length self.now == 0) }
    {
        self.elements.is_empty()
    }
}

impl<T: Copy> Sequence<T> {
    /// A copy of the elements. Fails where memory runs out.
    pub fn from_slice(alloc: Global, elements: &[T]) -> Result<Sequence<T>, AllocError>
        ensures { IfOk result (λ s. s ≡ elements.now) }
    {
        let elements = Vec::from_slice(alloc, elements)?;
        Ok(Sequence { elements })
    }
}
