//! The open elements at a position in a tree. All memory for them is taken at the start.

ghost use Rattle.std.specs.Prelude.{◌≡◌, ◌<◌, ◌≤◌, [], ◌∷◌, length, nat_eq, IfOk, MatchOption};
ghost use Rattle.acl_walk.specs.inside.OpenElements.{with_item, NothingLeft, Closes};

use acl_model::Item;
use acl_model::limits::MOST_OPEN_ELEMENTS;
use std::alloc::{AllocError, Global};
use std::marker::Model;

/// One more than the most elements that can be open at once in a view document.
const ROOM: usize = MOST_OPEN_ELEMENTS as usize + 1;

/// An open element.
#[derive(Clone, Copy, Debug)]
pub(crate) struct Level<'a> {
    tag: u16,
    /// Its items that are still to come.
    items: &'a [Item],
}

/// Open elements. Their model is a list, the innermost first.
#[derive(Debug, Drop)]
pub(crate) struct Levels<'a> {
    stack: Vec<Level<'a>>,
}

impl<'a> Model for Levels<'a> {
    ghost use Rattle.std.specs.Prelude.{List, ◌≤◌, vec_capacity};
    ghost use Rattle.std.specs.Coded.{codes};
    ghost use Rattle.acl_model.specs.contracts.document.Item as item;
    ghost use Rattle.acl_walk.specs.inside.OpenElements.{OpenElement};

    ghost Value = { List OpenElement };

    ghost coded = { Prim.hlevel (codes, item.the_row.coded) };

    ghost use Rattle.acl_walk.specs.inside.LevelsInMemory.{open_elements};

    ghost view = { λ l. open_elements l.stack.items };

    ghost invariant = { λ l. 256 ≤ vec_capacity l.stack };
}

impl<'a> Levels<'a> {
    /// No open elements.
    pub(crate) fn new(alloc: Global) -> Result<Levels<'a>, AllocError>
        ensures { IfOk result (λ levels. levels ≡ []) }
    {
        let stack = Vec::with_capacity(alloc, ROOM)?;
        Ok(Levels { stack })
    }

    /// Whether no element is open.
    pub(crate) fn is_empty(&self) -> bool
        ensures { result ≡ nat_eq (length self.now) 0 }
    {
        self.stack.is_empty()
    }

    /// Opens an element with these items inside the innermost open one.
    pub(crate) fn open(&mut self, tag: u16, items: &'a [Item])
        requires { length self.old < 256 }
        ensures { self.new ≡ record { tag = tag; items = items.now } ∷ self.old }
    {
        self.stack.push_reserved(Level { tag, items });
    }

    /// Closes the innermost open element and returns its tag.
    pub(crate) fn close(&mut self) -> Option<u16>
        ensures { Closes result self.old self.new }
    {
        let level = self.stack.pop()?;
        Some(level.tag)
    }

    /// Takes the next item of the innermost open element, if one is left.
    pub(crate) fn take_item(&mut self) -> Option<&'a Item>
        ensures { MatchOption result (NothingLeft self.old × (self.new ≡ self.old))
            (λ item. (self.old ≡ with_item item.now self.new) × (0 < length self.new)) }
    {
        let Some(level) = self.stack.last_mut() else {
            return None;
        };
        let (first, rest) = level.items.split_first()?;
        level.items = rest;
        Some(first)
    }

    /// Becomes equal to the other.
    pub(crate) fn copy_from(&mut self, other: &Levels<'a>)
        requires { length other.now ≤ 256 }
        ensures { self.new ≡ other.now }
    {
        self.stack.clear();
        self.stack.extend_from_slice(&other.stack).unwrap();
    }
}
