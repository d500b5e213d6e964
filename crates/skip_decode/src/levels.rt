//! The open elements at a position. All memory for them is taken at the start.

ghost use Rattle.std.specs.Prelude.{◌≡◌, ◌≤◌, ◌<◌, [], ◌∷◌, length, drop, nat_eq, IfOk};
ghost use Rattle.skip_decode.specs.StreamSteps.{with_innermost, levels_after, next_in};
ghost use Rattle.skip_decode.specs.inside.LevelsInMemory.{HasRoom, innermost};

use crate::position::{Level, Next};
use crate::step::Change;
use acl_model::limits::MOST_OPEN_ELEMENTS;
use std::alloc::{AllocError, Global};
use std::marker::Model;

/// Open elements. Their model is a list, the innermost first.
#[derive(Debug, Drop)]
pub(crate) struct Levels {
    stack: Vec<Level>,
}

impl Model for Levels {
    ghost use Rattle.std.specs.Prelude.{List, ◌≤◌, vec_capacity};
    ghost use Rattle.skip_decode.specs.declared.position.Level.{Level};

    ghost Value = { List Level };

    ghost use Rattle.skip_decode.specs.inside.LevelsInMemory.{innermost_first};

    ghost view = { λ l. innermost_first l.stack.items };

    ghost invariant = { λ l. 255 ≤ vec_capacity l.stack };
}

impl Levels {
    /// No open elements.
    pub fn new(alloc: Global) -> Result<Levels, AllocError>
        ensures { IfOk result (λ levels. levels ≡ []) }
    {
        let stack = Vec::with_capacity(alloc, MOST_OPEN_ELEMENTS as usize)?;
        Ok(Levels { stack })
    }

    /// How many elements are open.
    pub fn len(&self) -> usize
        ensures { result ≡ length self.now }
    {
        self.stack.len()
    }

    /// The innermost open element.
    pub fn innermost(&self) -> Option<Level>
        ensures { result ≡ innermost self.now }
    {
        self.stack.last().copied()
    }

    /// What comes next where `next` does in an open element: where none is open, the end of the
    /// document.
    pub fn next_in(&self, next: Next) -> Next
        ensures { result ≡ next_in self.now next }
    {
        if self.stack.is_empty() {
            Next::End
        } else {
            next
        }
    }

    /// Opens a child of the innermost open element, which becomes `parent`.
    fn open(&mut self, parent: Level, child: Level)
        requires { length self.old < 255 }
        ensures { self.new ≡ child ∷ with_innermost parent self.old }
    {
        self.replace(parent);
        self.stack.push_reserved(child);
    }

    /// Puts an element in the place of the innermost open one, if there is one.
    fn replace(&mut self, level: Level)
        ensures { self.new ≡ with_innermost level self.old }
    {
        let Some(innermost) = self.stack.last_mut() else {
            return;
        };
        *innermost = level;
    }

    /// Closes the innermost open element.
    fn close(&mut self)
        ensures { self.new ≡ drop 1 self.old }
    {
        self.stack.pop();
    }

    /// Makes a change.
    pub fn change(&mut self, change: Change)
        requires { HasRoom change self.old }
        ensures { self.new ≡ levels_after change self.old }
    {
        match change {
            Change::Stay => {}
            Change::Open { parent, child } => self.open(parent, child),
            Change::Close => self.close(),
        }
    }

    /// Becomes equal to the other.
    pub fn copy_from(&mut self, other: &Levels)
        requires { length other.now ≤ 255 }
        ensures { self.new ≡ other.now }
    {
        self.stack.clear();
        self.stack.extend_from_slice(&other.stack).unwrap();
    }
}
