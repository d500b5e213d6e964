//! The measures of elements, which the first pass makes and the second uses. The first pass goes from the last element
//! to the first, so the measures are on a stack: the second pass pops the first element's measure first.

ghost use Rattle.std.specs.Prelude.{◌≡◌, ◌≤◌, [], ◌∷◌, length, drop, OnOk};

use acl_bits::Row;
use std::alloc::{AllocFailed, Global};
use std::marker::Model;

/// What is kept of an element.
#[derive(Debug, Drop)]
pub(crate) struct Measure {
    /// The number of its name.
    pub(crate) tag: u16,
    /// The numbers of the names of the elements inside it.
    pub(crate) below: Row,
    /// The size of its content in bytes.
    pub(crate) long: u32,
}

/// A stack of measures. In contracts it is the list of them, the one pushed last first.
#[derive(Debug, Drop)]
pub(crate) struct Measures {
    stack: Vec<Measure>,
}

impl Model for Measures {
    ghost use Rattle.std.specs.Prelude.{List, reverse};
    ghost use Rattle.skip_encode.specs.declared.measures.Measure.{Measure};

    ghost Value = { List Measure };

    ghost view = { λ m. reverse m.stack.items };
}

impl Measures {
    /// No measures.
    pub(crate) fn new(alloc: Global) -> Measures
        ensures { result ≡ [] }
    {
        Measures {
            stack: Vec::new(alloc),
        }
    }

    /// Pushes a measure.
    pub(crate) fn push(&mut self, measure: Measure) -> Result<(), AllocFailed<Measure>>
        ensures { OnOk result (self.new ≡ measure ∷ self.old) }
    {
        self.stack.push(measure)
    }

    /// The measure that was pushed last.
    pub(crate) fn last(&self) -> &Measure
        requires { 1 ≤ length self.now }
        ensures { self.now ≡ result.now ∷ drop 1 self.now }
    {
        &self.stack[self.stack.len() - 1]
    }

    /// Removes and returns the measure that was pushed last.
    pub(crate) fn pop(&mut self) -> Measure
        requires { 1 ≤ length self.old }
        ensures { self.old ≡ result ∷ self.new }
    {
        self.stack.pop().unwrap()
    }
}
