//! Finds which of many predicates hold at an element and at each element inside it.

ghost use Rattle.std.specs.Prelude.{◌≡◌, ◌∷◌, IfOk};
ghost use Rattle.acl_model.specs.Predicates.{descendants};
ghost use Rattle.predicate_walk.specs.Truths.{truths, preds_in};

use crate::machine::Machine;
use crate::walk::walk_element;
use acl_bits::Flags;
use acl_model::{Element, Pred};
use acl_outside::NoMemory;
use std::alloc::Global;

/// A reference to a predicate.
#[derive(Clone, Copy)]
pub struct PredRef<'a> {
    pub pred: &'a Pred,
}

/// Finds which of these predicates hold at an element and at each element inside it. The elements are in
/// document order, and each has a flag for each predicate, in the order of `preds`.
pub fn find_truths(alloc: Global, preds: &[PredRef<'_>], root: &Element) -> Result<Flags, NoMemory>
    ensures { IfOk result
        (λ flags. flags ≡ truths (preds_in preds.now) (root.now ∷ descendants root.now)) }
{
    let mut flags = Flags::new(alloc);
    if preds.is_empty() {
        return Ok(flags);
    }
    let machine = Machine::new(alloc, preds)?;
    let mut texts = Vec::new(alloc);
    walk_element(alloc, &machine, root, &mut texts, &mut flags)?;
    Ok(flags)
}
