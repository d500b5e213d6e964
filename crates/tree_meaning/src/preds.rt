//! Collects the predicates of rules, and finds which of them hold at each element of a document.

ghost use Rattle.std.specs.Prelude.{◌≡◌, ◌++◌, IfOk};
ghost use Rattle.std.specs.Option.{option_copied};
ghost use Rattle.predicate_walk.specs.Truths.{preds_in};
ghost use Rattle.tree_meaning.specs.inside.StepMarks.{marked_steps};
ghost use Rattle.tree_meaning.specs.inside.Known.{preds_of, preds_of_step, flags_within};

use crate::marks::Progress;
use acl_bits::Flags;
use acl_model::{Element, Step};
use acl_outside::NoMemory;
use predicate_walk::{PredRef, find_truths};
use std::alloc::{AllocError, Global};

/// Appends the predicates of a step, in order.
#[tactic(auto, using(crate::proofs::Lists::list_steps))]
fn add_preds<'a>(preds: &mut Vec<PredRef<'a>>, step: Option<&'a Step>) -> Result<(), AllocError>
    ensures { IfOk result (λ done. preds_in preds.new.items
        ≡ preds_in preds.old.items ++ preds_of_step (option_copied step.entry)) }
{
    match step {
        Some(step) => {
            for pred in step.preds.as_slice() {
                preds.push(PredRef { pred })?;
            }
            Ok(())
        }
        None => Ok(()),
    }
}

/// The predicates of all steps, in order.
#[tactic(auto, using(crate::proofs::Lists::list_steps))]
pub fn all_preds<'a>(alloc: Global, row: &[Progress<'a>]) -> Result<Vec<PredRef<'a>>, AllocError>
    ensures { IfOk result (λ preds. preds_in preds.items ≡ preds_of (marked_steps row.now)) }
{
    let mut preds = Vec::new(alloc);
    for progress in row {
        add_preds(&mut preds, progress.step)?;
    }
    Ok(preds)
}

/// Which of these predicates hold at an element and at each one inside it, in document order.
#[tactic(auto, unfolding(crate::specs::inside::Known::flags_within))]
pub fn find_flags_of(
    alloc: Global,
    preds: &[PredRef<'_>],
    root: &Element,
) -> Result<Flags, NoMemory>
    ensures { IfOk result (λ flags. flags ≡ flags_within (preds_in preds.now) root.now) }
{
    let flags = find_truths(alloc, preds, root)?;
    Ok(flags)
}

/// The same for the predicates of all steps of a row.
pub fn find_flags(alloc: Global, row: &[Progress<'_>], root: &Element) -> Result<Flags, NoMemory>
    ensures { IfOk result (λ flags. flags
        ≡ flags_within (preds_of (marked_steps row.now)) root.now) }
{
    let preds = all_preds(alloc, row)?;
    let flags = find_flags_of(alloc, preds.as_slice(), root)?;
    Ok(flags)
}
