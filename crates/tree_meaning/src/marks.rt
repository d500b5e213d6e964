//! The NFA states of the rules at an element. A *row* is the list of all steps of all rules, each with its state.

ghost use Rattle.std.specs.Prelude.{◌≡◌, ◌&&◌, IfOk, OnOk, map, length, drop, ◌++◌, true, Some, None};
ghost use Rattle.std.specs.Option.{option_map_or, option_copied};
ghost use Rattle.std.specs.List.{list_any, flat_map};
ghost use Rattle.acl_model.specs.Select.{keeps};
ghost use Rattle.predicate_walk.specs.Truths.{truths_at};
ghost use Rattle.tree_meaning.specs.inside.Known.{StartsWith, preds_of_step, preds_of};
ghost use Rattle.tree_meaning.specs.inside.StepMarks.{marked_step, marked_steps, begun_rule, begun_steps, leads_from, reaches, row_below, mark_below, selects_here, denies_here, sign_here};

use crate::known::Known;
use acl_model::{Axis, Element, Rule, Sign, Step};
use predicate_walk::does_pass;
use std::alloc::{AllocError, Global};

/// The state of a step at an element: where the steps up to this one lead.
#[derive(Clone, Copy)]
pub struct Mark {
    /// To the element itself.
    pub here: bool,
    /// To the element or to an ancestor.
    pub above: bool,
}

/// A step of a rule, with its state at an element.
#[derive(Clone, Copy)]
pub struct Progress<'a> {
    /// `None` is the virtual root, where each rule begins.
    pub step: Option<&'a Step>,
    /// The sign of the rule, if this is its last step.
    pub ends: Option<Sign>,
    pub mark: Mark,
}

/// The row at the virtual root, which is above the document: the steps of one rule after another.
#[tactic(auto, using(crate::proofs::Lists::list_steps))]
pub fn all_begun<'a>(alloc: Global, rules: &'a [Rule]) -> Result<Vec<Progress<'a>>, AllocError>
    ensures { IfOk result (λ row. marked_steps row.items ≡ flat_map begun_rule rules.now) }
{
    let mut row = Vec::new(alloc);
    for rule in rules {
        begin(&mut row, rule.sign, rule.path.steps.as_slice())?;
    }
    Ok(row)
}

/// Appends the steps of a rule, with their states at the virtual root.
#[tactic(auto, using(crate::proofs::Lists::list_steps))]
pub fn begin<'a>(
    row: &mut Vec<Progress<'a>>,
    sign: Sign,
    steps: &'a [Step],
) -> Result<(), AllocError>
    ensures { IfOk result (λ done. marked_steps row.new.items
        ≡ marked_steps row.old.items ++ begun_steps sign None true steps.now) }
{
    let mut step = None;
    let mut here = true;
    for next in steps {
        row.push(Progress {
            step,
            ends: None,
            mark: Mark { here, above: here },
        })?;
        step = Some(next);
        here = false;
    }
    row.push(Progress {
        step,
        ends: Some(sign),
        mark: Mark { here, above: here },
    })?;
    Ok(())
}

/// Whether the axis leads to a child, where `before` is the mark of the step before at the parent.
fn does_lead_from(axis: Axis, before: Mark) -> bool
    ensures { result ≡ leads_from axis before }
{
    match axis {
        Axis::Child => before.here,
        Axis::Descendant => before.above,
    }
}

/// Whether the step keeps the element: its test passes, and all its predicates hold. The next flags are those of its
/// predicates.
#[tactic(auto, using(crate::proofs::KnownLaws::kept))]
fn does_keep(step: &Step, element: &Element, known: &Known<'_>) -> bool
    requires { StartsWith (truths_at step.now.preds element.now) known.now }
    ensures { result ≡ keeps step.now element.now }
{
    does_pass(&step.test, element.name.as_slice()) && known.are_set(step.preds.as_slice().len())
}

/// Whether the step leads to the element. The flags of its predicates are read only where the axis leads there and the
/// name passes. They are skipped in any case.
fn does_step_reach(step: &Step, before: Mark, element: &Element, known: &mut Known<'_>) -> bool
    requires { StartsWith (truths_at step.now.preds element.now) known.old }
    ensures reached { result ≡ reaches (Some step.now) before element.now }
    ensures known { known.new
        ≡ drop (length (truths_at step.now.preds element.now)) known.old }
{
    let reached = does_lead_from(step.axis, before) && does_keep(step, element, known);
    known.pass(step.preds.as_slice().len());
    reached
}

/// The same for a step of a row. Nothing leads to the virtual root, which has no flags.
fn does_reach(step: Option<&Step>, before: Mark, element: &Element, known: &mut Known<'_>) -> bool
    requires { StartsWith (truths_at (preds_of_step (option_copied step)) element.now) known.old }
    ensures reached { result ≡ reaches (option_copied step.entry) before element.now }
    ensures known { known.new
        ≡ drop (length (truths_at (preds_of_step (option_copied step.entry)) element.now))
        known.old }
{
    match step {
        Some(step) => does_step_reach(step, before, element, known),
        None => false,
    }
}

/// The mark of a step at a child, from its mark at the parent.
fn below(here: bool, mark: Mark) -> Mark
    ensures { result ≡ mark_below here mark }
{
    Mark {
        here,
        above: here || mark.above,
    }
}

/// The row at an element, from the row at its parent. The next flags are those of the predicates at the element, and
/// they are skipped.
#[tactic(auto, using(crate::proofs::Lists::list_steps), unfolding(crate::specs::inside::StepMarks::row_below))]
pub fn all_below<'a>(
    alloc: Global,
    row: &[Progress<'a>],
    element: &Element,
    known: &mut Known<'_>,
) -> Result<Vec<Progress<'a>>, AllocError>
    requires { StartsWith (truths_at (preds_of (marked_steps row.now)) element.now) known.old }
    ensures row { IfOk result (λ moved.
        marked_steps moved.items ≡ row_below element.now (marked_steps row.now)) }
    ensures known { OnOk result (known.new
        ≡ drop (length (truths_at (preds_of (marked_steps row.now)) element.now)) known.old) }
{
    let mut moved = Vec::with_capacity(alloc, row.len())?;
    let mut before = Mark {
        here: false,
        above: false,
    };
    for progress in row {
        let here = does_reach(progress.step, before, element, known);
        before = progress.mark;
        moved.push(Progress {
            step: progress.step,
            ends: progress.ends,
            mark: below(here, progress.mark),
        })?;
    }
    Ok(moved)
}

/// Whether this is the last step of a rule that selects the element.
fn does_select(progress: &Progress<'_>) -> bool
    ensures { result ≡ selects_here (marked_step progress.now) }
{
    match progress.ends {
        Some(_) => progress.mark.here,
        None => false,
    }
}

/// Whether this is the last step of a rule that denies and selects the element.
fn does_deny(progress: &Progress<'_>) -> bool
    ensures { result ≡ denies_here (marked_step progress.now) }
{
    match progress.ends {
        Some(Sign::Deny) => progress.mark.here,
        Some(Sign::Grant) => false,
        None => false,
    }
}

/// Whether some rule selects the element.
pub fn does_any_select(row: &[Progress<'_>]) -> bool
    ensures { result ≡ list_any (λ p. selects_here (marked_step p)) row.now }
{
    row.iter().any(|progress| does_select(progress))
}

/// Whether some rule that denies selects the element.
fn does_any_deny(row: &[Progress<'_>]) -> bool
    ensures { result ≡ list_any (λ p. denies_here (marked_step p)) row.now }
{
    row.iter().any(|progress| does_deny(progress))
}

/// The sign of an element, by the row at it: that of the rules that select it, and without one the sign of its parent.
/// A denial wins over a grant.
#[tactic(auto, using(crate::proofs::Lists::any_map), unfolding(crate::specs::inside::StepMarks::sign_here))]
pub fn sign_of(row: &[Progress<'_>], above: Sign) -> Sign
    ensures { result ≡ sign_here (marked_steps row.now) above }
{
    if !does_any_select(row) {
        above
    } else if does_any_deny(row) {
        Sign::Deny
    } else {
        Sign::Grant
    }
}
