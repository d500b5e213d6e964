//! The predicates of rules as tables: the suffixes of their paths, and which step has each predicate.

ghost use Rattle.std.specs.Prelude.{◌≡◌, ◌≤◌, ◌+◌, ◌++◌, ◌∷◌, None, IfOk, length};
ghost use Rattle.acl_model.specs.Limits.{most_names};
ghost use Rattle.rule_automata.specs.Compile.{AreWithinLimits, way_suffixes, suffixes_of, bearings_from};
ghost use Rattle.rule_automata.specs.Compile.{preds_at, preds_of_steps, preds_from};

use crate::bearing::Bearing;
use crate::compiler::tag_test;
use crate::suffix::{Suffix, SuffixStep};
use acl_model::{Name, Pred, PredStep, Rule, Step};
use std::alloc::{AllocError, Global};

/// The suffixes and the bearings of predicates, in their order.
#[derive(Debug, Drop)]
pub(crate) struct PredTables {
    pub(crate) suffixes: Vec<Suffix>,
    pub(crate) bearings: Vec<Bearing>,
}

/// The suffixes and the bearings of the rules' predicates.
pub(crate) fn find_preds(
    alloc: Global,
    rules: &[Rule],
    names: &[Name],
) -> Result<PredTables, AllocError>
    requires { AreWithinLimits names.now rules.now }
    ensures suffixes { IfOk result (λ found. found.suffixes.items
        ≡ suffixes_of names.now (preds_from 0 rules.now)) }
    ensures bearings { IfOk result (λ found. found.bearings.items
        ≡ bearings_from 0 (preds_from 0 rules.now)) }
{
    let mut found = PredTables {
        suffixes: Vec::new(alloc),
        bearings: Vec::new(alloc),
    };
    let mut first = 0u16;
    for rule in rules {
        let steps = rule.path.steps.as_slice();
        add_steps(alloc, &mut found, first, steps, names)?;
        first += steps.len() as u16;
    }
    Ok(found)
}

/// Appends what the predicates of steps have, where the state of the first step has this number.
fn add_steps(
    alloc: Global,
    found: &mut PredTables,
    first: u16,
    steps: &[Step],
    names: &[Name],
) -> Result<(), AllocError>
    requires names { length names.now ≤ most_names }
    requires steps { first + length steps.now ≤ 256 }
    requires suffixes { length found.old.suffixes.items
        + length (suffixes_of names.now (preds_of_steps first steps.now)) ≤ 320 }
    ensures suffixes { IfOk result (λ done. found.new.suffixes.items
        ≡ found.old.suffixes.items ++ suffixes_of names.now (preds_of_steps first steps.now)) }
    ensures bearings { IfOk result (λ done. found.new.bearings.items
        ≡ found.old.bearings.items
        ++ bearings_from (length found.old.suffixes.items) (preds_of_steps first steps.now)) }
{
    for (place, step) in steps.iter().enumerate() {
        add_preds(
            alloc,
            found,
            first + place as u16,
            step.preds.as_slice(),
            names,
        )?;
    }
    Ok(())
}

/// Appends what the predicates of one step have, whose state has this number.
fn add_preds(
    alloc: Global,
    found: &mut PredTables,
    step: u16,
    preds: &[Pred],
    names: &[Name],
) -> Result<(), AllocError>
    requires names { length names.now ≤ most_names }
    requires suffixes { length found.old.suffixes.items
        + length (suffixes_of names.now (preds_at step preds.now)) ≤ 320 }
    ensures suffixes { IfOk result (λ done. found.new.suffixes.items
        ≡ found.old.suffixes.items ++ suffixes_of names.now (preds_at step preds.now)) }
    ensures bearings { IfOk result (λ done. found.new.bearings.items
        ≡ found.old.bearings.items
        ++ bearings_from (length found.old.suffixes.items) (preds_at step preds.now)) }
{
    for pred in preds {
        let first = found.suffixes.len() as u16;
        found
            .bearings
            .push(Bearing::of_pred(alloc, step, first, pred)?)?;
        add_suffixes(&mut found.suffixes, pred.way.as_slice(), names)?;
    }
    Ok(())
}

/// Appends the suffixes of a predicate's path, from the empty one to the whole.
#[tactic(auto, using(crate::proofs::PredLists::way_steps))]
fn add_suffixes(
    suffixes: &mut Vec<Suffix>,
    way: &[PredStep],
    names: &[Name],
) -> Result<(), AllocError>
    requires { length names.now ≤ most_names }
    ensures { IfOk result (λ done. suffixes.new.items
        ≡ suffixes.old.items ++ way_suffixes names.now way.now) }
{
    suffixes.push(Suffix { step: None })?;
    for place in (0..way.len()).rev() {
        let step = &way[place];
        let axis = step.axis;
        let test = tag_test(&step.test, names);
        suffixes.push(Suffix {
            step: Some(SuffixStep { axis, test }),
        })?;
    }
    Ok(())
}
