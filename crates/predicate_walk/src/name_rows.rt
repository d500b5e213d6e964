//! The rows of names: for each name in a step, which states have a step that passes it.

ghost use Rattle.std.specs.Prelude.{◌≡◌, nat_eq, IfOk, OnOk};
ghost use Rattle.std.specs.Cmp.Lexicographic.{pointwise};
ghost use Rattle.std.specs.List.{list_any};
ghost use Rattle.predicate_walk.specs.inside.States.{does_name};
ghost use Rattle.predicate_walk.specs.inside.NameRows.{AreRows, AddsRows, AreAllRows};
ghost use Rattle.predicate_walk.specs.Truths.{preds_in};

use crate::question::Question;
use crate::rows::find_answers;
use crate::truths::PredRef;
use acl_bits::Flags;
use acl_model::{PredStep, Test};
use std::alloc::{AllocError, Global};
use std::collections::HashMap;

/// Adds the row of a name, if the map has none for it.
fn add_name(
    alloc: Global,
    preds: &[PredRef<'_>],
    name: &[u8],
    rows: &mut HashMap<Vec<u8>, Flags>,
) -> Result<(), AllocError>
    requires { AreRows (preds_in preds.now) rows.old }
    ensures { OnOk result
        (AddsRows (preds_in preds.now) (λ n. pointwise nat_eq name.now n) rows.old rows.new) }
{
    if rows.contains_key(name) {
        return Ok(());
    }
    let key = Vec::from_slice(alloc, name)?;
    let row = find_answers(alloc, Question::PassesName(name), preds)?;
    match rows.insert(key, row) {
        Ok(_) => Ok(()),
        Err(_) => Err(AllocError),
    }
}

/// Adds the row of the name in a step, if the step names one.
fn add_step(
    alloc: Global,
    preds: &[PredRef<'_>],
    step: &PredStep,
    rows: &mut HashMap<Vec<u8>, Flags>,
) -> Result<(), AllocError>
    requires { AreRows (preds_in preds.now) rows.old }
    ensures { OnOk result
        (AddsRows (preds_in preds.now) (λ n. does_name n step.now) rows.old rows.new) }
{
    match &step.test {
        Test::Any => Ok(()),
        Test::Named(name) => add_name(alloc, preds, name.as_slice(), rows),
    }
}

/// Adds the rows of the names in the steps of a path.
fn add_way(
    alloc: Global,
    preds: &[PredRef<'_>],
    way: &[PredStep],
    rows: &mut HashMap<Vec<u8>, Flags>,
) -> Result<(), AllocError>
    requires { AreRows (preds_in preds.now) rows.old }
    ensures { OnOk result
        (AddsRows (preds_in preds.now) (λ n. list_any (does_name n) way.now) rows.old rows.new) }
{
    for step in way {
        add_step(alloc, preds, step, rows)?;
    }
    Ok(())
}

/// The rows of all names in steps of the predicates.
pub fn find_name_rows(
    alloc: Global,
    preds: &[PredRef<'_>],
) -> Result<HashMap<Vec<u8>, Flags>, AllocError>
    ensures { IfOk result (λ rows. AreAllRows (preds_in preds.now) rows) }
{
    let mut rows = HashMap::new(alloc);
    for r in preds {
        add_way(alloc, preds, r.pred.way.as_slice(), &mut rows)?;
    }
    Ok(rows)
}
