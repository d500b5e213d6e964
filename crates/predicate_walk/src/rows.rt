//! Rows: a *row* has one flag for each state of each predicate.

ghost use Rattle.std.specs.Prelude.{◌≡◌, ◌+◌, ◌<◌, false, [], ◌∷◌, ◌++◌, IfOk, OnOk, map, reverse, length, get_or, take, drop};
ghost use Rattle.predicate_walk.specs.inside.States.{does_answer, answers};
ghost use Rattle.predicate_walk.specs.Truths.{preds_in};

use crate::question::{Question, does_answer};
use crate::truths::PredRef;
use acl_bits::Flags;
use acl_model::PredStep;
use std::alloc::{AllocError, Global};

/// Writes the value of a flag that is not set yet.
pub fn put_flag(flags: &mut Flags, n: usize, is_set: bool)
    requires within { n < length flags.old }
    requires clear { get_or flags.old n false ≡ false }
    ensures { flags.new ≡ take n flags.old ++ (is_set ∷ drop (n + 1) flags.old) }
{
    if is_set {
        flags.put(n);
    }
}

/// Appends a flag of this value.
fn push_flag(flags: &mut Flags, is_set: bool) -> Result<(), AllocError>
    ensures { OnOk result (flags.new ≡ flags.old ++ (is_set ∷ [])) }
{
    let n = flags.len();
    flags.grow(1)?;
    put_flag(flags, n, is_set);
    Ok(())
}

/// Appends the answer for each step, from the last step to the first.
fn push_answers(
    flags: &mut Flags,
    question: Question<'_>,
    way: &[PredStep],
) -> Result<(), AllocError>
    ensures { OnOk result
        (flags.new ≡ flags.old ++ map (does_answer question.entry) (reverse way.now)) }
{
    let mut left = way.len();
    while left > 0 {
        left -= 1;
        push_flag(flags, does_answer(question, &way[left]))?;
    }
    Ok(())
}

/// The answer for each state of the predicates. It is false for the first state of each, which has no step.
pub fn find_answers(
    alloc: Global,
    question: Question<'_>,
    preds: &[PredRef<'_>],
) -> Result<Flags, AllocError>
    ensures { IfOk result
        (λ row. row ≡ answers (does_answer question.entry) (preds_in preds.now)) }
{
    let mut flags = Flags::new(alloc);
    for r in preds {
        push_flag(&mut flags, false)?;
        push_answers(&mut flags, question, r.pred.way.as_slice())?;
    }
    Ok(flags)
}
