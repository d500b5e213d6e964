//! A predicate in the tables: which step has it, and which suffixes its path has.

ghost use Rattle.std.specs.Prelude.{◌≡◌, ◌+◌, ◌≤◌, IfOk, length};
ghost use Rattle.rule_automata.specs.Compile.{bearing_of};

use acl_model::{Bytes, Cmp, Name, Operand, Pred};
use std::alloc::{AllocError, Global};

/// A predicate of a rule's step.
#[derive(Debug, Drop)]
pub struct Bearing {
    /// The number of the state whose step has the predicate.
    pub step: u16,
    /// The number of the empty suffix of its path. Those of the longer ones follow.
    pub first: u16,
    /// The number of its whole path among the suffixes.
    pub whole: u16,
    /// The attribute whose values are compared, if there is one, as the predicate has it.
    pub attribute: Option<Name>,
    /// The comparison, if there is one, as the predicate has it.
    pub cmp: Option<Cmp>,
}

impl Bearing {
    /// The bearing of a predicate of the step whose state has this number. The empty suffix has the number
    /// `first`.
    pub(crate) fn of_pred(
        alloc: Global,
        step: u16,
        first: u16,
        pred: &Pred,
    ) -> Result<Bearing, AllocError>
        requires { first + length pred.now.way ≤ 320 }
        ensures { IfOk result (λ bearing. bearing
            ≡ bearing_of first (record { step = step; pred = pred.now })) }
    {
        Ok(Bearing {
            step,
            first,
            whole: first + pred.way.len() as u16,
            attribute: copy_attribute(alloc, &pred.attribute)?,
            cmp: copy_comparison(alloc, &pred.cmp)?,
        })
    }
}

fn copy_attribute(alloc: Global, attribute: &Option<Name>) -> Result<Option<Name>, AllocError>
    ensures { IfOk result (λ copy. copy ≡ attribute.now) }
{
    match attribute {
        Some(name) => Ok(Some(Name::from_slice(alloc, name.as_slice())?)),
        None => Ok(None),
    }
}

fn copy_comparison(alloc: Global, cmp: &Option<Cmp>) -> Result<Option<Cmp>, AllocError>
    ensures { IfOk result (λ copy. copy ≡ cmp.now) }
{
    match cmp {
        Some(cmp) => Ok(Some(Cmp {
            op: cmp.op,
            operand: copy_operand(alloc, &cmp.operand)?,
        })),
        None => Ok(None),
    }
}

fn copy_operand(alloc: Global, operand: &Operand) -> Result<Operand, AllocError>
    ensures { IfOk result (λ copy. copy ≡ operand.now) }
{
    match operand {
        Operand::Text(text) => Ok(Operand::Text(Bytes::from_slice(alloc, text.as_slice())?)),
        Operand::Number(number) => Ok(Operand::Number(*number)),
        Operand::User(user) => Ok(Operand::User(Bytes::from_slice(alloc, user.as_slice())?)),
    }
}
