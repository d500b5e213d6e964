//! The state machine outside predicates: a state takes a byte, and the last state gives the path.

ghost use Rattle.std.specs.Prelude.{◌≡◌, [], Some, IfOk};
ghost use Rattle.xpath_rules.specs.PathMachine.{choose, test_rows, path_rows, path_step, whole_steps, goes_on};
ghost use Rattle.xpath_rules.specs.PathMachine.{longer_step, with_pred, state_after, step, path_at_end};

use crate::lists::with_last;
use crate::state::{Inside, Level, Next, State};
use crate::{inside, name_test};
use acl_model::{Axis, Path, Pred, Sequence, Step, may_continue_name};
use std::alloc::{AllocError, Global};

/// The state after the first byte of a step's test. `None` where the byte begins none.
fn path_step(
    alloc: Global,
    done: Sequence<Step>,
    axis: Axis,
    byte: u8,
) -> Result<Option<State>, AllocError>
    ensures { IfOk result (λ next. next ≡ choose (test_rows (path_step done axis)) byte) }
{
    let Some(test) = name_test::first_test(alloc, byte)? else {
        return Ok(None);
    };
    let preds = Sequence::new(alloc);
    Ok(Some(State::InStep(Level {
        done,
        step: Step { axis, test, preds },
    })))
}

/// A path begins with a slash.
fn start(alloc: Global, byte: u8) -> Option<State>
    ensures { result ≡ choose (path_rows State.Start) byte }
{
    if byte != b'/' {
        return None;
    }
    Some(State::AfterSlash(Sequence::new(alloc)))
}

/// After the first slash of a step: a second slash, or the first byte of its test.
fn after_slash(alloc: Global, done: Sequence<Step>, byte: u8) -> Result<Option<State>, AllocError>
    ensures { IfOk result (λ next. next ≡ choose (path_rows (State.AfterSlash done)) byte) }
{
    if byte == b'/' {
        return Ok(Some(State::AfterSlashes(done)));
    }
    path_step(alloc, done, Axis::Child, byte)
}

/// All steps, including the open one.
fn whole_steps(level: Level) -> Result<Sequence<Step>, AllocError>
    ensures { IfOk result (λ steps. steps ≡ whole_steps level) }
{
    let Level { done, step } = level;
    with_last(done, step)
}

/// Whether one more byte may continue the step's name.
fn goes_on(step: &Step) -> bool
    ensures { result ≡ goes_on step.now }
{
    name_test::has_room(&step.test) && step.preds.is_empty()
}

/// Adds one byte to the name of the open step.
fn longer_step(level: Level, byte: u8) -> Result<Level, AllocError>
    ensures { IfOk result (λ longer. longer ≡ longer_step level byte) }
{
    let Level {
        done,
        step: Step { axis, test, preds },
    } = level;
    let test = name_test::longer(test, byte)?;
    Ok(Level {
        done,
        step: Step { axis, test, preds },
    })
}

/// After a test or a predicate: the name goes on, or the next step or a predicate begins.
fn in_step(level: Level, byte: u8) -> Result<Option<State>, AllocError>
    ensures { IfOk result (λ next. next ≡ choose (path_rows (State.InStep level)) byte) }
{
    if may_continue_name(byte) && goes_on(&level.step) {
        return Ok(Some(State::InStep(longer_step(level, byte)?)));
    }
    match byte {
        b'/' => Ok(Some(State::AfterSlash(whole_steps(level)?))),
        b'[' => Ok(Some(State::InPredicate(level, Inside::Open))),
        _ => Ok(None),
    }
}

/// Adds a predicate to the open step.
fn with_pred(level: Level, pred: Pred) -> Result<Level, AllocError>
    ensures { IfOk result (λ longer. longer ≡ with_pred level pred) }
{
    let Level {
        done,
        step: Step { axis, test, preds },
    } = level;
    let preds = with_last(preds, pred)?;
    Ok(Level {
        done,
        step: Step { axis, test, preds },
    })
}

/// The state of the path after a byte in a predicate.
fn state_after(level: Level, next: Next) -> Result<State, AllocError>
    ensures { IfOk result (λ state. state ≡ state_after level next) }
{
    match next {
        Next::More(inside) => Ok(State::InPredicate(level, inside)),
        Next::Whole(pred) => Ok(State::InStep(with_pred(level, pred)?)),
    }
}

impl State {
    /// The state after one more byte. `None` where the byte is refused.
    pub fn take(self, alloc: Global, user: &[u8], byte: u8) -> Result<Option<State>, AllocError>
        ensures { IfOk result (λ next. next ≡ step user.now self byte) }
    {
        match self {
            State::Start => Ok(start(alloc, byte)),
            State::AfterSlash(done) => after_slash(alloc, done, byte),
            State::AfterSlashes(done) => path_step(alloc, done, Axis::Descendant, byte),
            State::InStep(level) => in_step(level, byte),
            State::InPredicate(level, inside) => {
                let Some(next) = inside::take(inside, alloc, user, byte)? else {
                    return Ok(None);
                };
                Ok(Some(state_after(level, next)?))
            }
        }
    }

    /// The path that ends in this state. `None` where none does.
    pub fn finish(self) -> Result<Option<Path>, AllocError>
        ensures { IfOk result (λ path. path ≡ path_at_end self) }
    {
        match self {
            State::Start => Ok(None),
            State::AfterSlash(_) => Ok(None),
            State::AfterSlashes(_) => Ok(None),
            State::InStep(level) => Ok(Some(Path {
                steps: whole_steps(level)?,
            })),
            State::InPredicate(_, _) => Ok(None),
        }
    }
}
