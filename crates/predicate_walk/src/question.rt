//! Questions about the steps of predicates.

ghost use Rattle.std.specs.Prelude.{◌≡◌};
ghost use Rattle.acl_model.specs.NameTests.{passes};
ghost use Rattle.acl_model.specs.Document.{is_dummy_name};
ghost use Rattle.predicate_walk.specs.inside.States.{is_descendant, passes_each, does_answer};

use acl_model::{Axis, PredStep, Test};

/// A question about a step.
#[derive(Clone, Copy)]
pub enum Question<'a> {
    /// Whether its axis is that of the descendants.
    IsDeep,
    /// Whether it passes this name.
    PassesName(&'a [u8]),
    /// Whether it passes every name.
    PassesEachName,
}

/// Whether this is the name of a dummy, `-`.
fn is_a_dummy(name: &[u8]) -> bool
    ensures { result ≡ is_dummy_name name.now }
{
    match name {
        [byte] => *byte == b'-',
        _ => false,
    }
}

/// Whether an element of this name passes the node test. A test of a name never passes a dummy.
pub fn does_pass(test: &Test, name: &[u8]) -> bool
    ensures { result ≡ passes test.now name.now }
{
    match test {
        Test::Any => true,
        Test::Named(wanted) => wanted.as_slice() == name && !is_a_dummy(name),
    }
}

/// Whether the test passes every name.
fn does_pass_each(test: &Test) -> bool
    ensures { result ≡ passes_each test.now }
{
    match test {
        Test::Any => true,
        Test::Named(_) => false,
    }
}

/// Whether the axis is that of the descendants.
fn is_deep(axis: Axis) -> bool
    ensures { result ≡ is_descendant axis }
{
    match axis {
        Axis::Child => false,
        Axis::Descendant => true,
    }
}

/// The answer to the question for this step.
pub fn does_answer(question: Question<'_>, step: &PredStep) -> bool
    ensures { result ≡ does_answer question.entry step.now }
{
    match question {
        Question::IsDeep => is_deep(step.axis),
        Question::PassesName(name) => does_pass(&step.test, name),
        Question::PassesEachName => does_pass_each(&step.test),
    }
}
