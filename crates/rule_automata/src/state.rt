//! A state of the tables. It is a step of a rule's path, and it *waits* at the elements at whose
//! children the step may be taken.

ghost use Rattle.std.specs.Prelude.{◌≡◌};
ghost use Rattle.rule_automata.specs.Run.{passes_tag};

use acl_model::Axis;

/// The test of tags that a step makes.
#[derive(Clone, Copy, Debug, PartialEq, Eq)]
pub enum TagTest {
    /// Each tag passes: the test `*`.
    Each,
    /// This tag alone passes.
    Only(u16),
    /// No tag passes: the step's name has none, or is a dummy's.
    Never,
}

/// A step of a rule's path.
#[derive(Clone, Copy, Debug, PartialEq, Eq)]
pub struct State {
    pub axis: Axis,
    pub test: TagTest,
    /// The number of the rule, where this is its last step. Otherwise the next state is that of the
    /// rule's next step.
    pub ends: Option<u8>,
}

impl TagTest {
    /// Whether the tag passes the test.
    pub fn does_pass(self, tag: u16) -> bool
        ensures { result ≡ passes_tag self tag }
    {
        match self {
            TagTest::Each => true,
            TagTest::Only(wanted) => wanted == tag,
            TagTest::Never => false,
        }
    }
}
