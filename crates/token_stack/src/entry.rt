//! A state of the tables at an open element.

/// A state at an element: whether it waits there, that is, whether its step may be taken at a
/// child, and the rule that selects the element with this step.
#[derive(Clone, Copy, Debug, PartialEq, Eq)]
pub struct Entry {
    /// The number of the state.
    pub state: u16,
    pub waits: bool,
    pub selects: Option<u8>,
}
