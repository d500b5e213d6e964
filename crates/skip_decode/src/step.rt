//! One step of a reader along a stream.

use crate::position::{Level, Next};
use acl_walk::Event;

/// What a step does to the innermost open element.
#[derive(Clone, Copy, Debug)]
pub(crate) enum Change {
    /// Nothing.
    Stay,
    /// It opens a child of it.
    Open {
        /// The element after the step.
        parent: Level,
        /// Its child.
        child: Level,
    },
    /// It closes it.
    Close,
}

/// A step.
#[derive(Debug, Drop)]
pub(crate) struct Step {
    /// Its event.
    pub event: Event,
    /// What comes next.
    pub next: Next,
    /// The byte offset in the stream after it.
    pub place: u32,
    /// What it does to the open elements.
    pub change: Change,
}
