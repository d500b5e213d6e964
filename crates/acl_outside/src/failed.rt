//! The error of a source, a sink or a store.

/// The object failed. Its count of faults rose with this answer, or is `u64::MAX`.
#[derive(Clone, Copy, Debug, PartialEq, Eq)]
pub struct Failed;
