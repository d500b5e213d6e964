//! The error of a bit string that is too short.

/// Fewer bits are left than were asked for.
#[derive(Debug, Drop, Clone, Copy, PartialEq, Eq)]
pub struct Short;
