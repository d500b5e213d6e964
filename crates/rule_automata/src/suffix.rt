//! A suffix of the path of a predicate. A path of n steps has n + 1 suffixes: the empty one, and one for
//! each step, with which it begins.

use crate::state::TagTest;
use acl_model::Axis;

/// A step of a predicate's path.
#[derive(Clone, Copy, Debug, PartialEq, Eq)]
pub struct SuffixStep {
    pub axis: Axis,
    pub test: TagTest,
}

/// A suffix, by its first step. The steps after that are those of the suffix before it.
#[derive(Clone, Copy, Debug, PartialEq, Eq)]
pub struct Suffix {
    /// None for the empty suffix.
    pub step: Option<SuffixStep>,
}
