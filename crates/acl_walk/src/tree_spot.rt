//! A position (spot) of a walk over a tree. It refers into the tree.

use crate::levels::Levels;
use crate::tree_step::Now;

/// A position of a walk over a tree: the open elements with what is left of each, and what comes next. No
/// part of the tree is copied.
#[derive(Debug, Drop)]
pub struct TreeSpot<'a> {
    pub(crate) levels: Levels<'a>,
    pub(crate) now: Now<'a>,
}
