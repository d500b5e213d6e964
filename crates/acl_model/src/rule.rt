//! Access rules: each grants or denies the elements that its path selects, with all that is inside them.

use crate::path::Path;
use crate::sequence::Bytes;

/// Whether an element may be read (VLDB 2004, the sign of an access rule).
#[derive(Debug, Clone, Copy, PartialEq, Eq)]
pub enum Sign {
    Grant,
    Deny,
}

/// A rule of a licence.
#[derive(Debug, Drop)]
pub struct Rule {
    /// 1 to 32 bytes: the name of the rule, for people.
    pub id: Bytes,
    pub sign: Sign,
    pub path: Path,
}
