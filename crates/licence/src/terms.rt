//! A licence: the root digest of its file, its user, and its access rules.

use acl_model::{Bytes, Rule, Sequence};

/// What the body of a licence says.
#[derive(Debug, Drop)]
pub struct Licence {
    /// The root digest of the file's Merkle tree.
    pub root: [u8; 32],
    /// The user's name, 1 to 255 bytes.
    pub user: Bytes,
    /// At most 64 rules, in the order of their lines.
    pub rules: Sequence<Rule>,
}
