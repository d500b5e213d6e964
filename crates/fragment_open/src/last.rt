//! A cache of the node that was hashed last on a level. Fragments that are opened in order share most nodes above them,
//! so most nodes need not be hashed again.
ghost use Rattle.std.specs.Prelude.{◌≡◌};
ghost use Rattle.sha2.specs.Sha256.{sha256};
ghost use Rattle.merkle_chunks.specs.Strings.{node_string};

use merkle_chunks::node_digest;

/// The digests of two children, and the digest of their node.
#[derive(Clone, Copy)]
pub(crate) struct Last {
    left: [u8; 32],
    right: [u8; 32],
    digest: [u8; 32],
    ghost made: { digest ≡ sha256 (node_string left right) },
}

impl Last {
    /// The node over two children of zeros, before any other was hashed.
    pub(crate) fn of_zeros() -> Last {
        let left = [0; 32];
        let right = [0; 32];
        let digest = node_digest(&left, &right);
        Last {
            left,
            right,
            digest,
        }
    }

    /// The digest of a node. It is hashed only where its children aren't byte for byte those of the last node.
    pub(crate) fn digest_over(&mut self, left: &[u8; 32], right: &[u8; 32]) -> [u8; 32]
        ensures { result ≡ sha256 (node_string left.now right.now) }
    {
        if self.left == *left && self.right == *right {
            return self.digest;
        }
        let digest = node_digest(left, right);
        *self = Last {
            left: *left,
            right: *right,
            digest,
        };
        digest
    }
}
