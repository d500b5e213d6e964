//! The digests over a file's fragments in one buffer: the table as in the file.

ghost use Rattle.std.specs.Prelude.{◌≡◌, ◌+◌, ◌*◌, ◌/◌, ◌%◌, ◌≤◌, length, IfOk};
ghost use Rattle.acl_model.specs.Limits.{most_stream_bytes};
ghost use Rattle.sha2.specs.Sha256.{sha256};
ghost use Rattle.merkle_chunks.specs.Layout.{digest_len, fragment_len};
ghost use Rattle.merkle_chunks.specs.Table.{digest_count, fragments, node_of, table_bytes, table_levels};
ghost use Rattle.merkle_chunks.specs.inside.LevelBytes.{levels_in};

use crate::counts::{counts_at, table_len, top_level};
use crate::digests::Digest;
use crate::layout::{DIGEST_LEN, FRAGMENT_LEN};
use crate::table::write_table;
use acl_model::Bytes;
use acl_outside::NoMemory;
use std::alloc::Global;
use std::marker::Model;

/// The digests over fragments. Its model is the list of its levels, from level 0 to the top one.
#[derive(Debug, Drop)]
pub struct Tree {
    fragments: u32,
    table: Vec<u8>,
    ghost some: { 1 ≤ fragments },
    ghost whole: { length table.items ≡ digest_len * digest_count fragments },
}

impl Model for Tree {
    ghost use Rattle.std.specs.Prelude.{ℕ, List};
    ghost use Rattle.merkle_chunks.specs.inside.LevelBytes.{levels_in};

    ghost Value = { List (List (List ℕ)) };

    ghost view = { λ tree. levels_in tree.fragments tree.table.items };
}

impl Tree {
    /// The tree over the fragments of an enciphered stream. Each fragment is hashed once, in place.
    pub fn build(alloc: Global, cipher: &[u8]) -> Result<Tree, NoMemory>
        requires whole { length cipher.now % fragment_len ≡ 0 }
        requires some { fragment_len ≤ length cipher.now }
        requires few { length cipher.now ≤ most_stream_bytes }
        ensures { IfOk result (λ tree. tree ≡ table_levels sha256 (fragments cipher.now)) }
    {
        let fragments = (cipher.len() / FRAGMENT_LEN) as u32;
        let mut table = vec![in alloc; 0; table_len(fragments)]?;
        write_table(cipher, &mut table);
        Ok(Tree { fragments, table })
    }

    /// The digest at a level and an index, both from 0. The answer is None exactly where the table has no such node.
    pub fn node(&self, level: u32, index: u32) -> Option<Digest>
        ensures { result ≡ node_of self.now level index }
    {
        if level > self.top_level() {
            return None;
        }
        let counts = counts_at(self.fragments, level);
        if u64::from(index) >= counts.here {
            return None;
        }
        let at = DIGEST_LEN * (counts.below as usize + index as usize);
        let mut digest = [0; DIGEST_LEN];
        digest.copy_from_slice(&self.table[at..at + DIGEST_LEN]);
        Some(digest)
    }

    /// The number of the top level, which has a single digest.
    pub fn top_level(&self) -> u32
        ensures { length self.now ≡ result + 1 }
    {
        top_level(self.fragments)
    }

    /// The bytes of the table, as in the file.
    pub fn table_bytes(&self) -> &[u8]
        ensures { result.now ≡ table_bytes self.now }
    {
        self.table.as_slice()
    }

    /// A copy of the bytes of the table.
    pub fn table(&self, alloc: Global) -> Result<Bytes, NoMemory>
        ensures { IfOk result (λ bytes. bytes ≡ table_bytes self.now) }
    {
        let bytes = Bytes::from_slice(alloc, self.table_bytes())?;
        Ok(bytes)
    }
}
