//! Writes a table in place, level after level, each digest from the two below it.

ghost use Rattle.std.specs.Prelude.{◌≡◌, ◌+◌, ◌*◌, ◌/◌, ◌%◌, ◌<◌, ◌≤◌, [], map, length, slice_index_or};
ghost use Rattle.std.specs.List.{concat};
ghost use Rattle.sha2.specs.Sha256.{sha256};
ghost use Rattle.merkle_chunks.specs.Layout.{digest_len, fragment_len};
ghost use Rattle.merkle_chunks.specs.Strings.{absent_child, node_string, leaf_strings};
ghost use Rattle.merkle_chunks.specs.Table.{digest_count, fragments, table_bytes, table_levels, top_digest, top_level};
ghost use Rattle.merkle_chunks.specs.inside.LevelBytes.{digests_in, level_above, levels_above, parents, width};

use crate::digests::{Digest, leaf_digest, node_digest};
use crate::layout::{DIGEST_LEN, FRAGMENT_LEN};

/// The digest that is hashed for a right child that is absent.
const ABSENT: Digest = [0; DIGEST_LEN];

/// Hashes each fragment of the enciphered stream once, writes the table over them, and returns its top digest. It
/// allocates no memory, so a file can be built in one buffer.
pub fn write_table(cipher: &[u8], table: &mut [u8]) -> Digest
    requires whole { length cipher.now % fragment_len ≡ 0 }
    requires some { fragment_len ≤ length cipher.now }
    requires room { length table.old
        ≡ digest_len * digest_count (length cipher.now / fragment_len) }
    ensures table { table.new ≡ table_bytes (table_levels sha256 (fragments cipher.now)) }
    ensures top { result ≡ top_digest sha256 (fragments cipher.now) }
{
    let (leaves, above) = table.split_at_mut(DIGEST_LEN * (cipher.len() / FRAGMENT_LEN));
    write_leaves(cipher, leaves);
    write_levels(leaves, above)
}

/// Writes the digests of all fragments.
fn write_leaves(cipher: &[u8], level: &mut [u8])
    requires { length level.old ≡ digest_len * (length cipher.now / fragment_len) }
    ensures { level.new ≡ concat (map sha256 (leaf_strings 0 (fragments cipher.now))) }
{
    let (fragments, _) = cipher.as_chunks::<FRAGMENT_LEN>();
    for (index, fragment) in fragments.iter().enumerate() {
        let at = DIGEST_LEN * index;
        level[at..at + DIGEST_LEN].copy_from_slice(&leaf_digest(index as u64, fragment));
    }
}

/// Writes all levels above a level, and returns the top digest.
fn write_levels(level: &[u8], above: &mut [u8]) -> Digest
    requires whole { length level.now % digest_len ≡ 0 }
    requires some { digest_len ≤ length level.now }
    requires room { length above.old + length level.now
        ≡ digest_len * digest_count (width level.now) }
    ensures above { let levels = top_level (width level.now) in
        above.new ≡ table_bytes (levels_above sha256 levels (digests_in level.now)) }
    ensures top { let levels = top_level (width level.now) in
        result ≡ slice_index_or (level_above sha256 levels (digests_in level.now)) 0 [] }
{
    if level.len() == DIGEST_LEN {
        let mut top = [0; DIGEST_LEN];
        top.copy_from_slice(level);
        return top;
    }
    let (next, rest) = above.split_at_mut(DIGEST_LEN * (level.len() / DIGEST_LEN).div_ceil(2));
    write_nodes(level, next);
    write_levels(next, rest)
}

/// Writes the level of nodes above a level.
fn write_nodes(below: &[u8], level: &mut [u8])
    requires { length level.old ≡ digest_len * ((width below.now + 1) / 2) }
    ensures { level.new ≡ concat (parents sha256 (digests_in below.now)) }
{
    let (digests, _) = below.as_chunks::<DIGEST_LEN>();
    'nodes: for index in 0..digests.len().div_ceil(2) {
        let at = DIGEST_LEN * index;
        level[at..at + DIGEST_LEN].copy_from_slice(&node_over(digests, index));
    }
}

/// The digest of a node, from the level below it.
fn node_over(digests: &[Digest], index: usize) -> Digest
    requires { 2 * index < length digests.now }
    ensures { result ≡ sha256 (node_string (slice_index_or digests.now (2 * index) [])
        (slice_index_or digests.now (2 * index + 1) absent_child)) }
{
    let right = digests.get(2 * index + 1).unwrap_or(&ABSENT);
    node_digest(&digests[2 * index], right)
}
