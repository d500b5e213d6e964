//! How many digests each level of a table has, and so at which offset each digest is.

ghost use Rattle.std.specs.Prelude.{◌≡◌, ◌+◌, ◌*◌, ◌≤◌};
ghost use Rattle.merkle_chunks.specs.Layout.{digest_len};
ghost use Rattle.merkle_chunks.specs.Table.{level_count, count_below, digest_count, top_level};

use crate::layout::DIGEST_LEN;

/// The top level of the table over so many fragments: the first one with a single digest.
pub fn top_level(fragments: u32) -> u32
    ensures { result ≡ top_level fragments }
{
    let mut count = fragments;
    let mut level = 0;
    while count > 1 {
        count = count.div_ceil(2);
        level += 1;
    }
    level
}

/// The number of bytes of the table over so many fragments.
pub fn table_len(fragments: u32) -> usize
    ensures { result ≡ digest_len * digest_count fragments }
{
    DIGEST_LEN * counts_at(fragments, top_level(fragments) + 1).below as usize
}

/// The number of digests on a level, and on all levels below it.
#[derive(Clone, Copy)]
pub(crate) struct Counts {
    pub here: u64,
    pub below: u64,
}

/// The counts of a level over so many fragments.
pub(crate) fn counts_at(fragments: u32, level: u32) -> Counts
    ensures here { result.here ≡ level_count fragments level }
    ensures below { result.below ≡ count_below fragments level }
    ensures bound { result.below + 2 * result.here ≤ 2 * fragments + level }
{
    let mut here = u64::from(fragments);
    let mut below = 0;
    'up: for _level in 0..level {
        below += here;
        here = here.div_ceil(2);
    }
    Counts { here, below }
}
