//! One opening of a fragment: its enciphered bytes, and the digests that they are hashed to.
ghost use Rattle.std.specs.Prelude.{◌≡◌, ◌<◌, ◌≤◌, length, ℕ, List, IsErrOf, MatchResult, OnOk, IfErr};
ghost use Rattle.acl_model.specs.declared.document.Doc.{Doc};
ghost use Rattle.acl_outside.specs.Outside.{NotFallen, Rose};
ghost use Rattle.merkle_chunks.specs.Table.{top_level};
ghost use Rattle.fragment_open.specs.CallReads.{IsReadFault, Told};
ghost use Rattle.fragment_open.specs.inside.Climbing.{IsNotOpened, IsOpened};
ghost use Rattle.fragment_open.specs.Held.{HoldsFile, IsOpenedHeld, IsQuietElse, IsStoreFault};

use crate::climb::{Climb, climb_to};
use crate::last::Last;
use crate::reading::read_whole;
use acl_outside::{ReadFault, Store};
use merkle_chunks::leaf_digest;

/// The level of a chunk's digest.
pub(crate) const CHUNK_LEVEL: u32 = 4;

/// What an opening gave once it reached its goal.
#[derive(Clone, Copy)]
pub(crate) struct Opened {
    pub cipher: [u8; 256],
    /// The digest of the chunk, or the digest at the goal where that is below the chunk's level.
    pub chunk: [u8; 32],
    /// The digest at the goal.
    pub digest: [u8; 32],
}

/// Reads a fragment and its siblings up to a goal.
pub(crate) fn open_to<S: Store>(
    store: &mut S,
    fragments: u32,
    index: u32,
    goal: u32,
    lasts: &mut [Last],
) -> Result<Opened, ReadFault>
    requires few { fragments ≤ 131072 }
    requires within { index < fragments }
    requires low { goal ≤ top_level fragments }
    requires room { 17 ≤ length lasts.old }
    ensures told { Told (S.served store.old) (S.served store.new) (λ reads. MatchResult result
        (λ o. IsOpened fragments index goal o.cipher o.chunk o.digest reads)
        (λ fault. IsNotOpened fragments index goal fault reads)) }
    ensures held { (d : Doc) (key : List ℕ) → HoldsFile (S.holds store.old) fragments d key
        → MatchResult result
        (λ o. IsOpenedHeld d key index goal o.cipher o.chunk o.digest)
        (λ fault. IsStoreFault fault) }
    ensures constant { S.holds store.new ≡ S.holds store.old }
    ensures cause { IsErrOf result ReadFault.StoreFault
        → Rose (S.faults store.old) (S.faults store.new) }
    ensures never_falls { NotFallen (S.faults store.old) (S.faults store.new) }
    ensures quiet { OnOk result (S.faults store.new ≡ S.faults store.old) }
    ensures quiet_else { IfErr result (λ fault.
        IsQuietElse fault (S.faults store.old) (S.faults store.new)) }
    ensures only { IfErr result IsReadFault }
{
    let mut cipher = [0; 256];
    read_whole(store, 64 + 256 * u64::from(index), &mut cipher)?;
    let leaf = leaf_digest(u64::from(index), &cipher);
    let from = Climb::at_leaf(fragments, index, leaf);
    let low = climb_to(store, from, goal.min(CHUNK_LEVEL), &mut *lasts)?;
    let end = climb_to(store, low, goal, &mut *lasts)?;
    Ok(Opened {
        cipher,
        chunk: low.digest(),
        digest: end.digest(),
    })
}
