//! Hashes from a fragment's digest up the table, level by level (its Merkle path).
ghost use Rattle.std.specs.Prelude.{◌≡◌, ◌+◌, ◌<◌, ◌≤◌, length, ◌↔◌, ℕ, List, IfOk, IsErrOf, MatchResult, OnOk, IfErr};
ghost use Rattle.sha2.specs.Sha256.{sha256};
ghost use Rattle.acl_model.specs.declared.document.Doc.{Doc};
ghost use Rattle.acl_outside.specs.Outside.{NotFallen, Rose};
ghost use Rattle.merkle_chunks.specs.Table.{count_below, level_count, node_place, top_level};
ghost use Rattle.fragment_open.specs.Asks.{has_sibling, index_at, sibling_of};
ghost use Rattle.fragment_open.specs.Hashed.{parent_string};
ghost use Rattle.fragment_open.specs.CallReads.{IsReadFault, Told};
ghost use Rattle.fragment_open.specs.inside.Climbing.{Climbs, Ends, IsNext, IsSibling, LacksSibling};
ghost use Rattle.fragment_open.specs.Held.{GivesOrFails, HoldsFile, IsQuietElse, digest_held, sibling_held};

use crate::last::Last;
use crate::reading::read_whole;
use acl_outside::{ReadFault, Store};

/// A digest on a level, with its position in the table.
#[derive(Clone, Copy)]
pub(crate) struct Climb {
    fragments: u32,
    index: u32,
    level: u32,
    digest: [u8; 32],
    // The index on the level, the number of digests on it, and the number on the levels below.
    at: u32,
    here: u32,
    below: u32,
    ghost few: { fragments ≤ 131072 },
    ghost within: { index < fragments },
    ghost low: { level ≤ top_level fragments },
    ghost is_at: { at ≡ index_at index level },
    ghost is_here: { here ≡ level_count fragments level },
    ghost is_below: { below ≡ count_below fragments level },
}

impl Climb {
    /// The position at the digest of a fragment.
    pub(crate) fn at_leaf(fragments: u32, index: u32, digest: [u8; 32]) -> Climb
        requires few { fragments ≤ 131072 }
        requires within { index < fragments }
        ensures fragments { result.fragments ≡ fragments }
        ensures index { result.index ≡ index }
        ensures level { result.level ≡ 0 }
        ensures digest { result.digest ≡ digest }
    {
        Climb {
            fragments,
            index,
            level: 0,
            digest,
            at: index,
            here: fragments,
            below: 0,
        }
    }

    /// The digest.
    pub(crate) fn digest(&self) -> [u8; 32]
        ensures { result ≡ self.now.digest }
    {
        self.digest
    }

    /// The index of the sibling on the level.
    fn sibling(&self) -> u32
        ensures { result ≡ sibling_of self.now.at }
    {
        if self.at % 2 == 0 {
            self.at + 1
        } else {
            self.at - 1
        }
    }

    /// The parent's digest, from that of the sibling.
    fn above(self, sibling: &[u8; 32], last: &mut Last) -> Climb
        requires { self.level < top_level self.fragments }
        ensures fragments { result.fragments ≡ self.fragments }
        ensures index { result.index ≡ self.index }
        ensures level { result.level ≡ self.level + 1 }
        ensures digest { result.digest
            ≡ sha256 (parent_string (index_at self.index self.level) self.digest sibling.now) }
    {
        let digest = if self.at % 2 == 0 {
            last.digest_over(&self.digest, sibling)
        } else {
            last.digest_over(sibling, &self.digest)
        };
        Climb {
            fragments: self.fragments,
            index: self.index,
            level: self.level + 1,
            digest,
            at: self.at / 2,
            here: self.here.div_ceil(2),
            below: self.below + self.here,
        }
    }
}

/// Reads the digest of the sibling. Where the table doesn't have it, the answer is zeros, without a read.
fn read_sibling<S: Store>(store: &mut S, climb: &Climb) -> Result<[u8; 32], ReadFault>
    requires { climb.now.level < top_level climb.now.fragments }
    ensures told { Told (S.served store.old) (S.served store.new) (λ reads. MatchResult result
        (λ digest. IsSibling climb.now.fragments climb.now.index climb.now.level digest reads)
        (λ fault. LacksSibling climb.now.fragments climb.now.index climb.now.level fault reads)) }
    ensures held { (d : Doc) (key : List ℕ)
        → HoldsFile (S.holds store.old) climb.now.fragments d key
        → GivesOrFails result (λ digest. digest) (sibling_held d key climb.now.level climb.now.at) }
    ensures constant { S.holds store.new ≡ S.holds store.old }
    ensures cause { IsErrOf result ReadFault.StoreFault
        → Rose (S.faults store.old) (S.faults store.new) }
    ensures never_falls { NotFallen (S.faults store.old) (S.faults store.new) }
    ensures quiet { OnOk result (S.faults store.new ≡ S.faults store.old) }
    ensures quiet_else { IfErr result (λ fault.
        IsQuietElse fault (S.faults store.old) (S.faults store.new)) }
    ensures only { IfErr result IsReadFault }
{
    let mut digest = [0; 32];
    let sibling = climb.sibling();
    if sibling < climb.here {
        let after = u64::from(climb.below) + u64::from(sibling);
        let place = 64 + 256 * u64::from(climb.fragments) + 32 * after;
        read_whole(store, place, &mut digest)?;
    }
    Ok(digest)
}

/// Goes one level up, with the sibling that the store gives.
fn step<S: Store>(store: &mut S, climb: Climb, last: &mut Last) -> Result<Climb, ReadFault>
    requires { climb.level < top_level climb.fragments }
    ensures told { Told (S.served store.old) (S.served store.new) (λ reads. MatchResult result
        (λ next. Climbs climb.fragments climb.index climb.level climb.digest next.level next.digest reads)
        (λ fault. Ends climb.fragments climb.index climb.level climb.digest (climb.level + 1) fault reads)) }
    ensures held { (d : Doc) (key : List ℕ) → HoldsFile (S.holds store.old) climb.fragments d key
        → climb.digest ≡ digest_held d key climb.level (index_at climb.index climb.level)
        → GivesOrFails result (λ next. next.digest) (digest_held d key (climb.level + 1) (index_at climb.index (climb.level + 1))) }
    ensures next { IfOk result (λ next.
        IsNext climb.fragments climb.index (climb.level + 1) next.fragments next.index next.level) }
    ensures constant { S.holds store.new ≡ S.holds store.old }
    ensures cause { IsErrOf result ReadFault.StoreFault
        → Rose (S.faults store.old) (S.faults store.new) }
    ensures never_falls { NotFallen (S.faults store.old) (S.faults store.new) }
    ensures quiet { OnOk result (S.faults store.new ≡ S.faults store.old) }
    ensures quiet_else { IfErr result (λ fault.
        IsQuietElse fault (S.faults store.old) (S.faults store.new)) }
    ensures only { IfErr result IsReadFault }
{
    let sibling = read_sibling(store, &climb)?;
    Ok(climb.above(&sibling, last))
}

/// Goes up to a level, with the siblings that the store gives.
pub(crate) fn climb_to<S: Store>(
    store: &mut S,
    from: Climb,
    goal: u32,
    lasts: &mut [Last],
) -> Result<Climb, ReadFault>
    requires above { from.level ≤ goal }
    requires low { goal ≤ top_level from.fragments }
    requires room { 17 ≤ length lasts.old }
    ensures told { Told (S.served store.old) (S.served store.new) (λ reads. MatchResult result
        (λ end. Climbs from.fragments from.index from.level from.digest goal end.digest reads)
        (λ fault. Ends from.fragments from.index from.level from.digest goal fault reads)) }
    ensures held { (d : Doc) (key : List ℕ) → HoldsFile (S.holds store.old) from.fragments d key
        → from.digest ≡ digest_held d key from.level (index_at from.index from.level)
        → GivesOrFails result (λ end. end.digest) (digest_held d key goal (index_at from.index goal)) }
    ensures end { IfOk result (λ end.
        IsNext from.fragments from.index goal end.fragments end.index end.level) }
    ensures constant { S.holds store.new ≡ S.holds store.old }
    ensures cause { IsErrOf result ReadFault.StoreFault
        → Rose (S.faults store.old) (S.faults store.new) }
    ensures never_falls { NotFallen (S.faults store.old) (S.faults store.new) }
    ensures quiet { OnOk result (S.faults store.new ≡ S.faults store.old) }
    ensures quiet_else { IfErr result (λ fault.
        IsQuietElse fault (S.faults store.old) (S.faults store.new)) }
    ensures only { IfErr result IsReadFault }
{
    let mut climb = from;
    'up: while climb.level < goal {
        climb = step(store, climb, &mut lasts[climb.level as usize])?;
    }
    Ok(climb)
}
