//! The stream of a file in a store, read by its fragments, each of which is checked against a root.

ghost use Rattle.std.specs.Prelude.{◌≡◌, None, Some, IfOk, IfSome, length};
ghost use Rattle.merkle_chunks.specs.HeaderBytes.{fragment_count};
ghost use Rattle.skip_decode.specs.CheckedStream.{MayBe, AnswersBadIndex, AnswersBadIndex-prop, OpenedNone, opened_since};
ghost use Rattle.skip_decode.specs.Different.{different};
ghost use Rattle.skip_decode.specs.inside.IndexSets.{FlagOpened, FlagOpened-prop};

use crate::fragments::Fragments;
use crate::index_set::IndexSet;
use acl_outside::{ReadFault, Store};
use fragment_open::Opener;
use std::alloc::{AllocError, Global};

/// An opener over a store, and the set of the fragments that it opened. Where it has refused with `BadIndex`, it is
/// sound for no document.
#[derive(Drop)]
pub(crate) struct Checked<'a, S: Store> {
    /// The opener.
    pub opener: Opener<'a, S>,
    /// The indexes of the fragments opened since its start, until it refuses.
    opened: IndexSet,
    ghost index: { AnswersBadIndex opener.fault
        (MayBe (S.served opener.store.now) (S.holds opener.store.now) opener.head) } by { AnswersBadIndex-prop opener.fault
            (MayBe (S.served opener.store.now) (S.holds opener.store.now) opener.head) },
    ghost bound: { length opened.flags ≡ fragment_count opener.head.header },
    ghost members: { FlagOpened opener.fault
        (opened_since (S.served opener.store.now)) opened.flags } by { FlagOpened-prop opener.fault
            (opened_since (S.served opener.store.now)) opened.flags },
}

impl<'a, S: Store> Checked<'a, S> {
    /// Over an opener that has refused nothing and opened no fragment.
    pub fn over(alloc: Global, opener: Opener<'a, S>) -> Result<Checked<'a, S>, AllocError>
        requires quiet { opener.fault ≡ None }
        requires unopened { OpenedNone (S.served opener.store.now) }
        ensures opener { IfOk result (λ checked. checked.opener ≡ opener.entry) }
    {
        let opened = IndexSet::new(alloc, opener.header().fragments())?;
        Ok(Checked { opener, opened })
    }

    /// The number of different fragments that were opened since its start.
    pub fn opened(&self) -> u32
        ensures { self.now.opener.fault ≡ None
            → IfSome (opened_since (S.served self.now.opener.store.now)) (λ indexes.
            result ≡ different indexes) }
    {
        self.opened.len()
    }
}

impl<'a, S: Store> Fragments for Checked<'a, S> {
    ghost use Rattle.merkle_chunks.specs.HeaderBytes.{fragment_count};
    ghost use Rattle.skip_decode.specs.CheckedStream.{MayBe, Fetched, opened_since, store_moment};
    ghost use Rattle.skip_decode.specs.inside.CheckedLaws.{few_of_header, whole_stream};

    ghost count = { λ w. fragment_count w.opener.head.header };

    ghost may_be = { λ w. MayBe (S.served w.opener.store.now)
        (S.holds w.opener.store.now) w.opener.head };

    ghost opened = { λ w. opened_since (S.served w.opener.store.now) };

    ghost refused = { λ w. w.opener.fault };

    ghost went = { λ w v. (v.opener.store.ghost_name ≡ w.opener.store.ghost_name)
        × Fetched w.opener.head v.opener.head
        (store_moment (S.served w.opener.store.now) (S.holds w.opener.store.now)
        (S.faults w.opener.store.now) w.opener.fault)
        (store_moment (S.served v.opener.store.now) (S.holds v.opener.store.now)
        (S.faults v.opener.store.now) v.opener.fault) };

    fn fetch(&mut self, index: u32, into: &mut [u8; 256]) -> Result<(), ReadFault> {
        self.opener.fetch(index, into)?;
        self.opened.insert(index);
        Ok(())
    }

    ghost few = { λ w. few_of_header w.opener.head.header w.opener.head.range };

    ghost whole = { λ w stream is. whole_stream
        (S.served w.opener.store.now) (S.holds w.opener.store.now)
        w.opener.head.header w.opener.head.top w.opener.head.key stream is };
}
