//! Opens the fragments of a file in an untrusted store. A fragment is read and hashed with its siblings up to a known
//! digest, and deciphered only where the digests are equal.
ghost use Rattle.std.specs.Prelude.{◌≡◌, ◌/◌, ◌<◌, ℕ, List, [], false, Option, None, Some, Err, IfOk, IfSome, OnErr, IsErrOf, MatchResult, if◌then◌else◌, slice_index_or, OnOk, IfErr};
ghost use Rattle.std.specs.List.{list_any};
ghost use Rattle.acl_model.specs.Stream.{plain};
ghost use Rattle.acl_model.specs.declared.document.Doc.{Doc};
ghost use Rattle.acl_outside.specs.Outside.{NotFallen, Rose};
ghost use Rattle.merkle_chunks.specs.HeaderBytes.{fragment_count};
ghost use Rattle.merkle_chunks.specs.File.{file_root};
ghost use Rattle.merkle_chunks.specs.Table.{fragments};
ghost use Rattle.fragment_open.specs.Checked.{AllFoldUnlessRefused, is_bad_fragment};
ghost use Rattle.fragment_open.specs.CallReads.{IsFetchFault, IsOfFetch, Told};
ghost use Rattle.fragment_open.specs.Held.{IsQuietElse, IsStoreFault};
ghost use Rattle.fragment_open.specs.Starting.{HoldsDocument, IsHeadOf, IsStarted, IsUnder};
ghost use Rattle.fragment_open.specs.Settled.{AddsPlain, AreHeld, FetchEnds, IsQuietIfHeld, Opens, CompletesNone, Settled, goes_to_chunk, is_start, root_by, since, want_by};
ghost use Rattle.fragment_open.specs.inside.SettledProps.{AreHeld-prop, IsOfFetch-prop, IsQuietIfHeld-prop, Settled-prop};

use crate::head::{Head, begin};
use crate::kept::Kept;
use crate::last::Last;
use crate::opened::{CHUNK_LEVEL, open_to};
use acl_outside::{ReadFault, Store};
use merkle_chunks::Header;
use position_cipher::unlock_fragment;

/// The number of fragments of a chunk.
const CHUNK: u32 = 16;

/// The most levels that a table has above its leaves.
const LEVELS: usize = 17;

/// The level up to which an opening is hashed, and the digest that is wanted there.
#[derive(Clone, Copy)]
struct Aim {
    goal: u32,
    want: [u8; 32],
}

/// The aim of an opening, given what is kept of the one before.
fn aim_of(top_level: u32, top: [u8; 32], kept: Option<Kept>, index: u32) -> Aim
    ensures goal { result.goal ≡ (if goes_to_chunk top_level index kept then 4 else top_level) }
    ensures want { result.want ≡ want_by top_level index kept top }
{
    if let Some(kept) = kept {
        if top_level > CHUNK_LEVEL && index / CHUNK == kept.chunk {
            let want = kept.digest;
            return Aim {
                goal: CHUNK_LEVEL,
                want,
            };
        }
    }
    Aim {
        goal: top_level,
        want: top,
    }
}

/// An opener over a store that it borrows exclusively.
#[derive(Drop)]
pub struct Opener<'a, S: Store> {
    store: &'a mut S,
    head: Head,
    kept: Option<Kept>,
    // The nodes hashed last; that of level `l + 1` is at index `l`.
    lasts: [Last; LEVELS],
    // The refusal, where there was one. After it nothing is read.
    fault: Option<ReadFault>,
    ghost settled: { Settled (S.served store.now) head.header head.top kept fault } by { Settled-prop (S.served store.now) head.header head.top kept fault },
    ghost held: { AreHeld (S.holds store.now) head.header head.top head.key kept } by { AreHeld-prop (S.holds store.now) head.header head.top head.key kept },
    ghost quiet: { IsQuietIfHeld (S.holds store.now) head.header head.top head.key fault } by { IsQuietIfHeld-prop (S.holds store.now) head.header head.top head.key fault },
    ghost only: { IsOfFetch fault } by { IsOfFetch-prop fault },
}

impl<'a, S: Store> Opener<'a, S> {
    /// An opener over the store that a head was read from.
    pub fn over(store: &'a mut S, head: Head) -> Opener<'a, S>
        requires settled { Settled (S.served store.old) head.header head.top None None }
        requires held { AreHeld (S.holds store.old) head.header head.top head.key None }
        ensures same_store { result.store.ghost_name ≡ store.entry.ghost_name }
        ensures store { result.store.now ≡ store.old }
        ensures head { result.head ≡ head }
        ensures kept { result.kept ≡ None }
        ensures fault { result.fault ≡ None }
    {
        let lasts = [Last::of_zeros(); LEVELS];
        Opener {
            store,
            head,
            kept: None,
            lasts,
            fault: None,
        }
    }

    /// Starts on a store and makes its opener, as [`begin`] and [`over`](Opener::over) do. The contract says little
    /// about refusals. Where their causes or the store's count of faults matter, call these two instead.
    pub fn start(
        store: &'a mut S,
        root: [u8; 32],
        key: [u8; 16],
    ) -> Result<Opener<'a, S>, ReadFault>
        ensures same_store { IfOk result (λ opener.
            opener.store.ghost_name ≡ store.entry.ghost_name) }
        ensures started { IfOk result (λ opener.
            Told (S.served store.old) (S.served opener.store.now)
            (IsStarted opener.head.header opener.head.top)) }
        ensures right { IfOk result (λ opener.
            IsUnder root key opener.head.header opener.head.top opener.head.key) }
        ensures fault { IfOk result (λ opener. opener.fault ≡ None) }
        ensures constant { IfOk result (λ opener. S.holds opener.store.now ≡ S.holds store.old) }
        ensures quiet { IfOk result (λ opener. S.faults opener.store.now ≡ S.faults store.old) }
        ensures held { (d : Doc) → HoldsDocument (S.holds store.old) d key
            → file_root d key ≡ root → MatchResult result
            (λ opener. IsHeadOf d key opener.head.header opener.head.top)
            (λ fault. IsStoreFault fault) }
    {
        let head = begin(&mut *store, root, key)?;
        Ok(Opener::over(store, head))
    }

    /// The header.
    pub fn header(&self) -> &Header
        ensures { result.now ≡ self.now.head.header }
    {
        self.head.header()
    }
    /// Opens the fragment at an index (from 0) and writes its plain bytes to `into`. The refusals are `StoreFault`,
    /// `StoreShort` and `BadFragment`. A refusal leaves `into` as it was. Each later call returns the same refusal and
    /// doesn't read the store.
    pub fn fetch(&mut self, index: u32, into: &mut [u8; 256]) -> Result<(), ReadFault>
        requires { index < fragment_count self.old.head.header }
        ensures same_store { self.new.store.ghost_name ≡ self.old.store.ghost_name }
        ensures same_head { self.new.head ≡ self.old.head }
        ensures ends { self.old.fault ≡ None → IfSome (S.served self.new.store.now) (λ all.
            FetchEnds result index self.old.head.header self.old.head.top self.old.head.key into.new (since all)) }
        ensures opens { self.old.fault ≡ None
            → Opens result index (S.served self.old.store.now) (S.served self.new.store.now) }
        ensures checked { self.old.fault ≡ None → IfSome (S.served self.new.store.now) (λ all.
            AllFoldUnlessRefused (is_bad_fragment result) (since all)) }
        ensures plain { self.old.fault ≡ None → AddsPlain result self.old.head.key into.new
            (S.served self.old.store.now) (S.served self.new.store.now) }
        ensures unopened { self.old.fault ≡ None → IsErrOf result ReadFault.StoreFault
            → CompletesNone (S.served self.old.store.now) (S.served self.new.store.now) }
        ensures grown { Told (S.served self.old.store.now) (S.served self.new.store.now) (λ more.
            list_any is_start more ≡ false) }
        ensures held { (d : Doc) → HoldsDocument (S.holds self.old.store.now) d self.old.head.key
            → file_root d self.old.head.key ≡ root_by self.old.head.header self.old.head.top → MatchResult result
            (λ done. into.new ≡ slice_index_or (fragments (plain d)) index [])
            (λ fault. IsStoreFault fault) }

        ensures untouched { OnErr result (into.new ≡ into.old) }
        ensures only { IfErr result IsFetchFault }
        ensures stays { MatchResult result (λ done. self.new.fault ≡ None) (λ fault.
            self.new.fault ≡ Some fault) }
        ensures again { IfSome self.old.fault (λ fault. (result ≡ Err fault)
            × (self.new ≡ self.old)) }
        ensures constant { S.holds self.new.store.now ≡ S.holds self.old.store.now }
        ensures cause { self.old.fault ≡ None → IsErrOf result ReadFault.StoreFault
            → Rose (S.faults self.old.store.now) (S.faults self.new.store.now) }
        ensures never_falls { NotFallen (S.faults self.old.store.now)
            (S.faults self.new.store.now) }
        ensures quiet { self.old.fault ≡ None
            → OnOk result (S.faults self.new.store.now ≡ S.faults self.old.store.now) }
        ensures quiet_else { self.old.fault ≡ None
            → IfErr result (λ fault.
            IsQuietElse fault (S.faults self.old.store.now) (S.faults self.new.store.now)) }
    {
        match self.fault {
            Some(fault) => Err(fault),
            None => self.open_next(index, into),
        }
    }

    /// Opens the fragment at an index (from 0), where nothing was refused before.
    fn open_next(&mut self, index: u32, into: &mut [u8; 256]) -> Result<(), ReadFault>
        requires quiet { self.old.fault ≡ None }
        requires within { index < fragment_count self.old.head.header }
        ensures same_store { self.new.store.ghost_name ≡ self.old.store.ghost_name }
        ensures same_head { self.new.head ≡ self.old.head }
        ensures ends { IfSome (S.served self.new.store.now) (λ all.
            FetchEnds result index self.old.head.header self.old.head.top self.old.head.key into.new (since all)) }
        ensures opens { Opens result index (S.served self.old.store.now)
            (S.served self.new.store.now) }
        ensures checked { IfSome (S.served self.new.store.now) (λ all.
            AllFoldUnlessRefused (is_bad_fragment result) (since all)) }
        ensures plain { AddsPlain result self.old.head.key into.new
            (S.served self.old.store.now) (S.served self.new.store.now) }
        ensures unopened { IsErrOf result ReadFault.StoreFault
            → CompletesNone (S.served self.old.store.now) (S.served self.new.store.now) }
        ensures grown { Told (S.served self.old.store.now) (S.served self.new.store.now) (λ more.
            list_any is_start more ≡ false) }
        ensures held { (d : Doc) → HoldsDocument (S.holds self.old.store.now) d self.old.head.key
            → file_root d self.old.head.key ≡ root_by self.old.head.header self.old.head.top → MatchResult result
            (λ done. into.new ≡ slice_index_or (fragments (plain d)) index [])
            (λ fault. IsStoreFault fault) }

        ensures untouched { OnErr result (into.new ≡ into.old) }
        ensures only { IfErr result IsFetchFault }
        ensures stays { MatchResult result (λ done. self.new.fault ≡ None) (λ fault.
            self.new.fault ≡ Some fault) }
        ensures constant { S.holds self.new.store.now ≡ S.holds self.old.store.now }
        ensures cause { IsErrOf result ReadFault.StoreFault
            → Rose (S.faults self.old.store.now) (S.faults self.new.store.now) }
        ensures never_falls { NotFallen (S.faults self.old.store.now)
            (S.faults self.new.store.now) }
        ensures quiet { OnOk result (S.faults self.new.store.now ≡ S.faults self.old.store.now) }
        ensures quiet_else { IfErr result (λ fault.
            IsQuietElse fault (S.faults self.old.store.now) (S.faults self.new.store.now)) }
    {
        let top = self.head.top;
        let aim = aim_of(self.head.top_level, top, self.kept, index);
        let fragments = self.head.fragments;
        self.fault = Some(ReadFault::StoreFault);
        let opened = match open_to(
            &mut *self.store,
            fragments,
            index,
            aim.goal,
            &mut self.lasts,
        ) {
            Ok(opened) => opened,
            Err(fault) => {
                self.fault = Some(fault);
                return Err(fault);
            }
        };
        if opened.digest != aim.want {
            let fault = ReadFault::BadFragment {
                index,
                want: aim.want,
                made: opened.digest,
            };
            self.fault = Some(fault);
            return Err(fault);
        }
        self.keep(index / CHUNK, opened.chunk);
        into.copy_from_slice(&opened.cipher);
        unlock_fragment(&self.head.key, index, into);
        Ok(())
    }

    /// Keeps the digest of a chunk, and ends the call without a refusal.
    fn keep(&mut self, chunk: u32, digest: [u8; 32])
        requires settled { Settled
            (S.served self.old.store.now) self.old.head.header self.old.head.top
            (Some (record { chunk = chunk; digest = digest })) None }
        requires held { AreHeld
            (S.holds self.old.store.now) self.old.head.header self.old.head.top self.old.head.key
            (Some (record { chunk = chunk; digest = digest })) }
        ensures same_store { self.new.store.ghost_name ≡ self.old.store.ghost_name }
        ensures same_now { self.new.store.now ≡ self.old.store.now }
        ensures same_head { self.new.head ≡ self.old.head }
        ensures fault { self.new.fault ≡ None }
    {
        self.kept = Some(Kept { chunk, digest });
        self.fault = None;
    }
}
