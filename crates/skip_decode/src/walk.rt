//! The walk over a file in a store that nobody trusts. Each fragment is checked before it is read,
//! and bytes that are of no document's stream are refused.

ghost use Rattle.std.specs.Prelude.{◌≡◌, true, None, IfErr, IfOk, IfSome, length};
ghost use Rattle.acl_model.specs.declared.document.Doc.{Doc};
ghost use Rattle.acl_walk.specs.Listed.{AreNames};
ghost use Rattle.fragment_open.specs.Sound.{IsOrigin, tells_file};
ghost use Rattle.merkle_chunks.specs.HeaderBytes.{IsInRange};
ghost use Rattle.skip_decode.specs.CheckedStream.{Fetched, IsQuietWith, IsQuietWith-prop, MayBe, OpenedNone, opened_since, store_moment};
ghost use Rattle.skip_decode.specs.Different.{different};
ghost use Rattle.skip_decode.specs.FileWalk.{numbers_in};
ghost use Rattle.skip_decode.specs.Starting.{AreNamesOfOrigins, IsStartFailure, IsStartFault, OpenedFirst, fragments_of};
ghost use Rattle.skip_decode.specs.StoreWent.{AreGood};
ghost use Rattle.skip_decode.specs.inside.Windows.{IsHeld, IsHeld-prop, IsNewest, IsNewestUnless, IsNewestUnless-prop};

use crate::checked::Checked;
use crate::position::Numbers;
use crate::spot::SkipSpot;
use crate::start::SkipStart;
use crate::start_fault::StartFault;
use crate::stepping::checked_step;
use crate::window::Window;
use acl_outside::{NoMemory, ReadFault, Store};
use acl_walk::{Event, Walk};
use fragment_open::Opener;
use merkle_chunks::Header;
use std::alloc::Global;
use tag_dictionary::Dictionary;

/// The numbers in a header by which a stream is read.
fn numbers_in(header: &Header) -> Numbers
    requires { IsInRange header.now }
    ensures { result ≡ numbers_in header.now }
{
    Numbers {
        dictionary: header.dictionary,
        tree: header.tree as u32,
        names: header.tags,
        depth: header.depth,
    }
}

/// A walk over the file that an opener reads. It stands for each document with the opener's header,
/// the root made of it and the top digest, and these names, and is sound for it while no clash with
/// it was met.
#[derive(Drop)]
pub struct SkipWalk<'a, S: Store> {
    window: Window<Checked<'a, S>>,
    names: Dictionary,
    numbers: Numbers,
    fault: Option<ReadFault>,
    taken: u64,
    ghost held: { IsHeld (MayBe (S.served window.source.opener.store.now)
        (S.holds window.source.opener.store.now) window.source.opener.head) window.held window.at } by { IsHeld-prop (MayBe (S.served window.source.opener.store.now)
            (S.holds window.source.opener.store.now) window.source.opener.head) window.held window.at },
    ghost newest: { IsNewestUnless fault window.at (opened_since (S.served window.source.opener.store.now)) } by { IsNewestUnless-prop fault window.at
        (opened_since (S.served window.source.opener.store.now)) },
    ghost counted: { length names ≡ window.source.opener.head.header.tags },
    ghost named: { AreNames names },
    ghost quiet: { IsQuietWith fault window.source.opener.fault } by { IsQuietWith-prop fault window.source.opener.fault },
    ghost read_by: { numbers ≡ numbers_in window.source.opener.head.header },
}

impl<'a, S: Store> SkipWalk<'a, S> {
    /// A walk that goes on from a start that has refused nothing and holds the fragment that was opened last, over a
    /// file whose dictionary section has these names.
    pub fn over(start: SkipStart<'a, S>, names: Dictionary) -> SkipWalk<'a, S>
        requires quiet { start.window.source.opener.fault ≡ None }
        requires newest { IsNewest start.window.at (opened_since (S.served start.window.source.opener.store.now)) }
        requires named { AreNames names }
        requires counted { length names ≡ start.window.source.opener.head.header.tags }
        ensures opener { result.window.source.opener ≡ start.entry.window.source.opener }
        ensures at { result.window.at ≡ start.entry.window.at }
        ensures names { result.names ≡ names }
        ensures fault { result.fault ≡ None }
        ensures taken { result.taken ≡ 0 }
    {
        let numbers = numbers_in(start.window.source.opener.header());
        SkipWalk {
            window: start.window,
            names,
            numbers,
            fault: None,
            taken: 0,
        }
    }

    /// Reads the names of the file of an opener that has refused nothing and opened no fragment, and makes a walk over
    /// it. Where the store holds the file of a document of which the opener's file may be, the errors are `NoMemory`
    /// and `StoreFault`. Where the causes of other refusals or the store's count of faults matter, call
    /// [`SkipStart::over`], [`SkipStart::read_names`] and [`SkipWalk::over`] instead.
    pub fn start(alloc: Global, opener: Opener<'a, S>) -> Result<SkipWalk<'a, S>, StartFault>
        requires quiet { opener.fault ≡ None }
        requires unopened { OpenedNone (S.served opener.store.now) }
        ensures same_store { IfOk result (λ walk. walk.window.source.opener.store.ghost_name
            ≡ opener.entry.store.ghost_name) }
        ensures went { IfOk result (λ walk.
            Fetched opener.entry.head walk.window.source.opener.head
            (store_moment (S.served opener.entry.store.now) (S.holds opener.entry.store.now)
            (S.faults opener.entry.store.now) opener.entry.fault)
            (store_moment (S.served walk.window.source.opener.store.now)
            (S.holds walk.window.source.opener.store.now)
            (S.faults walk.window.source.opener.store.now) walk.window.source.opener.fault)) }
        ensures good { IfOk result (λ walk.
            AreGood (store_moment (S.served walk.window.source.opener.store.now)
            (S.holds walk.window.source.opener.store.now)
            (S.faults walk.window.source.opener.store.now) walk.window.source.opener.fault)) }
        ensures opens { IfOk result (λ walk.
            OpenedFirst (fragments_of opener.entry.head.header.dictionary)
            (opened_since (S.served opener.entry.store.now))
            (opened_since (S.served walk.window.source.opener.store.now))) }
        ensures newest { IfOk result (λ walk. IsNewest walk.window.at
            (opened_since (S.served walk.window.source.opener.store.now))) }
        ensures names { IfOk result (λ walk. AreNamesOfOrigins walk.window.source.opener.head
            (S.served walk.window.source.opener.store.now)
            (S.holds walk.window.source.opener.store.now) walk.names) }
        ensures fault { IfOk result (λ walk. walk.fault ≡ None) }
        ensures taken { IfOk result (λ walk. walk.taken ≡ 0) }
        ensures held { (d : Doc) → IsOrigin
            opener.entry.head.header opener.entry.head.top opener.entry.head.key d
            → tells_file (S.holds opener.entry.store.now) d opener.entry.head.key ≡ true
            → IfErr result IsStartFailure }
        ensures only { IfErr result IsStartFault }
    {
        let mut start = SkipStart::over(alloc, opener)?;
        let names = start.read_names(alloc)?;
        Ok(SkipWalk::over(start, names))
    }

    /// The names of the dictionary. A tag is the number of a name.
    pub fn names(&self) -> &Dictionary
        ensures { result.now ≡ self.now.names }
    {
        &self.names
    }

    /// The byte offset in the stream of the next byte that is needed at a spot.
    pub fn place(&self, spot: &SkipSpot) -> u64
        ensures { result ≡ spot.now.place }
    {
        u64::from(spot.place())
    }

    /// The number of different fragments that were opened since the opener's start, those of the dictionary section
    /// included. A fragment that was refused doesn't count.
    pub fn opened(&self) -> u32
        ensures { self.now.fault ≡ None
            → IfSome (opened_since (S.served self.now.window.source.opener.store.now)) (λ indexes.
            result ≡ different indexes) }
    {
        self.window.source.opened()
    }
}

impl<'a, S: Store> Walk for SkipWalk<'a, S> {
    ghost use Rattle.std.specs.Prelude.{◌≡◌, Some};
    ghost use Rattle.skip_decode.specs.FileWalk.{FileFixed, FileWent, IsFileOrigin, IsFilePlace, IsFileSpot, is_sound_at, moment_of, numbers_in, place_of};
    ghost use Rattle.skip_decode.specs.OpensOf.{OpensFor};
    ghost use Rattle.skip_decode.specs.Spots.{stage_of};
    ghost use Rattle.skip_decode.specs.Straight.{WentStraight, straight_moment};
    ghost use Rattle.skip_decode.specs.StreamEvents.{events_left, stream_events};

    type Spot = SkipSpot;

    ghost Fixed = { FileFixed };

    ghost fixed = { λ w. record {
      header = w.window.source.opener.head.header;
      top = w.window.source.opener.head.top;
      key = w.window.source.opener.head.key;
      names = w.names;
    } };

    ghost names = { λ k. k.names };

    ghost deep = { λ k. k.header.depth };

    ghost is_origin = { IsFileOrigin };

    ghost shown = { λ k d. Some d };

    ghost events = { λ k d. stream_events d };

    ghost made = { IsFileSpot };

    ghost is_place = { λ k d s. IsFilePlace d s };

    ghost place = { λ k d s. place_of d s };

    ghost to_come = { λ k s. events_left (numbers_in k.header) s };

    ghost stage = { λ k s. stage_of s };

    ghost sound = { λ w d. is_sound_at (moment_of w.window.source.opener.head w.names
        (S.served w.window.source.opener.store.now)
        (S.holds w.window.source.opener.store.now)
        (S.faults w.window.source.opener.store.now) w.fault) d };

    ghost broken = { λ w. w.fault };

    ghost count = { λ w. w.taken };

    ghost went = { λ w o ps v.
        (v.window.source.opener.store.ghost_name ≡ w.window.source.opener.store.ghost_name)
        × FileWent (moment_of w.window.source.opener.head w.names
        (S.served w.window.source.opener.store.now)
        (S.holds w.window.source.opener.store.now)
        (S.faults w.window.source.opener.store.now) w.fault)
        (moment_of v.window.source.opener.head v.names
        (S.served v.window.source.opener.store.now)
        (S.holds v.window.source.opener.store.now)
        (S.faults v.window.source.opener.store.now) v.fault)
        × OpensFor (moment_of w.window.source.opener.head w.names
        (S.served w.window.source.opener.store.now)
        (S.holds w.window.source.opener.store.now)
        (S.faults w.window.source.opener.store.now) w.fault) o ps
        (moment_of v.window.source.opener.head v.names
        (S.served v.window.source.opener.store.now)
        (S.holds v.window.source.opener.store.now)
        (S.faults v.window.source.opener.store.now) v.fault) };

    ghost straight = { λ w a v b. WentStraight
        (straight_moment (S.served w.window.source.opener.store.now) w.fault a)
        (straight_moment (S.served v.window.source.opener.store.now) v.fault b) };

    fn new_spot(&self, alloc: Global) -> Result<SkipSpot, NoMemory> {
        let spot = SkipSpot::new(alloc, self.numbers.dictionary)?;
        Ok(spot)
    }

    fn next(&mut self, spot: &mut SkipSpot) -> Result<Event, ReadFault> {
        self.taken = self.taken.saturating_add(1);
        if let Some(fault) = self.fault {
            return Err(fault);
        }
        match checked_step(&mut self.window, &self.numbers, &*spot) {
            Ok(step) => Ok(spot.apply(step)),
            Err(fault) => {
                self.fault = Some(fault);
                Err(fault)
            }
        }
    }

    fn pass(&self, spot: &mut SkipSpot) {
        spot.pass();
    }

    fn copy_spot(&self, from: &SkipSpot, to: &mut SkipSpot) {
        to.copy_from(from);
    }

    fn taken(&self) -> u64 {
        self.taken
    }

    fn refusal(&self) -> Option<ReadFault> {
        self.fault
    }

    ghost use Rattle.skip_decode.specs.inside.FileWalkLaws.{file_few, file_few_open, file_fresh, file_listed, file_named, file_open_tags, file_shallow, file_within};
    ghost use Rattle.skip_decode.specs.inside.OpensLaws.{opening_going};
    ghost use Rattle.skip_decode.specs.inside.StraightLaws.{straight_going};

    ghost listed = { file_listed };

    ghost within = { file_within };

    ghost fresh = { file_fresh };

    ghost open_tags = { file_open_tags };

    ghost few = { file_few };

    ghost few_open = { file_few_open };

    ghost shallow = { file_shallow };

    ghost named = { file_named };

    ghost going = { opening_going
        (λ w. moment_of w.window.source.opener.head w.names
        (S.served w.window.source.opener.store.now)
        (S.holds w.window.source.opener.store.now)
        (S.faults w.window.source.opener.store.now) w.fault)
        (λ w. w.window.source.opener.store.ghost_name) };

    ghost going_straight = { straight_going
        (λ w a. straight_moment (S.served w.window.source.opener.store.now) w.fault a) };
}
