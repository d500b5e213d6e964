//! The trait `Walk`. A *spot* is a position of a walk. The part of a walk that never changes is one value,
//! `fixed`, and what a spot means depends on that value and the spot alone. So a call doesn't affect the
//! spots that it isn't given.

ghost use Rattle.std.specs.Prelude.{◌≡◌, ℕ, ◌+◌, ◌-◌, ◌^◌, ◌<◌, ◌≤◌, Bool, true, Option, Some, None, Err, List, [], ◌∷◌, length, min, IfOk, IfErr, IfSome, OnOk, OnErr};
ghost use Rattle.acl_model.specs.Limits.{most_open_elements};
ghost use Rattle.acl_model.specs.declared.document.Doc.{Doc};
ghost use Rattle.acl_outside.specs.declared.read_fault.ReadFault.{ReadFault};
ghost use Rattle.acl_walk.specs.Listed.{AreNames, IsListOf};
ghost use Rattle.acl_walk.specs.Nesting.{Stage, MayFollow, first_stage, stage_after, stage_passed};
ghost use Rattle.acl_walk.specs.Open.{tags_at};
ghost use Rattle.acl_walk.specs.SpotMoves.{StandsAt, PassesTo, Falls};
ghost use Rattle.acl_walk.specs.Following.{Places, All, Only, Goes, GoesStraight};
ghost use Rattle.acl_walk.specs.declared.event.Event.{Event};

use crate::event::Event;
use acl_outside::{NoMemory, ReadFault};
use std::alloc::Global;

/// A document that is read forward, from positions (spots) that can be copied.
///
/// An *origin* is a document that the innermost underlying walk may be reading. For each origin the walk
/// *stands for* one list of events. It is *sound* for the origin while no collision was met: then each
/// spot is an index of that list until a call is refused, and `next` gives the event there.
pub trait Walk: Drop {
    /// A position of the walk.
    type Spot: Drop;

    /// The type of the part of a walk that never changes.
    ghost Fixed: { Type 0 };

    /// The part of a walk that never changes.
    ghost fixed: { Self → Fixed };

    /// The names that the walk was made with.
    ghost names: { Fixed → List (List ℕ) };

    /// The most elements that are open at once, whatever the underlying walk gives.
    ghost deep: { Fixed → ℕ };

    /// Which documents are origins.
    ghost is_origin: { Fixed → Doc → Type 0 };

    /// The document that the walk shows where its origin is this one; none, if it shows nothing.
    ghost shown: { Fixed → Doc → Option Doc };

    /// The list of events that the walk stands for, by its origin.
    ghost events: { Fixed → Doc → List Event };

    /// Whether the walk made the spot.
    ghost made: { Fixed → Self.Spot → Type 0 };

    /// Whether the spot is an index of the list. A spot that the walk made is one, if each call
    /// that moved it returned Ok and the walk is still sound.
    ghost is_place: { Fixed → Doc → Self.Spot → Type 0 };

    /// The index of the list that the spot is, from 0.
    ghost place: { Fixed → Doc → Self.Spot → ℕ };

    /// An upper bound on the number of events that are still to come before End.
    ghost to_come: { Fixed → Self.Spot → ℕ };

    /// The elements that are open at the spot, and what may come next.
    ghost stage: { Fixed → Self.Spot → Stage };

    /// Whether the walk is sound for an origin.
    ghost sound: { Self → Doc → Bool };

    /// The refusal of a walk that has refused a call. It refuses each later call in the same way.
    ghost broken: { Self → Option ReadFault };

    /// How many events were taken, counted up to the greatest `u64`.
    ghost count: { Self → ℕ };

    /// The walk *went* from the first state to the second, for an origin or none: only its own calls
    /// changed it, and `next` was called only at indices that pass the test.
    ghost went: { Self → Option Doc → Places → Self → Type 0 };

    /// The walk and this spot went *straight* from one state to the other: they changed only by `next` at
    /// this spot and by passes of it.
    ghost straight: { Self → Self.Spot → Self → Self.Spot → Type 0 };

    /// A spot before the first event.
    fn new_spot(&self, alloc: Global) -> Result<Self::Spot, NoMemory>
        ensures made { IfOk result (λ spot. made (fixed self.now) spot) }
        ensures outside { IfOk result (λ spot. stage (fixed self.now) spot ≡ first_stage) }

        // It is at the first index of the list, for each origin for which the walk is sound.
        ensures placed { IfOk result (λ spot. (d : Doc) → is_origin (fixed self.now) d
            → sound self.now d ≡ true → is_place (fixed self.now) d spot) }
        ensures first { IfOk result (λ spot. (d : Doc) → is_origin (fixed self.now) d
            → sound self.now d ≡ true → place (fixed self.now) d spot ≡ 0) };

    /// Returns the event at the spot and moves the spot past it. A walk that has refused a call
    /// refuses each later one in the same way. As long as it has refused none, the spot has to be an
    /// index of the list of each origin for which the walk is sound.
    fn next(&mut self, spot: &mut Self::Spot) -> Result<Event, ReadFault>
        requires made { made (fixed self.old) spot.old }
        requires placed { broken self.old ≡ None → (d : Doc) → is_origin (fixed self.old) d
            → sound self.old d ≡ true → is_place (fixed self.old) d spot.old }
        ensures same { fixed self.new ≡ fixed self.old }
        ensures made { made (fixed self.old) spot.new }

        // Where the walk is sound after the call, the event is the one at the spot's index.
        ensures placed { OnOk result ((d : Doc) → is_origin (fixed self.old) d
            → sound self.new d ≡ true → is_place (fixed self.old) d spot.new) }
        ensures event { (d : Doc) → is_origin (fixed self.old) d → sound self.new d ≡ true
            → IfOk result (λ event. StandsAt (events (fixed self.old) d)
            (place (fixed self.old) d spot.old) event (place (fixed self.old) d spot.new)) }

        // Whatever the underlying walk gives, events nest and their number is bounded.
        ensures nests { IfOk result (λ event. MayFollow (length (names (fixed self.old)))
            (deep (fixed self.old)) (stage (fixed self.old) spot.old) event) }
        ensures stage { IfOk result (λ event. stage (fixed self.old) spot.new
            ≡ stage_after (stage (fixed self.old) spot.old) event) }
        ensures falls { IfOk result (λ event. Falls event
            (to_come (fixed self.old) spot.old) (to_come (fixed self.old) spot.new)) }

        // A refusal leaves the stage as it was, and doesn't raise the bound.
        ensures same_stage { OnErr result (stage (fixed self.old) spot.new
            ≡ stage (fixed self.old) spot.old) }
        ensures no_more { OnErr result (to_come (fixed self.old) spot.new
            ≤ to_come (fixed self.old) spot.old) }

        ensures kept { IfSome (broken self.old) (λ fault. result ≡ Err fault) }
        ensures whole { OnOk result (broken self.new ≡ None) }
        ensures refused { IfErr result (λ fault. broken self.new ≡ Some fault) }
        ensures counted { count self.new ≡ min (count self.old + 1) (2 ^ 64 - 1) }

        // Whether the call was refused or not, the walk went under the test of all indices and under that
        // of the spot's index alone, and it went straight.
        ensures went_all { (o : Option Doc) → went self.old o All self.new }
        ensures went_here { (d : Doc) → is_origin (fixed self.old) d
            → went self.old (Some d) (Only (place (fixed self.old) d spot.old ∷ [])) self.new }
        ensures ahead { straight self.old spot.old self.new spot.new };

    /// Passes the rest of the innermost open element: moves the spot to the Finish of this element. If no
    /// element is open, the spot stays. The spot has to be an index as for `next`.
    fn pass(&self, spot: &mut Self::Spot)
        requires made { made (fixed self.now) spot.old }
        requires placed { broken self.now ≡ None → (d : Doc) → is_origin (fixed self.now) d
            → sound self.now d ≡ true → is_place (fixed self.now) d spot.old }
        ensures made { made (fixed self.now) spot.new }

        // Where the walk is sound and has refused no call, the spot moves to the list's Finish.
        ensures placed { broken self.now ≡ None → (d : Doc) → is_origin (fixed self.now) d
            → sound self.now d ≡ true → is_place (fixed self.now) d spot.new }
        ensures finish { broken self.now ≡ None → (d : Doc) → is_origin (fixed self.now) d
            → sound self.now d ≡ true
            → PassesTo (stage (fixed self.now) spot.old).tags (events (fixed self.now) d)
            (place (fixed self.now) d spot.old) (place (fixed self.now) d spot.new) }

        ensures stage { stage (fixed self.now) spot.new
            ≡ stage_passed (stage (fixed self.now) spot.old) }
        ensures unchanged { (stage (fixed self.now) spot.old).tags ≡ [] → spot.new ≡ spot.old }
        ensures no_more { to_come (fixed self.now) spot.new ≤ to_come (fixed self.now) spot.old }
        ensures ahead { straight self.now spot.old self.now spot.new };

    /// Makes `to` equal to `from`.
    fn copy_spot(&self, from: &Self::Spot, to: &mut Self::Spot)
        requires from { made (fixed self.now) from.now }
        requires to { made (fixed self.now) to.old }
        ensures { to.new ≡ from.now };

    /// How many events were taken at all spots together, counted up to the greatest `u64`.
    fn taken(&self) -> u64
        ensures { result ≡ count self.now };

    /// The refusal that the walk repeats, if it has refused a call. Nothing is read.
    fn refusal(&self) -> Option<ReadFault>
        ensures { result ≡ broken self.now };

    /// The list of an origin spells the document that the walk shows of it.
    ghost listed: { (k : Fixed) (s : Self.Spot) (d : Doc) → made k s → is_origin k d
        → IsListOf (names k) (shown k d) (events k d) };

    /// The index of a spot is less than the length of the list.
    ghost within: { (k : Fixed) (s : Self.Spot) (d : Doc) → made k s → is_origin k d
        → is_place k d s → place k d s < length (events k d) };

    /// A spot before the first event is at index 0.
    ghost fresh: { (k : Fixed) (s : Self.Spot) (d : Doc) → made k s → stage k s ≡ first_stage
        → is_origin k d → is_place k d s → place k d s ≡ 0 };

    /// The elements that are open at a spot are those that are open at its index of the list.
    ghost open_tags: { (k : Fixed) (s : Self.Spot) (d : Doc) → made k s → is_origin k d
        → is_place k d s → (stage k s).tags ≡ tags_at (events k d) (place k d s) };

    /// The bound on the number of events to come is below 2^64.
    ghost few: { (k : Fixed) (s : Self.Spot) → made k s → to_come k s < 2 ^ 64 };

    /// At most `deep` elements are open at a spot.
    ghost few_open: { (k : Fixed) (s : Self.Spot) → made k s → length (stage k s).tags ≤ deep k };

    /// At most 255 elements are open at once.
    ghost shallow: { (k : Fixed) (s : Self.Spot) → made k s → deep k ≤ most_open_elements };

    /// There are at most 256 names, and no two are the same.
    ghost named: { (k : Fixed) (s : Self.Spot) → made k s → AreNames (names k) };

    /// The laws of `went`.
    ghost going: { Goes went fixed sound broken };

    /// The laws of `straight`.
    ghost going_straight: { GoesStraight straight };
}
