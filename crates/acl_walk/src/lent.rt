//! A walk over a borrowed walk, to which it passes each call.

ghost use Rattle.std.specs.Prelude.{◌≡◌};

use crate::event::Event;
use crate::walk::Walk;
use acl_outside::{NoMemory, ReadFault};
use std::alloc::Global;

/// A walk over a walk that it was lent. It stands for the same documents by the same lists.
#[derive(Drop)]
pub struct Lent<'a, W> {
    /// The walk that was lent.
    pub walk: &'a mut W,
}

impl<'a, W> Lent<'a, W> {
    /// A walk over this one, in its current state.
    pub fn new(walk: &'a mut W) -> Lent<'a, W>
        ensures walk { result.walk.now ≡ walk.old }
        ensures same_reference { result.walk.ghost_name ≡ walk.entry.ghost_name }
    {
        Lent { walk }
    }
}

impl<'a, W: Walk> Walk for Lent<'a, W> {
    ghost use Rattle.std.specs.Prelude.{◌≡◌, refl};
    ghost use Rattle.std.proofs.Common.{◌∙◌};

    type Spot = W::Spot;

    ghost Fixed = { W.Fixed };

    ghost fixed = { λ w. W.fixed w.walk.now };

    ghost names = { W.names };

    ghost deep = { W.deep };

    ghost is_origin = { W.is_origin };

    ghost shown = { W.shown };

    ghost events = { W.events };

    ghost made = { W.made };

    ghost is_place = { W.is_place };

    ghost place = { W.place };

    ghost to_come = { W.to_come };

    ghost stage = { W.stage };

    ghost sound = { λ w. W.sound w.walk.now };

    ghost broken = { λ w. W.broken w.walk.now };

    ghost count = { λ w. W.count w.walk.now };

    /// The walk that was lent went, and it is still the one that is lent.
    ghost went = { λ w o ps v. W.went w.walk.now o ps v.walk.now
        × (v.walk.ghost_name ≡ w.walk.ghost_name) };

    ghost straight = { λ w a v b. W.straight w.walk.now a v.walk.now b };

    fn new_spot(&self, alloc: Global) -> Result<W::Spot, NoMemory> {
        self.walk.new_spot(alloc)
    }

    fn next(&mut self, spot: &mut W::Spot) -> Result<Event, ReadFault> {
        self.walk.next(spot)
    }

    fn pass(&self, spot: &mut W::Spot) {
        self.walk.pass(spot);
    }

    fn copy_spot(&self, from: &W::Spot, to: &mut W::Spot) {
        self.walk.copy_spot(from, to);
    }

    fn taken(&self) -> u64 {
        self.walk.taken()
    }

    fn refusal(&self) -> Option<ReadFault> {
        self.walk.refusal()
    }

    ghost listed = { W.listed };

    ghost within = { W.within };

    ghost fresh = { W.fresh };

    ghost open_tags = { W.open_tags };

    ghost few = { W.few };

    ghost few_open = { W.few_open };

    ghost shallow = { W.shallow };

    ghost named = { W.named };

    ghost going = { record {
      nowhere = λ w o ps. (W.going.nowhere w.walk.now o ps, refl);
      onward = λ u v w o ps first second. (
        W.going.onward u.walk.now v.walk.now w.walk.now o ps first.0 second.0,
        second.1 ∙ first.1,
      );
      wider = λ w v o ps qs within went.
          (W.going.wider w.walk.now v.walk.now o ps qs within went.0, went.1);
      unsound = λ w v d ps unsound went.
          (W.going.unsound w.walk.now v.walk.now d ps unsound went.0, went.1);
      same = λ w v o ps went. W.going.same w.walk.now v.walk.now o ps went.0;
      was_sound = λ w v d ps went. W.going.was_sound w.walk.now v.walk.now d ps went.0;
      stays_broken = λ w v o ps f went. W.going.stays_broken w.walk.now v.walk.now o ps f went.0;
    } };

    ghost going_straight = { record {
      nowhere = λ w a. W.going_straight.nowhere w.walk.now a;
      onward = λ u v w a b c. W.going_straight.onward u.walk.now v.walk.now w.walk.now a b c;
    } };
}
