//! Spots of a walk over a checked store: positions in its stream.

ghost use Rattle.std.specs.Prelude.{◌≡◌, ◌≤◌, [], length, IfOk};
ghost use Rattle.skip_decode.specs.Positions.{passed};
ghost use Rattle.skip_decode.specs.StreamSteps.{position_after};
ghost use Rattle.skip_decode.specs.inside.LevelsInMemory.{HasRoom, innermost};

use crate::levels::Levels;
use crate::position::{Level, Next};
use crate::step::Step;
use acl_walk::Event;
use std::alloc::{AllocError, Global};
use std::marker::Model;

/// A position of a walk over a checked store. No bytes of the stream are held.
#[derive(Debug, Drop)]
pub struct SkipSpot {
    levels: Levels,
    next: Next,
    place: u32,
}

impl Model for SkipSpot {
    ghost use Rattle.skip_decode.specs.Positions.{Position};

    ghost Value = { Position };

    ghost view = { λ s. record { levels = s.levels; next = s.next; place = s.place } };
}

impl SkipSpot {
    /// The spot before the root's head, which is at this byte offset.
    pub(crate) fn new(alloc: Global, place: u32) -> Result<SkipSpot, AllocError>
        ensures { IfOk result (λ spot.
            spot ≡ record { levels = []; next = Next.Root; place = place }) }
    {
        let levels = Levels::new(alloc)?;
        Ok(SkipSpot {
            levels,
            next: Next::Root,
            place,
        })
    }

    /// The innermost open element.
    pub(crate) fn innermost(&self) -> Option<Level>
        ensures { result ≡ innermost self.now.levels }
    {
        self.levels.innermost()
    }

    /// How many elements are open.
    pub(crate) fn open_elements(&self) -> usize
        ensures { result ≡ length self.now.levels }
    {
        self.levels.len()
    }

    /// What comes next.
    pub(crate) fn next(&self) -> Next
        ensures { result ≡ self.now.next }
    {
        self.next
    }

    /// The byte offset in the stream of the next byte that is needed.
    pub(crate) fn place(&self) -> u32
        ensures { result ≡ self.now.place }
    {
        self.place
    }

    /// Makes a step, and returns its event.
    pub(crate) fn apply(&mut self, step: Step) -> Event
        requires { HasRoom step.change self.old.levels }
        ensures position { self.new ≡ position_after self.old step }
        ensures event { result ≡ step.event }
    {
        self.levels.change(step.change);
        self.next = self.levels.next_in(step.next);
        self.place = step.place;
        step.event
    }

    /// Goes to the end of the innermost open element. Where none is open, nothing changes.
    pub(crate) fn pass(&mut self)
        ensures { self.new ≡ passed self.old }
    {
        let Some(level) = self.levels.innermost() else {
            return;
        };
        self.next = Next::Finish;
        self.place = level.end;
    }

    /// Becomes equal to the other.
    pub(crate) fn copy_from(&mut self, other: &SkipSpot)
        requires { length other.now.levels ≤ 255 }
        ensures { self.new ≡ other.now }
    {
        self.levels.copy_from(&other.levels);
        self.next = other.next;
        self.place = other.place;
    }
}
