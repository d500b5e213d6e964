//! The next step of a walk, by what comes next at its spot.

ghost use Rattle.std.specs.Prelude.{◌≡◌, ◌<◌, ◌≤◌, ◌*◌, ◌^◌, None, Some, All, IsErrOf, OnErr, IfOk, IfSome};
ghost use Rattle.skip_decode.specs.Fragments.{FitsNone, ForEach, Leads, Narrows, Refuses, RefusesOrBad};
ghost use Rattle.skip_decode.specs.Positions.{tree_end};
ghost use Rattle.skip_decode.specs.Spots.{FitsInside, FitsOutside, IsSpot};
ghost use Rattle.skip_decode.specs.StreamSteps.{end_step, step_at, step_inside, step_outside};
ghost use Rattle.skip_decode.specs.inside.Moves.{IsMove, MoveInside, MoveOutside};
ghost use Rattle.skip_decode.specs.inside.Windows.{AfterReads, HasRead, HasReadSome, HasReadWithin, IsHeld};

use crate::fragments::Fragments;
use crate::position::{Level, Next, Numbers};
use crate::spot::SkipSpot;
use crate::step::{Change, Step};
use crate::steps::{
    attribute_step, attributes_step, count_step, finish_step, item_step, root_step, text_step,
};
use crate::window::Window;
use acl_outside::ReadFault;
use acl_walk::Event;

/// The end of the document, at a byte offset.
fn end_step(place: u32) -> Step
    ensures { result ≡ end_step place }
{
    Step {
        event: Event::End,
        next: Next::End,
        place,
        change: Change::Stay,
    }
}

/// The step where no element is open.
fn step_outside<F: Fragments>(
    window: &mut Window<F>,
    numbers: &Numbers,
    next: Next,
    place: u32,
) -> Result<Option<Step>, ReadFault>
    requires names { numbers.now.names ≤ 256 }
    requires fits { FitsOutside next place (tree_end numbers.now) }
    requires within { tree_end numbers.now ≤ 256 * F.count window.old.source }
    requires held { IsHeld (F.may_be window.old.source) window.old.held window.old.at }
    ensures same_count { F.count window.new.source ≡ F.count window.old.source }
    ensures refuses { Refuses result (F.refused window.old.source) (F.refused window.new.source) }
    ensures held { IsHeld (F.may_be window.new.source) window.new.held window.new.at }
    ensures narrows { Narrows (F.may_be window.old.source) (F.may_be window.new.source) }
    ensures went { Leads F.went window.old.source window.new.source }
    ensures index { IsErrOf result ReadFault.BadIndex → FitsNone (F.may_be window.new.source) }
    ensures opens { AfterReads place window.old.at (F.opened window.old.source) (λ first start.
        IfOk result (λ step. IfSome step (λ s.
        HasRead first start s.place window.new.at (F.opened window.new.source)))) }
    ensures some { AfterReads place window.old.at (F.opened window.old.source) (λ first start.
        HasReadSome first start (F.opened window.new.source)) }
    ensures bound { AfterReads place window.old.at (F.opened window.old.source) (λ first start.
        OnErr result (ForEach (F.may_be window.new.source) (λ stream.
        IfSome (step_outside numbers.now stream next place) (λ s.
        HasReadWithin first start s.place (F.opened window.new.source))))) }
    ensures step { IfOk result (λ step. ForEach (F.may_be window.new.source) (λ stream.
        step ≡ step_outside numbers.now stream next place)) }
    ensures moves { IfOk result (λ step. IfSome step (λ s.
        MoveOutside numbers.now place s next)) }
{
    match next {
        Next::Root => root_step(window, numbers, place),
        Next::End => Ok(Some(end_step(place))),
        Next::Count
        | Next::Attributes(_)
        | Next::Attribute { .. }
        | Next::Item
        | Next::Text(_)
        | Next::Finish => Ok(None),
    }
}

/// The step inside the innermost of so many open elements.
fn step_inside<F: Fragments>(
    window: &mut Window<F>,
    numbers: &Numbers,
    around: usize,
    level: &Level,
    next: Next,
    place: u32,
) -> Result<Option<Step>, ReadFault>
    requires width { level.now.width ≤ 32 }
    requires below { All (λ n. n < numbers.now.names) level.now.below }
    requires fits { FitsInside next place level.now.end }
    requires within { level.now.end ≤ 256 * F.count window.old.source }
    requires held { IsHeld (F.may_be window.old.source) window.old.held window.old.at }
    ensures same_count { F.count window.new.source ≡ F.count window.old.source }
    ensures refuses { Refuses result (F.refused window.old.source) (F.refused window.new.source) }
    ensures held { IsHeld (F.may_be window.new.source) window.new.held window.new.at }
    ensures narrows { Narrows (F.may_be window.old.source) (F.may_be window.new.source) }
    ensures went { Leads F.went window.old.source window.new.source }
    ensures index { IsErrOf result ReadFault.BadIndex → FitsNone (F.may_be window.new.source) }
    ensures opens { AfterReads place window.old.at (F.opened window.old.source) (λ first start.
        IfOk result (λ step. IfSome step (λ s.
        HasRead first start s.place window.new.at (F.opened window.new.source)))) }
    ensures some { AfterReads place window.old.at (F.opened window.old.source) (λ first start.
        HasReadSome first start (F.opened window.new.source)) }
    ensures bound { AfterReads place window.old.at (F.opened window.old.source) (λ first start.
        OnErr result (ForEach (F.may_be window.new.source) (λ stream.
        IfSome (step_inside numbers.now stream around level.now next place) (λ s.
        HasReadWithin first start s.place (F.opened window.new.source))))) }
    ensures step { IfOk result (λ step. ForEach (F.may_be window.new.source) (λ stream.
        step ≡ step_inside numbers.now stream around level.now next place)) }
    ensures moves { IfOk result (λ step. IfSome step (λ s.
        MoveInside numbers.now around level.now place s next)) }
{
    match next {
        Next::Count => count_step(window, place, level.end),
        Next::Attributes(count) => attributes_step(window, place, level.end, count),
        Next::Attribute { left, more } => attribute_step(window, more, place, left),
        Next::Item => item_step(window, numbers.depth, around, level, place),
        Next::Text(left) => text_step(window, place, left),
        Next::Finish => Ok(Some(finish_step(level, place))),
        Next::Root | Next::End => Ok(None),
    }
}

/// The step at a spot. None means that the bytes there are of no document's stream.
#[tactic(auto, unfolding(crate::specs::StreamSteps::step_at))]
pub(crate) fn next_step<F: Fragments>(
    window: &mut Window<F>,
    numbers: &Numbers,
    spot: &SkipSpot,
) -> Result<Option<Step>, ReadFault>
    requires names { numbers.now.names ≤ 256 }
    requires spot { IsSpot numbers.now spot.now }
    requires within { tree_end numbers.now ≤ 256 * F.count window.old.source }
    requires held { IsHeld (F.may_be window.old.source) window.old.held window.old.at }
    ensures same_count { F.count window.new.source ≡ F.count window.old.source }
    ensures refuses { Refuses result (F.refused window.old.source) (F.refused window.new.source) }
    ensures held { IsHeld (F.may_be window.new.source) window.new.held window.new.at }
    ensures narrows { Narrows (F.may_be window.old.source) (F.may_be window.new.source) }
    ensures went { Leads F.went window.old.source window.new.source }
    ensures index { IsErrOf result ReadFault.BadIndex → FitsNone (F.may_be window.new.source) }
    ensures opens { AfterReads spot.now.place window.old.at (F.opened window.old.source) (λ first start.
        IfOk result (λ step. IfSome step (λ s.
        HasRead first start s.place window.new.at (F.opened window.new.source)))) }
    ensures some { AfterReads spot.now.place window.old.at (F.opened window.old.source) (λ first start.
        HasReadSome first start (F.opened window.new.source)) }
    ensures bound { AfterReads spot.now.place window.old.at (F.opened window.old.source) (λ first start.
        OnErr result (ForEach (F.may_be window.new.source) (λ stream.
        IfSome (step_at numbers.now stream spot.now) (λ s.
        HasReadWithin first start s.place (F.opened window.new.source))))) }
    ensures step { IfOk result (λ step. ForEach (F.may_be window.new.source) (λ stream.
        step ≡ step_at numbers.now stream spot.now)) }
    ensures moves { IfOk result (λ step. IfSome step (IsMove numbers.now spot.now)) }
{
    match spot.innermost() {
        None => step_outside(window, numbers, spot.next(), spot.place()),
        Some(level) => step_inside(
            window,
            numbers,
            spot.open_elements(),
            &level,
            spot.next(),
            spot.place(),
        ),
    }
}

/// The step at a spot, and `BadIndex` where there is none.
pub(crate) fn checked_step<F: Fragments>(
    window: &mut Window<F>,
    numbers: &Numbers,
    spot: &SkipSpot,
) -> Result<Step, ReadFault>
    requires names { numbers.now.names ≤ 256 }
    requires spot { IsSpot numbers.now spot.now }
    requires within { tree_end numbers.now ≤ 256 * F.count window.old.source }
    requires held { IsHeld (F.may_be window.old.source) window.old.held window.old.at }
    ensures same_count { F.count window.new.source ≡ F.count window.old.source }
    ensures refuses { RefusesOrBad result (F.refused window.old.source) (F.refused window.new.source) }
    ensures held { IsHeld (F.may_be window.new.source) window.new.held window.new.at }
    ensures went { Leads F.went window.old.source window.new.source }
    ensures index { IsErrOf result ReadFault.BadIndex
        → ForEach (F.may_be window.new.source) (λ stream.
        step_at numbers.now stream spot.now ≡ None) }
    ensures opens { AfterReads spot.now.place window.old.at (F.opened window.old.source) (λ first start.
        IfOk result (λ step. HasRead first start step.place window.new.at (F.opened window.new.source))) }
    ensures some { AfterReads spot.now.place window.old.at (F.opened window.old.source) (λ first start.
        HasReadSome first start (F.opened window.new.source)) }
    ensures bound { AfterReads spot.now.place window.old.at (F.opened window.old.source) (λ first start.
        OnErr result (ForEach (F.may_be window.new.source) (λ stream.
        IfSome (step_at numbers.now stream spot.now) (λ s.
        HasReadWithin first start s.place (F.opened window.new.source))))) }
    ensures step { IfOk result (λ step. ForEach (F.may_be window.new.source) (λ stream.
        step_at numbers.now stream spot.now ≡ Some step)) }
    ensures moves { IfOk result (IsMove numbers.now spot.now) }
{
    match next_step(window, numbers, spot)? {
        Some(step) => Ok(step),
        None => Err(ReadFault::BadIndex),
    }
}
