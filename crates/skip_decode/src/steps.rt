//! The steps of a reader along a stream. None means that the bytes there are of no document's stream.

ghost use Rattle.std.specs.Prelude.{◌≡◌, ◌+◌, ◌*◌, ◌^◌, ◌<◌, ◌≤◌, [], ◌∷◌, IsErrOf, OnErr, IfOk, IfSome};
ghost use Rattle.skip_decode.specs.Fragments.{ForEach, FitsNone, Leads, Narrows, Refuses};
ghost use Rattle.skip_decode.specs.Positions.{above_root, tree_end};
ghost use Rattle.skip_decode.specs.inside.Moves.{AttributeMoves, BeginMove, BeginMoves, HeadMove, ItemMoves, TextMove, TextMoves};
ghost use Rattle.skip_decode.specs.StreamSteps.{after_piece, next_in_text, next_in_attribute, text_step, text_begun, attribute_step, attributes_step, count_step, element_begun, finish_step, checked_finish, item_by, item_step, is_only, root_step};
ghost use Rattle.skip_decode.specs.inside.Windows.{AfterReads, HasRead, HasReadSome, HasReadWithin, IsHeld};

use crate::begun::{above_root, begun_with};
use crate::fragments::Fragments;
use crate::head_read::read_head;
use crate::pieces::{
    fragment_left, is_within_line, read_byte, read_count, read_length, read_piece,
};
use crate::position::{Level, Next, Numbers};
use crate::step::{Change, Step};
use crate::window::Window;
use acl_outside::ReadFault;
use acl_walk::Event;

/// The byte offset after the piece of a text or attribute with so many bytes left.
fn after_piece(place: u32, left: u32) -> u32
    requires { place + left < 2 ^ 32 }
    ensures { result ≡ after_piece place left }
{
    place + left.min(fragment_left(place))
}

/// What comes after the piece of a text with so many bytes left.
fn next_in_text(place: u32, left: u32) -> Next
    ensures { result ≡ next_in_text place left }
{
    let room = fragment_left(place);
    if left <= room {
        Next::Item
    } else {
        Next::Text(left - room)
    }
}

/// What comes after the piece of an attribute with so many bytes left, before so many more attributes.
fn next_in_attribute(more: u16, place: u32, left: u32) -> Next
    ensures { result ≡ next_in_attribute more place left }
{
    let room = fragment_left(place);
    if left <= room {
        Next::Attributes(more)
    } else {
        Next::Attribute {
            left: left - room,
            more,
        }
    }
}

/// A piece of a text with so many bytes left.
#[tactic(auto, unfolding(crate::specs::StreamSteps::text_step))]
pub(crate) fn text_step<F: Fragments>(
    window: &mut Window<F>,
    place: u32,
    left: u32,
) -> Result<Option<Step>, ReadFault>
    requires within { place + left ≤ 256 * F.count window.old.source }
    requires held { IsHeld (F.may_be window.old.source) window.old.held window.old.at }
    ensures same_count { F.count window.new.source ≡ F.count window.old.source }
    ensures refuses { Refuses result (F.refused window.old.source) (F.refused window.new.source) }
    ensures held { IsHeld (F.may_be window.new.source) window.new.held window.new.at }
    ensures narrows { Narrows (F.may_be window.old.source) (F.may_be window.new.source) }
    ensures went { Leads F.went window.old.source window.new.source }
    ensures index { IsErrOf result ReadFault.BadIndex → FitsNone (F.may_be window.new.source) }
    ensures opens { AfterReads place window.old.at (F.opened window.old.source) (λ first start.
        IfOk result (λ step. IfSome step (λ s.
        HasRead first start s.place window.new.at (F.opened window.new.source)))) }
    ensures some { AfterReads place window.old.at (F.opened window.old.source) (λ first start.
        HasReadSome first start (F.opened window.new.source)) }
    ensures bound { AfterReads place window.old.at (F.opened window.old.source) (λ first start.
        OnErr result (ForEach (F.may_be window.new.source) (λ stream.
        IfSome (text_step stream place left) (λ s.
        HasReadWithin first start s.place (F.opened window.new.source))))) }
    ensures step { IfOk result (λ step. ForEach (F.may_be window.new.source) (λ stream.
        step ≡ text_step stream place left)) }
    ensures moves { IfOk result (λ step. IfSome step (TextMoves place left)) }
{
    let piece = read_piece(window, place, left)?;
    if !is_within_line(piece.bytes.as_slice()) {
        return Ok(None);
    }
    Ok(Some(Step {
        event: Event::Text(piece),
        next: next_in_text(place, left),
        place: after_piece(place, left),
        change: Change::Stay,
    }))
}

/// A text from its length on, in a content that ends at `end`.
#[tactic(auto, unfolding(crate::specs::StreamSteps::text_begun))]
pub(crate) fn text_begun<F: Fragments>(
    window: &mut Window<F>,
    place: u32,
    end: u32,
) -> Result<Option<Step>, ReadFault>
    requires rises { place ≤ end }
    requires within { end ≤ 256 * F.count window.old.source }
    requires held { IsHeld (F.may_be window.old.source) window.old.held window.old.at }
    ensures same_count { F.count window.new.source ≡ F.count window.old.source }
    ensures refuses { Refuses result (F.refused window.old.source) (F.refused window.new.source) }
    ensures held { IsHeld (F.may_be window.new.source) window.new.held window.new.at }
    ensures narrows { Narrows (F.may_be window.old.source) (F.may_be window.new.source) }
    ensures went { Leads F.went window.old.source window.new.source }
    ensures index { IsErrOf result ReadFault.BadIndex → FitsNone (F.may_be window.new.source) }
    ensures opens { AfterReads place window.old.at (F.opened window.old.source) (λ first start.
        IfOk result (λ step. IfSome step (λ s.
        HasRead first start s.place window.new.at (F.opened window.new.source)))) }
    ensures some { AfterReads place window.old.at (F.opened window.old.source) (λ first start.
        HasReadSome first start (F.opened window.new.source)) }
    ensures bound { AfterReads place window.old.at (F.opened window.old.source) (λ first start.
        OnErr result (ForEach (F.may_be window.new.source) (λ stream.
        IfSome (text_begun stream place end) (λ s.
        HasReadWithin first start s.place (F.opened window.new.source))))) }
    ensures rises { IfOk result (λ step. IfSome step (λ s. place < s.place)) }
    ensures step { IfOk result (λ step. ForEach (F.may_be window.new.source) (λ stream.
        step ≡ text_begun stream place end)) }
    ensures moves { IfOk result (λ step. IfSome step (TextMove end place)) }
{
    let Some(long) = read_length(window, place, end)? else {
        return Ok(None);
    };
    let step = text_step(window, place + 4, long)?;
    Ok(step)
}

/// A piece of an attribute with so many bytes left, before so many more attributes.
#[tactic(auto, unfolding(crate::specs::StreamSteps::attribute_step))]
pub(crate) fn attribute_step<F: Fragments>(
    window: &mut Window<F>,
    more: u16,
    place: u32,
    left: u32,
) -> Result<Option<Step>, ReadFault>
    requires within { place + left ≤ 256 * F.count window.old.source }
    requires held { IsHeld (F.may_be window.old.source) window.old.held window.old.at }
    ensures same_count { F.count window.new.source ≡ F.count window.old.source }
    ensures refuses { Refuses result (F.refused window.old.source) (F.refused window.new.source) }
    ensures held { IsHeld (F.may_be window.new.source) window.new.held window.new.at }
    ensures narrows { Narrows (F.may_be window.old.source) (F.may_be window.new.source) }
    ensures went { Leads F.went window.old.source window.new.source }
    ensures index { IsErrOf result ReadFault.BadIndex → FitsNone (F.may_be window.new.source) }
    ensures opens { AfterReads place window.old.at (F.opened window.old.source) (λ first start.
        IfOk result (λ step. IfSome step (λ s.
        HasRead first start s.place window.new.at (F.opened window.new.source)))) }
    ensures some { AfterReads place window.old.at (F.opened window.old.source) (λ first start.
        HasReadSome first start (F.opened window.new.source)) }
    ensures bound { AfterReads place window.old.at (F.opened window.old.source) (λ first start.
        OnErr result (ForEach (F.may_be window.new.source) (λ stream.
        IfSome (attribute_step stream more place left) (λ s.
        HasReadWithin first start s.place (F.opened window.new.source))))) }
    ensures step { IfOk result (λ step. ForEach (F.may_be window.new.source) (λ stream.
        step ≡ attribute_step stream more place left)) }
    ensures moves { IfOk result (λ step. IfSome step (AttributeMoves place left)) }
{
    let piece = read_piece(window, place, left)?;
    if !is_within_line(piece.bytes.as_slice()) {
        return Ok(None);
    }
    Ok(Some(Step {
        event: Event::Attr(piece),
        next: next_in_attribute(more, place, left),
        place: after_piece(place, left),
        change: Change::Stay,
    }))
}

/// So many attributes, in a content that ends at `end`: the first one, or the end of the attributes.
#[tactic(auto, unfolding(crate::specs::StreamSteps::attributes_step))]
pub(crate) fn attributes_step<F: Fragments>(
    window: &mut Window<F>,
    place: u32,
    end: u32,
    count: u16,
) -> Result<Option<Step>, ReadFault>
    requires rises { place ≤ end }
    requires within { end ≤ 256 * F.count window.old.source }
    requires held { IsHeld (F.may_be window.old.source) window.old.held window.old.at }
    ensures same_count { F.count window.new.source ≡ F.count window.old.source }
    ensures refuses { Refuses result (F.refused window.old.source) (F.refused window.new.source) }
    ensures held { IsHeld (F.may_be window.new.source) window.new.held window.new.at }
    ensures narrows { Narrows (F.may_be window.old.source) (F.may_be window.new.source) }
    ensures went { Leads F.went window.old.source window.new.source }
    ensures index { IsErrOf result ReadFault.BadIndex → FitsNone (F.may_be window.new.source) }
    ensures opens { AfterReads place window.old.at (F.opened window.old.source) (λ first start.
        IfOk result (λ step. IfSome step (λ s.
        HasRead first start s.place window.new.at (F.opened window.new.source)))) }
    ensures some { AfterReads place window.old.at (F.opened window.old.source) (λ first start.
        HasReadSome first start (F.opened window.new.source)) }
    ensures bound { AfterReads place window.old.at (F.opened window.old.source) (λ first start.
        OnErr result (ForEach (F.may_be window.new.source) (λ stream.
        IfSome (attributes_step stream place end count) (λ s.
        HasReadWithin first start s.place (F.opened window.new.source))))) }
    ensures step { IfOk result (λ step. ForEach (F.may_be window.new.source) (λ stream.
        step ≡ attributes_step stream place end count)) }
    ensures moves { IfOk result (λ step. IfSome step (HeadMove end place)) }
{
    if count == 0 {
        return Ok(Some(Step {
            event: Event::HeadEnd,
            next: Next::Item,
            place,
            change: Change::Stay,
        }));
    }
    let Some(long) = read_length(window, place, end)? else {
        return Ok(None);
    };
    let step = attribute_step(window, count - 1, place + 4, long)?;
    Ok(step)
}

/// The number of attributes, and then the attributes, in a content that ends at `end`.
#[tactic(auto, unfolding(crate::specs::StreamSteps::count_step))]
pub(crate) fn count_step<F: Fragments>(
    window: &mut Window<F>,
    place: u32,
    end: u32,
) -> Result<Option<Step>, ReadFault>
    requires rises { place ≤ end }
    requires within { end ≤ 256 * F.count window.old.source }
    requires held { IsHeld (F.may_be window.old.source) window.old.held window.old.at }
    ensures same_count { F.count window.new.source ≡ F.count window.old.source }
    ensures refuses { Refuses result (F.refused window.old.source) (F.refused window.new.source) }
    ensures held { IsHeld (F.may_be window.new.source) window.new.held window.new.at }
    ensures narrows { Narrows (F.may_be window.old.source) (F.may_be window.new.source) }
    ensures went { Leads F.went window.old.source window.new.source }
    ensures index { IsErrOf result ReadFault.BadIndex → FitsNone (F.may_be window.new.source) }
    ensures opens { AfterReads place window.old.at (F.opened window.old.source) (λ first start.
        IfOk result (λ step. IfSome step (λ s.
        HasRead first start s.place window.new.at (F.opened window.new.source)))) }
    ensures some { AfterReads place window.old.at (F.opened window.old.source) (λ first start.
        HasReadSome first start (F.opened window.new.source)) }
    ensures bound { AfterReads place window.old.at (F.opened window.old.source) (λ first start.
        OnErr result (ForEach (F.may_be window.new.source) (λ stream.
        IfSome (count_step stream place end) (λ s.
        HasReadWithin first start s.place (F.opened window.new.source))))) }
    ensures step { IfOk result (λ step. ForEach (F.may_be window.new.source) (λ stream.
        step ≡ count_step stream place end)) }
    ensures moves { IfOk result (λ step. IfSome step (HeadMove end place)) }
{
    let Some(count) = read_count(window, place, end)? else {
        return Ok(None);
    };
    let step = attributes_step(window, place + 2, end, count)?;
    Ok(step)
}

/// The start of an element, inside so many open elements.
#[tactic(auto, unfolding(crate::specs::StreamSteps::element_begun))]
pub(crate) fn element_begun<F: Fragments>(
    window: &mut Window<F>,
    depth: u16,
    around: usize,
    parent: &Level,
    place: u32,
) -> Result<Option<Step>, ReadFault>
    requires width { parent.now.width ≤ 32 }
    requires rises { place ≤ parent.now.end }
    requires within { parent.now.end ≤ 256 * F.count window.old.source }
    requires held { IsHeld (F.may_be window.old.source) window.old.held window.old.at }
    ensures same_count { F.count window.new.source ≡ F.count window.old.source }
    ensures refuses { Refuses result (F.refused window.old.source) (F.refused window.new.source) }
    ensures held { IsHeld (F.may_be window.new.source) window.new.held window.new.at }
    ensures narrows { Narrows (F.may_be window.old.source) (F.may_be window.new.source) }
    ensures went { Leads F.went window.old.source window.new.source }
    ensures index { IsErrOf result ReadFault.BadIndex → FitsNone (F.may_be window.new.source) }
    ensures opens { AfterReads place window.old.at (F.opened window.old.source) (λ first start.
        IfOk result (λ step. IfSome step (λ s.
        HasRead first start s.place window.new.at (F.opened window.new.source)))) }
    ensures some { AfterReads place window.old.at (F.opened window.old.source) (λ first start.
        HasReadSome first start (F.opened window.new.source)) }
    ensures bound { AfterReads place window.old.at (F.opened window.old.source) (λ first start.
        OnErr result (ForEach (F.may_be window.new.source) (λ stream.
        IfSome (element_begun depth stream around parent.now place) (λ s.
        HasReadWithin first start s.place (F.opened window.new.source))))) }
    ensures rises { IfOk result (λ step. IfSome step (λ s. place < s.place)) }
    ensures step { IfOk result (λ step. ForEach (F.may_be window.new.source) (λ stream.
        step ≡ element_begun depth stream around parent.now place)) }
    ensures moves { IfOk result (λ step. IfSome step (BeginMoves depth around parent.now place)) }
{
    let Some(head) = read_head(window, &parent.below, parent.width, place, parent.end)? else {
        return Ok(None);
    };
    Ok(begun_with(depth, around, parent, place, &head))
}

/// The end of an element at a byte offset.
pub(crate) fn finish_step(level: &Level, place: u32) -> Step
    ensures { result ≡ finish_step level.now place }
{
    Step {
        event: Event::Finish { tag: level.tag },
        next: Next::Item,
        place,
        change: Change::Close,
    }
}

/// The end of an element whose content was read.
#[tactic(auto, unfolding(crate::specs::StreamSteps::checked_finish))]
fn checked_finish(level: &Level, place: u32) -> Option<Step>
    ensures { result ≡ checked_finish level.now place }
{
    if level.met != level.below {
        return None;
    }
    Some(finish_step(level, place))
}

/// An item by its first byte.
fn item_by<F: Fragments>(
    window: &mut Window<F>,
    depth: u16,
    around: usize,
    level: &Level,
    place: u32,
    first: u8,
) -> Result<Option<Step>, ReadFault>
    requires width { level.now.width ≤ 32 }
    requires rises { place ≤ level.now.end }
    requires within { level.now.end ≤ 256 * F.count window.old.source }
    requires held { IsHeld (F.may_be window.old.source) window.old.held window.old.at }
    ensures same_count { F.count window.new.source ≡ F.count window.old.source }
    ensures refuses { Refuses result (F.refused window.old.source) (F.refused window.new.source) }
    ensures held { IsHeld (F.may_be window.new.source) window.new.held window.new.at }
    ensures narrows { Narrows (F.may_be window.old.source) (F.may_be window.new.source) }
    ensures went { Leads F.went window.old.source window.new.source }
    ensures index { IsErrOf result ReadFault.BadIndex → FitsNone (F.may_be window.new.source) }
    ensures opens { AfterReads place window.old.at (F.opened window.old.source) (λ first start.
        IfOk result (λ step. IfSome step (λ s.
        HasRead first start s.place window.new.at (F.opened window.new.source)))) }
    ensures some { AfterReads place window.old.at (F.opened window.old.source) (λ first start.
        HasReadSome first start (F.opened window.new.source)) }
    ensures bound { AfterReads place window.old.at (F.opened window.old.source) (λ earlier start.
        OnErr result (ForEach (F.may_be window.new.source) (λ stream.
        IfSome (item_by depth stream around level.now place (first ∷ [])) (λ s.
        HasReadWithin earlier start s.place (F.opened window.new.source))))) }
    ensures rises { IfOk result (λ step. IfSome step (λ s. place < s.place)) }
    ensures step { IfOk result (λ step. ForEach (F.may_be window.new.source) (λ stream.
        step ≡ item_by depth stream around level.now place (first ∷ []))) }
    ensures moves { IfOk result (λ step. IfSome step (ItemMoves depth around level.now place)) }
{
    if first >= 128 {
        element_begun(window, depth, around, level, place)
    } else {
        text_begun(window, place, level.end)
    }
}

/// A text or child of an element, or its end. So many elements are open with it.
#[tactic(auto, unfolding(crate::specs::StreamSteps::item_step))]
pub(crate) fn item_step<F: Fragments>(
    window: &mut Window<F>,
    depth: u16,
    around: usize,
    level: &Level,
    place: u32,
) -> Result<Option<Step>, ReadFault>
    requires width { level.now.width ≤ 32 }
    requires rises { place ≤ level.now.end }
    requires within { level.now.end ≤ 256 * F.count window.old.source }
    requires held { IsHeld (F.may_be window.old.source) window.old.held window.old.at }
    ensures same_count { F.count window.new.source ≡ F.count window.old.source }
    ensures refuses { Refuses result (F.refused window.old.source) (F.refused window.new.source) }
    ensures held { IsHeld (F.may_be window.new.source) window.new.held window.new.at }
    ensures narrows { Narrows (F.may_be window.old.source) (F.may_be window.new.source) }
    ensures went { Leads F.went window.old.source window.new.source }
    ensures index { IsErrOf result ReadFault.BadIndex → FitsNone (F.may_be window.new.source) }
    ensures opens { AfterReads place window.old.at (F.opened window.old.source) (λ first start.
        IfOk result (λ step. IfSome step (λ s.
        HasRead first start s.place window.new.at (F.opened window.new.source)))) }
    ensures some { AfterReads place window.old.at (F.opened window.old.source) (λ first start.
        HasReadSome first start (F.opened window.new.source)) }
    ensures bound { AfterReads place window.old.at (F.opened window.old.source) (λ first start.
        OnErr result (ForEach (F.may_be window.new.source) (λ stream.
        IfSome (item_step depth stream around level.now place) (λ s.
        HasReadWithin first start s.place (F.opened window.new.source))))) }
    ensures step { IfOk result (λ step. ForEach (F.may_be window.new.source) (λ stream.
        step ≡ item_step depth stream around level.now place)) }
    ensures moves { IfOk result (λ step. IfSome step (ItemMoves depth around level.now place)) }
{
    if place == level.end {
        return Ok(checked_finish(level, place));
    }
    let Some(first) = read_byte(window, place, level.end)? else {
        return Ok(None);
    };
    let step = item_by(window, depth, around, level, place, first)?;
    Ok(step)
}

/// Whether a step begins an element that is all of its parent's content and has all names of its parent's tag set.
fn is_only(change: &Change) -> bool
    ensures { result ≡ is_only change.now }
{
    match change {
        Change::Open { parent, child } => child.end == parent.end && parent.met == parent.below,
        Change::Stay | Change::Close => false,
    }
}

/// The start of the root.
#[tactic(auto, unfolding(crate::specs::StreamSteps::root_step))]
pub(crate) fn root_step<F: Fragments>(
    window: &mut Window<F>,
    numbers: &Numbers,
    place: u32,
) -> Result<Option<Step>, ReadFault>
    requires names { numbers.now.names ≤ 256 }
    requires rises { place ≤ tree_end numbers.now }
    requires within { tree_end numbers.now ≤ 256 * F.count window.old.source }
    requires held { IsHeld (F.may_be window.old.source) window.old.held window.old.at }
    ensures same_count { F.count window.new.source ≡ F.count window.old.source }
    ensures refuses { Refuses result (F.refused window.old.source) (F.refused window.new.source) }
    ensures held { IsHeld (F.may_be window.new.source) window.new.held window.new.at }
    ensures narrows { Narrows (F.may_be window.old.source) (F.may_be window.new.source) }
    ensures went { Leads F.went window.old.source window.new.source }
    ensures index { IsErrOf result ReadFault.BadIndex → FitsNone (F.may_be window.new.source) }
    ensures opens { AfterReads place window.old.at (F.opened window.old.source) (λ first start.
        IfOk result (λ step. IfSome step (λ s.
        HasRead first start s.place window.new.at (F.opened window.new.source)))) }
    ensures some { AfterReads place window.old.at (F.opened window.old.source) (λ first start.
        HasReadSome first start (F.opened window.new.source)) }
    ensures bound { AfterReads place window.old.at (F.opened window.old.source) (λ first start.
        OnErr result (ForEach (F.may_be window.new.source) (λ stream.
        IfSome (root_step numbers.now stream place) (λ s.
        HasReadWithin first start s.place (F.opened window.new.source))))) }
    ensures step { IfOk result (λ step. ForEach (F.may_be window.new.source) (λ stream.
        step ≡ root_step numbers.now stream place)) }
    ensures moves { IfOk result (λ step. IfSome step (λ s.
        BeginMove numbers.now 0 (above_root numbers.now) place s s.change)) }
{
    let above = above_root(numbers);
    let Some(step) = element_begun(window, numbers.depth, 0, &above, place)? else {
        return Ok(None);
    };
    if !is_only(&step.change) {
        return Ok(None);
    }
    Ok(Some(step))
}
