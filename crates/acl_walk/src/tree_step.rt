//! One step along the events of a tree, from a cursor position to the next.

ghost use Rattle.std.specs.Prelude.{◌≡◌, ℕ, ◌<◌, ◌≤◌, ◌++◌, List, length};
ghost use Rattle.acl_model.specs.Limits.{most_names, most_open_elements};
ghost use Rattle.acl_walk.specs.inside.OpenElements.{OpenElement, tags_of, content_to_come, finish_to_come};
ghost use Rattle.acl_walk.specs.TreeEvents.{attribute_events, text_events, element_events};
ghost use Rattle.acl_walk.specs.inside.TreeSteps.{head_to_come, to_come, IsInside, Steps};

use crate::event::Event;
use crate::levels::Levels;
use crate::pieces::cut_piece;
use crate::tags::{below_of, tag_of};
use acl_model::{Bytes, Element, Item, Name};

/// What comes next at a position in a tree.
#[derive(Clone, Copy, Debug)]
pub(crate) enum Now<'a> {
    /// The Begin of the root.
    Root(&'a Element),
    /// The remaining attributes of the innermost open element, and then the end of its head.
    Head(&'a [Bytes]),
    /// The rest of an attribute, and then the attributes after it.
    Attribute(&'a [u8], &'a [Bytes]),
    /// The rest of the innermost open element's content; End, if none is open.
    Content,
    /// The rest of a text.
    Text(&'a [u8]),
    /// The Finish of the innermost open element, even if more of its content is left.
    Finish,
}

/// The event at a position, and the position after it.
pub(crate) fn step<'a>(levels: &mut Levels<'a>, now: Now<'a>, names: &[Name]) -> (Event, Now<'a>)
    requires names { length names.now ≤ most_names }
    requires room { length levels.old ≤ most_open_elements }
    requires inside { IsInside now levels.old }
    ensures { Steps names.now result.0 (to_come names.now now.entry levels.old) (tags_of levels.old)
        result.1 levels.new }
{
    match now {
        Now::Root(element) => begin(levels, element, names),
        Now::Head(raws) => head(levels, raws),
        Now::Attribute(bytes, raws) => attribute(bytes, raws),
        Now::Content => content(levels, names),
        Now::Text(bytes) => text(bytes),
        Now::Finish => finish(levels),
    }
}

/// Begins an element.
fn begin<'a>(levels: &mut Levels<'a>, element: &'a Element, names: &[Name]) -> (Event, Now<'a>)
    requires names { length names.now ≤ most_names }
    requires room { length levels.old ≤ most_open_elements }
    ensures { Steps names.now result.0
        (element_events names.now element.now ++ content_to_come names.now levels.old)
        (tags_of levels.old) result.1 levels.new }
{
    let tag = tag_of(names, element.name.as_slice());
    let items = element.items.as_slice();
    let below = below_of(names.len(), items);
    levels.open(tag, items);
    (
        Event::Begin { tag, below },
        Now::Head(element.attributes.as_slice()),
    )
}

/// The next event in a head.
fn head<'a>(levels: &Levels<'a>, raws: &'a [Bytes]) -> (Event, Now<'a>)
    requires { 0 < length levels.now }
    ensures { (names : List (List ℕ)) → Steps names result.0
        (head_to_come names raws.now levels.now) (tags_of levels.now) result.1 levels.now }
{
    match raws.split_first() {
        Some((raw, raws)) => attribute(raw.as_slice(), raws),
        None => (Event::HeadEnd, Now::Content),
    }
}

/// The next piece of an attribute.
fn attribute<'a>(bytes: &'a [u8], raws: &'a [Bytes]) -> (Event, Now<'a>)
    ensures { (names : List (List ℕ)) (levels : List OpenElement) → 0 < length levels
        → Steps names result.0 (attribute_events bytes.now ++ head_to_come names raws.now levels)
        (tags_of levels) result.1 levels }
{
    let (piece, rest) = cut_piece(bytes);
    let now = match rest {
        Some(rest) => Now::Attribute(rest, raws),
        None => Now::Head(raws),
    };
    (Event::Attr(piece), now)
}

/// The next event in a content.
fn content<'a>(levels: &mut Levels<'a>, names: &[Name]) -> (Event, Now<'a>)
    requires names { length names.now ≤ most_names }
    requires room { length levels.old ≤ most_open_elements }
    ensures { Steps names.now result.0 (content_to_come names.now levels.old) (tags_of levels.old)
        result.1 levels.new }
{
    match levels.take_item() {
        Some(Item::Text(bytes)) => text(bytes.as_slice()),
        Some(Item::Child(element)) => begin(levels, element.get(), names),
        None => finish(levels),
    }
}

/// The next piece of a text.
fn text(bytes: &[u8]) -> (Event, Now<'_>)
    ensures { (names : List (List ℕ)) (levels : List OpenElement) → 0 < length levels
        → Steps names result.0 (text_events bytes.now ++ content_to_come names levels)
        (tags_of levels) result.1 levels }
{
    let (piece, rest) = cut_piece(bytes);
    let now = match rest {
        Some(rest) => Now::Text(rest),
        None => Now::Content,
    };
    (Event::Text(piece), now)
}

/// Finishes the innermost open element, or gives End if none is open.
fn finish<'a>(levels: &mut Levels<'a>) -> (Event, Now<'a>)
    ensures { (names : List (List ℕ)) → Steps names result.0 (finish_to_come names levels.old)
        (tags_of levels.old) result.1 levels.new }
{
    let event = match levels.close() {
        Some(tag) => Event::Finish { tag },
        None => Event::End,
    };
    (event, Now::Content)
}
