//! Writes the view of a document without a second tree. One walk finds how each element appears in the view, and one
//! writes by that, without allocating.

ghost use Rattle.std.specs.Prelude.{◌≡◌, [], OnOk, drop, map, true, false, if◌then◌else◌};
ghost use Rattle.std.specs.List.{slice_get};
ghost use Rattle.acl_model.specs.Ascii.{hyphen};
ghost use Rattle.acl_model.specs.Text.{line, text_of_view};
ghost use Rattle.acl_model.specs.View.{view};
ghost use Rattle.acl_outside.specs.WrittenText.{Writes};
ghost use Rattle.tree_meaning.specs.inside.Shows.{WritesView, in_turn, shown_start, shown_end, around, written_of, written_of_item};

use crate::shows::{Show, find_all_shows};
use acl_model::{Doc, Element, Item, Rule};
use acl_outside::{Failed, NoMemory, Sink, write_pieces};
use line_writer::{write_attributes_and_start, write_end, write_start, write_text};
use std::alloc::Global;

/// Why a view or an explanation was not written.
#[derive(Clone, Copy, Debug, PartialEq, Eq)]
pub enum WriteViewFault {
    /// Memory ran out. The sink was not called.
    NoMemory,
    /// The sink failed. Its count of faults rose with this answer, or is at its greatest value.
    Failed,
}

/// The entries of the elements that are still to come.
#[derive(Drop)]
struct Shows<'a> {
    left: &'a [Show],
}

/// Takes the next entry off the list.
fn next_show(shows: &mut Shows<'_>) -> Option<Show>
    ensures show { result ≡ slice_get shows.old.left.now 0 }
    ensures left { shows.new.left.now ≡ drop 1 shows.old.left.now }
{
    let left = shows.left;
    match left {
        [show, rest @ ..] => {
            shows.left = rest;
            Some(*show)
        }
        [] => None,
    }
}

/// Writes the start of an element that is whole, or of a dummy.
fn write_shown_start<K: Sink>(element: &Element, whole: bool, sink: &mut K) -> Result<(), Failed>
    ensures { Writes K.written K.missed K.settled K.faults result sink.old sink.new
        (shown_start whole element.now.attributes element.now.name) }
{
    match whole {
        true => write_attributes_and_start(
            element.attributes.as_slice(),
            element.name.as_slice(),
            sink,
        ),
        false => write_start(b"-", sink),
    }
}

/// Writes the end of an element that is whole, or of a dummy.
fn write_shown_end<K: Sink>(element: &Element, whole: bool, sink: &mut K) -> Result<(), Failed>
    ensures { Writes K.written K.missed K.settled K.faults result sink.old sink.new
        (shown_end whole element.now.name) }
{
    match whole {
        true => write_end(element.name.as_slice(), sink),
        false => write_end(b"-", sink),
    }
}

/// Writes what the view has of an element, by the next entry and those of the elements inside it.
#[cycle(view)]
fn write_element<K: Sink>(
    element: &Element,
    shows: &mut Shows<'_>,
    sink: &mut K,
) -> Result<(), Failed>
    ensures written { Writes K.written K.missed K.settled K.faults result sink.old sink.new
        (written_of element.now shows.old.left.now).text }
    ensures left { OnOk result
        (shows.new.left.now ≡ (written_of element.now shows.old.left.now).rest) }
{
    match next_show(shows) {
        Some(Show::Whole) => write_around(element, true, shows, sink),
        Some(Show::Dummy) => write_around(element, false, shows, sink),
        Some(Show::Absent) => Ok(()),
        None => Ok(()),
    }
}

/// Writes an element that is whole, or a dummy, and what is inside it.
#[cycle(view)]
fn write_around<K: Sink>(
    element: &Element,
    whole: bool,
    shows: &mut Shows<'_>,
    sink: &mut K,
) -> Result<(), Failed>
    ensures written { Writes K.written K.missed K.settled K.faults result sink.old sink.new
        (around whole element.now.attributes element.now.name
        (in_turn (map written_of_item element.now.items) whole shows.old.left.now)).text }
    ensures left { OnOk result (shows.new.left.now
        ≡ (in_turn (map written_of_item element.now.items) whole shows.old.left.now).rest) }
{
    write_shown_start(element, whole, sink)?;
    write_items(element, whole, shows, sink)?;
    write_shown_end(element, whole, sink)
}

/// Writes what the view has of the items of an element.
#[cycle(view)]
fn write_items<K: Sink>(
    element: &Element,
    whole: bool,
    shows: &mut Shows<'_>,
    sink: &mut K,
) -> Result<(), Failed>
    ensures written { Writes K.written K.missed K.settled K.faults result sink.old sink.new
        (in_turn (map written_of_item element.now.items) whole shows.old.left.now).text }
    ensures left { OnOk result (shows.new.left.now
        ≡ (in_turn (map written_of_item element.now.items) whole shows.old.left.now).rest) }
{
    for item in element.items.as_slice() {
        write_item(item, whole, shows, sink)?;
    }
    Ok(())
}

/// Writes what the view has of an item of an element that is whole, or a dummy.
#[cycle(view)]
fn write_item<K: Sink>(
    item: &Item,
    whole: bool,
    shows: &mut Shows<'_>,
    sink: &mut K,
) -> Result<(), Failed>
    ensures written { Writes K.written K.missed K.settled K.faults result sink.old sink.new
        (written_of_item item.now whole shows.old.left.now).text }
    ensures left { OnOk result
        (shows.new.left.now ≡ (written_of_item item.now whole shows.old.left.now).rest) }
{
    match item {
        Item::Text(bytes) => write_shown_text(bytes.as_slice(), whole, sink),
        Item::Child(element) => write_element(element.get(), shows, sink),
    }
}

/// Writes a text of an element that is whole, and nothing for a dummy.
fn write_shown_text<K: Sink>(bytes: &[u8], whole: bool, sink: &mut K) -> Result<(), Failed>
    ensures { Writes K.written K.missed K.settled K.faults result sink.old sink.new
        (if whole then line hyphen bytes.now else []) }
{
    match whole {
        true => write_text(bytes, sink),
        false => write_pieces(sink, &[]),
    }
}

/// Writes the view by the list of all entries.
fn write_shown<K: Sink>(doc: &Doc, shows: &[Show], sink: &mut K) -> Result<(), Failed>
    ensures { Writes K.written K.missed K.settled K.faults result sink.old sink.new
        (written_of doc.now.root shows.now).text }
{
    let mut shows = Shows { left: shows };
    write_element(&doc.root, &mut shows, sink)
}

/// Writes the view of a document. All memory is allocated before the first byte is written, and no second tree is made.
/// If the sink fails, a prefix was written, and nothing after the failure.
pub fn write_view<K: Sink>(
    alloc: Global,
    doc: &Doc,
    rules: &[Rule],
    sink: &mut K,
) -> Result<(), WriteViewFault>
    ensures written { WritesView K.written K.missed K.settled K.faults result sink.old sink.new
        (text_of_view (view doc.now rules.now)) }
{
    match find_all_shows(alloc, doc, rules) {
        Ok(shows) => match write_shown(doc, shows.as_slice(), sink) {
            Ok(()) => Ok(()),
            Err(Failed) => Err(WriteViewFault::Failed),
        },
        Err(NoMemory) => Err(WriteViewFault::NoMemory),
    }
}
