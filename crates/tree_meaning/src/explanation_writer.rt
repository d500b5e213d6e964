//! Writes where the signs of a document's elements come from, without a list of places. One walk finds the entry of
//! each element. A second one writes by the entries, without allocating, and keeps the place as a linked list on the
//! stack.

ghost use Rattle.std.specs.Prelude.{◌≡◌, ◌≤◌, ◌<◌, ◌-◌, ◌^◌, [], ◌∷◌, ◌++◌, OnOk, map, drop, decimal, length};
ghost use Rattle.std.specs.List.{concat};
ghost use Rattle.acl_model.specs.Ascii.{slash};
ghost use Rattle.acl_model.specs.Places.{element_of};
ghost use Rattle.acl_model.specs.Explain.{place_text, explanation_line, explanation_lines, explain_text};
ghost use Rattle.acl_outside.specs.WrittenText.{Writes};
ghost use Rattle.tree_meaning.specs.inside.Shows.{WritesView};
ghost use Rattle.tree_meaning.specs.inside.Decided.{place_of, first_entry, explanation_at, told_by_entry, told_below, entries_after, told_below_child, entries_after_child, told_below_items, entries_after_items};

use crate::decided::{Decided, find_all_decided};
use crate::explain::number_after;
use crate::view_writer::WriteViewFault;
use acl_model::{Doc, Element, Item, Rule};
use acl_outside::{Failed, NoMemory, Sink, write_pieces};
use line_writer::{end_line, rule_word, write_explanation_head, write_number, write_place};
use std::alloc::Global;

/// Where an element is in the document.
#[derive(Clone, Copy)]
enum Position<'a> {
    Root,
    /// The element child with this number, from 1, of the element at `parent`.
    Child {
        parent: &'a Position<'a>,
        number: u64,
    },
}

/// The entries of the elements that are still to come.
#[derive(Drop)]
struct Entries<'a> {
    left: &'a [Option<Decided>],
}

/// Takes the next entry off the list.
fn next_entry(entries: &mut Entries<'_>) -> Option<Decided>
    ensures entry { result ≡ first_entry entries.old.left.now }
    ensures left { entries.new.left.now ≡ drop 1 entries.old.left.now }
{
    let left = entries.left;
    match left {
        [entry, rest @ ..] => {
            entries.left = rest;
            *entry
        }
        [] => None,
    }
}

/// Writes the numbers of a position, from the root down.
fn write_numbers_of<K: Sink>(position: &Position<'_>, sink: &mut K) -> Result<(), Failed>
    ensures { Writes K.written K.missed K.settled K.faults result sink.old sink.new
        (concat (map (λ number. slash ∷ decimal number) (place_of position.now))) }
{
    match position {
        Position::Root => write_pieces(sink, &[]),
        Position::Child { parent, number } => {
            write_numbers_of(*parent, sink)?;
            write_number(*number, sink)
        }
    }
}

/// Writes the place of a position.
fn write_position<K: Sink>(position: &Position<'_>, sink: &mut K) -> Result<(), Failed>
    ensures { Writes K.written K.missed K.settled K.faults result sink.old sink.new
        (place_text (place_of position.now)) }
{
    match position {
        Position::Root => write_place(&[], sink),
        Position::Child { .. } => write_numbers_of(position, sink),
    }
}

/// Writes the line of an element.
fn write_line<K: Sink>(
    decided: Decided,
    position: &Position<'_>,
    rules: &[Rule],
    sink: &mut K,
) -> Result<(), Failed>
    ensures { Writes K.written K.missed K.settled K.faults result sink.old sink.new
        (explanation_line rules.now (explanation_at decided (place_of position.now))) }
{
    write_explanation_head(decided.sign, rule_word(rules, decided.rule), sink)?;
    write_position(position, sink)?;
    end_line(sink)
}

/// Writes the line of an element, if its entry has a decision.
fn write_entry<K: Sink>(
    entry: Option<Decided>,
    position: &Position<'_>,
    rules: &[Rule],
    sink: &mut K,
) -> Result<(), Failed>
    ensures { Writes K.written K.missed K.settled K.faults result sink.old sink.new
        (explanation_lines rules.now (told_by_entry entry (place_of position.now))) }
{
    match entry {
        Some(decided) => write_line(decided, position, rules, sink),
        None => write_pieces(sink, &[]),
    }
}

/// Writes the lines of an element and of those inside it.
#[cycle(told)]
fn write_element<K: Sink>(
    element: &Element,
    position: &Position<'_>,
    entries: &mut Entries<'_>,
    rules: &[Rule],
    sink: &mut K,
) -> Result<(), Failed>
    ensures written { Writes K.written K.missed K.settled K.faults result sink.old sink.new
        (explanation_lines rules.now
        (told_below entries.old.left.now (place_of position.now) element.now)) }
    ensures left { OnOk result
        (entries.new.left.now ≡ entries_after entries.old.left.now element.now) }
{
    let entry = next_entry(entries);
    write_entry(entry, position, rules, sink)?;
    write_items(element, position, entries, rules, sink)
}

/// Writes the lines of the elements inside an element.
#[cycle(told)]
fn write_items<K: Sink>(
    element: &Element,
    position: &Position<'_>,
    entries: &mut Entries<'_>,
    rules: &[Rule],
    sink: &mut K,
) -> Result<(), Failed>
    ensures written { Writes K.written K.missed K.settled K.faults result sink.old sink.new
        (explanation_lines rules.now
        (told_below_items entries.old.left.now (place_of position.now) element.now.items 1)) }
    ensures left { OnOk result
        (entries.new.left.now ≡ entries_after_items entries.old.left.now element.now.items) }
{
    let mut number: u64 = 1;
    for item in element.items.as_slice() {
        write_item(item, position, number, entries, rules, sink)?;
        number = number_after(item, number);
    }
    Ok(())
}

/// Writes the lines of the elements in an item of the element at `parent`. If the item is an element, it has this
/// number.
#[cycle(told)]
fn write_item<K: Sink>(
    item: &Item,
    parent: &Position<'_>,
    number: u64,
    entries: &mut Entries<'_>,
    rules: &[Rule],
    sink: &mut K,
) -> Result<(), Failed>
    ensures written { Writes K.written K.missed K.settled K.faults result sink.old sink.new
        (explanation_lines rules.now (told_below_child entries.old.left.now
        (place_of parent.now) number (element_of item.now))) }
    ensures left { OnOk result (entries.new.left.now
        ≡ entries_after_child entries.old.left.now (element_of item.now)) }
{
    match item {
        Item::Text(_) => write_pieces(sink, &[]),
        Item::Child(child) => {
            let own = Position::Child {
                parent: &*parent,
                number,
            };
            write_element(child.get(), &own, entries, rules, sink)
        }
    }
}

/// Writes the lines of a document by the list of all entries.
fn write_decided<K: Sink>(
    doc: &Doc,
    entries: &[Option<Decided>],
    rules: &[Rule],
    sink: &mut K,
) -> Result<(), Failed>
    ensures { Writes K.written K.missed K.settled K.faults result sink.old sink.new
        (explanation_lines rules.now (told_below entries.now [] doc.now.root)) }
{
    let mut entries = Entries { left: entries };
    write_element(&doc.root, &Position::Root, &mut entries, rules, sink)
}

/// Writes where the signs of a document's elements come from: a line for the root, and one for each element that a
/// rule selects. All memory is allocated before the first byte is written: a few bytes for each element, at any
/// depth. If the sink fails, a prefix was written, and nothing after the failure.
pub fn write_explanation_of<K: Sink>(
    alloc: Global,
    doc: &Doc,
    rules: &[Rule],
    sink: &mut K,
) -> Result<(), WriteViewFault>
    requires { length rules.now ≤ 65536 }
    ensures written { WritesView K.written K.missed K.settled K.faults result sink.old sink.new
        (explain_text doc.now rules.now) }
{
    match find_all_decided(alloc, doc, rules) {
        Ok(entries) => match write_decided(doc, entries.as_slice(), rules, sink) {
            Ok(()) => Ok(()),
            Err(Failed) => Err(WriteViewFault::Failed),
        },
        Err(NoMemory) => Err(WriteViewFault::NoMemory),
    }
}
