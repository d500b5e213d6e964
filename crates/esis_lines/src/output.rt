//! Writes a document as its lines.
ghost use Rattle.std.specs.Prelude.{map};
ghost use Rattle.std.specs.List.{concat};
ghost use Rattle.acl_model.specs.Text.{text, element_text, item_text};
ghost use Rattle.acl_outside.specs.WrittenText.{Writes};

use acl_model::{Doc, Element, Item};
use acl_outside::{Failed, Sink};
use line_writer::{write_attributes_and_start, write_end, write_text};

/// Writes the lines of a document. Where the sink fails, a prefix of the text was written, and nothing is written
/// after the failure.
pub fn write_doc<K: Sink>(doc: &Doc, sink: &mut K) -> Result<(), Failed>
    ensures written { Writes K.written K.missed K.settled K.faults
        result sink.old sink.new (text doc.now) }
{
    write_element(&doc.root, sink)
}

#[cycle(tree)]
fn write_element<K: Sink>(element: &Element, sink: &mut K) -> Result<(), Failed>
    ensures written { Writes K.written K.missed K.settled K.faults
        result sink.old sink.new (element_text element.now) }
{
    write_attributes_and_start(element.attributes.as_slice(), element.name.as_slice(), sink)?;
    write_items(element.items.as_slice(), sink)?;
    write_end(element.name.as_slice(), sink)
}

#[cycle(tree)]
#[tactic(auto, using(acl_model::proofs::TextEquations::text_equations, acl_outside::proofs::Remaining::chain))]
fn write_items<K: Sink>(items: &[Item], sink: &mut K) -> Result<(), Failed>
    ensures written { Writes K.written K.missed K.settled K.faults
        result sink.old sink.new (concat (map item_text items.now)) }
{
    for item in items {
        write_item(item, sink)?;
    }
    Ok(())
}

#[cycle(tree)]
#[tactic(auto, using(acl_model::proofs::TextEquations::text_equations, acl_outside::proofs::Remaining::chain))]
fn write_item<K: Sink>(item: &Item, sink: &mut K) -> Result<(), Failed>
    ensures written { Writes K.written K.missed K.settled K.faults
        result sink.old sink.new (item_text item.now) }
{
    match item {
        Item::Text(bytes) => write_text(bytes.as_slice(), sink),
        Item::Child(element) => write_element(element.get(), sink),
    }
}
