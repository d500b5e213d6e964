//! An element that has started and not ended.

ghost use Rattle.std.specs.Prelude.{◌≡◌, ◌++◌, ◌∷◌, [], IfOk, OnOk};
ghost use Rattle.acl_model.specs.declared.document.Element.{Element};
ghost use Rattle.esis_lines.specs.LineMachine.{OpenElement, element_of_open, with_item};

use crate::appending::append;
use acl_model::{Bytes, Element, Item, Name, Sequence};
use sqlite_items::Items;
use std::alloc::{AllocError, Global};
use std::marker::Model;

/// The name and the attributes of an open element, and its items so far.
#[derive(Drop)]
pub struct OpenElement {
    name: Name,
    attributes: Sequence<Bytes>,
    items: Vec<Item>,
}

impl Model for OpenElement {
    ghost use Rattle.esis_lines.specs.LineMachine.{OpenElement as OpenElementValue};
    ghost use Rattle.std.specs.Coded.{codes};
    ghost use Rattle.acl_model.specs.contracts.document.Item as item;

    ghost Value = { OpenElementValue };

    ghost coded = { Prim.hlevel (codes, item.the_row.coded) };

    ghost view = { λ o. record { name = o.name; attributes = o.attributes; items = o.items.items } };
}

impl OpenElement {
    /// An element that starts here.
    pub fn new(
        alloc: Global,
        name: &[u8],
        attributes: Vec<Bytes>,
    ) -> Result<OpenElement, AllocError>
        ensures { IfOk result (λ o.
            o ≡ record { name = name.now; attributes = attributes.items; items = [] }) }
    {
        let name = Sequence::from_slice(alloc, name)?;
        Ok(OpenElement {
            name,
            attributes: Sequence::from_vec(attributes),
            items: Vec::new(alloc),
        })
    }

    /// The name of the element.
    pub fn name(&self) -> &[u8]
        ensures { result.now ≡ self.now.name }
    {
        self.name.as_slice()
    }

    /// Adds an item at the end.
    pub fn push(&mut self, alloc: Global, item: Item) -> Result<(), AllocError>
        ensures { OnOk result (self.new ≡ with_item item self.old) }
    {
        append(alloc, &mut self.items, item)
    }

    /// Ends the element and returns it.
    pub fn close(self) -> Element
        ensures { result ≡ element_of_open self }
    {
        let OpenElement {
            name,
            attributes,
            items,
        } = self;
        Element {
            name,
            attributes,
            items: Items::from_vec(items),
        }
    }
}
