//! Builds a document from the events of a walk, on a stack of the open elements.

ghost use Rattle.std.specs.Prelude.{◌≡◌, None, Some, Err, [], OnOk, IfOk, MatchOption};
ghost use Rattle.std.specs.Option.{option_and_then, option_map};
ghost use Rattle.acl_model.specs.declared.document.Item.TheVariants as item;
ghost use Rattle.skip_decode.specs.Building.{attribute_fed, begun, closed, document_of, fed, finished, is_end, name_at, no_event, text_fed, with_attribute, with_element, with_item};

use acl_bits::Piece;
use acl_model::{Bytes, Doc, Element, Item, Name, Sequence};
use acl_walk::Event;
use sqlite_items::{Boxed, Items};
use std::alloc::{AllocError, Global};
use std::marker::Model;
use tag_dictionary::{DictFault, Dictionary};

/// The tag of a dummy.
const DUMMY: u16 = 256;

/// An element that has begun and not finished: its name, and its attributes and items so far.
#[derive(Drop)]
struct OpenElement {
    name: Name,
    attributes: Vec<Bytes>,
    items: Vec<Item>,
}

impl Model for OpenElement {
    ghost use Rattle.skip_decode.specs.Building.{OpenElement as OpenElementValue};
    ghost use Rattle.std.specs.Coded.{codes};
    ghost use Rattle.acl_model.specs.contracts.document.Item as item;

    ghost Value = { OpenElementValue };

    ghost coded = { Prim.hlevel (codes, item.the_row.coded) };

    ghost view = { λ o. record { name = o.name; attributes = o.attributes.items; items = o.items.items } };
}

impl OpenElement {
    /// An element of this name that begins.
    fn new(alloc: Global, name: &[u8]) -> Result<OpenElement, AllocError>
        ensures { IfOk result (λ o.
            o ≡ record { name = name.now; attributes = []; items = [] }) }
    {
        let name = Name::from_slice(alloc, name)?;
        Ok(OpenElement {
            name,
            attributes: Vec::new(alloc),
            items: Vec::new(alloc),
        })
    }

    /// Adds an attribute.
    fn push_attribute(&mut self, alloc: Global, raw: &[u8]) -> Result<(), AllocError>
        ensures { OnOk result (self.new ≡ with_attribute raw.now self.old) }
    {
        let raw = Bytes::from_slice(alloc, raw)?;
        self.attributes.push(raw)?;
        Ok(())
    }

    /// Adds an item.
    fn push_item(&mut self, item: Item) -> Result<(), AllocError>
        ensures { OnOk result (self.new ≡ with_item item self.old) }
    {
        self.items.push(item)?;
        Ok(())
    }

    /// Finishes the element and returns it.
    fn finish(self) -> Element
        ensures { result ≡ finished self }
    {
        let OpenElement {
            name,
            attributes,
            items,
        } = self;
        Element {
            name,
            attributes: Sequence::from_vec(attributes),
            items: Items::from_vec(items),
        }
    }
}

/// A document of which some events were taken.
#[derive(Drop)]
pub(crate) struct Builder {
    /// The open elements, the innermost last.
    opened: Vec<OpenElement>,
    /// The bytes so far of an attribute or text that isn't whole yet.
    bytes: Vec<u8>,
    /// The root, once it has finished.
    root: Option<Element>,
}

impl Model for Builder {
    ghost use Rattle.std.specs.Prelude.{reverse};
    ghost use Rattle.skip_decode.specs.Building.{Builder as BuilderValue};
    ghost use Rattle.std.specs.Coded.{codes};
    ghost use Rattle.acl_model.specs.contracts.document.Item as item;

    ghost Value = { BuilderValue };

    ghost coded = { Prim.hlevel (codes, item.the_row.coded) };

    ghost view = { λ b. record { opened = reverse b.opened.items; bytes = b.bytes.items; root = b.root } };
}

impl Builder {
    /// Before the first event.
    pub fn new(alloc: Global) -> Builder
        ensures { result ≡ no_event }
    {
        Builder {
            opened: Vec::new(alloc),
            bytes: Vec::new(alloc),
            root: None,
        }
    }

    /// Takes an event, or answers `BadIndex` where it doesn't fit. After an error the builder's state is unspecified.
    pub fn feed(
        &mut self,
        alloc: Global,
        names: &Dictionary,
        event: &Event,
    ) -> Result<(), DictFault>
        ensures fed { OnOk result (fed names.now event.now self.old ≡ Some self.new) }
        ensures bad { result ≡ Err DictFault.BadIndex → fed names.now event.now self.old ≡ None }
    {
        match event {
            Event::Begin { tag, below: _ } => self.begin(alloc, names, *tag),
            Event::Attr(piece) => self.attribute(alloc, piece),
            Event::HeadEnd | Event::End => Ok(()),
            Event::Text(piece) => self.text(alloc, piece),
            Event::Finish { tag: _ } => self.close(alloc),
        }
    }

    /// The document, once its root has finished.
    pub fn finish(self) -> Result<Doc, DictFault>
        ensures document { IfOk result (λ d. document_of self ≡ Some d) }
        ensures bad { result ≡ Err DictFault.BadIndex → document_of self ≡ None }
    {
        let Builder {
            opened: _,
            bytes: _,
            root,
        } = self;
        match root {
            Some(root) => Ok(Doc { root }),
            None => Err(DictFault::BadIndex),
        }
    }

    /// An element begins.
    fn begin(&mut self, alloc: Global, names: &Dictionary, tag: u16) -> Result<(), DictFault>
        ensures begun { OnOk result (option_and_then (begun self.old.opened self.old.bytes self.old.root)
            (name_at names.now tag) ≡ Some self.new) }
        ensures bad { result ≡ Err DictFault.BadIndex
            → option_and_then (begun self.old.opened self.old.bytes self.old.root)
            (name_at names.now tag) ≡ None }
    {
        if self.root.is_some() {
            return Err(DictFault::BadIndex);
        }
        let Some(name) = name_at(names, tag) else {
            return Err(DictFault::BadIndex);
        };
        let element = OpenElement::new(alloc, name)?;
        self.opened.push(element)?;
        Ok(())
    }

    /// Takes a piece of an attribute. After the last one the attribute joins the innermost open element.
    fn attribute(&mut self, alloc: Global, piece: &Piece) -> Result<(), DictFault>
        ensures fed { OnOk result (attribute_fed piece.now self.old ≡ Some self.new) }
        ensures bad { result ≡ Err DictFault.BadIndex → attribute_fed piece.now self.old ≡ None }
    {
        self.bytes.extend_from_slice(piece.bytes.as_slice())?;
        if !piece.last {
            return Ok(());
        }
        let Some(mut innermost) = self.opened.pop() else {
            return Err(DictFault::BadIndex);
        };
        innermost.push_attribute(alloc, self.bytes.as_slice())?;
        self.opened.push(innermost)?;
        self.bytes.clear();
        Ok(())
    }

    /// Takes a piece of a text. After the last one the text joins the innermost open element.
    fn text(&mut self, alloc: Global, piece: &Piece) -> Result<(), DictFault>
        ensures fed { OnOk result (text_fed piece.now self.old ≡ Some self.new) }
        ensures bad { result ≡ Err DictFault.BadIndex → text_fed piece.now self.old ≡ None }
    {
        self.bytes.extend_from_slice(piece.bytes.as_slice())?;
        if !piece.last {
            return Ok(());
        }
        let Some(mut innermost) = self.opened.pop() else {
            return Err(DictFault::BadIndex);
        };
        let text = Bytes::from_slice(alloc, self.bytes.as_slice())?;
        innermost.push_item(Item::Text(text))?;
        self.opened.push(innermost)?;
        self.bytes.clear();
        Ok(())
    }

    /// The innermost open element finishes. It is the root, or an item of the one around it.
    fn close(&mut self, alloc: Global) -> Result<(), DictFault>
        ensures closed { OnOk result
            (closed self.old.bytes self.old.root self.old.opened ≡ Some self.new) }
        ensures bad { result ≡ Err DictFault.BadIndex
            → closed self.old.bytes self.old.root self.old.opened ≡ None }
    {
        let Some(innermost) = self.opened.pop() else {
            return Err(DictFault::BadIndex);
        };
        let element = innermost.finish();
        let Some(mut around) = self.opened.pop() else {
            self.root = Some(element);
            return Ok(());
        };
        around.push_item(Item::Child(Boxed::new(alloc, element)?))?;
        self.opened.push(around)?;
        Ok(())
    }
}

/// The name of a tag: a dummy's for 256, and else the name with that number, if there is one.
fn name_at(names: &Dictionary, tag: u16) -> Option<&[u8]>
    ensures { option_map (λ name. name.now) result ≡ name_at names.now tag }
{
    if tag == DUMMY {
        return Some(b"-".as_slice());
    }
    names.name(tag)
}

/// Whether the event is End.
pub(crate) fn is_end(event: &Event) -> bool
    ensures { result ≡ is_end event.now }
{
    match event {
        Event::Begin { tag: _, below: _ }
        | Event::Attr(_)
        | Event::HeadEnd
        | Event::Text(_)
        | Event::Finish { tag: _ } => false,
        Event::End => true,
    }
}
