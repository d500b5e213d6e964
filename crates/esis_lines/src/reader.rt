//! The state machine that reads a document, with one step for each line. It is inside the open elements, or after the
//! end of the root. An attribute *waits* for the next start of an element.

ghost use Rattle.std.specs.Prelude.{◌≡◌, [], reverse};
ghost use Rattle.esis_lines.specs.DocumentAnswers.{ButForMemory};
ghost use Rattle.esis_lines.specs.LineMachine.{State, document_of_state, state_after, state_after_attribute, state_after_closing, state_after_end, state_after_start, state_after_text, state_with_element};
ghost use Rattle.esis_lines.specs.inside.CodeValues.{line_value, placed, reached};

use crate::appending::append;
use crate::doc_fault::DocFault;
use crate::line::Line;
use crate::open_element::OpenElement;
use acl_model::limits::{MOST_ATTRIBUTES, MOST_OPEN_ELEMENTS};
use acl_model::{Bytes, Doc, Element, Item, Sequence};
use sqlite_items::Boxed;
use std::alloc::Global;
use std::marker::Model;
use std::mem::replace;

/// What was read so far.
#[derive(Drop)]
pub struct Reader {
    /// The attributes that wait for the next start. There are none after the end of the root.
    waiting: Vec<Bytes>,
    /// The open elements, the innermost last.
    opened: Vec<OpenElement>,
    /// The root, once it has ended. From then on no element is open.
    root: Option<Element>,
}

impl Model for Reader {
    ghost use Rattle.std.specs.Coded.{codes};
    ghost use Rattle.acl_model.specs.contracts.document.Item as item;
    ghost use Rattle.esis_lines.specs.LineMachine.{State};
    ghost use Rattle.esis_lines.specs.inside.CodeValues.{state_of};

    ghost Value = { State };

    ghost coded = { Prim.hlevel (codes, item.the_row.coded) };

    ghost view = { λ r. state_of r.waiting.items r.opened.items r.root };
}

impl Reader {
    /// Before the first line.
    pub fn new(alloc: Global) -> Reader
        ensures { result ≡ State.Inside [] [] }
    {
        Reader {
            waiting: Vec::new(alloc),
            opened: Vec::new(alloc),
            root: None,
        }
    }

    /// An element starts with the attributes that wait.
    fn start(&mut self, alloc: Global, number: u32, name: &[u8]) -> Result<(), DocFault>
        ensures { ButForMemory (reached result self.new)
            (state_after_start number name.now self.old) }
    {
        if self.root.is_some() {
            return Err(DocFault::SecondRoot { line: number });
        }
        // This limits the depth of all recursion over a document, such as dropping it.
        if self.opened.len() >= usize::from(MOST_OPEN_ELEMENTS) {
            return Err(DocFault::TooDeep { line: number });
        }
        let attributes = replace(&mut self.waiting, Vec::new(alloc));
        self.opened
            .push(OpenElement::new(alloc, name, attributes)?)?;
        Ok(())
    }

    /// The innermost open element ends.
    fn end(&mut self, alloc: Global, number: u32, name: &[u8]) -> Result<(), DocFault>
        ensures { ButForMemory (reached result self.new)
            (state_after_end number name.now self.old) }
    {
        if !self.waiting.is_empty() || self.root.is_some() {
            return Err(DocFault::Unbalanced { line: number });
        }
        let Some(innermost) = self.opened.pop() else {
            return Err(DocFault::Unbalanced { line: number });
        };
        if innermost.name() != name {
            return Err(DocFault::Unbalanced { line: number });
        }
        self.root = place(alloc, innermost.close(), &mut self.opened)?;
        Ok(())
    }

    /// Adds a text to the innermost open element.
    fn say(&mut self, alloc: Global, number: u32, bytes: &[u8]) -> Result<(), DocFault>
        ensures { ButForMemory (reached result self.new)
            (state_after_text number bytes.now self.old) }
    {
        if self.root.is_some() || !self.waiting.is_empty() {
            return Err(DocFault::Unbalanced { line: number });
        }
        let Some(mut innermost) = self.opened.pop() else {
            return Err(DocFault::Unbalanced { line: number });
        };
        innermost.push(alloc, Item::Text(Sequence::from_slice(alloc, bytes)?))?;
        self.opened.push(innermost)?;
        Ok(())
    }

    /// An attribute waits for the next start.
    fn wait(&mut self, alloc: Global, number: u32, raw: &[u8]) -> Result<(), DocFault>
        ensures { ButForMemory (reached result self.new)
            (state_after_attribute number raw.now self.old) }
    {
        if self.root.is_some() {
            return Err(DocFault::SecondRoot { line: number });
        }
        if self.waiting.len() >= MOST_ATTRIBUTES {
            return Err(DocFault::TooManyAttributes { line: number });
        }
        append(alloc, &mut self.waiting, Sequence::from_slice(alloc, raw)?)?;
        Ok(())
    }

    /// Takes the closing line.
    fn close(&self, number: u32) -> Result<(), DocFault>
        ensures { ButForMemory (reached result self.now) (state_after_closing number self.now) }
    {
        if self.root.is_some() {
            return Ok(());
        }
        if !self.waiting.is_empty() {
            return Err(DocFault::Unbalanced { line: number });
        }
        if !self.opened.is_empty() {
            return Err(DocFault::Unbalanced { line: number });
        }
        Ok(())
    }

    /// Takes the line with this number, or refuses it. After an error the reader's state is unspecified.
    pub fn take(&mut self, alloc: Global, number: u32, line: Line) -> Result<(), DocFault>
        ensures { ButForMemory (reached result self.new)
            (state_after number self.old (line_value line.entry)) }
    {
        match line {
            Line::Start(name) => self.start(alloc, number, name),
            Line::End(name) => self.end(alloc, number, name),
            Line::Text(bytes) => self.say(alloc, number, bytes),
            Line::Attribute(raw) => self.wait(alloc, number, raw),
            Line::PassedBy => Ok(()),
            Line::Closing => self.close(number),
        }
    }

    /// The document, where its root has ended. `number` is that of the line that would follow the last.
    pub fn finish(self, number: u32) -> Result<Doc, DocFault>
        ensures { result ≡ document_of_state number self }
    {
        let Reader {
            waiting,
            opened,
            root,
        } = self;
        if let Some(root) = root {
            return Ok(Doc { root });
        }
        if !waiting.is_empty() || !opened.is_empty() {
            return Err(DocFault::Unbalanced { line: number });
        }
        Err(DocFault::NoRoot)
    }
}

/// Adds a whole element to the innermost open element. Where none is open, it is the root and is returned.
fn place(
    alloc: Global,
    element: Element,
    around: &mut Vec<OpenElement>,
) -> Result<Option<Element>, DocFault>
    ensures { ButForMemory (placed result around.new.items)
        (Ok (state_with_element element (reverse around.old.items))) }
{
    let Some(mut innermost) = around.pop() else {
        return Ok(Some(element));
    };
    innermost.push(alloc, Item::Child(Boxed::new(alloc, element)?))?;
    around.push(innermost)?;
    Ok(None)
}
