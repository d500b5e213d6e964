//! Documents, written as lines with `;` between them. In a line, `z*256` is 256 times the letter `z`.

use acl_model::{Bytes, Doc, Element, Item, Name, Sequence};
use sqlite_items::{Boxed, Items};
use std::alloc::{AllocError, Global};
use std::test::Fail;

/// An element whose end hasn't come yet.
#[derive(Drop)]
struct OpenElement {
    name: Name,
    attributes: Vec<Bytes>,
    items: Vec<Item>,
}

/// The bytes of a line: the byte before a `*` comes as often as the number after the `*` says.
pub(super) fn bytes_of(alloc: Global, line: &str) -> Result<Vec<u8>, Fail> {
    let (start, count) = line.split_once('*').unwrap_or((line, "1"));
    let count: u32 = count.parse()?;
    let mut bytes = Vec::new(alloc);
    bytes.extend_from_slice(start.as_bytes())?;
    if let [.., last] = start.as_bytes() {
        for _ in 1..count {
            bytes.push(*last)?;
        }
    }
    Ok(bytes)
}

/// Adds an item to the innermost open element.
fn add(open: &mut Vec<OpenElement>, item: Item) -> Result<(), Fail> {
    match open.last_mut() {
        Some(around) => around.items.push(item)?,
        None => return Err("nothing is open".into()),
    }
    Ok(())
}

fn closed(open: OpenElement) -> Element {
    Element {
        name: open.name,
        attributes: Sequence::from_vec(open.attributes),
        items: Items::from_vec(open.items),
    }
}

/// The document with these lines.
pub(super) fn document(alloc: Global, lines: &str) -> Result<Doc, Fail> {
    let mut open = Vec::new(alloc);
    let mut attributes = Vec::new(alloc);
    for line in lines.split(';') {
        let bytes = bytes_of(alloc, line)?;
        match bytes.as_slice() {
            [b'A', raw @ ..] => attributes.push(Bytes::from_slice(alloc, raw)?)?,
            [b'(', name @ ..] => {
                let name = Name::from_slice(alloc, name)?;
                open.push(OpenElement {
                    name,
                    attributes,
                    items: Vec::new(alloc),
                })?;
                attributes = Vec::new(alloc);
            }
            [b'-', text @ ..] => add(&mut open, Item::Text(Bytes::from_slice(alloc, text)?))?,
            _ => {
                let root = closed(open.pop().ok_or("nothing is open")?);
                if open.is_empty() {
                    return Ok(Doc { root });
                }
                add(&mut open, Item::Child(Boxed::new(alloc, root)?))?;
            }
        }
    }
    Err("an element is open".into())
}

/// The names in a text with spaces between them.
pub(super) fn names(alloc: Global, text: &str) -> Result<Vec<Name>, AllocError> {
    let mut names = Vec::new(alloc);
    for name in text.split(' ') {
        names.push(Name::from_slice(alloc, name.as_bytes())?)?;
    }
    Ok(names)
}
