//! Makes the hospital with n folders in one pass. It needs the memory of the document.

ghost use Rattle.std.specs.Prelude.{◌≡◌, ℕ, ◌+◌, ◌<◌, ◌≤◌, [], ◌∷◌, ◌++◌, map, decimal, IfOk};
ghost use Rattle.std.specs.List.{concat};
ghost use Rattle.sample_maker.specs.Hospital as word;

use acl_model::{Bytes, Doc, Element, Item, Name, Sequence};
use acl_outside::NoMemory;
use itoa::Buffer;
use sqlite_items::{Boxed, Items};
use std::alloc::{AllocError, Global};

/// The bytes of all parts, one after another.
pub fn joined(alloc: Global, parts: &[&[u8]]) -> Result<Bytes, AllocError>
    ensures { IfOk result (λ bytes. bytes ≡ concat (map (λ part. part.now) parts.now)) }
{
    let mut bytes = Vec::new(alloc);
    for part in parts {
        bytes.extend_from_slice(part)?;
    }
    Ok(Bytes::from_vec(bytes))
}

/// The prefix, followed by the number in decimal.
fn numbered(alloc: Global, prefix: &[u8], number: u32) -> Result<Bytes, AllocError>
    ensures { IfOk result (λ bytes. bytes ≡ concat (prefix.now ∷ decimal number ∷ [])) }
{
    joined(alloc, &[prefix, Buffer::new().format(number).as_bytes()])
}

/// An element with this name, these attributes and these items.
fn element(
    alloc: Global,
    name: &[u8],
    attributes: Sequence<Bytes>,
    items: Vec<Item>,
) -> Result<Element, AllocError>
    ensures { IfOk result (λ e. e ≡
        record { name = name.now; attributes = attributes; items = items.items }) }
{
    Ok(Element {
        name: Name::from_slice(alloc, name)?,
        attributes,
        items: Items::from_vec(items),
    })
}

/// The item that is a child element.
fn child(alloc: Global, element: Element) -> Result<Item, AllocError>
    ensures { IfOk result (λ item. item ≡ Item.Child element) }
{
    Ok(Item::Child(Boxed::new(alloc, element)?))
}

/// A child element without attributes.
fn plain(alloc: Global, name: &[u8], items: Vec<Item>) -> Result<Item, AllocError>
    ensures { IfOk result (λ item. item ≡ Item.Child (word.plain name.now items.items)) }
{
    child(alloc, element(alloc, name, Sequence::new(alloc), items)?)
}

/// A child element that contains one text and has no attributes.
fn field(alloc: Global, name: &[u8], text: Bytes) -> Result<Item, AllocError>
    ensures { IfOk result (λ item. item ≡ word.field name.now text) }
{
    plain(alloc, name, vec![in alloc; Item::Text(text)]?)
}

/// The element `Admin` of folder i, which is about its patient.
#[tactic(auto, unfolding(crate::specs::Hospital::admin))]
fn admin(alloc: Global, i: u32) -> Result<Item, AllocError>
    requires { i ≤ 20000 }
    ensures { IfOk result (λ item. item ≡ word.admin i) }
{
    let fields = vec![in alloc;
        field(alloc, b"SSN", numbered(alloc, b"", 100_000_000 + 7001 * i)?)?,
        field(alloc, b"Fname", numbered(alloc, b"Patient", i)?)?,
        field(alloc, b"Age", numbered(alloc, b"", 20 + i % 70)?)?,
    ]?;
    plain(alloc, b"Admin", fields)
}

/// The physician of act j in folder i.
#[tactic(auto, unfolding(crate::specs::Hospital::physician))]
fn physician(i: u32, j: u32) -> &'static [u8]
    requires few { i ≤ 20000 }
    requires fewer { j < 4 }
    ensures { result.now ≡ word.physician i j }
{
    match (i + j) % 3 {
        0 => b"Ana",
        1 => b"Bea",
        _ => b"Cy",
    }
}

/// Act j of folder i.
#[tactic(auto, unfolding(crate::specs::Hospital::act))]
fn act(alloc: Global, i: u32, j: u32) -> Result<Item, AllocError>
    requires few { i ≤ 20000 }
    requires fewer { j < 4 }
    ensures { IfOk result (λ item. item ≡ word.act i j) }
{
    let (mut folder, mut number) = (Buffer::new(), Buffer::new());
    let (folder, number) = (folder.format(i).as_bytes(), number.format(j).as_bytes());
    let details = joined(alloc, &[b"note ", folder, b".", number])?;
    let fields = vec![in alloc;
        field(alloc, b"RPhys", Bytes::from_slice(alloc, physician(i, j))?)?,
        field(alloc, b"Details", details)?,
    ]?;
    plain(alloc, b"Act", fields)
}

/// The one attribute of folder i, its identifier.
fn identifier(alloc: Global, i: u32) -> Result<Sequence<Bytes>, AllocError>
    ensures { IfOk result (λ attributes. attributes ≡ word.identifier i) }
{
    let attribute = numbered(alloc, b"Id CDATA f", i)?;
    Ok(Sequence::from_vec(vec![in alloc; attribute]?))
}

/// Folder i.
#[tactic(auto, unfolding(crate::specs::Hospital::folder))]
fn folder(alloc: Global, i: u32) -> Result<Item, AllocError>
    requires { i ≤ 20000 }
    ensures { IfOk result (λ item. item ≡ word.folder i) }
{
    let acts = i % 4;
    let mut items = Vec::with_capacity(alloc, 1 + acts as usize)?;
    items.push(admin(alloc, i)?)?;
    for j in 1..acts + 1 {
        items.push(act(alloc, i, j)?)?;
    }
    let folder = element(alloc, b"Folder", identifier(alloc, i)?, items)?;
    Ok(child(alloc, folder)?)
}

/// The hospital with n folders.
#[tactic(auto, using(crate::proofs::Lists::list_steps), unfolding(crate::specs::Hospital::hospital))]
pub fn hospital(alloc: Global, n: u32) -> Result<Doc, NoMemory>
    requires some { 1 ≤ n }
    requires few { n ≤ 20000 }
    ensures exact { IfOk result (λ d. d ≡ word.hospital n) }
{
    let mut folders = Vec::with_capacity(alloc, n as usize)?;
    for i in 1..n + 1 {
        folders.push(folder(alloc, i)?)?;
    }
    let root = element(alloc, b"Hospital", Sequence::new(alloc), folders)?;
    Ok(Doc { root })
}
