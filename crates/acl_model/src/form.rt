//! Checks that a tree is a document or a view document: that its names, raw attributes and texts have the right form,
//! and that it isn't too deep.

ghost use Rattle.std.specs.Prelude.{◌≡◌, ◌&&◌, nat_eq, nat_le, map, length};
ghost use Rattle.std.specs.Char.{is_ascii_uppercase};
ghost use Rattle.std.specs.List.{list_all, before_first};
ghost use Rattle.acl_model.specs.Limits.{most_attributes};
ghost use Rattle.acl_model.specs.Ascii.{space, line_feed};
ghost use Rattle.acl_model.specs.Lines.{lacks, is_within_line};
ghost use Rattle.acl_model.specs.Document.{is_type, is_raw_attribute, is_dummy_name, is_well_formed, item_well_formed, greatest, height, height_of_item, is_document, is_view_document};
ghost use Rattle.acl_model.specs.inside.Form.{allows};

use crate::document::{Doc, Element, Item};
use crate::limits::{MOST_ATTRIBUTES, MOST_OPEN_ELEMENTS};
use crate::lines::cut;
use crate::names::is_a_name;
use crate::sequence::Bytes;

/// The names that elements may have.
#[derive(Clone, Copy)]
enum Allowed {
    InDocuments,
    InViews,
}

/// Whether the tree is a document. No element below the greatest depth is read.
pub fn is_document(doc: &Doc) -> bool
    ensures { result ≡ is_document doc.now }
{
    element_is_formed(&doc.root, Allowed::InDocuments, MOST_OPEN_ELEMENTS)
}

/// Whether the tree is a view document. No element below the greatest depth is read.
pub fn is_view_document(doc: &Doc) -> bool
    ensures { result ≡ is_view_document doc.now }
{
    element_is_formed(&doc.root, Allowed::InViews, MOST_OPEN_ELEMENTS)
}

/// Whether an element has the right form and at most `levels` levels.
#[cycle(form)]
fn element_is_formed(element: &Element, names: Allowed, levels: u16) -> bool
    ensures { result ≡ (is_well_formed (allows names) element.now
        && nat_le (height element.now) levels) }
{
    if levels == 0 || !has_own_form(element, names) {
        return false;
    }
    items_are_formed(element.items.as_slice(), names, levels - 1)
}

/// The same for all items of a list.
#[cycle(form)]
fn items_are_formed(items: &[Item], names: Allowed, levels: u16) -> bool
    ensures { result ≡ (list_all (λ b. b) (map (item_well_formed (allows names)) items.now)
        && nat_le (greatest (map height_of_item items.now)) levels) }
{
    for item in items {
        if !item_is_formed(item, names, levels) {
            return false;
        }
    }
    true
}

/// The same for one item.
#[cycle(form)]
#[tactic(auto, using(crate::proofs::FormEquations::form_equations))]
fn item_is_formed(item: &Item, names: Allowed, levels: u16) -> bool
    ensures { result ≡ (item_well_formed (allows names) item.now
        && nat_le (height_of_item item.now) levels) }
{
    match item {
        Item::Text(text) => fits_a_line(text.as_slice()),
        Item::Child(element) => element_is_formed(element.get(), names, levels),
    }
}

/// Whether an element's name and attributes have the right form.
fn has_own_form(element: &Element, names: Allowed) -> bool
    ensures { result ≡ (allows names element.now.name
        && nat_le (length element.now.attributes) most_attributes
        && list_all is_raw_attribute element.now.attributes) }
{
    allows(names, element.name.as_slice())
        && element.attributes.len() <= MOST_ATTRIBUTES
        && are_raw_attributes(element.attributes.as_slice())
}

/// Whether an element may have the name.
fn allows(names: Allowed, name: &[u8]) -> bool
    ensures { result ≡ allows names name.now }
{
    match names {
        Allowed::InDocuments => is_a_name(name),
        Allowed::InViews => is_a_name(name) || is_dummy(name),
    }
}

/// Whether the name is that of a dummy.
fn is_dummy(name: &[u8]) -> bool
    ensures { result ≡ is_dummy_name name.now }
{
    matches!(name, [b'-'])
}

/// Whether all are raw attributes.
fn are_raw_attributes(attributes: &[Bytes]) -> bool
    ensures { result ≡ list_all is_raw_attribute attributes.now }
{
    attributes
        .iter()
        .all(|raw| is_raw_attribute(raw.as_slice()))
}
/// Whether these are a name, a space and a type, and perhaps a space and a value.
fn is_raw_attribute(raw: &[u8]) -> bool
    ensures { result ≡ is_raw_attribute raw.now }
{
    let Some((name, after)) = cut(raw, b' ') else {
        return false;
    };
    if !is_a_name(name) || !is_type(first_word(after)) {
        return false;
    }
    fits_a_line(raw)
}

/// What comes before the first space, or all bytes where there is none.
fn first_word(bytes: &[u8]) -> &[u8]
    ensures { result.now ≡ before_first (λ b. nat_eq b space) bytes.now }
{
    match cut(bytes, b' ') {
        Some((word, _)) => word,
        None => bytes,
    }
}

/// Whether these are capital letters, at least one.
fn is_type(bytes: &[u8]) -> bool
    ensures { result ≡ is_type bytes.now }
{
    match bytes {
        [] => false,
        _ => are_capital(bytes),
    }
}

/// Whether each is a capital letter.
fn are_capital(bytes: &[u8]) -> bool
    ensures { result ≡ list_all is_ascii_uppercase bytes.now }
{
    bytes.iter().all(|byte| byte.is_ascii_uppercase())
}

/// Whether the bytes fit a line.
fn fits_a_line(bytes: &[u8]) -> bool
    ensures { result ≡ is_within_line bytes.now }
{
    lacks_line_feed(bytes)
}

/// Whether none of the bytes is a line feed.
fn lacks_line_feed(bytes: &[u8]) -> bool
    ensures { result ≡ lacks line_feed bytes.now }
{
    bytes.iter().all(|byte| *byte != b'\n')
}
