//! Checks whether a document can be walked under names, as `TreeWalk::new` requires.

ghost use Rattle.std.specs.Prelude.{◌≡◌, ◌↔◌, true};
ghost use Rattle.std.specs.List.{list_all};
ghost use Rattle.acl_model.specs.Dictionary.{are_distinct, start_names, item_start_names};
ghost use Rattle.acl_walk.specs.TreeState.{CanBeWalked, is_known, knows};

use crate::counting::is_short;
use crate::tags::{is_dummy, number_of};
use acl_model::limits::MOST_NAMES;
use acl_model::{Doc, Element, Item, Name, is_view_document};

/// Whether a document can be walked under the names. The tree is read once for its form, once for its
/// names, and once for the number of its events.
pub fn can_be_walked(doc: &Doc, names: &[Name]) -> bool
    ensures { (result ≡ true) ↔ CanBeWalked (record { doc = doc.now; names = names.now }) }
{
    names.len() <= MOST_NAMES
        && are_distinct(names)
        && is_view_document(doc)
        && knows(names, doc)
        && is_short(doc)
}

/// Whether no two of the names are the same.
fn are_distinct(names: &[Name]) -> bool
    ensures { result ≡ are_distinct names.now }
{
    for i in 0..names.len() {
        if number_of(&names[..i], names[i].as_slice()).is_some() {
            return false;
        }
    }
    true
}

/// Whether the name of each element in the document is known.
fn knows(names: &[Name], doc: &Doc) -> bool
    ensures { result ≡ knows names.now doc.now }
{
    knows_element(names, &doc.root)
}

/// Whether the name of the element, and of each element inside it, is known.
#[cycle(known)]
fn knows_element(names: &[Name], element: &Element) -> bool
    ensures { result ≡ list_all (is_known names.now) (start_names element.now) }
{
    if !is_known(names, element.name.as_slice()) {
        return false;
    }
    for item in element.items.as_slice() {
        if !knows_item(names, item) {
            return false;
        }
    }
    true
}

/// Whether the name of each element in an item is known.
#[cycle(known)]
#[tactic(auto, using(acl_model::proofs::DictionaryLaws::start_equations))]
fn knows_item(names: &[Name], item: &Item) -> bool
    ensures { result ≡ list_all (is_known names.now) (item_start_names item.now) }
{
    match item {
        Item::Text(_) => true,
        Item::Child(element) => knows_element(names, element.get()),
    }
}

/// Whether the name is a dummy's or one of the names.
fn is_known(names: &[Name], name: &[u8]) -> bool
    ensures { result ≡ is_known names.now name.now }
{
    is_dummy(name) || number_of(names, name).is_some()
}
