//! Counts the events of a tree. Counts saturate at the greatest `u64`, so each count below it is exact.

ghost use Rattle.std.specs.Prelude.{◌≡◌, ◌↔◌, ◌-◌, ◌^◌, ◌<◌, ℕ, List, true, length, min};
ghost use Rattle.acl_walk.specs.Pieces.{pieces};
ghost use Rattle.acl_walk.specs.TreeEvents.{document_events, element_events, item_events};

use acl_model::{Doc, Element, Item};

/// Whether a document has fewer than 2^64 events, End included.
pub(crate) fn is_short(doc: &Doc) -> bool
    ensures { (names : List (List ℕ))
        → (result ≡ true) ↔ (length (document_events names doc.now) < 2 ^ 64) }
{
    element_count(&doc.root) < u64::MAX
}

/// How many events an element has: Begin, HeadEnd, Finish, and those of its attributes and items.
#[cycle(count)]
fn element_count(element: &Element) -> u64
    ensures { (names : List (List ℕ))
        → result ≡ min (length (element_events names element.now)) (2 ^ 64 - 1) }
{
    let mut count = 3u64;
    for raw in element.attributes.as_slice() {
        count = count.saturating_add(piece_count(raw.as_slice()));
    }
    for item in element.items.as_slice() {
        count = count.saturating_add(item_count(item));
    }
    count
}

/// How many events an item has.
#[cycle(count)]
fn item_count(item: &Item) -> u64
    ensures { (names : List (List ℕ))
        → result ≡ min (length (item_events names item.now)) (2 ^ 64 - 1) }
{
    match item {
        Item::Text(bytes) => piece_count(bytes.as_slice()),
        Item::Child(element) => element_count(element.get()),
    }
}

/// How many pieces a text or a raw attribute has.
fn piece_count(bytes: &[u8]) -> u64
    ensures { result ≡ length (pieces bytes.now) }
{
    (bytes.len().saturating_sub(1) / 256 + 1) as u64
}
