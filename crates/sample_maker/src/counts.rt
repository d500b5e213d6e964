//! How many elements and lines a tree has. The recursion is as deep as the tree.

ghost use Rattle.std.specs.Prelude.{◌≡◌, ◌^◌, ◌<◌};
ghost use Rattle.sample_maker.specs.inside.Counts.{element_count, item_element_count, line_count, item_line_count};

use acl_model::{Element, Item};

/// The number of elements in an element, itself included.
#[cycle(elements)]
#[tactic(auto, using(crate::proofs::CountEquations::count_steps))]
pub fn elements_in(element: &Element) -> u32
    requires { element_count element.now < 2 ^ 32 }
    ensures { result ≡ element_count element.now }
{
    let mut count = 1;
    for item in element.items.as_slice() {
        count += elements_in_item(item);
    }
    count
}

/// The number of elements in an item. A text has none.
#[cycle(elements)]
#[tactic(auto, using(crate::proofs::CountEquations::count_steps))]
fn elements_in_item(item: &Item) -> u32
    requires { item_element_count item.now < 2 ^ 32 }
    ensures { result ≡ item_element_count item.now }
{
    match item {
        Item::Text(_) => 0,
        Item::Child(element) => elements_in(element.get()),
    }
}

/// The number of lines of an element's text: one for each attribute, start, text and end.
#[cycle(lines)]
#[tactic(auto, using(crate::proofs::CountEquations::count_steps))]
pub fn lines_in(element: &Element) -> u32
    requires { line_count element.now < 2 ^ 32 }
    ensures { result ≡ line_count element.now }
{
    let mut count = element.attributes.len() as u32 + 2;
    for item in element.items.as_slice() {
        count += lines_in_item(item);
    }
    count
}

/// The number of lines of an item. A text has one.
#[cycle(lines)]
#[tactic(auto, using(crate::proofs::CountEquations::count_steps))]
fn lines_in_item(item: &Item) -> u32
    requires { item_line_count item.now < 2 ^ 32 }
    ensures { result ≡ item_line_count item.now }
{
    match item {
        Item::Text(_) => 1,
        Item::Child(element) => lines_in(element.get()),
    }
}
