//! How deep elements are nested.

ghost use Rattle.std.specs.Prelude.{◌≡◌, ◌≤◌};
ghost use Rattle.acl_model.specs.Document.{height, height_of_item};

use acl_model::{Element, Item};

/// The greatest number of elements that are nested in each other, this one included.
#[cycle(tree)]
#[tactic(auto, using(acl_model::proofs::FormEquations::form_equations))]
pub(crate) fn height(element: &Element) -> u16
    requires { height element.now ≤ 255 }
    ensures { result ≡ height element.now }
{
    let mut greatest = 0;
    for item in element.items.as_slice() {
        greatest = greatest.max(height_of_item(item));
    }
    greatest + 1
}

/// The height of a child element, or 0 for a text.
#[cycle(tree)]
#[tactic(auto, using(acl_model::proofs::FormEquations::form_equations))]
fn height_of_item(item: &Item) -> u16
    requires { height_of_item item.now ≤ 255 }
    ensures { result ≡ height_of_item item.now }
{
    match item {
        Item::Text(_) => 0,
        Item::Child(element) => height(element.get()),
    }
}
