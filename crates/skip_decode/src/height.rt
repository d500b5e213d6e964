//! How deep elements are nested.

ghost use Rattle.std.specs.Prelude.{◌≡◌, ◌≤◌, nat_le};
ghost use Rattle.acl_model.specs.Document.{height, height_of_item};

use acl_model::{Element, Item};

/// Whether so many elements or more are nested in each other, this one included. Nothing below the first ones is read.
#[cycle(tree)]
#[tactic(auto, using(acl_model::proofs::FormEquations::form_equations))]
pub(crate) fn has_levels(element: &Element, levels: u16) -> bool
    ensures { result ≡ nat_le levels (height element.now) }
{
    if levels <= 1 {
        return true;
    }
    for item in element.items.as_slice() {
        if item_has_levels(item, levels - 1) {
            return true;
        }
    }
    false
}

/// The same of an item. A text has no levels.
#[cycle(tree)]
#[tactic(auto, using(acl_model::proofs::FormEquations::form_equations))]
fn item_has_levels(item: &Item, levels: u16) -> bool
    requires { 1 ≤ levels }
    ensures { result ≡ nat_le levels (height_of_item item.now) }
{
    match item {
        Item::Text(_) => false,
        Item::Child(element) => has_levels(element.get(), levels),
    }
}
