//! Small pseudorandom documents of elements `a`, `b` and `c` and of texts.

ghost use Rattle.std.specs.Prelude.{◌≡◌, ◌≤◌, true, map, IfOk};
ghost use Rattle.std.specs.List.{list_all};
ghost use Rattle.acl_model.specs.Document.{is_document, is_well_formed, item_well_formed, greatest, height, height_of_item};
ghost use Rattle.acl_model.specs.Names.{is_name};

use crate::draws::Draws;
use acl_model::{Bytes, Doc, Element, Item, Name, Sequence};
use sqlite_items::{Boxed, Items};
use std::alloc::{AllocError, Global};

/// A document with at most so many levels.
pub fn some_document(alloc: Global, draws: &mut Draws, levels: u16) -> Result<Doc, AllocError>
    requires some { 1 ≤ levels }
    requires few { levels ≤ 255 }
    ensures { IfOk result (λ d. is_document d ≡ true) }
{
    let root = some_element(alloc, draws, levels)?;
    Ok(Doc { root })
}

/// An element with at most so many levels.
#[cycle(made)]
#[tactic(auto, using(acl_model::proofs::FormEquations::form_equations))]
fn some_element(alloc: Global, draws: &mut Draws, levels: u16) -> Result<Element, AllocError>
    requires { 1 ≤ levels }
    ensures formed { IfOk result (λ e. is_well_formed is_name e ≡ true) }
    ensures few { IfOk result (λ e. height e ≤ levels) }
{
    let name = Name::from_slice(alloc, some_name(draws))?;
    let items = some_items(alloc, draws, levels - 1)?;
    Ok(Element {
        name,
        attributes: Sequence::new(alloc),
        items: Items::from_vec(items),
    })
}

/// Up to three items with at most so many levels.
#[cycle(made)]
#[tactic(auto, using(crate::proofs::ItemLaws::item_steps))]
fn some_items(alloc: Global, draws: &mut Draws, levels: u16) -> Result<Vec<Item>, AllocError>
    ensures formed { IfOk result (λ items.
        list_all (λ b. b) (map (item_well_formed is_name) items.items) ≡ true) }
    ensures few { IfOk result (λ items. greatest (map height_of_item items.items) ≤ levels) }
{
    let mut items = Vec::new(alloc);
    for _item in 0..draws.below(4) {
        items.push(some_item(alloc, draws, levels)?)?;
    }
    Ok(items)
}

/// A text, or an element where there may be one.
#[cycle(made)]
#[tactic(auto, using(acl_model::proofs::FormEquations::form_equations))]
fn some_item(alloc: Global, draws: &mut Draws, levels: u16) -> Result<Item, AllocError>
    ensures formed { IfOk result (λ item. item_well_formed is_name item ≡ true) }
    ensures few { IfOk result (λ item. height_of_item item ≤ levels) }
{
    if levels == 0 || draws.below(4) == 0 {
        return Ok(Item::Text(Bytes::from_slice(alloc, b"x")?));
    }
    let element = some_element(alloc, draws, levels)?;
    Ok(Item::Child(Boxed::new(alloc, element)?))
}

fn some_name(draws: &mut Draws) -> &'static [u8]
    ensures { is_name result.now ≡ true }
{
    match draws.below(3) {
        0 => b"a",
        1 => b"b",
        _ => b"c",
    }
}
