//! Makes the authorised view of a document, by one walk that carries the NFA states of the rules.

ghost use Rattle.std.specs.Prelude.{◌≡◌, [], ◌∷◌, IfOk, OnOk, drop, length};
ghost use Rattle.std.specs.Option.{option_to_list};
ghost use Rattle.acl_model.specs.View.{view, view_by_sign, with_text};
ghost use Rattle.acl_model.proofs.ViewEquations.{is_filled};
ghost use Rattle.tree_meaning.specs.inside.Known.{StartsWith, preds_of, flags_within, flags_of_item};
ghost use Rattle.tree_meaning.specs.inside.StepMarks.{marked_steps, view_from, item_view};

use crate::known::Known;
use crate::marks::{Progress, all_begun, all_below, sign_of};
use crate::preds::find_flags;
use acl_model::{Bytes, Doc, Element, Item, Name, Rule, Sequence, Sign};
use acl_outside::NoMemory;
use sqlite_items::{Boxed, Items};
use std::alloc::{AllocError, Global};

/// A copy of a text, if its element is granted.
fn text_in_view(alloc: Global, own: Sign, bytes: &Bytes) -> Result<Option<Item>, AllocError>
    ensures { IfOk result (λ v. option_to_list v ≡ with_text own bytes.now []) }
{
    match own {
        Sign::Grant => Ok(Some(Item::Text(Bytes::from_slice(alloc, bytes.as_slice())?))),
        Sign::Deny => Ok(None),
    }
}

/// A copy of these attributes.
#[tactic(auto, using(crate::proofs::Lists::list_steps))]
fn copy_of(alloc: Global, attributes: &[Bytes]) -> Result<Sequence<Bytes>, AllocError>
    ensures { IfOk result (λ copy. copy ≡ attributes.now) }
{
    let mut copy = Vec::new(alloc);
    for attribute in attributes {
        copy.push(Bytes::from_slice(alloc, attribute.as_slice())?)?;
    }
    Ok(Sequence::from_vec(copy))
}

/// A dummy with these items.
fn dummy(alloc: Global, items: Items<Item>) -> Result<Element, AllocError>
    ensures { IfOk result (λ e. e ≡ record { name = 45 ∷ []; attributes = []; items = items }) }
{
    Ok(Element {
        name: Name::from_slice(alloc, b"-")?,
        attributes: Sequence::new(alloc),
        items,
    })
}

/// The view of an element of this sign, from the items of its view; `None` where nothing is shown.
fn element_with(
    alloc: Global,
    own: Sign,
    element: &Element,
    items: Items<Item>,
) -> Result<Option<Element>, AllocError>
    ensures { IfOk result (λ v. v ≡
        view_by_sign own (is_filled items) element.now.name element.now.attributes items) }
{
    match own {
        Sign::Grant => Ok(Some(Element {
            name: Name::from_slice(alloc, element.name.as_slice())?,
            attributes: copy_of(alloc, element.attributes.as_slice())?,
            items,
        })),
        Sign::Deny if items.is_empty() => Ok(None),
        Sign::Deny => Ok(Some(dummy(alloc, items)?)),
    }
}

/// The view of an element, by the row and the sign at its parent.
#[cycle(view)]
#[tactic(auto, using(crate::proofs::Lists::list_steps, crate::proofs::ViewLaws::view_from_is, crate::proofs::KnownLaws::walk_steps))]
fn element_in_view(
    alloc: Global,
    row: &[Progress<'_>],
    above: Sign,
    element: &Element,
    known: &mut Known<'_>,
) -> Result<Option<Element>, AllocError>
    requires { StartsWith (flags_within (preds_of (marked_steps row.now)) element.now) known.old }
    ensures view { IfOk result (λ v. v ≡ view_from (marked_steps row.now) above element.now) }
    ensures known { OnOk result (known.new
        ≡ drop (length (flags_within (preds_of (marked_steps row.now)) element.now)) known.old) }
{
    let row = all_below(alloc, row, element, known)?;
    let own = sign_of(row.as_slice(), above);
    let mut items = Vec::new(alloc);
    for item in element.items.as_slice() {
        if let Some(part) = item_in_view(alloc, row.as_slice(), own, item, known)? {
            items.push(part)?;
        }
    }
    element_with(alloc, own, element, Items::from_vec(items))
}

/// The view of an item, by the row and the sign at the element around it.
#[cycle(view)]
#[tactic(auto, using(crate::proofs::ViewLaws::item_view_equations, crate::proofs::KnownLaws::item_flags))]
fn item_in_view(
    alloc: Global,
    row: &[Progress<'_>],
    own: Sign,
    item: &Item,
    known: &mut Known<'_>,
) -> Result<Option<Item>, AllocError>
    requires { StartsWith (flags_of_item (preds_of (marked_steps row.now)) item.now) known.old }
    ensures view { IfOk result
        (λ v. option_to_list v ≡ item_view (marked_steps row.now) own item.now) }
    ensures known { OnOk result (known.new
        ≡ drop (length (flags_of_item (preds_of (marked_steps row.now)) item.now)) known.old) }
{
    match item {
        Item::Text(bytes) => text_in_view(alloc, own, bytes),
        Item::Child(element) => match element_in_view(alloc, row, own, element.get(), known)? {
            Some(part) => Ok(Some(Item::Child(Boxed::new(alloc, part)?))),
            None => Ok(None),
        },
    }
}

/// The authorised view of a document; `None` where nothing is granted.
pub fn view_tree(alloc: Global, doc: &Doc, rules: &[Rule]) -> Result<Option<Doc>, NoMemory>
    ensures exact { IfOk result (λ v. v ≡ view doc.now rules.now) }
{
    let row = all_begun(alloc, rules)?;
    let flags = find_flags(alloc, row.as_slice(), &doc.root)?;
    let mut known = Known::all(&flags);
    match element_in_view(alloc, row.as_slice(), Sign::Deny, &doc.root, &mut known)? {
        Some(root) => Ok(Some(Doc { root })),
        None => Ok(None),
    }
}
