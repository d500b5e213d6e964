//! Finds the sign of one element, by a walk down to its place.

ghost use Rattle.std.specs.Prelude.{◌≡◌, IfOk, IfSome, drop, length, option_copied, option_map};
ghost use Rattle.acl_model.specs.Places.{child, at, element_of};
ghost use Rattle.acl_model.specs.Decide.{sign};
ghost use Rattle.predicate_walk.specs.Truths.{preds_in};
ghost use Rattle.tree_meaning.specs.inside.Known.{StartsWith, preds_of, flags_within, flags_of_item, flags_of_items};
ghost use Rattle.tree_meaning.specs.inside.StepMarks.{marked_steps, sign_from, wanted_of, next_child_number};

use crate::known::Known;
use crate::marks::{Progress, all_begun, all_below, sign_of};
use crate::preds::{all_preds, find_flags_of};
use acl_model::{Doc, Element, Item, Place, Rule, Sign};
use acl_outside::NoMemory;
use predicate_walk::PredRef;
use std::alloc::{AllocError, Global};

/// The element of an item, if the item is one.
#[tactic(auto, using(crate::proofs::SignLaws::element_laws))]
fn element_in(item: &Item) -> Option<&Element>
    ensures { option_copied result ≡ element_of item.now }
{
    match item {
        Item::Text(_) => None,
        Item::Child(element) => Some(element.get()),
    }
}

/// The element of an item, if the item is one and the number that is looked for is 1.
fn wanted_in(item: &Item, number: u64) -> Option<&Element>
    ensures { option_copied result ≡ wanted_of (element_of item.now) number }
{
    match element_in(item) {
        Some(element) if number == 1 => Some(element),
        Some(_) => None,
        None => None,
    }
}

/// The number to look for after an item: one less after an element.
fn number_left(item: &Item, number: u64) -> u64
    ensures { result ≡ next_child_number (element_of item.now) number }
{
    match element_in(item) {
        Some(_) => number.saturating_sub(1),
        None => number,
    }
}

/// Skips the flags of an element and of each one inside it.
#[cycle(past)]
#[tactic(auto, using(crate::proofs::KnownLaws::pass_steps))]
fn pass_element(preds: &[PredRef<'_>], element: &Element, known: &mut Known<'_>)
    ensures { known.new
        ≡ drop (length (flags_within (preds_in preds.now) element.now)) known.old }
{
    if preds.is_empty() {
        return;
    }
    known.pass(preds.len());
    for item in element.items.as_slice() {
        pass_item(preds, item, known);
    }
}

/// Skips the flags of the elements of an item.
#[cycle(past)]
#[tactic(auto, using(crate::proofs::KnownLaws::item_flags))]
fn pass_item(preds: &[PredRef<'_>], item: &Item, known: &mut Known<'_>)
    ensures { known.new ≡ drop (length (flags_of_item (preds_in preds.now) item.now)) known.old }
{
    match item {
        Item::Text(_) => {}
        Item::Child(element) => pass_element(preds, element.get(), known),
    }
}

/// The element child of this number, from 1. Skips the flags of the elements before it.
fn child_at<'a>(
    items: &'a [Item],
    number: u64,
    preds: &[PredRef<'_>],
    known: &mut Known<'_>,
) -> Option<&'a Element>
    requires { StartsWith (flags_of_items (preds_in preds.now) items.now) known.old }
    ensures found { option_copied result ≡ child items.now number }
    ensures known { IfSome (option_copied result)
        (λ e. StartsWith (flags_within (preds_in preds.now) e) known.new) }
{
    let mut left = number;
    for item in items {
        match wanted_in(item, left) {
            Some(element) => return Some(element),
            None => {
                left = number_left(item, left);
                pass_item(preds, item, known);
            }
        }
    }
    None
}

/// The sign at a place that is counted from the element on; `None` where no element has the place.
fn sign_below(
    alloc: Global,
    row: &[Progress<'_>],
    above: Sign,
    element: &Element,
    place: &[u64],
    preds: &[PredRef<'_>],
    known: &mut Known<'_>,
) -> Result<Option<Sign>, AllocError>
    requires preds { preds_in preds.now ≡ preds_of (marked_steps row.now) }
    requires known { StartsWith (flags_within (preds_in preds.now) element.now) known.old }
    ensures { IfOk result
        (λ found. found ≡ sign_from (marked_steps row.now) above element.now place.now) }
{
    let row = all_below(alloc, row, element, known)?;
    let own = sign_of(row.as_slice(), above);
    match place {
        [] => Ok(Some(own)),
        [number, rest @ ..] => {
            match child_at(element.items.as_slice(), *number, preds, known) {
                Some(child) => {
                    let found = sign_below(alloc, row.as_slice(), own, child, rest, preds, known)?;
                    Ok(found)
                }
                None => Ok(None),
            }
        }
    }
}

/// The sign of the element at a place; `None` where no element has the place.
pub fn sign_at(
    alloc: Global,
    doc: &Doc,
    rules: &[Rule],
    place: &Place,
) -> Result<Option<Sign>, NoMemory>
    ensures exact { IfOk result (λ found. found
        ≡ option_map (λ e. sign doc.now rules.now place.now) (at doc.now place.now)) }
{
    let row = all_begun(alloc, rules)?;
    let preds = all_preds(alloc, row.as_slice())?;
    let flags = find_flags_of(alloc, preds.as_slice(), &doc.root)?;
    let found = sign_below(
        alloc,
        row.as_slice(),
        Sign::Deny,
        &doc.root,
        place.as_slice(),
        preds.as_slice(),
        &mut Known::all(&flags),
    )?;
    Ok(found)
}
