//! Finds which elements a path selects, and where the signs of a document's elements come from, by one walk in document
//! order.

ghost use Rattle.std.specs.Prelude.{◌≡◌, ◌<◌, ◌≤◌, ◌+◌, ◌-◌, ◌^◌, [], ◌∷◌, ◌++◌, IfOk, OnOk, map, length, drop, if◌then◌else◌};
ghost use Rattle.acl_model.specs.Places.{element_of};
ghost use Rattle.acl_model.specs.Explain.{explain, selected};
ghost use Rattle.tree_meaning.specs.inside.Known.{StartsWith, preds_of, flags_within, flags_of_item};
ghost use Rattle.tree_meaning.specs.inside.StepMarks.{marked_step, marked_steps, row_below};
ghost use Rattle.tree_meaning.specs.inside.ExplainWalk.{explanation_in, explanations_in, rules_in, is_last, selects_as, first_here, is_selected_here, told_here, told_if_selected, told_if_unselected, told_from, told_of_child, number_after};

use crate::known::Known;
use crate::marks::{Progress, all_begun, all_below, begin, does_any_select, sign_of};
use crate::preds::find_flags;
use acl_bits::Flags;
use acl_model::{Doc, Element, Item, Path, Place, Rule, Sign};
use acl_outside::NoMemory;
use std::alloc::{AllocError, Global};

/// The explanation of an element: its sign, and the rule that it comes from.
#[derive(Debug, Drop)]
pub struct Told {
    pub place: Place,
    pub sign: Sign,
    /// The number, from 0, of the first rule of this sign that selects the element's decider; `None` where no rule
    /// does.
    pub rule: Option<u16>,
}

/// The number of the rule after this step.
fn next_child_number(progress: &Progress<'_>, number: u32) -> u32
    requires { number ≤ 65536 }
    ensures { result ≡ (if is_last (marked_step progress.now) then number + 1 else number) }
{
    match progress.ends {
        Some(_) => number + 1,
        None => number,
    }
}

/// Whether this is the last step of a rule of this sign that selects the element.
fn does_select_as(progress: &Progress<'_>, own: Sign) -> bool
    ensures { result ≡ selects_as own (marked_step progress.now) }
{
    match (progress.ends, own) {
        (Some(Sign::Grant), Sign::Grant) => progress.mark.here,
        (Some(Sign::Deny), Sign::Deny) => progress.mark.here,
        (Some(Sign::Grant), Sign::Deny) => false,
        (Some(Sign::Deny), Sign::Grant) => false,
        (None, _) => false,
    }
}

/// The number of the first rule of this sign that selects the element; `None` where none does.
pub(crate) fn first_rule(row: &[Progress<'_>], own: Sign) -> Option<u16>
    requires { rules_in (marked_steps row.now) ≤ 65536 }
    ensures { result ≡ first_here own (marked_steps row.now) 0 }
{
    let mut number: u32 = 0;
    for progress in row {
        if does_select_as(progress, own) {
            return Some(number as u16);
        }
        number = next_child_number(progress, number);
    }
    None
}

/// The explanation of the element at this place, by the row at it.
#[tactic(auto, unfolding(crate::specs::inside::ExplainWalk::told_here))]
fn told_at(alloc: Global, row: &[Progress<'_>], place: &[u64]) -> Result<Told, AllocError>
    requires { rules_in (marked_steps row.now) ≤ 65536 }
    ensures { IfOk result
        (λ told. explanation_in told ≡ told_here (marked_steps row.now) place.now) }
{
    let sign = sign_of(row, Sign::Deny);
    Ok(Told {
        place: Place::from_slice(alloc, place)?,
        sign,
        rule: first_rule(row, sign),
    })
}

/// Whether some rule selects the element, by the row at it.
#[tactic(auto, using(crate::proofs::Lists::any_map))]
pub(crate) fn is_selected(row: &[Progress<'_>]) -> bool
    ensures { result ≡ is_selected_here (marked_steps row.now) }
{
    does_any_select(row)
}

/// Appends the explanation of the element at this place, if a rule selects it, by the row at it.
fn tell_if_selected(
    alloc: Global,
    row: &[Progress<'_>],
    place: &[u64],
    told: &mut Vec<Told>,
) -> Result<(), AllocError>
    requires { rules_in (marked_steps row.now) ≤ 65536 }
    ensures { IfOk result (λ done. explanations_in told.new.items
        ≡ explanations_in told.old.items ++ told_if_selected (marked_steps row.now) place.now) }
{
    if is_selected(row) {
        told.push(told_at(alloc, row, place)?)?;
    }
    Ok(())
}

/// Appends the explanation of the root, if no rule selects it, by the row at the virtual root.
fn tell_if_unselected(
    alloc: Global,
    row: &[Progress<'_>],
    root: &Element,
    flags: &Flags,
    told: &mut Vec<Told>,
) -> Result<(), AllocError>
    requires few { rules_in (marked_steps row.now) ≤ 65536 }
    requires known { flags.now ≡ flags_within (preds_of (marked_steps row.now)) root.now }
    ensures { IfOk result (λ done. explanations_in told.new.items
        ≡ explanations_in told.old.items
        ++ told_if_unselected (row_below root.now (marked_steps row.now))) }
{
    let mut known = Known::all(flags);
    let row = all_below(alloc, row, root, &mut known)?;
    if !is_selected(row.as_slice()) {
        told.push(told_at(alloc, row.as_slice(), &[])?)?;
    }
    Ok(())
}

/// The number of the next element child after an item: one more after an element.
#[tactic(auto, using(crate::proofs::SignLaws::element_laws))]
pub(crate) fn number_after(item: &Item, number: u64) -> u64
    requires { number < 2 ^ 64 - 1 }
    ensures { result ≡ number_after (element_of item.now) number }
{
    match item {
        Item::Text(_) => number,
        Item::Child(_) => number + 1,
    }
}

/// Appends the explanations of an element and of those inside it, of each that a rule selects. `place` is the place of
/// the element, before and after the call.
#[cycle(walk)]
#[tactic(auto, using(crate::proofs::ToldLaws::rules_below, crate::proofs::Lists::list_steps, crate::proofs::KnownLaws::walk_steps))]
fn explain_element(
    alloc: Global,
    row: &[Progress<'_>],
    element: &Element,
    known: &mut Known<'_>,
    place: &mut Vec<u64>,
    told: &mut Vec<Told>,
) -> Result<(), AllocError>
    requires few { rules_in (marked_steps row.now) ≤ 65536 }
    requires known { StartsWith (flags_within (preds_of (marked_steps row.now)) element.now)
        known.old }
    ensures place { IfOk result (λ done. place.new.items ≡ place.old.items) }
    ensures known { OnOk result (known.new
        ≡ drop (length (flags_within (preds_of (marked_steps row.now)) element.now)) known.old) }
    ensures told { IfOk result (λ done. explanations_in told.new.items
        ≡ explanations_in told.old.items
        ++ told_from (marked_steps row.now) place.old.items element.now) }
{
    let row = all_below(alloc, row, element, known)?;
    tell_if_selected(alloc, row.as_slice(), place.as_slice(), told)?;
    let mut number: u64 = 1;
    for item in element.items.as_slice() {
        explain_item(alloc, row.as_slice(), number, item, known, place, told)?;
        number = number_after(item, number);
    }
    Ok(())
}

/// Does the same for the elements in an item of the element at `place`. If the item is an element, it has this number.
#[cycle(walk)]
#[tactic(auto, using(crate::proofs::SignLaws::element_laws, crate::proofs::Lists::list_steps, crate::proofs::KnownLaws::item_flags))]
fn explain_item(
    alloc: Global,
    row: &[Progress<'_>],
    number: u64,
    item: &Item,
    known: &mut Known<'_>,
    place: &mut Vec<u64>,
    told: &mut Vec<Told>,
) -> Result<(), AllocError>
    requires few { rules_in (marked_steps row.now) ≤ 65536 }
    requires known { StartsWith (flags_of_item (preds_of (marked_steps row.now)) item.now)
        known.old }
    ensures place { IfOk result (λ done. place.new.items ≡ place.old.items) }
    ensures known { OnOk result (known.new
        ≡ drop (length (flags_of_item (preds_of (marked_steps row.now)) item.now)) known.old) }
    ensures told { IfOk result (λ done. explanations_in told.new.items
        ≡ explanations_in told.old.items
        ++ told_of_child (marked_steps row.now) place.old.items number (element_of item.now)) }
{
    match item {
        Item::Text(_) => Ok(()),
        Item::Child(child) => {
            place.push(number)?;
            explain_element(alloc, row, child.get(), known, place, told)?;
            place.pop();
            Ok(())
        }
    }
}

/// Appends the explanation of each element that a rule selects.
fn explain_all(
    alloc: Global,
    row: &[Progress<'_>],
    doc: &Doc,
    flags: &Flags,
    told: &mut Vec<Told>,
) -> Result<(), AllocError>
    requires few { rules_in (marked_steps row.now) ≤ 65536 }
    requires known { flags.now ≡ flags_within (preds_of (marked_steps row.now)) doc.now.root }
    ensures { IfOk result (λ done. explanations_in told.new.items
        ≡ explanations_in told.old.items ++ told_from (marked_steps row.now) [] doc.now.root) }
{
    let mut known = Known::all(flags);
    let mut place = Vec::new(alloc);
    explain_element(alloc, row, &doc.root, &mut known, &mut place, told)?;
    Ok(())
}

/// The explanations of the root and of each element that a rule selects, in document order.
pub fn explain_tree(alloc: Global, doc: &Doc, rules: &[Rule]) -> Result<Vec<Told>, NoMemory>
    requires { length rules.now ≤ 65536 }
    ensures exact { IfOk result
        (λ told. explanations_in told.items ≡ explain doc.now rules.now) }
{
    let row = all_begun(alloc, rules)?;
    let flags = find_flags(alloc, row.as_slice(), &doc.root)?;
    let mut told = Vec::new(alloc);
    tell_if_unselected(alloc, row.as_slice(), &doc.root, &flags, &mut told)?;
    explain_all(alloc, row.as_slice(), doc, &flags, &mut told)?;
    Ok(told)
}

/// The places of these explanations.
fn places_of(alloc: Global, told: Vec<Told>) -> Result<Vec<Place>, AllocError>
    ensures { IfOk result (λ places. places.items ≡ map (λ one. one.place) told.items) }
{
    let mut places = Vec::with_capacity(alloc, told.len())?;
    for one in told {
        let Told { place, .. } = one;
        places.push(place)?;
    }
    Ok(places)
}

/// The places of the elements that a path selects, in document order.
pub fn selected(alloc: Global, doc: &Doc, path: &Path) -> Result<Vec<Place>, NoMemory>
    ensures exact { IfOk result (λ places. places.items ≡ selected doc.now path.now) }
{
    let mut row = Vec::new(alloc);
    begin(&mut row, Sign::Grant, path.steps.as_slice())?;
    let flags = find_flags(alloc, row.as_slice(), &doc.root)?;
    let mut told = Vec::new(alloc);
    explain_all(alloc, row.as_slice(), doc, &flags, &mut told)?;
    let places = places_of(alloc, told)?;
    Ok(places)
}
