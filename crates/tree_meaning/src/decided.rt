//! Finds where the sign of each element comes from, by one walk in document order. All the memory that writing the
//! explanations needs is allocated here.

ghost use Rattle.std.specs.Prelude.{◌≡◌, ◌≤◌, ◌++◌, Some, IfOk, OnOk, length, drop};
ghost use Rattle.std.specs.List.{flat_map};
ghost use Rattle.acl_model.specs.Places.{element_of};
ghost use Rattle.tree_meaning.specs.inside.Known.{StartsWith, preds_of, flags_within, flags_of_item, flags_of_items};
ghost use Rattle.tree_meaning.specs.inside.StepMarks.{marked_steps, begun_rule};
ghost use Rattle.tree_meaning.specs.inside.ExplainWalk.{rules_in};
ghost use Rattle.tree_meaning.specs.inside.Decided.{decided_here, entry_here, entries_from, entries_of_child, entries_of_items, entries_of_root};

use crate::explain::{first_rule, is_selected};
use crate::known::Known;
use crate::marks::{Progress, all_begun, all_below, sign_of};
use crate::preds::find_flags;
use acl_model::{Doc, Element, Item, Rule, Sign};
use acl_outside::NoMemory;
use std::alloc::{AllocError, Global};

/// The sign of an element, and the rule that it comes from.
#[derive(Clone, Copy)]
pub(crate) struct Decided {
    pub sign: Sign,
    /// The number, from 0, of the first rule of this sign that selects the element; `None` where no rule does.
    pub rule: Option<u16>,
}

/// Where the sign of an element comes from, by the row at it. Where no rule selects it, it is denied and has no rule.
#[tactic(auto, unfolding(crate::specs::inside::Decided::decided_here))]
fn decided_by(row: &[Progress<'_>]) -> Decided
    requires { rules_in (marked_steps row.now) ≤ 65536 }
    ensures { result ≡ decided_here (marked_steps row.now) }
{
    let sign = sign_of(row, Sign::Deny);
    Decided {
        sign,
        rule: first_rule(row, sign),
    }
}

/// The entry of an element, by the row at it: `None` where no rule selects it.
fn decided_if_selected(row: &[Progress<'_>]) -> Option<Decided>
    requires { rules_in (marked_steps row.now) ≤ 65536 }
    ensures { result ≡ entry_here (marked_steps row.now) }
{
    if is_selected(row) {
        Some(decided_by(row))
    } else {
        None
    }
}

/// Appends the entries of an element and of those inside it, by the row at its parent.
#[cycle(decided)]
#[tactic(auto, using(crate::proofs::ToldLaws::rules_below, crate::proofs::KnownLaws::walk_steps))]
fn find_in_element(
    alloc: Global,
    row: &[Progress<'_>],
    element: &Element,
    known: &mut Known<'_>,
    entries: &mut Vec<Option<Decided>>,
) -> Result<(), AllocError>
    requires few { rules_in (marked_steps row.now) ≤ 65536 }
    requires known { StartsWith (flags_within (preds_of (marked_steps row.now)) element.now)
        known.old }
    ensures entries { IfOk result (λ done. entries.new.items
        ≡ entries.old.items ++ entries_from (marked_steps row.now) element.now) }
    ensures known { OnOk result (known.new
        ≡ drop (length (flags_within (preds_of (marked_steps row.now)) element.now)) known.old) }
{
    let row = all_below(alloc, row, element, known)?;
    entries.push(decided_if_selected(row.as_slice()))?;
    find_in_items(alloc, row.as_slice(), element, known, entries)?;
    Ok(())
}

/// Appends the entries of the elements inside an element, by the row at it.
#[cycle(decided)]
#[tactic(auto, using(crate::proofs::KnownLaws::walk_steps))]
fn find_in_items(
    alloc: Global,
    row: &[Progress<'_>],
    element: &Element,
    known: &mut Known<'_>,
    entries: &mut Vec<Option<Decided>>,
) -> Result<(), AllocError>
    requires few { rules_in (marked_steps row.now) ≤ 65536 }
    requires known { StartsWith (flags_of_items (preds_of (marked_steps row.now)) element.now.items)
        known.old }
    ensures entries { IfOk result (λ done. entries.new.items
        ≡ entries.old.items ++ entries_of_items (marked_steps row.now) element.now.items) }
    ensures known { OnOk result (known.new ≡ drop (length
        (flags_of_items (preds_of (marked_steps row.now)) element.now.items)) known.old) }
{
    for item in element.items.as_slice() {
        find_in_item(alloc, row, item, known, entries)?;
    }
    Ok(())
}

/// Appends the entries of the elements in an item, by the row at the element around it.
#[cycle(decided)]
#[tactic(auto, using(crate::proofs::SignLaws::element_laws, crate::proofs::KnownLaws::item_flags))]
fn find_in_item(
    alloc: Global,
    row: &[Progress<'_>],
    item: &Item,
    known: &mut Known<'_>,
    entries: &mut Vec<Option<Decided>>,
) -> Result<(), AllocError>
    requires few { rules_in (marked_steps row.now) ≤ 65536 }
    requires known { StartsWith (flags_of_item (preds_of (marked_steps row.now)) item.now)
        known.old }
    ensures entries { IfOk result (λ done. entries.new.items
        ≡ entries.old.items ++ entries_of_child (marked_steps row.now) (element_of item.now)) }
    ensures known { OnOk result (known.new
        ≡ drop (length (flags_of_item (preds_of (marked_steps row.now)) item.now)) known.old) }
{
    match item {
        Item::Text(_) => Ok(()),
        Item::Child(child) => {
            find_in_element(alloc, row, child.get(), known, entries)?;
            Ok(())
        }
    }
}

/// The entries of all elements of a document, in document order. The root has a decision, and so has each element
/// that a rule selects.
pub(crate) fn find_all_decided(
    alloc: Global,
    doc: &Doc,
    rules: &[Rule],
) -> Result<Vec<Option<Decided>>, NoMemory>
    requires { length rules.now ≤ 65536 }
    ensures { IfOk result (λ entries. entries.items
        ≡ entries_of_root (flat_map begun_rule rules.now) doc.now.root) }
{
    let row = all_begun(alloc, rules)?;
    let flags = find_flags(alloc, row.as_slice(), &doc.root)?;
    let mut known = Known::all(&flags);
    let row = all_below(alloc, row.as_slice(), &doc.root, &mut known)?;
    let mut entries = Vec::new(alloc);
    let root = decided_by(row.as_slice());
    entries.push(Some(root))?;
    find_in_items(alloc, row.as_slice(), &doc.root, &mut known, &mut entries)?;
    Ok(entries)
}
