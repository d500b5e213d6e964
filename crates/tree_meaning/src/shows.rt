//! Finds how each element of a document appears in its view, by one walk in document order. All the memory that writing
//! the view needs is allocated here.

ghost use Rattle.std.specs.Prelude.{◌≡◌, ◌+◌, ◌<◌, ◌||◌, [], ◌++◌, IfOk, OnOk, length, take, drop};
ghost use Rattle.std.specs.List.{list_any, flat_map};
ghost use Rattle.acl_model.specs.declared.rule.Sign.TheVariants.{Deny};
ghost use Rattle.tree_meaning.specs.inside.Known.{StartsWith, preds_of, flags_within, flags_of_item};
ghost use Rattle.tree_meaning.specs.inside.StepMarks.{marked_steps, begun_rule};
ghost use Rattle.tree_meaning.specs.inside.Shows.{is_shown, show_by_sign, with_show, shows_from, shows_of_item};

use crate::known::Known;
use crate::marks::{Progress, all_begun, all_below, sign_of};
use crate::preds::find_flags;
use acl_model::{Doc, Element, Item, Rule, Sign};
use acl_outside::NoMemory;
use std::alloc::{AllocError, Global};

/// How an element appears in the view.
#[derive(Clone, Copy)]
pub enum Show {
    /// With its attributes, its name and its texts.
    Whole,
    /// As a dummy, since something inside it is in the view.
    Dummy,
    /// Not at all, and neither does anything inside it.
    Absent,
}

/// How an element of this sign appears; `inside` says whether something inside it does.
fn show_of(own: Sign, inside: bool) -> Show
    ensures { result ≡ show_by_sign own inside }
{
    match (own, inside) {
        (Sign::Grant, _) => Show::Whole,
        (Sign::Deny, true) => Show::Dummy,
        (Sign::Deny, false) => Show::Absent,
    }
}

/// Whether something of the element is in the view.
fn does_show(show: Show) -> bool
    ensures { result ≡ is_shown show }
{
    match show {
        Show::Whole => true,
        Show::Dummy => true,
        Show::Absent => false,
    }
}

/// Whether one of the two is true.
fn either(first: bool, second: bool) -> bool
    ensures { result ≡ (first || second) }
{
    first || second
}

/// Settles the entry at index `at`: writes it now that the elements inside are known. If the element is absent, the
/// entries of the elements inside it are removed.
fn settle(shows: &mut Vec<Show>, at: usize, show: Show)
    requires { at < length shows.old.items }
    ensures { shows.new.items
        ≡ take at shows.old.items ++ with_show show (drop (at + 1) shows.old.items) }
{
    shows[at] = show;
    match show {
        Show::Whole => {}
        Show::Dummy => {}
        Show::Absent => shows.truncate(at + 1),
    }
}

/// Appends the entries of an element and of those inside it. Returns whether something of the element is in the view.
#[cycle(shows)]
#[tactic(auto, using(crate::proofs::KnownLaws::walk_steps))]
fn find_shows(
    alloc: Global,
    row: &[Progress<'_>],
    above: Sign,
    element: &Element,
    known: &mut Known<'_>,
    shows: &mut Vec<Show>,
) -> Result<bool, AllocError>
    requires { StartsWith (flags_within (preds_of (marked_steps row.now)) element.now) known.old }
    ensures shows { IfOk result (λ shown. shows.new.items
        ≡ shows.old.items ++ shows_from element.now (marked_steps row.now) above) }
    ensures shown { IfOk result (λ shown. shown
        ≡ list_any is_shown (shows_from element.now (marked_steps row.now) above)) }
    ensures known { OnOk result (known.new
        ≡ drop (length (flags_within (preds_of (marked_steps row.now)) element.now)) known.old) }
{
    let row = all_below(alloc, row, element, known)?;
    let own = sign_of(row.as_slice(), above);
    let at = shows.len();
    shows.push(Show::Absent)?;
    let mut inside = false;
    for item in element.items.as_slice() {
        let shown = find_shows_in_item(alloc, row.as_slice(), own, item, known, shows)?;
        inside = either(inside, shown);
    }
    let show = show_of(own, inside);
    settle(shows, at, show);
    Ok(does_show(show))
}

/// Does the same for an item of an element of sign `own`.
#[cycle(shows)]
#[tactic(auto, using(crate::proofs::ShowLaws::show_item_equations, crate::proofs::KnownLaws::item_flags))]
fn find_shows_in_item(
    alloc: Global,
    row: &[Progress<'_>],
    own: Sign,
    item: &Item,
    known: &mut Known<'_>,
    shows: &mut Vec<Show>,
) -> Result<bool, AllocError>
    requires { StartsWith (flags_of_item (preds_of (marked_steps row.now)) item.now) known.old }
    ensures shows { IfOk result (λ shown. shows.new.items
        ≡ shows.old.items ++ shows_of_item item.now (marked_steps row.now) own) }
    ensures shown { IfOk result (λ shown. shown
        ≡ list_any is_shown (shows_of_item item.now (marked_steps row.now) own)) }
    ensures known { OnOk result (known.new
        ≡ drop (length (flags_of_item (preds_of (marked_steps row.now)) item.now)) known.old) }
{
    match item {
        Item::Text(_) => Ok(false),
        Item::Child(element) => {
            let shown = find_shows(alloc, row, own, element.get(), known, shows)?;
            Ok(shown)
        }
    }
}

/// The entries of all elements of a document, in document order. None is inside an absent element.
pub fn find_all_shows(alloc: Global, doc: &Doc, rules: &[Rule]) -> Result<Vec<Show>, NoMemory>
    ensures { IfOk result (λ shows. shows.items
        ≡ shows_from doc.now.root (flat_map begun_rule rules.now) Deny) }
{
    let row = all_begun(alloc, rules)?;
    let flags = find_flags(alloc, row.as_slice(), &doc.root)?;
    let mut known = Known::all(&flags);
    let mut shows = Vec::new(alloc);
    find_shows(
        alloc,
        row.as_slice(),
        Sign::Deny,
        &doc.root,
        &mut known,
        &mut shows,
    )?;
    Ok(shows)
}
