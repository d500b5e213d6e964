//! The walk over the tree. It makes the row of each element from the rows of its children, bottom up.

ghost use Rattle.std.specs.Prelude.{◌≡◌, ◌∷◌, ◌++◌, IfOk, OnOk, length};
ghost use Rattle.acl_model.specs.Predicates.{descendants, below_item};
ghost use Rattle.acl_model.specs.Values.{string_value, value_of_item};
ghost use Rattle.predicate_walk.specs.inside.States.{number_of_states, row_at, with_item};
ghost use Rattle.predicate_walk.specs.inside.KeptTexts.{needs_texts, kept};
ghost use Rattle.predicate_walk.specs.Truths.{truths};

use crate::machine::Machine;
use crate::targets::{put_targets, put_truths};
use acl_bits::Flags;
use acl_model::{Element, Item};
use std::alloc::{AllocError, Global};

/// Appends the string-value of an element to `texts`, if some predicate compares string-values. Appends
/// the flags of the element and of those inside it to `flags`. Returns the element's row.
#[cycle(walk)]
pub fn walk_element(
    alloc: Global,
    machine: &Machine<'_>,
    element: &Element,
    texts: &mut Vec<u8>,
    flags: &mut Flags,
) -> Result<Flags, AllocError>
    ensures row { IfOk result (λ row. row ≡ row_at machine.now element.now) }
    ensures texts { OnOk result (texts.new.items
        ≡ texts.old.items ++ kept (needs_texts machine.now) (string_value element.now)) }
    ensures flags { OnOk result (flags.new
        ≡ flags.old ++ truths machine.now (element.now ∷ descendants element.now)) }
{
    let start = texts.len();
    let at = flags.len();
    flags.grow(machine.preds().len())?;
    let mut row = machine.clear_row(alloc)?;
    for item in element.items.as_slice() {
        walk_item(alloc, machine, item, texts, flags, &mut row)?;
    }
    put_targets(machine.preds(), element, &texts[start..], &mut row);
    put_truths(machine.preds(), &row, flags, at);
    Ok(row)
}

/// Does the same for an item. The row of a child is not returned: it goes into `row`, the row of the
/// element around the item.
#[cycle(walk)]
#[tactic(auto, using(crate::proofs::WalkLaws::item_equations))]
fn walk_item(
    alloc: Global,
    machine: &Machine<'_>,
    item: &Item,
    texts: &mut Vec<u8>,
    flags: &mut Flags,
    row: &mut Flags,
) -> Result<(), AllocError>
    requires { length row.old ≡ number_of_states machine.now }
    ensures row { OnOk result (row.new ≡ with_item machine.now row.old item.now) }
    ensures texts { OnOk result (texts.new.items
        ≡ texts.old.items ++ kept (needs_texts machine.now) (value_of_item item.now)) }
    ensures flags { OnOk result
        (flags.new ≡ flags.old ++ truths machine.now (below_item item.now)) }
{
    match item {
        Item::Text(bytes) => machine.keep_text(bytes.as_slice(), texts)?,
        Item::Child(child) => {
            let child = child.get();
            let below = walk_element(alloc, machine, child, texts, flags)?;
            machine.take_in(child, &below, row);
        }
    }
    Ok(())
}
