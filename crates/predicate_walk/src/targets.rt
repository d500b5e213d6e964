//! What the walk does at the end of an element. It finds for which predicates some value of the element
//! is enough, and which predicates hold there.

ghost use Rattle.std.specs.Prelude.{◌≡◌, ◌+◌, ◌≤◌, true, false, length, replicate, take, drop};
ghost use Rattle.acl_model.specs.Values.{string_value};
ghost use Rattle.predicate_walk.specs.inside.Met.{is_enough_at};
ghost use Rattle.predicate_walk.specs.inside.States.{number_of_states, row_at, inner_row_at, last_states, patched};
ghost use Rattle.predicate_walk.specs.inside.KeptTexts.{compares_texts, needs_texts, kept};
ghost use Rattle.predicate_walk.specs.Truths.{preds_in};

use crate::rows::put_flag;
use crate::truths::PredRef;
use acl_bits::Flags;
use acl_model::{Element, Pred};
use value_scan::{does_satisfy, is_any_attribute_enough};

/// Whether some value of the element is enough for the predicate. Where the predicate compares its
/// string-value, `value` is that.
#[tactic(auto, using(crate::proofs::PredicateLaws::enough_laws))]
fn is_target_enough(pred: &Pred, element: &Element, value: &[u8]) -> bool
    requires { compares_texts pred.now ≡ true → value.now ≡ string_value element.now }
    ensures { result ≡ is_enough_at pred.now element.now }
{
    match &pred.attribute {
        Some(name) => is_any_attribute_enough(
            name.as_slice(),
            &pred.cmp,
            element.attributes.as_slice(),
        ),
        None => match &pred.cmp {
            Some(cmp) => does_satisfy(cmp, value),
            None => true,
        },
    }
}

/// Sets the first state of each predicate for which some value of the element is enough.
pub fn put_targets(preds: &[PredRef<'_>], element: &Element, value: &[u8], row: &mut Flags)
    requires value { value.now
        ≡ kept (needs_texts (preds_in preds.now)) (string_value element.now) }
    requires inside { row.old ≡ inner_row_at (preds_in preds.now) element.now }
    ensures { row.new ≡ row_at (preds_in preds.now) element.now }
{
    // The length of the row fits a usize, so each index below does.
    let _ = row.len();
    let mut start = 0;
    for r in preds {
        put_flag(row, start, is_target_enough(r.pred, element, value));
        start += r.pred.way.len() + 1;
    }
}

/// Sets the flag of each predicate whose last state is set. The flags of the predicates begin at index `at`.
pub fn put_truths(preds: &[PredRef<'_>], row: &Flags, flags: &mut Flags, at: usize)
    requires row { length row.now ≡ number_of_states (preds_in preds.now) }
    requires room { at + length preds.now ≤ length flags.old }
    requires clear { take (length preds.now) (drop at flags.old)
        ≡ replicate (length preds.now) false }
    ensures { flags.new ≡ patched at (last_states (preds_in preds.now) row.now) flags.old }
{
    // The two lengths fit a usize, so each index below does.
    let _ = row.len();
    let _ = flags.len();
    let mut start = 0;
    let mut place = at;
    for r in preds {
        let last = start + r.pred.way.len();
        put_flag(flags, place, row.has(last));
        start = last + 1;
        place += 1;
    }
}
