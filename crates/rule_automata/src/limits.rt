//! Checks whether rules can be compiled, as `compile` requires.

ghost use Rattle.std.specs.Prelude.{◌≡◌, ◌↔◌, IsTrue, sum_by, nat_le};
ghost use Rattle.acl_model.specs.Limits.{most_steps};
ghost use Rattle.rule_automata.specs.Compile.{AreWithinLimits, steps_in, preds_in, pred_steps_in};
ghost use Rattle.rule_automata.specs.Compile.{preds_in_steps, way_steps_in};
ghost use Rattle.rule_automata.specs.inside.Counts.{in_usize};

use acl_model::limits::{MOST_NAMES, MOST_PRED_STEPS, MOST_PREDS, MOST_RULES, MOST_STEPS};
use acl_model::{Name, Pred, Rule, Step};

/// Whether the rules are within the limits of a licence, and there are tags for all names.
pub fn are_within_limits(rules: &[Rule], names: &[Name]) -> bool
    ensures { IsTrue result ↔ AreWithinLimits names.now rules.now }
{
    if rules.len() > MOST_RULES || names.len() > MOST_NAMES {
        return false;
    }
    have_few_steps(rules)
        && count_pred_steps(rules) <= MOST_PRED_STEPS as usize
        && count_preds(rules) <= MOST_PREDS as usize
}

/// Whether the paths of the rules have together at most as many steps as a licence may have.
#[tactic(auto, using(crate::proofs::StateLists::step_counts))]
fn have_few_steps(rules: &[Rule]) -> bool
    ensures { result ≡ nat_le (steps_in rules.now) most_steps }
{
    let mut left = MOST_STEPS as usize;
    for rule in rules {
        if rule.path.steps.len() > left {
            return false;
        }
        left -= rule.path.steps.len();
    }
    true
}

/// How many steps the paths of the predicates have together, or the greatest `usize`.
fn count_way_steps(preds: &[Pred]) -> usize
    ensures { result ≡ in_usize (way_steps_in preds.now) }
{
    let mut count = 0usize;
    for pred in preds {
        count = count.saturating_add(pred.way.len());
    }
    count
}

/// The same for all predicates of the steps.
fn count_pred_steps_of_path(steps: &[Step]) -> usize
    ensures { result ≡ in_usize (sum_by (λ s. way_steps_in s.preds) steps.now) }
{
    let mut count = 0usize;
    for step in steps {
        count = count.saturating_add(count_way_steps(step.preds.as_slice()));
    }
    count
}

/// The same for all predicates of the rules.
fn count_pred_steps(rules: &[Rule]) -> usize
    ensures { result ≡ in_usize (pred_steps_in rules.now) }
{
    let mut count = 0usize;
    for rule in rules {
        count = count.saturating_add(count_pred_steps_of_path(rule.path.steps.as_slice()));
    }
    count
}

/// How many predicates the steps have together, or the greatest `usize`.
fn count_preds_of_path(steps: &[Step]) -> usize
    ensures { result ≡ in_usize (preds_in_steps steps.now) }
{
    let mut count = 0usize;
    for step in steps {
        count = count.saturating_add(step.preds.len());
    }
    count
}

/// The same for all steps of the rules.
fn count_preds(rules: &[Rule]) -> usize
    ensures { result ≡ in_usize (preds_in rules.now) }
{
    let mut count = 0usize;
    for rule in rules {
        count = count.saturating_add(count_preds_of_path(rule.path.steps.as_slice()));
    }
    count
}
