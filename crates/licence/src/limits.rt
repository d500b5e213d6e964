//! Checks the limits of a licence: the steps, predicate steps and predicates of all rules together.

ghost use Rattle.std.specs.Prelude.{◌≡◌, sum_by};
ghost use Rattle.xpath_rules.specs.Counting.{step_count, pred_step_count, pred_count, in_32_bits};
ghost use Rattle.licence.specs.BodyText.{are_within_limits};

use acl_model::Rule;
use acl_model::limits::{MOST_PRED_STEPS, MOST_PREDS, MOST_STEPS};
use xpath_rules::count_states;

/// The steps of all rules.
fn count_steps(rules: &[Rule]) -> u32
    ensures { result ≡ in_32_bits (sum_by (λ rule. step_count rule.path) rules.now) }
{
    let mut count = 0u32;
    for rule in rules {
        count = count.saturating_add(count_states(&rule.path).steps);
    }
    count
}

/// The predicate steps of all rules.
fn count_pred_steps(rules: &[Rule]) -> u32
    ensures { result ≡ in_32_bits (sum_by (λ rule. pred_step_count rule.path) rules.now) }
{
    let mut count = 0u32;
    for rule in rules {
        count = count.saturating_add(count_states(&rule.path).pred_steps);
    }
    count
}

/// The predicates of all rules.
fn count_preds(rules: &[Rule]) -> u32
    ensures { result ≡ in_32_bits (sum_by (λ rule. pred_count rule.path) rules.now) }
{
    let mut count = 0u32;
    for rule in rules {
        count = count.saturating_add(count_states(&rule.path).preds);
    }
    count
}

/// Whether all rules together are within the three limits.
pub fn are_within_limits(rules: &[Rule]) -> bool
    ensures { result ≡ are_within_limits rules.now }
{
    count_steps(rules) <= MOST_STEPS
        && count_pred_steps(rules) <= MOST_PRED_STEPS
        && count_preds(rules) <= MOST_PREDS
}
