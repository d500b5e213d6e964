//! The three counts of a path: steps, predicate steps and predicates.

ghost use Rattle.std.specs.Prelude.{◌≡◌, ℕ, ◌≤◌, List, length, sum_by};
ghost use Rattle.acl_model.specs.Limits.{most_path_bytes};
ghost use Rattle.xpath_rules.specs.PathAnswers.{CanBeRead};
ghost use Rattle.xpath_rules.specs.Counting.{step_count, pred_count, way_test_count, pred_step_count, in_32_bits};

use acl_model::{Path, Pred, Step};

/// The counts of a path. Each saturates at the greatest `u32`.
#[derive(Debug, Clone, Copy, PartialEq, Eq)]
pub struct States {
    /// The steps of the path.
    pub steps: u32,
    /// The tests in the paths of its predicates.
    pub pred_steps: u32,
    /// The predicates of its steps.
    pub preds: u32,
}

/// The count, or the greatest `u32` where it is above that.
fn in_32_bits(count: usize) -> u32
    ensures { result ≡ in_32_bits count }
{
    count.min(u32::MAX as usize) as u32
}

/// The predicates of these steps.
fn count_preds(steps: &[Step]) -> u32
    ensures { result ≡ in_32_bits (sum_by (λ s. length s.preds) steps.now) }
{
    let mut count = 0u32;
    for step in steps {
        count = count.saturating_add(in_32_bits(step.preds.len()));
    }
    count
}

/// The tests in the paths of these predicates.
fn count_way_tests(preds: &[Pred]) -> u32
    ensures { result ≡ in_32_bits (way_test_count preds.now) }
{
    let mut count = 0u32;
    for pred in preds {
        count = count.saturating_add(in_32_bits(pred.way.len()));
    }
    count
}

/// The tests in the paths of the predicates of these steps.
fn count_pred_steps(steps: &[Step]) -> u32
    ensures { result ≡ in_32_bits (sum_by (λ s. way_test_count s.preds) steps.now) }
{
    let mut count = 0u32;
    for step in steps {
        count = count.saturating_add(count_way_tests(step.preds.as_slice()));
    }
    count
}

/// Counts the steps, predicate steps and predicates of a path. Licences and queries have limits on their sums.
pub fn count_states(path: &Path) -> States
    ensures steps { result.steps ≡ in_32_bits (step_count path.now) }
    ensures pred_steps { result.pred_steps ≡ in_32_bits (pred_step_count path.now) }
    ensures preds { result.preds ≡ in_32_bits (pred_count path.now) }

    // For each path that can be read the counts are exact.
    ensures exact_steps { (user : List ℕ) → CanBeRead user path.now
        → result.steps ≡ step_count path.now }
    ensures exact_pred_steps { (user : List ℕ) → CanBeRead user path.now
        → result.pred_steps ≡ pred_step_count path.now }
    ensures exact_preds { (user : List ℕ) → CanBeRead user path.now
        → result.preds ≡ pred_count path.now }

    // Such a path has at most 1,024 of each.
    ensures few_steps { (user : List ℕ) → CanBeRead user path.now → result.steps ≤ most_path_bytes }
    ensures few_pred_steps { (user : List ℕ) → CanBeRead user path.now
        → result.pred_steps ≤ most_path_bytes }
    ensures few_preds { (user : List ℕ) → CanBeRead user path.now → result.preds ≤ most_path_bytes }
{
    let steps = path.steps.as_slice();
    States {
        steps: in_32_bits(steps.len()),
        pred_steps: count_pred_steps(steps),
        preds: count_preds(steps),
    }
}
