//! What the sets of rules of one element say about its sign and about the rule that decides it.

ghost use Rattle.std.specs.Prelude.{◌≡◌, slice_get};
ghost use Rattle.sign_stack.specs.SignLevels.{first_rule_of, rule_among, rule_at, verdict_at};

use acl_bits::Row;
use acl_model::Sign;

/// The rules that surely select an element, and those that may select it.
#[derive(Clone, Copy, Debug)]
pub struct Level {
    pub sure: Row,
    pub may: Row,
}

/// What the sets of an element say about its sign.
#[derive(Clone, Copy, Debug)]
pub enum Verdict {
    Decided(Sign),
    /// It depends on a rule that may select the element and doesn't surely.
    Unsettled,
    /// No rule selects the element: it has the sign of its parent.
    Inherited,
}

/// What the sets of an element say about its sign, where `grants` and `denies` are the rules of each
/// sign.
pub fn verdict_of(grants: &Row, denies: &Row, level: &Level) -> Verdict
    ensures { result ≡ verdict_at grants.now denies.now level.now }
{
    if level.sure.meets(denies) {
        Verdict::Decided(Sign::Deny)
    } else if level.may.meets(denies) {
        Verdict::Unsettled
    } else if level.sure.meets(grants) {
        Verdict::Decided(Sign::Grant)
    } else if level.may.meets(grants) {
        Verdict::Unsettled
    } else {
        Verdict::Inherited
    }
}

/// The rule that decides at an element, among those that surely select it.
pub fn deciding_rule(grants: &Row, denies: &Row, level: &Level) -> Option<u16>
    ensures { result ≡ rule_at grants.now denies.now level.now }
{
    match first_rule(denies, &level.sure) {
        Some(rule) => Some(rule),
        None => first_rule(grants, &level.sure),
    }
}

/// The first rule of `row` that is one of `rules`.
#[tactic(auto, using(crate::proofs::LevelSteps::rule_steps))]
fn first_rule(rules: &Row, row: &Row) -> Option<u16>
    ensures { result ≡ first_rule_of rules.now row.now }
{
    for k in 0..row.count() {
        match rule_of_rank(rules, row, k) {
            Some(rule) => return Some(rule),
            None => {}
        }
    }
    None
}

/// The `k`-th rule of `row`, counted from 0, if it is one of `rules`.
fn rule_of_rank(rules: &Row, row: &Row, k: u16) -> Option<u16>
    ensures { result ≡ rule_among rules.now (slice_get row.now k) }
{
    match row.nth(k) {
        Some(rule) if rules.has(rule) => Some(rule),
        Some(_) => None,
        None => None,
    }
}
