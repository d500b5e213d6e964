//! Turns rules into tables.

ghost use Rattle.std.specs.Prelude.{◌≡◌, ◌≤◌, ◌<◌, ◌++◌, IfOk, IfSome, length};
ghost use Rattle.acl_model.specs.Limits.{most_names, most_rules};
ghost use Rattle.acl_model.specs.Dictionary.{name_number};
ghost use Rattle.acl_model.specs.Document.{is_dummy_name};
ghost use Rattle.acl_model.specs.Explain.{is_same_sign};
ghost use Rattle.acl_model.specs.RuleNumbers.{numbers_of_sign};
ghost use Rattle.rule_automata.specs.Compile.{AreWithinLimits, automata_of, rule_states, tag_test};

use crate::preds::find_preds;
use crate::state::{State, TagTest};
use crate::tables::Tables;
use acl_bits::Row;
use acl_model::{Name, Rule, Sign, Step, Test};
use acl_outside::NoMemory;
use std::alloc::{AllocError, Global};

/// The tables of rules. A tag is the number of a name among `names`.
#[tactic(auto, using(crate::proofs::StateLists::table_steps))]
pub fn compile(alloc: Global, rules: &[Rule], names: &[Name]) -> Result<Tables, NoMemory>
    requires { AreWithinLimits names.now rules.now }
    ensures { IfOk result (λ tables. tables ≡ automata_of names.now rules.now) }
{
    let mut states = Vec::new(alloc);
    for (number, rule) in rules.iter().enumerate() {
        add_states(&mut states, number as u8, rule.path.steps.as_slice(), names)?;
    }
    let preds = find_preds(alloc, rules, names)?;
    Ok(Tables::from_parts(
        states,
        preds,
        numbered(rules, Sign::Grant),
        numbered(rules, Sign::Deny),
    ))
}

/// Appends the states of a rule, given by its number and its steps.
#[tactic(auto, using(crate::proofs::StateLists::state_steps))]
fn add_states(
    states: &mut Vec<State>,
    rule: u8,
    steps: &[Step],
    names: &[Name],
) -> Result<(), AllocError>
    requires { length names.now ≤ most_names }
    ensures { IfOk result (λ done. states.new.items
        ≡ states.old.items ++ rule_states names.now rule steps.now) }
{
    for (place, step) in steps.iter().enumerate() {
        states.push(State {
            axis: step.axis,
            test: tag_test(&step.test, names),
            ends: (place + 1 == steps.len()).then_some(rule),
        })?;
    }
    Ok(())
}

/// The test of tags for a step's test of names.
pub(crate) fn tag_test(test: &Test, names: &[Name]) -> TagTest
    requires { length names.now ≤ most_names }
    ensures { result ≡ tag_test names.now test.now }
{
    match test {
        Test::Any => TagTest::Each,
        Test::Named(name) if is_a_dummy(name.as_slice()) => TagTest::Never,
        Test::Named(name) => match number_of(name.as_slice(), names) {
            Some(number) => TagTest::Only(number as u16),
            None => TagTest::Never,
        },
    }
}

/// Whether the name is a dummy's.
fn is_a_dummy(name: &[u8]) -> bool
    ensures { result ≡ is_dummy_name name.now }
{
    match name {
        [byte] => *byte == b'-',
        _ => false,
    }
}

/// The number of a name among the names.
fn number_of(name: &[u8], names: &[Name]) -> Option<usize>
    ensures number { result ≡ name_number names.now name.now }
    ensures within { IfSome result (λ number. number < length names.now) }
{
    names.iter().position(|other| name == other.as_slice())
}

/// The numbers of the rules with this sign.
#[tactic(auto, using(crate::proofs::StateLists::number_steps))]
fn numbered(rules: &[Rule], sign: Sign) -> Row
    requires { length rules.now ≤ most_rules }
    ensures { result ≡ numbers_of_sign sign rules.now }
{
    let mut row = Row::none();
    for (number, rule) in rules.iter().enumerate() {
        if is_of_sign(rule, sign) {
            row.put(number as u16);
        }
    }
    row
}

fn is_of_sign(rule: &Rule, sign: Sign) -> bool
    ensures { result ≡ is_same_sign rule.now.sign sign }
{
    match (rule.sign, sign) {
        (Sign::Grant, Sign::Grant) => true,
        (Sign::Deny, Sign::Deny) => true,
        (Sign::Grant, Sign::Deny) => false,
        (Sign::Deny, Sign::Grant) => false,
    }
}
