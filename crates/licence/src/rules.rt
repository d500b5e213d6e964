//! Reads the rules of a body, to its end. The lines are read in order, and the first one that is refused is the answer.

ghost use Rattle.std.specs.Prelude.{◌≡◌, ◌≤◌, ◌+◌, ◌^◌, ◌<◌, [], length};
ghost use Rattle.acl_model.specs.Lines.{lines};
ghost use Rattle.licence.specs.BodyText.{is_known_id};
ghost use Rattle.licence.specs.Body.{rule_of_parts, rule_too_many, next_rule, is_end, rules_at_end, rules_from, Reads};

use crate::fault::LicenceFault;
use crate::limits::are_within_limits;
use crate::rule_line::{RuleLine, read_rule_line};
use acl_model::limits::MOST_RULES;
use acl_model::{Bytes, Rule, Sequence, next_line};
use std::alloc::Global;
use xpath_rules::{PathError, read_path};

/// Whether some rule has this id.
fn is_known_id(id: &[u8], rules: &[Rule]) -> bool
    ensures { result ≡ is_known_id id.now rules.now }
{
    rules.iter().any(|rule| rule.id.as_slice() == id)
}

/// The fault of a line after 64 rules.
fn rule_too_many(line: u32, bytes: &[u8]) -> LicenceFault
    ensures { result ≡ rule_too_many line bytes.now }
{
    match bytes {
        [b'+' | b'-', ..] => LicenceFault::TooManyRules,
        _ => LicenceFault::BadLicence { line },
    }
}

/// The rule of a line with these parts. Its id is looked up before its path is read.
fn rule_of_parts(
    alloc: Global,
    user: &[u8],
    line: u32,
    earlier: &[Rule],
    parts: RuleLine<'_>,
) -> Result<Rule, LicenceFault>
    ensures { Reads (rule_of_parts user.now line earlier.now (record {
      sign = parts.entry.sign;
      id = parts.entry.id.now;
      path = parts.entry.path.now;
    })) result }
{
    if is_known_id(parts.id, earlier) {
        return Err(LicenceFault::BadLicence { line });
    }
    match read_path(alloc, parts.path, user) {
        Ok(path) => Ok(Rule {
            id: Bytes::from_slice(alloc, parts.id)?,
            sign: parts.sign,
            path,
        }),
        Err(PathError::Fault { at }) => Err(LicenceFault::BadRule { line, at }),
        Err(PathError::NoMemory) => Err(LicenceFault::NoMemory),
    }
}

/// The next rule after the earlier ones, from its line.
fn next_rule(
    alloc: Global,
    user: &[u8],
    line: u32,
    earlier: &[Rule],
    bytes: &[u8],
) -> Result<Rule, LicenceFault>
    ensures { Reads (next_rule user.now line earlier.now bytes.now) result }
{
    if earlier.len() >= MOST_RULES {
        return Err(rule_too_many(line, bytes));
    }
    match read_rule_line(bytes) {
        Some(parts) => rule_of_parts(alloc, user, line, earlier, parts),
        None => Err(LicenceFault::BadLicence { line }),
    }
}

/// The rules, where no line follows `end`, which has the number `line`, and the rules are within the limits.
fn rules_at_end(
    line: u32,
    rules: Sequence<Rule>,
    bytes: &[u8],
) -> Result<Sequence<Rule>, LicenceFault>
    requires { line + 1 < 2 ^ 32 }
    ensures { Reads (rules_at_end line rules (lines bytes.now)) result }
{
    if next_line(bytes).is_some() {
        return Err(LicenceFault::BadLicence { line: line + 1 });
    }
    if are_within_limits(rules.as_slice()) {
        Ok(rules)
    } else {
        Err(LicenceFault::TooManyStates)
    }
}

/// Whether the line is `end`.
fn is_end(line: &[u8]) -> bool
    ensures { result ≡ is_end line.now }
{
    line == b"end".as_slice()
}

/// Reads all rules in these lines, and the end after them. The first of the lines has the number `first`.
pub fn read_rules(
    alloc: Global,
    user: &[u8],
    first: u32,
    bytes: &[u8],
) -> Result<Sequence<Rule>, LicenceFault>
    requires { first ≤ 5 }
    ensures { Reads (rules_from user.now first [] (lines bytes.now)) result }
{
    let mut rules: Vec<Rule> = Vec::new(alloc);
    let mut line = first;
    let mut rest = bytes;
    while let Some((text, after)) = next_line(rest) {
        if is_end(text) {
            return rules_at_end(line, Sequence::from_vec(rules), after);
        }
        let rule = next_rule(alloc, user, line, rules.as_slice(), text)?;
        rules.push(rule)?;
        line += 1;
        rest = after;
    }
    Err(LicenceFault::BadLicence { line })
}
