//! Writes paths in their canonical spelling. There is a function for each rule of the grammar.

ghost use Rattle.std.specs.Prelude.{◌≡◌, ℕ, List, nat_eq, not, map, flat_map, IfOk};
ghost use Rattle.std.specs.List.{list_all};
ghost use Rattle.std.specs.Option.{option_map};
ghost use Rattle.acl_model.specs.declared.path.Operand.TheVariants.{Text};
ghost use Rattle.xpath_rules.specs.PathReading.{Spells};
ghost use Rattle.xpath_rules.specs.PathAnswers.{CanBeRead};
ghost use Rattle.xpath_rules.specs.PathMachine.{read_path_of};
ghost use Rattle.xpath_rules.specs.PathBytes.{quotation_mark};
ghost use Rattle.xpath_rules.specs.Grammar.{slash_text, test_text, lead_text, further_text, way_text, body_text};
ghost use Rattle.xpath_rules.specs.Grammar.{sign_text, operand_text, cmp_text, pred_text, step_text, path_text};
ghost use Rattle.xpath_rules.specs.Canonical.{AddsText, quote_for, canonical_operand, canonical_cmp, canonical_pred};
ghost use Rattle.xpath_rules.specs.Canonical.{canonical_step, canonical_text};

use crate::quote::Quote;
use acl_model::{Axis, Bytes, Cmp, Name, Op, Operand, Path, Pred, PredStep, Step, Test};
use acl_outside::NoMemory;
use itoa::Buffer;
use std::alloc::{AllocError, Global};

/// Writes `/` or `//`.
fn write_slash(axis: Axis, out: &mut Vec<u8>) -> Result<(), AllocError>
    ensures { AddsText result out.old.items out.new.items (slash_text axis) }
{
    match axis {
        Axis::Child => out.extend_from_slice(b"/"),
        Axis::Descendant => out.extend_from_slice(b"//"),
    }
}

/// Writes a name or `*`.
fn write_test(test: &Test, out: &mut Vec<u8>) -> Result<(), AllocError>
    ensures { AddsText result out.old.items out.new.items (test_text test.now) }
{
    match test {
        Test::Any => out.extend_from_slice(b"*"),
        Test::Named(name) => out.extend_from_slice(name.as_slice()),
    }
}

/// Writes what comes before the first test of a predicate's path.
fn write_lead(axis: Axis, out: &mut Vec<u8>) -> Result<(), AllocError>
    ensures { AddsText result out.old.items out.new.items (lead_text axis) }
{
    match axis {
        Axis::Child => Ok(()),
        Axis::Descendant => out.extend_from_slice(b".//"),
    }
}

/// Writes the steps of a predicate's path after the first.
fn write_further(steps: &[PredStep], out: &mut Vec<u8>) -> Result<(), AllocError>
    ensures { AddsText result out.old.items out.new.items (flat_map further_text steps.now) }
{
    for step in steps {
        write_slash(step.axis, out)?;
        write_test(&step.test, out)?;
    }
    Ok(())
}

/// Writes a predicate's path, or nothing where it has none.
fn write_way(way: &[PredStep], out: &mut Vec<u8>) -> Result<(), AllocError>
    ensures { AddsText result out.old.items out.new.items (way_text way.now) }
{
    match way {
        [] => Ok(()),
        [first, more @ ..] => {
            write_lead(first.axis, out)?;
            write_test(&first.test, out)?;
            write_further(more, out)
        }
    }
}

/// Writes the body of a predicate: its path and its attribute, or `.`.
fn write_body(
    way: &[PredStep],
    attribute: &Option<Name>,
    out: &mut Vec<u8>,
) -> Result<(), AllocError>
    ensures { AddsText result out.old.items out.new.items (body_text way.now attribute.now) }
{
    write_way(way, out)?;
    match attribute {
        None if way.is_empty() => out.extend_from_slice(b"."),
        None => Ok(()),
        Some(name) => {
            if !way.is_empty() {
                out.push(b'/')?;
            }
            out.push(b'@')?;
            out.extend_from_slice(name.as_slice())
        }
    }
}

/// Writes a comparison operator.
fn write_sign(op: Op, out: &mut Vec<u8>) -> Result<(), AllocError>
    ensures { AddsText result out.old.items out.new.items (sign_text op) }
{
    match op {
        Op::Eq => out.extend_from_slice(b"="),
        Op::Ne => out.extend_from_slice(b"!="),
        Op::Lt => out.extend_from_slice(b"<"),
        Op::Le => out.extend_from_slice(b"<="),
        Op::Gt => out.extend_from_slice(b">"),
        Op::Ge => out.extend_from_slice(b">="),
    }
}

/// Whether the bytes contain no `"`.
fn holds_none(bytes: &[u8]) -> bool
    ensures { result ≡ list_all (λ b. not (nat_eq b quotation_mark)) bytes.now }
{
    bytes.iter().all(|byte| *byte != b'"')
}

/// The quote for a literal of these bytes: `"` where they contain none, and `'` otherwise.
fn quote_for(bytes: &[u8]) -> Quote
    ensures { result ≡ quote_for bytes.now }
{
    if holds_none(bytes) {
        Quote::Double
    } else {
        Quote::Single
    }
}

fn write_literal(bytes: &[u8], out: &mut Vec<u8>) -> Result<(), AllocError>
    ensures { AddsText result out.old.items out.new.items
        (operand_text (canonical_operand (Text bytes.now))) }
{
    let quote = quote_for(bytes).byte();
    out.push(quote)?;
    out.extend_from_slice(bytes)?;
    out.push(quote)?;
    Ok(())
}

fn write_operand(operand: &Operand, out: &mut Vec<u8>) -> Result<(), AllocError>
    ensures { AddsText result out.old.items out.new.items
        (operand_text (canonical_operand operand.now)) }
{
    match operand {
        Operand::Text(bytes) => write_literal(bytes.as_slice(), out),
        Operand::Number(n) => {
            let mut buffer = Buffer::new();
            out.extend_from_slice(buffer.format(*n).as_bytes())
        }
        Operand::User(_) => out.extend_from_slice(b"USER"),
    }
}

fn write_cmp(cmp: &Option<Cmp>, out: &mut Vec<u8>) -> Result<(), AllocError>
    ensures { AddsText result out.old.items out.new.items
        (cmp_text (option_map canonical_cmp cmp.now)) }
{
    match cmp {
        None => Ok(()),
        Some(cmp) => {
            write_sign(cmp.op, out)?;
            write_operand(&cmp.operand, out)
        }
    }
}

fn write_pred(pred: &Pred, out: &mut Vec<u8>) -> Result<(), AllocError>
    ensures { AddsText result out.old.items out.new.items (pred_text (canonical_pred pred.now)) }
{
    out.push(b'[')?;
    write_body(pred.way.as_slice(), &pred.attribute, out)?;
    write_cmp(&pred.cmp, out)?;
    out.push(b']')?;
    Ok(())
}

fn write_preds(preds: &[Pred], out: &mut Vec<u8>) -> Result<(), AllocError>
    ensures { AddsText result out.old.items out.new.items
        (flat_map pred_text (map canonical_pred preds.now)) }
{
    for pred in preds {
        write_pred(pred, out)?;
    }
    Ok(())
}

fn write_step(step: &Step, out: &mut Vec<u8>) -> Result<(), AllocError>
    ensures { AddsText result out.old.items out.new.items (step_text (canonical_step step.now)) }
{
    write_slash(step.axis, out)?;
    write_test(&step.test, out)?;
    write_preds(step.preds.as_slice(), out)
}

fn write_steps(steps: &[Step], out: &mut Vec<u8>) -> Result<(), AllocError>
    ensures { AddsText result out.old.items out.new.items
        (path_text (map canonical_step steps.now)) }
{
    for step in steps {
        write_step(step, out)?;
    }
    Ok(())
}

/// Writes the canonical spelling. For each user for whom the path can be read, it is read as that path
/// again.
pub fn write_path(alloc: Global, path: &Path) -> Result<Bytes, NoMemory>
    ensures canonical { IfOk result (λ bytes. bytes ≡ canonical_text path.now) }
    ensures spells { IfOk result (λ bytes. (user : List ℕ) → CanBeRead user path.now
        → Spells user bytes path.now) }
    ensures read_again { IfOk result (λ bytes. (user : List ℕ) → CanBeRead user path.now
        → read_path_of bytes user ≡ Ok path.now) }
{
    let mut out = Vec::new(alloc);
    write_steps(path.steps.as_slice(), &mut out)?;
    Ok(Bytes::from_vec(out))
}
