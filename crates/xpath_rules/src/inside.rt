//! The state machine in a predicate: a function for each state up to the comparison operator.

ghost use Rattle.std.specs.Prelude.{◌≡◌, [], Some, None, IfOk};
ghost use Rattle.xpath_rules.specs.Grammar.{is_dot};
ghost use Rattle.acl_model.specs.declared.path.Axis.TheVariants.{Child, Descendant};
ghost use Rattle.xpath_rules.specs.PathMachine.{choose, test_rows, way_step, body_rows, closing_rows};
ghost use Rattle.xpath_rules.specs.PathMachine.{inside_rows, whole_way, bare_pred, compared_pred, longer_way};

use crate::lists::{only, with_last};
use crate::state::{Body, Compared, Inside, Next, WayLevel};
use crate::{name_test, operand};
use acl_model::limits::MOST_NAME_BYTES;
use acl_model::{
    Axis, Name, Op, Pred, PredStep, Sequence, Test, may_begin_name, may_continue_name,
};
use std::alloc::{AllocError, Global};

/// Whether the body is `.`, which needs a comparison.
fn is_dot(body: &Body) -> bool
    ensures { result ≡ is_dot body.now.way body.now.attribute }
{
    body.way.is_empty() && body.attribute.is_none()
}

/// The predicate that has this body and no comparison.
fn bare_pred(body: Body) -> Pred
    ensures { result ≡ bare_pred body }
{
    let Body { way, attribute } = body;
    Pred {
        way,
        attribute,
        cmp: None,
    }
}

/// The state after a body and a comparison operator.
fn with_sign(body: Body, op: Op) -> Option<Next>
    ensures { result ≡ Some (Next.More (Inside.AfterSign (record { body = body; op = op }))) }
{
    Some(Next::More(Inside::AfterSign(Compared { body, op })))
}

/// After a body: a space, the first byte of an operator, or the end of the predicate.
fn after_body(body: Body, byte: u8) -> Option<Next>
    ensures { result ≡ choose (body_rows body) byte }
{
    match byte {
        b' ' => Some(Next::More(Inside::AfterBody(body))),
        b'=' => with_sign(body, Op::Eq),
        b'!' => Some(Next::More(Inside::Exclamation(body))),
        b'<' => Some(Next::More(Inside::Less(body))),
        b'>' => Some(Next::More(Inside::Greater(body))),
        b']' => {
            if is_dot(&body) {
                return None;
            }
            Some(Next::Whole(bare_pred(body)))
        }
        _ => None,
    }
}

/// The state after the first byte of a way's test. `None` where the byte begins none.
fn way_step(
    alloc: Global,
    way: Sequence<PredStep>,
    axis: Axis,
    byte: u8,
) -> Result<Option<Next>, AllocError>
    ensures { IfOk result (λ next. next ≡ choose (test_rows (way_step way axis)) byte) }
{
    let Some(test) = name_test::first_test(alloc, byte)? else {
        return Ok(None);
    };
    Ok(Some(Next::More(Inside::InWay(WayLevel {
        done: way,
        step: PredStep { axis, test },
    }))))
}

/// After `[`: a space, or the first byte of a body.
fn open(alloc: Global, byte: u8) -> Result<Option<Next>, AllocError>
    ensures { IfOk result (λ next. next ≡ choose (inside_rows [] Inside.Open) byte) }
{
    match byte {
        b' ' => Ok(Some(Next::More(Inside::Open))),
        b'.' => Ok(Some(Next::More(Inside::Dot))),
        b'@' => Ok(Some(Next::More(Inside::AfterAt(Sequence::new(alloc))))),
        _ => way_step(alloc, Sequence::new(alloc), Axis::Child, byte),
    }
}

/// After `.`: a slash, or what may follow a body.
fn dot(alloc: Global, byte: u8) -> Option<Next>
    ensures { result ≡ choose (inside_rows [] Inside.Dot) byte }
{
    if byte == b'/' {
        return Some(Next::More(Inside::DotSlash));
    }
    let body = Body {
        way: Sequence::new(alloc),
        attribute: None,
    };
    after_body(body, byte)
}

/// After `./`: the second slash.
fn dot_slash(alloc: Global, byte: u8) -> Option<Next>
    ensures { result ≡ choose (inside_rows [] Inside.DotSlash) byte }
{
    if byte != b'/' {
        return None;
    }
    Some(Next::More(Inside::WaySlashes(Sequence::new(alloc))))
}

/// All steps of a way, including the open one.
fn whole_way(level: WayLevel) -> Result<Sequence<PredStep>, AllocError>
    ensures { IfOk result (λ way. way ≡ whole_way level) }
{
    let WayLevel { done, step } = level;
    with_last(done, step)
}

/// Adds one byte to the name of the open step.
fn longer_way(level: WayLevel, byte: u8) -> Result<WayLevel, AllocError>
    ensures { IfOk result (λ longer. longer ≡ longer_way level byte) }
{
    let WayLevel {
        done,
        step: PredStep { axis, test },
    } = level;
    let test = name_test::longer(test, byte)?;
    Ok(WayLevel {
        done,
        step: PredStep { axis, test },
    })
}

/// After a test of a way: its name goes on, a slash, or what may follow a body.
fn in_way(level: WayLevel, byte: u8) -> Result<Option<Next>, AllocError>
    ensures { IfOk result (λ next. next ≡ choose (inside_rows [] (Inside.InWay level)) byte) }
{
    if may_continue_name(byte) && name_test::has_room(&level.step.test) {
        return Ok(Some(Next::More(Inside::InWay(longer_way(level, byte)?))));
    }
    match byte {
        b'/' => Ok(Some(Next::More(Inside::WaySlash(whole_way(level)?)))),
        b' ' | b'=' | b'!' | b'<' | b'>' | b']' => {
            let body = Body {
                way: whole_way(level)?,
                attribute: None,
            };
            Ok(after_body(body, byte))
        }
        _ => Ok(None),
    }
}

/// After a way and one slash: a second slash, an attribute, or the next test.
fn way_slash(alloc: Global, way: Sequence<PredStep>, byte: u8) -> Result<Option<Next>, AllocError>
    ensures { IfOk result (λ next. next ≡ choose (inside_rows [] (Inside.WaySlash way)) byte) }
{
    match byte {
        b'/' => Ok(Some(Next::More(Inside::WaySlashes(way)))),
        b'@' => Ok(Some(Next::More(Inside::AfterAt(way)))),
        _ => way_step(alloc, way, Axis::Child, byte),
    }
}

/// After `@`: the first byte of the attribute's name.
fn after_at(alloc: Global, way: Sequence<PredStep>, byte: u8) -> Result<Option<Next>, AllocError>
    ensures { IfOk result (λ next. next ≡ choose (inside_rows [] (Inside.AfterAt way)) byte) }
{
    if !may_begin_name(byte) {
        return Ok(None);
    }
    Ok(Some(Next::More(Inside::InAttribute(way, only(alloc, byte)?))))
}

/// In an attribute's name: one more byte, or what may follow a body.
fn in_attribute(way: Sequence<PredStep>, name: Name, byte: u8) -> Result<Option<Next>, AllocError>
    ensures { IfOk result (λ next. next ≡
        choose (inside_rows [] (Inside.InAttribute way name)) byte) }
{
    if may_continue_name(byte) && name.len() < MOST_NAME_BYTES {
        return Ok(Some(Next::More(Inside::InAttribute(way, with_last(name, byte)?))));
    }
    let body = Body {
        way,
        attribute: Some(name),
    };
    Ok(after_body(body, byte))
}

/// After `!`: the `=` of `!=`.
fn exclamation(body: Body, byte: u8) -> Option<Next>
    ensures { result ≡ choose (inside_rows [] (Inside.Exclamation body)) byte }
{
    if byte != b'=' {
        return None;
    }
    with_sign(body, Op::Ne)
}

/// After `<`: the `=` of `<=`, or what may follow `<`.
fn less(alloc: Global, body: Body, byte: u8) -> Option<Next>
    ensures { result ≡ choose (inside_rows [] (Inside.Less body)) byte }
{
    if byte == b'=' {
        return with_sign(body, Op::Le);
    }
    operand::after_sign(alloc, Compared { body, op: Op::Lt }, byte)
}

/// After `>`: the `=` of `>=`, or what may follow `>`.
fn greater(alloc: Global, body: Body, byte: u8) -> Option<Next>
    ensures { result ≡ choose (inside_rows [] (Inside.Greater body)) byte }
{
    if byte == b'=' {
        return with_sign(body, Op::Ge);
    }
    operand::after_sign(alloc, Compared { body, op: Op::Gt }, byte)
}

/// The result of one more byte in a predicate. `None` where the byte is refused.
pub fn take(
    inside: Inside,
    alloc: Global,
    user: &[u8],
    byte: u8,
) -> Result<Option<Next>, AllocError>
    ensures { IfOk result (λ next. next ≡ choose (inside_rows user.now inside) byte) }
{
    match inside {
        Inside::Open => open(alloc, byte),
        Inside::Dot => Ok(dot(alloc, byte)),
        Inside::DotSlash => Ok(dot_slash(alloc, byte)),
        Inside::InWay(level) => in_way(level, byte),
        Inside::WaySlash(way) => way_slash(alloc, way, byte),
        Inside::WaySlashes(way) => way_step(alloc, way, Axis::Descendant, byte),
        Inside::AfterAt(way) => after_at(alloc, way, byte),
        Inside::InAttribute(way, name) => in_attribute(way, name, byte),
        Inside::AfterBody(body) => Ok(after_body(body, byte)),
        Inside::Exclamation(body) => Ok(exclamation(body, byte)),
        Inside::Less(body) => Ok(less(alloc, body, byte)),
        Inside::Greater(body) => Ok(greater(alloc, body, byte)),
        Inside::AfterSign(compared) => Ok(operand::after_sign(alloc, compared, byte)),
        Inside::InLiteral(compared, quote, bytes) => operand::in_literal(
            compared, quote, bytes, byte,
        ),
        Inside::Minus(compared) => Ok(operand::minus(compared, byte)),
        Inside::InNumber(compared, digits) => Ok(operand::in_number(compared, digits, byte)),
        Inside::LetterU(compared) => Ok(operand::letter_u(compared, byte)),
        Inside::LettersUs(compared) => Ok(operand::letters_us(compared, byte)),
        Inside::LettersUse(compared) => operand::letters_use(alloc, compared, user, byte),
        Inside::AfterOperand(pred) => Ok(operand::after_operand(pred, byte)),
    }
}
