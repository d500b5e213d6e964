//! The state machine after a comparison operator: literals, numbers and `USER`.

ghost use Rattle.std.specs.Prelude.{◌≡◌, [], ◌∷◌, IfOk, IsTrue};
ghost use Rattle.std.specs.Char.{is_ascii_digit};
ghost use Rattle.xpath_rules.specs.PathMachine.{choose, some, one_digit, operand_rows, closing_rows, inside_rows};
ghost use Rattle.xpath_rules.specs.PathMachine.{compared_pred, takes_digit, longer_digits, number};

use crate::lists::with_last;
use crate::quote::Quote;
use crate::state::{Body, Compared, Digits, Inside, Next};
use acl_model::limits::{MOST_DIGITS, MOST_LITERAL_BYTES};
use acl_model::{Bytes, Cmp, Operand, Pred, Sequence};
use std::alloc::{AllocError, Global};

/// 10^17. Each number of fewer than 18 digits is below it.
const SEVENTEEN_ZEROS: u64 = 100_000_000_000_000_000;

/// The greatest number of 18 digits.
const GREATEST: u64 = 999_999_999_999_999_999;

/// The predicate with this body, operator and operand.
fn compared_pred(c: Compared, operand: Operand) -> Pred
    ensures { result ≡ compared_pred c operand }
{
    let Compared {
        body: Body { way, attribute },
        op,
    } = c;
    Pred {
        way,
        attribute,
        cmp: Some(Cmp { op, operand }),
    }
}

/// After an operand: a space, or the end of the predicate.
pub fn after_operand(pred: Pred, byte: u8) -> Option<Next>
    ensures { result ≡ choose (closing_rows pred) byte }
{
    match byte {
        b' ' => Some(Next::More(Inside::AfterOperand(pred))),
        b']' => Some(Next::Whole(pred)),
        _ => None,
    }
}

/// Begins a number with its first digit. `None` where the byte is no digit.
fn first_digit(c: Compared, negative: bool, byte: u8) -> Option<Next>
    ensures { result ≡ choose
        (some is_ascii_digit (λ b. Next.More (Inside.InNumber c (one_digit negative b))) ∷ []) byte }
{
    if !byte.is_ascii_digit() {
        return None;
    }
    let value = (byte - b'0') as u64;
    let digits = Digits {
        negative,
        count: 1,
        value,
    };
    Some(Next::More(Inside::InNumber(c, digits)))
}

/// After a comparison operator: a space, or the first byte of an operand.
pub fn after_sign(alloc: Global, c: Compared, byte: u8) -> Option<Next>
    ensures { result ≡ choose (operand_rows c) byte }
{
    match byte {
        b' ' => Some(Next::More(Inside::AfterSign(c))),
        b'"' => Some(Next::More(Inside::InLiteral(c, Quote::Double, Sequence::new(alloc)))),
        b'\'' => Some(Next::More(Inside::InLiteral(c, Quote::Single, Sequence::new(alloc)))),
        b'-' => Some(Next::More(Inside::Minus(c))),
        b'U' => Some(Next::More(Inside::LetterU(c))),
        _ => first_digit(c, false, byte),
    }
}

/// In a literal: its end, or one more byte.
pub fn in_literal(
    c: Compared,
    quote: Quote,
    bytes: Bytes,
    byte: u8,
) -> Result<Option<Next>, AllocError>
    ensures { IfOk result (λ next. next ≡
        choose (inside_rows [] (Inside.InLiteral c quote bytes)) byte) }
{
    if byte == quote.byte() {
        return Ok(Some(Next::More(Inside::AfterOperand(compared_pred(c, Operand::Text(bytes))))));
    }
    if byte == b'\n' || bytes.len() >= MOST_LITERAL_BYTES {
        return Ok(None);
    }
    Ok(Some(Next::More(Inside::InLiteral(c, quote, with_last(bytes, byte)?))))
}

/// After `-`: the first digit of a number.
pub fn minus(c: Compared, byte: u8) -> Option<Next>
    ensures { result ≡ choose (inside_rows [] (Inside.Minus c)) byte }
{
    first_digit(c, true, byte)
}

/// Whether one more digit may follow.
fn takes_digit(digits: Digits) -> bool
    ensures { result ≡ takes_digit digits }
{
    digits.count < MOST_DIGITS && digits.value < SEVENTEEN_ZEROS
}

/// The number with one more digit at its end.
fn longer(digits: Digits, byte: u8) -> Digits
    requires room { IsTrue (takes_digit digits) }
    requires digit { IsTrue (is_ascii_digit byte) }
    ensures { result ≡ longer_digits digits byte }
{
    Digits {
        negative: digits.negative,
        count: digits.count + 1,
        value: digits.value * 10 + (byte - b'0') as u64,
    }
}

/// The operand for these digits.
fn number(digits: Digits) -> Operand
    ensures { result ≡ number digits }
{
    let value = digits.value.min(GREATEST) as i64;
    if digits.negative {
        return Operand::Number(-value);
    }
    Operand::Number(value)
}

/// In a number: one more digit, or what may follow an operand.
pub fn in_number(c: Compared, digits: Digits, byte: u8) -> Option<Next>
    ensures { result ≡ choose (inside_rows [] (Inside.InNumber c digits)) byte }
{
    if byte.is_ascii_digit() && takes_digit(digits) {
        return Some(Next::More(Inside::InNumber(c, longer(digits, byte))));
    }
    after_operand(compared_pred(c, number(digits)), byte)
}

/// After `U`: the `S` of `USER`.
pub fn letter_u(c: Compared, byte: u8) -> Option<Next>
    ensures { result ≡ choose (inside_rows [] (Inside.LetterU c)) byte }
{
    if byte != b'S' {
        return None;
    }
    Some(Next::More(Inside::LettersUs(c)))
}

/// After `US`: the `E` of `USER`.
pub fn letters_us(c: Compared, byte: u8) -> Option<Next>
    ensures { result ≡ choose (inside_rows [] (Inside.LettersUs c)) byte }
{
    if byte != b'E' {
        return None;
    }
    Some(Next::More(Inside::LettersUse(c)))
}

/// After `USE`: the `R` of `USER`.
pub fn letters_use(
    alloc: Global,
    c: Compared,
    user: &[u8],
    byte: u8,
) -> Result<Option<Next>, AllocError>
    ensures { IfOk result (λ next. next ≡
        choose (inside_rows user.now (Inside.LettersUse c)) byte) }
{
    if byte != b'R' {
        return Ok(None);
    }
    let user = Bytes::from_slice(alloc, user)?;
    Ok(Some(Next::More(Inside::AfterOperand(compared_pred(c, Operand::User(user))))))
}
