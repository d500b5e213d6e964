//! Compares whole values with operands.

ghost use Rattle.std.specs.Prelude.{◌≡◌, int_lt, int_le};
ghost use Rattle.acl_model.specs.Comparisons.{equals, operand_number, are_ordered, satisfies};
ghost use Rattle.acl_model.specs.Predicates.{is_enough};

use crate::numeral::whole_number;
use acl_model::{Cmp, Op, Operand};

/// The operand as a whole number, if it is one.
pub fn number_of_operand(operand: &Operand) -> Option<i64>
    ensures { result ≡ operand_number operand.now }
{
    match operand {
        Operand::Text(bytes) => whole_number(bytes.as_slice()),
        Operand::Number(number) => Some(*number),
        Operand::User(bytes) => whole_number(bytes.as_slice()),
    }
}

/// Whether both are numbers, and the first is less.
pub fn is_below(first: Option<i64>, second: Option<i64>) -> bool
    ensures { result ≡ are_ordered int_lt first second }
{
    match (first, second) {
        (Some(first), Some(second)) => first < second,
        _ => false,
    }
}

/// Whether both are numbers, and the first is not greater.
pub fn is_at_most(first: Option<i64>, second: Option<i64>) -> bool
    ensures { result ≡ are_ordered int_le first second }
{
    match (first, second) {
        (Some(first), Some(second)) => first <= second,
        _ => false,
    }
}

/// Whether the value equals the operand.
fn does_equal(operand: &Operand, value: &[u8]) -> bool
    ensures { result ≡ equals operand.now value.now }
{
    match operand {
        Operand::Text(bytes) => value == bytes.as_slice(),
        Operand::Number(number) => match whole_number(value) {
            Some(found) => found == *number,
            None => false,
        },
        Operand::User(bytes) => value == bytes.as_slice(),
    }
}

/// Whether the value satisfies the comparison.
pub fn does_satisfy(cmp: &Cmp, value: &[u8]) -> bool
    ensures { result ≡ satisfies cmp.now.op cmp.now.operand value.now }
{
    match cmp.op {
        Op::Eq => does_equal(&cmp.operand, value),
        Op::Ne => !does_equal(&cmp.operand, value),
        Op::Lt => is_below(whole_number(value), number_of_operand(&cmp.operand)),
        Op::Le => is_at_most(whole_number(value), number_of_operand(&cmp.operand)),
        Op::Gt => is_below(number_of_operand(&cmp.operand), whole_number(value)),
        Op::Ge => is_at_most(number_of_operand(&cmp.operand), whole_number(value)),
    }
}

/// Whether the value satisfies the comparison. Without a comparison any value does.
pub fn is_enough(cmp: &Option<Cmp>, value: &[u8]) -> bool
    ensures { result ≡ is_enough cmp.now value.now }
{
    match cmp {
        None => true,
        Some(cmp) => does_satisfy(cmp, value),
    }
}
