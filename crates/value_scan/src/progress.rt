//! Compares a value that comes in pieces with an operand, without joining the pieces.

ghost use Rattle.std.specs.Prelude.{◌≡◌, ◌+◌, ◌<◌, ◌^◌, IsTrue};
ghost use Rattle.value_scan.specs.Progress.{has_at, matched_after, begun, fed_byte, fed};
ghost use Rattle.value_scan.specs.Progress.{is_all_matched, is_equal, is_satisfied, is_settled};

use crate::comparison::{is_at_most, is_below, number_of_operand};
use crate::numeral::{Numeral, next_numeral, number_in};
use acl_model::{Cmp, Op, Operand};

/// What is known of a value from the bytes read so far. It has a fixed size and contains no reference. It is *settled*
/// where no further byte can change it.
#[derive(Clone, Copy, Debug)]
pub struct Progress {
    /// How many bytes of the literal were matched, or `None` once the value differs from it or is longer.
    pub matched: Option<usize>,
    /// The whole number that the bytes write.
    pub numeral: Numeral,
}

/// The progress before the first byte of a value.
pub fn begun() -> Progress
    ensures { result ≡ begun }
{
    Progress {
        matched: Some(0),
        numeral: Numeral::Start,
    }
}

/// Whether the literal has this byte at the index. A number has no literal.
fn is_byte_at(operand: &Operand, index: usize, byte: u8) -> bool
    ensures has { result ≡ has_at operand.now index byte }
    ensures bound { IsTrue result → index + 1 < 2 ^ 64 }
{
    let literal = match operand {
        Operand::Text(bytes) => bytes.as_slice(),
        Operand::Number(_) => return false,
        Operand::User(bytes) => bytes.as_slice(),
    };
    index < literal.len() && literal[index] == byte
}

/// How many bytes of the literal are matched after one more byte.
fn next_matched(operand: &Operand, matched: Option<usize>, byte: u8) -> Option<usize>
    ensures { result ≡ matched_after operand.now matched byte }
{
    match matched {
        Some(count) if is_byte_at(operand, count, byte) => Some(count + 1),
        Some(_) => None,
        None => None,
    }
}

/// The progress after one more byte.
fn feed_byte(progress: Progress, operand: &Operand, byte: u8) -> Progress
    ensures { result ≡ fed_byte operand.now progress byte }
{
    Progress {
        matched: next_matched(operand, progress.matched, byte),
        numeral: next_numeral(progress.numeral, byte),
    }
}

/// The progress after further bytes of the value. No byte is read once it is settled.
#[tactic(auto, using(crate::proofs::ProgressLaws::feed_steps))]
pub fn feed(progress: Progress, operand: &Operand, bytes: &[u8]) -> Progress
    ensures { result ≡ fed operand.now progress bytes.now }
{
    let mut so_far = progress;
    for byte in bytes {
        if is_settled(so_far) {
            return so_far;
        }
        so_far = feed_byte(so_far, operand, *byte);
    }
    so_far
}

/// Whether all bytes of the literal are matched.
fn is_all_matched(literal: &[u8], matched: Option<usize>) -> bool
    ensures { result ≡ is_all_matched literal.now matched }
{
    match matched {
        Some(count) => count == literal.len(),
        None => false,
    }
}

/// Whether the value equals the operand, if it ends here.
fn is_equal(operand: &Operand, progress: Progress) -> bool
    ensures { result ≡ is_equal operand.now progress }
{
    match operand {
        Operand::Text(bytes) => is_all_matched(bytes.as_slice(), progress.matched),
        Operand::Number(number) => match number_in(progress.numeral) {
            Some(found) => found == *number,
            None => false,
        },
        Operand::User(bytes) => is_all_matched(bytes.as_slice(), progress.matched),
    }
}

/// Whether the value satisfies the comparison, if it ends here.
pub fn is_satisfied(cmp: &Cmp, progress: Progress) -> bool
    ensures { result ≡ is_satisfied cmp.now progress }
{
    let (operand, found) = (&cmp.operand, number_in(progress.numeral));
    match cmp.op {
        Op::Eq => is_equal(operand, progress),
        Op::Ne => !is_equal(operand, progress),
        Op::Lt => is_below(found, number_of_operand(operand)),
        Op::Le => is_at_most(found, number_of_operand(operand)),
        Op::Gt => is_below(number_of_operand(operand), found),
        Op::Ge => is_at_most(number_of_operand(operand), found),
    }
}

/// Whether no further byte can change the progress: the value differs from the literal, and isn't a number.
pub fn is_settled(progress: Progress) -> bool
    ensures { result ≡ is_settled progress }
{
    match (progress.matched, progress.numeral) {
        (None, Numeral::Unfit) => true,
        _ => false,
    }
}
