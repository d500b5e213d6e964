//! Whole numbers in decimal, read byte by byte up to the first byte that no number has.

ghost use Rattle.std.specs.Prelude.{◌≡◌};
ghost use Rattle.acl_model.specs.Numbers.{whole};
ghost use Rattle.value_scan.specs.Numerals.{leading_digit, numeral_after};
ghost use Rattle.value_scan.specs.Numerals.{numeral_after_all, number_of};

use acl_model::limits::MOST_DIGITS;

/// The whole number that the bytes read so far write.
#[derive(Debug, Clone, Copy)]
pub enum Numeral {
    /// No byte yet.
    Start,
    /// A `-` alone.
    Minus,
    /// 1 to 18 digits, with or without a `-` before them.
    Digits {
        negative: bool,
        count: u8,
        number: u64,
    },
    /// Not the beginning of a number.
    Unfit,
}

/// The numeral after its first digit; `Unfit` where the byte isn't a digit.
fn first_digit(negative: bool, byte: u8) -> Numeral
    ensures { result ≡ leading_digit negative byte }
{
    if byte.is_ascii_digit() {
        Numeral::Digits {
            negative,
            count: 1,
            number: u64::from(byte - b'0'),
        }
    } else {
        Numeral::Unfit
    }
}

/// The numeral after one more byte.
pub fn next_numeral(numeral: Numeral, byte: u8) -> Numeral
    ensures { result ≡ numeral_after numeral byte }
{
    match numeral {
        Numeral::Start if byte == b'-' => Numeral::Minus,
        Numeral::Start => first_digit(false, byte),
        Numeral::Minus => first_digit(true, byte),
        Numeral::Digits {
            negative,
            count,
            number,
        } => {
            if byte.is_ascii_digit()
                && u32::from(count) < MOST_DIGITS
                && number < 100_000_000_000_000_000
            {
                Numeral::Digits {
                    negative,
                    count: count + 1,
                    number: number * 10 + u64::from(byte - b'0'),
                }
            } else {
                Numeral::Unfit
            }
        }
        Numeral::Unfit => Numeral::Unfit,
    }
}

/// The whole number of a numeral, or `None` where it isn't a number.
pub fn number_in(numeral: Numeral) -> Option<i64>
    ensures { result ≡ number_of numeral }
{
    match numeral {
        Numeral::Digits {
            negative,
            number,
            ..
        } if number < 1_000_000_000_000_000_000 => {
            if negative {
                Some(-(number as i64))
            } else {
                Some(number as i64)
            }
        }
        _ => None,
    }
}

/// The numeral after all bytes. Nothing is read after the first byte that no number can have.
#[tactic(auto, using(crate::proofs::NumberLaws::numeral_steps))]
fn numeral_of(bytes: &[u8]) -> Numeral
    ensures { result ≡ numeral_after_all Numeral.Start bytes.now }
{
    let mut numeral = Numeral::Start;
    for byte in bytes {
        numeral = next_numeral(numeral, *byte);
        if let Numeral::Unfit = numeral {
            return Numeral::Unfit;
        }
    }
    numeral
}

/// The whole number that the bytes write, or `None` where they don't write one. More than 19 bytes are rejected unread.
#[tactic(auto, using(crate::proofs::NumberLaws::number_laws))]
pub fn whole_number(bytes: &[u8]) -> Option<i64>
    ensures { result ≡ whole bytes.now }
{
    if bytes.len() > 19 {
        return None;
    }
    number_in(numeral_of(bytes))
}
