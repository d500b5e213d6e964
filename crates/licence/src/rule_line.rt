//! A rule line of a licence: a sign (grant or deny), a space, an id, a space and a path. The path is not read here.

ghost use Rattle.std.specs.Prelude.{◌≡◌, MatchOption};
ghost use Rattle.std.specs.List.{list_all};
ghost use Rattle.licence.specs.BodyText.{is_id_byte, is_id};
ghost use Rattle.licence.specs.Body.{sign_of, rule_line};

use acl_model::limits::MOST_ID_BYTES;
use acl_model::{Sign, cut};

/// The parts of a rule line. The path is any bytes.
#[derive(Clone, Copy)]
pub struct RuleLine<'a> {
    pub sign: Sign,
    pub id: &'a [u8],
    pub path: &'a [u8],
}

/// The sign of this byte. `None` where it is none.
fn read_sign(byte: u8) -> Option<Sign>
    ensures { result ≡ sign_of byte }
{
    match byte {
        b'+' => Some(Sign::Grant),
        b'-' => Some(Sign::Deny),
        _ => None,
    }
}

/// Whether the byte may be in an id.
fn may_stand_in_id(byte: u8) -> bool
    ensures { result ≡ is_id_byte byte }
{
    byte.is_ascii_alphabetic()
        || byte.is_ascii_digit()
        || byte == b'_'
        || byte == b'-'
        || byte == b'.'
}

/// Whether each byte may be in an id.
fn all_may_stand_in_id(bytes: &[u8]) -> bool
    ensures { result ≡ list_all is_id_byte bytes.now }
{
    bytes.iter().all(|byte| may_stand_in_id(*byte))
}

/// Whether the bytes are an id: 1 to 32 bytes that may be in one.
fn is_an_id(bytes: &[u8]) -> bool
    ensures { result ≡ is_id bytes.now }
{
    !bytes.is_empty() && bytes.len() <= MOST_ID_BYTES && all_may_stand_in_id(bytes)
}

/// The parts of a rule line, or `None` where it is not of the form.
pub fn read_rule_line(line: &[u8]) -> Option<RuleLine<'_>>
    ensures exact { MatchOption result
        (rule_line line.now ≡ None)
        (λ parts. rule_line line.now
        ≡ Some (record { sign = parts.sign; id = parts.id.now; path = parts.path.now })) }
{
    let [first, b' ', others @ ..] = line else {
        return None;
    };
    let sign = read_sign(*first)?;
    let (id, path) = cut(others, b' ')?;
    if is_an_id(id) {
        Some(RuleLine { sign, id, path })
    } else {
        None
    }
}
