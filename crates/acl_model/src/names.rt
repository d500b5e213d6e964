//! The form of a name: 1 to 255 bytes, of which the first is not a digit, a hyphen or a full stop.

ghost use Rattle.std.specs.Prelude.{◌≡◌};
ghost use Rattle.std.specs.List.{list_all};
ghost use Rattle.acl_model.specs.Names.{begins_name, continues_name, is_name, is_spelled_as_name};

use crate::limits::MOST_NAME_BYTES;

/// Whether a name may begin with this byte.
pub fn may_begin_name(byte: u8) -> bool
    ensures { result ≡ begins_name byte }
{
    byte.is_ascii_alphabetic() || byte == b'_' || byte == b':' || byte >= 0x80
}

/// Whether a name may contain this byte after its first.
pub fn may_continue_name(byte: u8) -> bool
    ensures { result ≡ continues_name byte }
{
    may_begin_name(byte) || byte.is_ascii_digit() || byte == b'-' || byte == b'.'
}

/// Whether a name may contain all these bytes after its first.
fn all_may_continue(bytes: &[u8]) -> bool
    ensures { result ≡ list_all continues_name bytes.now }
{
    bytes.iter().all(|byte| may_continue_name(*byte))
}

/// Whether the bytes have the form of a name, whatever their number.
fn is_spelled(bytes: &[u8]) -> bool
    ensures { result ≡ is_spelled_as_name bytes.now }
{
    match bytes {
        [] => false,
        [first, rest @ ..] => may_begin_name(*first) && all_may_continue(rest),
    }
}

/// Whether the bytes are a name.
pub fn is_a_name(bytes: &[u8]) -> bool
    ensures { result ≡ is_name bytes.now }
{
    bytes.len() <= MOST_NAME_BYTES && is_spelled(bytes)
}
