//! Which raw attributes have a given name and a value that satisfies a comparison.

ghost use Rattle.std.specs.Prelude.{◌≡◌, option_copied};
ghost use Rattle.std.specs.List.{before_first, after_first, list_any};
ghost use Rattle.acl_model.specs.Values.{is_space};
ghost use Rattle.value_scan.specs.Attributes.{after_name, attribute_is_enough, typed_is_enough};

use crate::comparison::is_enough;
use acl_model::{Bytes, Cmp, cut};

/// What follows the name and its space, or `None` where the raw attribute has another name. No byte is read after the
/// first that differs.
#[tactic(auto, using(crate::proofs::NameLaws::name_steps))]
fn strip_name<'a>(name: &[u8], raw: &'a [u8]) -> Option<&'a [u8]>
    ensures { option_copied result ≡ after_name name.now raw.now }
{
    let mut rest = raw;
    for byte in name {
        let [first, more @ ..] = rest else {
            return None;
        };
        if *first != *byte || *first == b' ' {
            return None;
        }
        rest = more;
    }
    match rest {
        [] => Some(&[]),
        [b' ', typed @ ..] => Some(typed),
        _ => None,
    }
}

/// What comes before and after the first space. Without a space, this is all bytes and no bytes.
#[tactic(auto, using(crate::proofs::SpaceLaws::space_laws))]
fn at_space(bytes: &[u8]) -> (&[u8], &[u8])
    ensures before { result.0.now ≡ before_first is_space bytes.now }
    ensures after { result.1.now ≡ after_first is_space bytes.now }
{
    match cut(bytes, b' ') {
        Some((before, after)) => (before, after),
        None => (bytes, &[]),
    }
}

/// Whether a type and a value, which follow the name of a raw attribute, are enough: the type isn't IMPLIED, and the
/// value satisfies the comparison.
fn is_typed_enough(cmp: &Option<Cmp>, typed: &[u8]) -> bool
    ensures { result ≡ typed_is_enough cmp.now typed.now }
{
    let (kind, value) = at_space(typed);
    kind != b"IMPLIED".as_slice() && is_enough(cmp, value)
}

/// Whether a raw attribute has the name, and a value that satisfies the comparison. Without a comparison any value
/// does.
#[tactic(auto, using(crate::proofs::NameLaws::attribute_laws))]
pub fn is_attribute_enough(name: &[u8], cmp: &Option<Cmp>, raw: &[u8]) -> bool
    ensures { result ≡ attribute_is_enough name.now cmp.now raw.now }
{
    match strip_name(name, raw) {
        Some(typed) => is_typed_enough(cmp, typed),
        None => false,
    }
}

/// Whether one of the attributes has the name, and a value that satisfies the comparison.
pub fn is_any_attribute_enough(name: &[u8], cmp: &Option<Cmp>, attributes: &[Bytes]) -> bool
    ensures { result ≡ list_any (attribute_is_enough name.now cmp.now) attributes.now }
{
    attributes
        .iter()
        .any(|raw| is_attribute_enough(name, cmp, raw.as_slice()))
}
