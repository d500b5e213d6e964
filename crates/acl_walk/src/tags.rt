//! The tag of an element, and the set of tags in its Begin.

ghost use Rattle.std.specs.Prelude.{◌≡◌, ◌≤◌, length, is_some};
ghost use Rattle.acl_model.specs.Limits.{most_names};
ghost use Rattle.acl_model.specs.Document.{is_dummy_name};
ghost use Rattle.acl_model.specs.Dictionary.{name_number};
ghost use Rattle.acl_model.specs.Places.{element_of};
ghost use Rattle.acl_walk.specs.TreeEvents.{may_hold_element, told_below, tag_number};

use acl_bits::Row;
use acl_model::{Item, Name};

/// The tag of a dummy, and of a name that isn't one of the names.
const DUMMY: u16 = 256;

/// The tag of a name.
pub(crate) fn tag_of(names: &[Name], name: &[u8]) -> u16
    requires { length names.now ≤ most_names }
    ensures { result ≡ tag_number names.now name.now }
{
    if is_dummy(name) {
        return DUMMY;
    }
    match number_of(names, name) {
        Some(number) => number as u16,
        None => DUMMY,
    }
}

/// Whether the name is a dummy's.
pub(crate) fn is_dummy(name: &[u8]) -> bool
    ensures { result ≡ is_dummy_name name.now }
{
    matches!(name, [b'-'])
}

/// The number of the name among the names, from 0, if it is one of them.
pub(crate) fn number_of(names: &[Name], name: &[u8]) -> Option<usize>
    ensures { result ≡ name_number names.now name.now }
{
    names.iter().position(|other| other.as_slice() == name)
}

/// The set in the Begin of an element with these items, under so many names.
pub(crate) fn below_of(names: usize, items: &[Item]) -> Row
    requires { names ≤ most_names }
    ensures { result ≡ told_below names items.now }
{
    if may_hold_element(items) {
        Row::full(names.max(1) as u16)
    } else {
        Row::none()
    }
}

/// Whether an element may be among the items, judged by the first one alone.
fn may_hold_element(items: &[Item]) -> bool
    ensures { result ≡ may_hold_element items.now }
{
    match items.split_first() {
        None => false,
        Some((first, rest)) => !rest.is_empty() || is_element(first),
    }
}

/// Whether the item is an element.
fn is_element(item: &Item) -> bool
    ensures { result ≡ is_some (element_of item.now) }
{
    match item {
        Item::Text(_) => false,
        Item::Child(_) => true,
    }
}
