//! The heads of elements. A head is a string of bits whose form depends on the parent's members and width.

ghost use Rattle.std.specs.Prelude.{◌≡◌, ◌+◌, ◌-◌, ◌<◌, ◌≤◌, ◌^◌, ◌++◌, length, OnOk};
ghost use Rattle.acl_model.specs.StreamBits.{bytes_of};
ghost use Rattle.acl_model.specs.Width.{binary_length};
ghost use Rattle.acl_model.specs.Stream.{rank, set_bits, head_bits};
ghost use Rattle.acl_bits.specs.Row.{row_of, is_member};

use crate::measures::Measure;
use acl_bits::{BitOut, Row};
use std::alloc::AllocError;

/// What the heads of an element's children depend on.
#[derive(Debug, Drop)]
pub(crate) struct Parent {
    /// The numbers of the names of the elements inside it.
    pub(crate) members: Row,
    /// The number of bits in which the lengths of its children's contents are written.
    pub(crate) width: u32,
}

/// The number of binary digits of `n`.
pub(crate) fn binary_length(n: u32) -> u32
    ensures digits { result ≡ binary_length n }
    ensures few { result ≤ 32 }
    ensures fits { n < 2 ^ result }
{
    if n == 0 { 0 } else { n.ilog2() + 1 }
}

/// Writes the head of an element.
pub(crate) fn write_head(
    bytes: &mut Vec<u8>,
    parent: &Parent,
    element: &Measure,
) -> Result<(), AllocError>
    requires number { rank parent.now.members element.now.tag < 2 ^ binary_length
        (length parent.now.members - 1) }
    requires long { element.now.long < 2 ^ parent.now.width }
    requires width { parent.now.width ≤ 32 }
    ensures { OnOk result (bytes.new.items
        ≡ bytes.old.items ++ bytes_of (head_bits parent.now.members parent.now.width
        element.now.tag element.now.below element.now.long)) }
{
    let members = u32::from(parent.members.count());
    let number = u32::from(parent.members.rank(element.tag));
    let mut bits = BitOut::new();
    bits.put(1, 1);
    bits.put(number, binary_length(members.saturating_sub(1)));
    put_set(&mut bits, &parent.members, &element.below);
    bits.put(element.long, parent.width);
    bytes.extend_from_slice(bits.bytes())?;
    Ok(())
}

/// Appends the bits of a tag set. The empty set is the bit 0. Any other is the bit 1 and one bit for each member of the
/// parent's set.
fn put_set(bits: &mut BitOut, members: &Row, below: &Row)
    requires room { length bits.old ≤ 9 }
    requires row { row_of (is_member members.now) ≡ members.now }
    ensures bits { bits.new ≡ bits.old ++ set_bits members.now below.now }
    ensures length { length bits.new ≤ length bits.old + 257 }
{
    if below.count() == 0 {
        bits.put(0, 1);
        return;
    }
    bits.put(1, 1);
    let mut left = *members;
    while let Some(n) = left.take_first() {
        bits.put(u32::from(below.has(n)), 1);
    }
}
