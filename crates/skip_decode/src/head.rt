//! The head of an element: the number of its name, its tag set, and the length of its content.

ghost use Rattle.std.specs.Prelude.{◌≡◌, ◌+◌, ◌-◌, ◌<◌, ◌≤◌, ◌^◌, [], None, Some, MatchOption, IfSome, slice_get, length};
ghost use Rattle.acl_model.specs.Width.{binary_length};
ghost use Rattle.skip_decode.specs.inside.HeadReading.{take_bits, take_members, take_below, head_bytes, take_head_on};

use acl_bits::{BitIn, Row};

/// The fields of a head.
#[derive(Clone, Copy, Debug)]
pub(crate) struct Head {
    /// The number of the element's name.
    pub tag: u16,
    /// The numbers of the names of the elements inside it.
    pub below: Row,
    /// The size of the element's content in bytes.
    pub long: u32,
    /// The size of the head itself in bytes.
    pub bytes: usize,
}

/// The number whose binary digits are the next `n` bits, the most significant first.
#[tactic(auto, unfolding(crate::specs::inside::HeadReading::take_bits))]
pub(crate) fn take_bits(bits: &mut BitIn<'_>, n: u32) -> Option<u32>
    requires { n ≤ 32 }
    ensures { MatchOption result
        (take_bits n bits.old ≡ None)
        (λ value. take_bits n bits.old ≡ Some (value, bits.new)) }
{
    match bits.take(n) {
        Ok(value) => Some(value),
        Err(_) => None,
    }
}

/// The number of binary digits of `n`, at most 32.
pub(crate) fn binary_length(n: usize) -> u32
    ensures length { result ≡ binary_length n }
    ensures few { result ≤ 32 }
{
    for width in 0..32 {
        if (n as u64) < 1 << width {
            return width;
        }
    }
    32
}

/// Reads the bits of a head after the first. The parent has these members, and writes lengths in `width` bits.
#[tactic(auto, unfolding(crate::specs::inside::HeadReading::take_head_on))]
pub(crate) fn take_head(bits: &mut BitIn<'_>, members: &Row, width: u32) -> Option<Head>
    requires { width ≤ 32 }
    ensures { MatchOption result
        (take_head_on members.now width bits.old ≡ None)
        (λ head. take_head_on members.now width bits.old ≡ Some (head, bits.new)) }
{
    let count = members.count();
    let number_width = binary_length(usize::from(count.saturating_sub(1)));
    let number = take_bits(bits, number_width)?;
    let tag = member(members, number)?;
    let inner = take_bits(bits, 1)?;
    let below = take_below(bits, members, inner)?;
    let long = take_bits(bits, width)?;
    Some(Head {
        tag,
        below,
        long,
        bytes: head_bytes(count, number_width, inner, width),
    })
}

/// The member at an index, counted from the least.
fn member(members: &Row, number: u32) -> Option<u16>
    ensures { result ≡ slice_get members.now number }
{
    if number >= u32::from(members.count()) {
        return None;
    }
    members.nth(number as u16)
}

/// Reads the tag set of an element where `inner` is 1. Else the set is empty.
#[tactic(auto, unfolding(crate::specs::inside::HeadReading::take_below, crate::specs::inside::HeadReading::not_empty))]
fn take_below(bits: &mut BitIn<'_>, members: &Row, inner: u32) -> Option<Row>
    ensures { MatchOption result
        (take_below members.now inner bits.old ≡ None)
        (λ below. take_below members.now inner bits.old ≡ Some (below, bits.new)) }
{
    if inner != 1 {
        return Some(Row::none());
    }
    let below = take_members(bits, members)?;
    if below.count() == 0 {
        return None;
    }
    Some(below)
}

/// Reads one bit for each member, and returns the set of those whose bit is 1.
fn take_members(bits: &mut BitIn<'_>, members: &Row) -> Option<Row>
    ensures { MatchOption result
        (take_members members.now [] bits.old ≡ None)
        (λ below. take_members members.now [] bits.old ≡ Some (below, bits.new)) }
{
    let mut left = *members;
    let mut below = Row::none();
    while let Some(number) = left.take_first() {
        if take_bits(bits, 1)? == 1 {
            below.put(number);
        }
    }
    Some(below)
}

/// The size of a head in bytes.
pub(crate) fn head_bytes(members: u16, number_width: u32, inner: u32, width: u32) -> usize
    requires number { number_width ≤ 32 }
    requires width { width ≤ 32 }
    ensures { result ≡ head_bytes members number_width inner width }
{
    let set = if inner == 1 { u32::from(members) } else { 0 };
    ((2 + number_width + set + width + 7) / 8) as usize
}
