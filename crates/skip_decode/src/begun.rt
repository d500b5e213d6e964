//! What the head of an element says of its parent and of itself.

ghost use Rattle.std.specs.Prelude.{◌≡◌, ◌+◌, ◌^◌, ◌<◌, ◌≤◌};
ghost use Rattle.skip_decode.specs.Positions.{spare_of, above_root};
ghost use Rattle.skip_decode.specs.StreamSteps.{inner_of, saved_bytes, met_with, parent_with, level_of, may_begin, begun_with};

use crate::head::{Head, binary_length, head_bytes};
use crate::position::{Level, Next, Numbers};
use crate::step::{Change, Step};
use acl_bits::Row;
use acl_walk::Event;

/// By how many bytes a content of this length may shrink before its length has fewer binary digits.
pub(crate) fn spare_of(long: u32) -> u32
    ensures { result ≡ spare_of long }
{
    let width = binary_length(long as usize);
    long.saturating_sub(1 << width.saturating_sub(1))
}

/// 1 where an element has a tag set, else 0.
fn inner_of(below: &Row) -> u32
    ensures { result ≡ inner_of below.now }
{
    u32::from(below.count() != 0)
}

/// By how many bytes a head is shorter with its length in one bit less.
fn saved_bytes(parent: &Level, head: &Head) -> usize
    requires { parent.now.width ≤ 32 }
    ensures { result ≡ saved_bytes parent.now head.now }
{
    let members = parent.below.count();
    let number = binary_length(usize::from(members.saturating_sub(1)));
    let inner = inner_of(&head.below);
    let shorter = head_bytes(members, number, inner, parent.width.saturating_sub(1));
    head.bytes.saturating_sub(shorter)
}

/// Whether an element with this head may begin at a byte offset in its parent, inside so many open elements.
fn may_begin(depth: u16, around: usize, parent: &Level, place: u32, head: &Head) -> bool
    requires { parent.now.width ≤ 32 }
    ensures { result ≡ may_begin depth around parent.now place head.now }
{
    let left = parent.end.saturating_sub(place) as usize;
    around < usize::from(depth)
        && head.bytes <= left
        && head.long as usize <= left - head.bytes
        && saved_bytes(parent, head) <= parent.spare as usize
}

/// The numbers that were met, and those of an element with this head. A number from 256 on is in no set.
fn met_with(met: &Row, head: &Head) -> Row
    ensures { result ≡ met_with met.now head.now }
{
    let mut all = *met;
    all.join(&head.below);
    if head.tag >= 256 {
        return all;
    }
    all.put(head.tag);
    all
}

/// The parent of an element that begins with this head.
fn parent_with(parent: &Level, head: &Head) -> Level
    requires width { parent.now.width ≤ 32 }
    requires saved { saved_bytes parent.now head.now ≤ parent.now.spare }
    ensures { result ≡ parent_with parent.now head.now }
{
    Level {
        below: parent.below,
        met: met_with(&parent.met, head),
        end: parent.end,
        spare: parent.spare - saved_bytes(parent, head) as u32,
        width: parent.width,
        tag: parent.tag,
    }
}

/// An element whose head is at a byte offset.
fn level_of(place: u32, head: &Head) -> Level
    requires { place + head.now.bytes + head.now.long < 2 ^ 32 }
    ensures { result ≡ level_of place head.now }
{
    Level {
        below: head.below,
        met: Row::none(),
        end: place + head.bytes as u32 + head.long,
        spare: spare_of(head.long),
        width: binary_length(head.long as usize),
        tag: head.tag,
    }
}

/// The start of an element with this head, inside so many open elements.
#[tactic(auto, unfolding(crate::specs::StreamSteps::begun_with))]
pub(crate) fn begun_with(
    depth: u16,
    around: usize,
    parent: &Level,
    place: u32,
    head: &Head,
) -> Option<Step>
    requires width { parent.now.width ≤ 32 }
    requires rises { place ≤ parent.now.end }
    ensures { result ≡ begun_with depth around parent.now place head.now }
{
    if !may_begin(depth, around, parent, place, head) {
        return None;
    }
    Some(Step {
        event: Event::Begin {
            tag: head.tag,
            below: head.below,
        },
        next: Next::Count,
        place: place + head.bytes as u32,
        change: Change::Open {
            parent: parent_with(parent, head),
            child: level_of(place, head),
        },
    })
}

/// The virtual parent of the root.
pub(crate) fn above_root(numbers: &Numbers) -> Level
    requires names { numbers.now.names ≤ 256 }
    requires end { numbers.now.dictionary + numbers.now.tree < 2 ^ 32 }
    ensures level { result ≡ above_root numbers.now }
    ensures width { result.width ≤ 32 }
{
    Level {
        below: Row::full(numbers.names),
        met: Row::none(),
        end: numbers.dictionary + numbers.tree,
        spare: spare_of(numbers.tree),
        width: binary_length(numbers.tree as usize),
        tag: 0,
    }
}
