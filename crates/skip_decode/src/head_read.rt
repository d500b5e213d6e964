//! Reads the head of an element from a window. No byte is read twice: the first one or two have the bit by which the
//! head's size is known, and the others are read after them.

ghost use Rattle.std.specs.Prelude.{◌≡◌, ◌+◌, ◌-◌, ◌*◌, ◌/◌, ◌≤◌, ◌++◌, Some, length, take, drop};
ghost use Rattle.std.specs.Prelude.{nat_eq, IsErrOf, OnErr, IfOk, IfSome, OnOk};
ghost use Rattle.std.specs.Option.{option_and_then};
ghost use Rattle.acl_bits.specs.FilledBits.{number_of};
ghost use Rattle.skip_decode.specs.Fragments.{ForEach, FitsNone, Leads, Narrows, Refuses};
ghost use Rattle.skip_decode.specs.inside.Moves.{IsHeadIn};
ghost use Rattle.skip_decode.specs.inside.Windows.{AfterReads, HasRead, HasReadSome, HasReadWithin, IsHeld};
ghost use Rattle.skip_decode.specs.inside.HeadReading.{head_bytes};
ghost use Rattle.skip_decode.specs.StreamHeads.{take_within, number_width, inner_bit, inner_at, whole_head, head_at};

use crate::fragments::Fragments;
use crate::head::{Head, binary_length, head_bytes, take_bits, take_head};
use crate::window::Window;
use acl_bits::{BitIn, Row};
use acl_outside::ReadFault;

/// A head has at most so many bytes.
const HEAD: usize = 48;

/// The bit of a head that is 1 where a tag set follows, after a number in so many bits.
#[tactic(auto, unfolding(crate::specs::StreamHeads::inner_bit))]
fn inner_bit(bytes: &[u8], number: u32) -> Option<u32>
    requires { number ≤ 32 }
    ensures { result ≡ inner_bit number bytes.now }
{
    let mut bits = BitIn::new(bytes);
    if take_bits(&mut bits, 1)? != 1 {
        return None;
    }
    take_bits(&mut bits, number)?;
    take_bits(&mut bits, 1)
}

/// Whether all bits that are left are zero.
#[tactic(auto, using(crate::proofs::HeadBits::zeros))]
fn are_zero(bits: &mut BitIn<'_>) -> bool
    ensures { result ≡ nat_eq (number_of bits.old) 0 }
{
    while let Ok(bit) = bits.take(1) {
        if bit != 0 {
            return false;
        }
    }
    true
}

/// The head that these bytes are, in a parent with these members, and lengths in `width` bits.
#[tactic(auto, unfolding(crate::specs::StreamHeads::whole_head))]
fn whole_head(bytes: &[u8], members: &Row, width: u32) -> Option<Head>
    requires { width ≤ 32 }
    ensures { result ≡ whole_head members.now width bytes.now }
{
    let mut bits = BitIn::new(bytes);
    if take_bits(&mut bits, 1)? != 1 {
        return None;
    }
    let head = take_head(&mut bits, members, width)?;
    if !are_zero(&mut bits) {
        return None;
    }
    Some(head)
}

/// Reads on from a byte offset: the buffer has the first `from` bytes there, and gets those after them up to `to`.
fn fill<F: Fragments>(
    window: &mut Window<F>,
    place: u32,
    from: usize,
    to: usize,
    buffer: &mut [u8],
) -> Result<(), ReadFault>
    requires rises { from ≤ to }
    requires room { to ≤ length buffer.old }
    requires few { to ≤ 256 }
    requires within { place + to ≤ 256 * F.count window.old.source }
    requires held { IsHeld (F.may_be window.old.source) window.old.held window.old.at }
    ensures same_count { F.count window.new.source ≡ F.count window.old.source }
    ensures refuses { Refuses result (F.refused window.old.source) (F.refused window.new.source) }
    ensures held { IsHeld (F.may_be window.new.source) window.new.held window.new.at }
    ensures narrows { Narrows (F.may_be window.old.source) (F.may_be window.new.source) }
    ensures went { Leads F.went window.old.source window.new.source }
    ensures index { IsErrOf result ReadFault.BadIndex → FitsNone (F.may_be window.new.source) }
    ensures opens { AfterReads (place + from) window.old.at (F.opened window.old.source) (λ first start.
        OnOk result (HasRead first start (place + to) window.new.at (F.opened window.new.source))) }
    ensures some { AfterReads (place + from) window.old.at (F.opened window.old.source) (λ first start.
        HasReadSome first start (F.opened window.new.source)) }
    ensures bound { AfterReads (place + from) window.old.at (F.opened window.old.source) (λ first start.
        OnErr result (HasReadWithin first start (place + to) (F.opened window.new.source))) }
    ensures long { length buffer.new ≡ length buffer.old }
    ensures front { OnOk result (take from buffer.new ≡ take from buffer.old) }
    ensures bytes { OnOk result (ForEach (F.may_be window.new.source) (λ stream.
        take to buffer.new ≡ take from buffer.old ++ take (to - from) (drop (place + from) stream))) }
{
    window.copy(place + from as u32, &mut buffer[from..to])?;
    Ok(())
}

/// Reads the first one or two bytes of a head, and returns its bit for a tag set.
#[tactic(auto, unfolding(crate::specs::StreamHeads::inner_at, crate::specs::StreamHeads::take_within))]
fn read_inner<F: Fragments>(
    window: &mut Window<F>,
    number: u32,
    place: u32,
    left: u32,
    buffer: &mut [u8; HEAD],
) -> Result<Option<u32>, ReadFault>
    requires number { number ≤ 32 }
    requires within { place + left ≤ 256 * F.count window.old.source }
    requires held { IsHeld (F.may_be window.old.source) window.old.held window.old.at }
    ensures same_count { F.count window.new.source ≡ F.count window.old.source }
    ensures refuses { Refuses result (F.refused window.old.source) (F.refused window.new.source) }
    ensures held { IsHeld (F.may_be window.new.source) window.new.held window.new.at }
    ensures narrows { Narrows (F.may_be window.old.source) (F.may_be window.new.source) }
    ensures went { Leads F.went window.old.source window.new.source }
    ensures index { IsErrOf result ReadFault.BadIndex → FitsNone (F.may_be window.new.source) }
    ensures opens { AfterReads place window.old.at (F.opened window.old.source) (λ first start.
        IfOk result (λ found. IfSome found (λ x. HasRead first start (place + (9 + number) / 8) window.new.at (F.opened window.new.source)))) }
    ensures some { AfterReads place window.old.at (F.opened window.old.source) (λ first start.
        HasReadSome first start (F.opened window.new.source)) }
    ensures bound { AfterReads place window.old.at (F.opened window.old.source) (λ first start.
        OnErr result (HasReadWithin first start (place + (9 + number) / 8) (F.opened window.new.source))) }
    ensures inner { IfOk result (λ inner. ForEach (F.may_be window.new.source) (λ stream.
        inner ≡ inner_at number left (drop place stream))) }
    ensures bit { IfOk result (λ inner. IfSome inner (λ b.
        inner_bit number (take ((9 + number) / 8) buffer.new) ≡ Some b)) }
    ensures front { IfOk result (λ inner. IfSome inner (λ bit.
        ForEach (F.may_be window.new.source) (λ stream.
        take ((9 + number) / 8) buffer.new ≡ take ((9 + number) / 8) (drop place stream)))) }
{
    let front = (9 + number) / 8;
    if front > left {
        return Ok(None);
    }
    fill(window, place, 0, front as usize, buffer)?;
    Ok(inner_bit(&buffer[..front as usize], number))
}

/// Reads the other bytes of a head of `long` bytes, of which the buffer has the first `front`.
#[tactic(auto, unfolding(crate::specs::StreamHeads::take_within))]
fn read_head_of<F: Fragments>(
    window: &mut Window<F>,
    members: &Row,
    width: u32,
    place: u32,
    left: u32,
    front: usize,
    long: usize,
    buffer: &mut [u8; HEAD],
) -> Result<Option<Head>, ReadFault>
    requires width { width ≤ 32 }
    requires within { place + left ≤ 256 * F.count window.old.source }
    requires rises { front ≤ long }
    requires room { long ≤ 48 }
    requires front { ForEach (F.may_be window.old.source) (λ stream.
        take front buffer.old ≡ take front (drop place stream)) }
    requires held { IsHeld (F.may_be window.old.source) window.old.held window.old.at }
    ensures same_count { F.count window.new.source ≡ F.count window.old.source }
    ensures refuses { Refuses result (F.refused window.old.source) (F.refused window.new.source) }
    ensures held { IsHeld (F.may_be window.new.source) window.new.held window.new.at }
    ensures narrows { Narrows (F.may_be window.old.source) (F.may_be window.new.source) }
    ensures went { Leads F.went window.old.source window.new.source }
    ensures index { IsErrOf result ReadFault.BadIndex → FitsNone (F.may_be window.new.source) }
    ensures opens { AfterReads (place + front) window.old.at (F.opened window.old.source) (λ first start.
        IfOk result (λ found. IfSome found (λ x. HasRead first start (place + long) window.new.at (F.opened window.new.source)))) }
    ensures some { AfterReads (place + front) window.old.at (F.opened window.old.source) (λ first start.
        HasReadSome first start (F.opened window.new.source)) }
    ensures bound { AfterReads (place + front) window.old.at (F.opened window.old.source) (λ first start.
        OnErr result (HasReadWithin first start (place + long) (F.opened window.new.source))) }
    ensures front { OnOk result (take front buffer.new ≡ take front buffer.old) }
    ensures whole { IfOk result (λ head. IfSome head (λ h.
        whole_head members.now width (take long buffer.new) ≡ Some h)) }
    ensures head { IfOk result (λ head. ForEach (F.may_be window.new.source) (λ stream.
        head ≡ option_and_then (whole_head members.now width) (take_within left long (drop place stream)))) }
    ensures fits { IfOk result (λ head. IfSome head (IsHeadIn members.now)) }
{
    if long > left as usize {
        return Ok(None);
    }
    fill(window, place, front, long, buffer)?;
    Ok(whole_head(&buffer[..long], members, width))
}

/// Reads the head at a byte offset in a content that ends at `end`. The parent has these members, and lengths in
/// `width` bits.
#[tactic(auto, unfolding(crate::specs::StreamHeads::head_at))]
pub(crate) fn read_head<F: Fragments>(
    window: &mut Window<F>,
    members: &Row,
    width: u32,
    place: u32,
    end: u32,
) -> Result<Option<Head>, ReadFault>
    requires width { width ≤ 32 }
    requires rises { place ≤ end }
    requires within { end ≤ 256 * F.count window.old.source }
    requires held { IsHeld (F.may_be window.old.source) window.old.held window.old.at }
    ensures same_count { F.count window.new.source ≡ F.count window.old.source }
    ensures refuses { Refuses result (F.refused window.old.source) (F.refused window.new.source) }
    ensures held { IsHeld (F.may_be window.new.source) window.new.held window.new.at }
    ensures narrows { Narrows (F.may_be window.old.source) (F.may_be window.new.source) }
    ensures went { Leads F.went window.old.source window.new.source }
    ensures index { IsErrOf result ReadFault.BadIndex → FitsNone (F.may_be window.new.source) }
    ensures opens { AfterReads place window.old.at (F.opened window.old.source) (λ first start.
        IfOk result (λ found. IfSome found (λ x. HasRead first start (place + x.bytes) window.new.at (F.opened window.new.source)))) }
    ensures some { AfterReads place window.old.at (F.opened window.old.source) (λ first start.
        HasReadSome first start (F.opened window.new.source)) }
    ensures bound { AfterReads place window.old.at (F.opened window.old.source) (λ first start.
        OnErr result (ForEach (F.may_be window.new.source) (λ stream.
        IfSome (head_at members.now width (end - place) (drop place stream)) (λ x.
        HasReadWithin first start (place + x.bytes) (F.opened window.new.source))))) }
    ensures head { IfOk result (λ head. ForEach (F.may_be window.new.source) (λ stream.
        head ≡ head_at members.now width (end - place) (drop place stream))) }
    ensures fits { IfOk result (λ head. IfSome head (IsHeadIn members.now)) }
{
    let mut buffer = [0; HEAD];
    let count = members.count();
    let number = binary_length(usize::from(count.saturating_sub(1)));
    let left = end - place;
    let Some(inner) = read_inner(window, number, place, left, &mut buffer)? else {
        return Ok(None);
    };
    let front = ((9 + number) / 8) as usize;
    let long = head_bytes(count, number, inner, width);
    read_head_of(
        window,
        members,
        width,
        place,
        left,
        front,
        long,
        &mut buffer,
    )
}
