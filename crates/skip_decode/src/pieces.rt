//! Reads numbers and pieces of texts from a window.

ghost use Rattle.std.specs.Prelude.{◌≡◌, ℕ, ◌+◌, ◌-◌, ◌*◌, ◌≤◌, Option, List, [], ◌∷◌, length, drop, nat_le};
ghost use Rattle.std.specs.Prelude.{IsErrOf, OnErr, OnOk, IfOk, IfSome};
ghost use Rattle.std.specs.Int.{w16, from_be_bytes};
ghost use Rattle.std.specs.Option.{option_map};
ghost use Rattle.acl_model.specs.Ascii.{line_feed};
ghost use Rattle.acl_model.specs.Lines.{is_within_line, lacks};
ghost use Rattle.acl_walk.specs.Pieces.{piece_of};
ghost use Rattle.skip_decode.specs.Fragments.{ForEach, FitsNone, Leads, Narrows, Refuses};
ghost use Rattle.skip_decode.specs.StreamHeads.{take_within};
ghost use Rattle.skip_decode.specs.StreamSteps.{after_piece, fragment_left, piece_at, length_at};
ghost use Rattle.skip_decode.specs.inside.Windows.{AfterReads, HasRead, HasReadSome, HasReadWithin, IsHeld};

use crate::fragments::Fragments;
use crate::window::{FRAGMENT, Window};
use acl_bits::Piece;
use acl_outside::ReadFault;
use arrayvec::ArrayVec;

/// How many bytes of a fragment are left from a byte offset on.
pub(crate) fn fragment_left(place: u32) -> u32
    ensures { result ≡ fragment_left place }
{
    FRAGMENT - place % FRAGMENT
}

/// The piece at a byte offset, of a text or attribute with so many bytes left.
pub(crate) fn read_piece<F: Fragments>(
    window: &mut Window<F>,
    place: u32,
    left: u32,
) -> Result<Piece, ReadFault>
    requires within { place + left ≤ 256 * F.count window.old.source }
    requires held { IsHeld (F.may_be window.old.source) window.old.held window.old.at }
    ensures same_count { F.count window.new.source ≡ F.count window.old.source }
    ensures refuses { Refuses result (F.refused window.old.source) (F.refused window.new.source) }
    ensures held { IsHeld (F.may_be window.new.source) window.new.held window.new.at }
    ensures narrows { Narrows (F.may_be window.old.source) (F.may_be window.new.source) }
    ensures went { Leads F.went window.old.source window.new.source }
    ensures index { IsErrOf result ReadFault.BadIndex → FitsNone (F.may_be window.new.source) }
    ensures opens { AfterReads place window.old.at (F.opened window.old.source) (λ first start.
        OnOk result (HasRead first start (after_piece place left) window.new.at (F.opened window.new.source))) }
    ensures some { AfterReads place window.old.at (F.opened window.old.source) (λ first start.
        HasReadSome first start (F.opened window.new.source)) }
    ensures bound { AfterReads place window.old.at (F.opened window.old.source) (λ first start.
        OnErr result (HasReadWithin first start (after_piece place left) (F.opened window.new.source))) }
    ensures piece { IfOk result (λ piece. ForEach (F.may_be window.new.source) (λ stream.
        piece ≡ piece_at stream place left)) }
    ensures last { IfOk result (λ piece. piece.last ≡ nat_le left (fragment_left place)) }
{
    let room = fragment_left(place);
    if left == 0 {
        return Ok(piece_of(&[], true));
    }
    window.open(place / FRAGMENT)?;
    let from = (place % FRAGMENT) as usize;
    let to = from + left.min(room) as usize;
    Ok(piece_of(&window.held[from..to], left <= room))
}

/// The length in four bytes at a byte offset, in a content that ends at `end`.
#[tactic(auto, unfolding(crate::specs::StreamSteps::length_at, crate::specs::StreamHeads::take_within))]
pub(crate) fn read_length<F: Fragments>(
    window: &mut Window<F>,
    place: u32,
    end: u32,
) -> Result<Option<u32>, ReadFault>
    requires rises { place ≤ end }
    requires within { end ≤ 256 * F.count window.old.source }
    requires held { IsHeld (F.may_be window.old.source) window.old.held window.old.at }
    ensures same_count { F.count window.new.source ≡ F.count window.old.source }
    ensures refuses { Refuses result (F.refused window.old.source) (F.refused window.new.source) }
    ensures held { IsHeld (F.may_be window.new.source) window.new.held window.new.at }
    ensures narrows { Narrows (F.may_be window.old.source) (F.may_be window.new.source) }
    ensures went { Leads F.went window.old.source window.new.source }
    ensures index { IsErrOf result ReadFault.BadIndex → FitsNone (F.may_be window.new.source) }
    ensures opens { AfterReads place window.old.at (F.opened window.old.source) (λ first start.
        IfOk result (λ found. IfSome found (λ x. HasRead first start (place + 4) window.new.at (F.opened window.new.source)))) }
    ensures some { AfterReads place window.old.at (F.opened window.old.source) (λ first start.
        HasReadSome first start (F.opened window.new.source)) }
    ensures bound { AfterReads place window.old.at (F.opened window.old.source) (λ first start.
        OnErr result (HasReadWithin first start (place + 4) (F.opened window.new.source))) }
    ensures length { IfOk result (λ long. ForEach (F.may_be window.new.source) (λ stream.
        long ≡ length_at stream place end)) }
    ensures inside { IfOk result (λ long. IfSome long (λ n. place + 4 + n ≤ end)) }
{
    let left = end - place;
    if left < 4 {
        return Ok(None);
    }
    let mut four = [0; 4];
    window.copy(place, &mut four)?;
    let long = u32::from_be_bytes(four);
    if long > left - 4 {
        return Ok(None);
    }
    Ok(Some(long))
}

/// The number in two bytes at a byte offset, in a content that ends at `end`.
#[tactic(auto, unfolding(crate::specs::StreamHeads::take_within))]
pub(crate) fn read_count<F: Fragments>(
    window: &mut Window<F>,
    place: u32,
    end: u32,
) -> Result<Option<u16>, ReadFault>
    requires rises { place ≤ end }
    requires within { end ≤ 256 * F.count window.old.source }
    requires held { IsHeld (F.may_be window.old.source) window.old.held window.old.at }
    ensures same_count { F.count window.new.source ≡ F.count window.old.source }
    ensures refuses { Refuses result (F.refused window.old.source) (F.refused window.new.source) }
    ensures held { IsHeld (F.may_be window.new.source) window.new.held window.new.at }
    ensures narrows { Narrows (F.may_be window.old.source) (F.may_be window.new.source) }
    ensures went { Leads F.went window.old.source window.new.source }
    ensures index { IsErrOf result ReadFault.BadIndex → FitsNone (F.may_be window.new.source) }
    ensures opens { AfterReads place window.old.at (F.opened window.old.source) (λ first start.
        IfOk result (λ found. IfSome found (λ x. HasRead first start (place + 2) window.new.at (F.opened window.new.source)))) }
    ensures some { AfterReads place window.old.at (F.opened window.old.source) (λ first start.
        HasReadSome first start (F.opened window.new.source)) }
    ensures bound { AfterReads place window.old.at (F.opened window.old.source) (λ first start.
        OnErr result (HasReadWithin first start (place + 2) (F.opened window.new.source))) }
    ensures count { IfOk result (λ count. ForEach (F.may_be window.new.source) (λ stream.
        count ≡ option_map (from_be_bytes w16) (take_within (end - place) 2 (drop place stream)))) }
    ensures inside { IfOk result (λ count. IfSome count (λ n. place + 2 ≤ end)) }
{
    if end - place < 2 {
        return Ok(None);
    }
    let mut two = [0; 2];
    window.copy(place, &mut two)?;
    Ok(Some(u16::from_be_bytes(two)))
}

/// The byte at a byte offset, in a content that ends at `end`.
#[tactic(auto, unfolding(crate::specs::StreamHeads::take_within))]
pub(crate) fn read_byte<F: Fragments>(
    window: &mut Window<F>,
    place: u32,
    end: u32,
) -> Result<Option<u8>, ReadFault>
    requires rises { place ≤ end }
    requires within { end ≤ 256 * F.count window.old.source }
    requires held { IsHeld (F.may_be window.old.source) window.old.held window.old.at }
    ensures same_count { F.count window.new.source ≡ F.count window.old.source }
    ensures refuses { Refuses result (F.refused window.old.source) (F.refused window.new.source) }
    ensures held { IsHeld (F.may_be window.new.source) window.new.held window.new.at }
    ensures narrows { Narrows (F.may_be window.old.source) (F.may_be window.new.source) }
    ensures went { Leads F.went window.old.source window.new.source }
    ensures index { IsErrOf result ReadFault.BadIndex → FitsNone (F.may_be window.new.source) }
    ensures opens { AfterReads place window.old.at (F.opened window.old.source) (λ first start.
        IfOk result (λ found. IfSome found (λ x. HasRead first start (place + 1) window.new.at (F.opened window.new.source)))) }
    ensures some { AfterReads place window.old.at (F.opened window.old.source) (λ first start.
        HasReadSome first start (F.opened window.new.source)) }
    ensures bound { AfterReads place window.old.at (F.opened window.old.source) (λ first start.
        OnErr result (HasReadWithin first start (place + 1) (F.opened window.new.source))) }
    ensures byte { IfOk result (λ byte. ForEach (F.may_be window.new.source) (λ stream.
        option_map (λ b. b ∷ []) byte ≡ take_within (end - place) 1 (drop place stream))) }
{
    if end == place {
        return Ok(None);
    }
    let mut one = [0];
    window.copy(place, &mut one)?;
    Ok(Some(one[0]))
}

/// A piece with these bytes.
fn piece_of(bytes: &[u8], last: bool) -> Piece
    requires { length bytes.now ≤ 256 }
    ensures { result ≡ piece_of bytes.now last }
{
    let mut piece = ArrayVec::new();
    piece.try_extend_from_slice(bytes).unwrap();
    Piece { bytes: piece, last }
}

/// Whether the bytes fit a line.
pub(crate) fn is_within_line(bytes: &[u8]) -> bool
    ensures { result ≡ is_within_line bytes.now }
{
    lacks_line_feed(bytes)
}

/// Whether none of the bytes is a line feed.
fn lacks_line_feed(bytes: &[u8]) -> bool
    ensures { result ≡ lacks line_feed bytes.now }
{
    bytes.iter().all(|byte| *byte != b'\n')
}
