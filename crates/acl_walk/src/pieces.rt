//! Cuts texts and attributes after each 256 bytes.

ghost use Rattle.std.specs.Prelude.{◌≡◌, ◌≤◌, ◌∷◌, length};
ghost use Rattle.std.specs.Option.{option_copied};
ghost use Rattle.acl_walk.specs.Pieces.{piece_of, pieces};
ghost use Rattle.acl_walk.specs.inside.TreeSteps.{pieces_after, ends_here};

use acl_bits::Piece;
use arrayvec::ArrayVec;

/// The most bytes of a piece.
const PIECE: usize = 256;

/// The first piece of the bytes, and the bytes after it if it isn't the last piece.
pub(crate) fn cut_piece(bytes: &[u8]) -> (Piece, Option<&[u8]>)
    ensures pieces { pieces bytes.now ≡ result.0 ∷ pieces_after (option_copied result.1) }
    ensures last { result.0.last ≡ ends_here (option_copied result.1) }
{
    if bytes.len() <= PIECE {
        return (whole_piece(bytes, true), None);
    }
    let (prefix, rest) = bytes.split_at(PIECE);
    (whole_piece(prefix, false), Some(rest))
}

/// A piece with all these bytes.
fn whole_piece(bytes: &[u8], last: bool) -> Piece
    requires { length bytes.now ≤ 256 }
    ensures { result ≡ piece_of bytes.now last }
{
    let mut piece = ArrayVec::new();
    piece.try_extend_from_slice(bytes).unwrap();
    Piece { bytes: piece, last }
}
