//! Writes a text piece by piece. After a failed write nothing more is written.
ghost use Rattle.acl_outside.specs.WrittenText.{Writes, all_of};

use crate::{Failed, Sink};

/// Writes a text of one piece.
pub fn write_piece<K: Sink>(sink: &mut K, piece: &[u8]) -> Result<(), Failed>
    ensures written { Writes K.written K.missed K.settled K.faults result
        sink.old sink.new piece.now }
{
    sink.write(piece)
}

/// Writes pieces one after another. An empty piece is skipped, since a write of it would flush the sink.
pub fn write_pieces<K: Sink>(sink: &mut K, pieces: &[&[u8]]) -> Result<(), Failed>
    ensures written { Writes K.written K.missed K.settled K.faults result
        sink.old sink.new (all_of pieces.now) }
{
    for piece in pieces {
        if !piece.is_empty() {
            write_piece(sink, piece)?;
        }
    }
    Ok(())
}
