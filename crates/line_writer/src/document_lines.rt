//! Writes the lines of a document or a view. A line is a byte for its kind, its argument, and a line feed.

ghost use Rattle.std.specs.Prelude.{[], ◌∷◌, map};
ghost use Rattle.std.specs.List.{concat};
ghost use Rattle.acl_model.specs.Ascii.{capital_a, hyphen, line_feed};
ghost use Rattle.acl_model.specs.Ascii.{left_parenthesis, right_parenthesis};
ghost use Rattle.acl_model.specs.Text.{line};
ghost use Rattle.acl_outside.specs.WrittenText.{Writes};
ghost use Rattle.line_writer.specs.Parts.{start_text};

use acl_model::Bytes;
use acl_outside::{Failed, Sink, write_piece, write_pieces};

// ---- whole lines

/// Writes the start of an element. The name of a dummy is `-`.
pub fn write_start<K: Sink>(name: &[u8], sink: &mut K) -> Result<(), Failed>
    ensures written { Writes K.written K.missed K.settled K.faults result sink.old sink.new
        (line left_parenthesis name.now) }
{
    write_line(b'(', name, sink)
}

/// Writes a raw attribute, unchanged: its name, its type and its value.
pub fn write_attribute<K: Sink>(raw: &[u8], sink: &mut K) -> Result<(), Failed>
    ensures written { Writes K.written K.missed K.settled K.faults result sink.old sink.new
        (line capital_a raw.now) }
{
    write_line(b'A', raw, sink)
}

/// Writes attributes in order.
#[tactic(auto, using(acl_outside::proofs::Remaining::chain))]
pub fn write_attributes<K: Sink>(attributes: &[Bytes], sink: &mut K) -> Result<(), Failed>
    ensures written { Writes K.written K.missed K.settled K.faults result sink.old sink.new
        (concat (map (line capital_a) attributes.now)) }
{
    for attribute in attributes {
        write_attribute(attribute.as_slice(), sink)?;
    }
    Ok(())
}

/// Writes the lines before an element's items: its attributes, followed by its start.
#[tactic(auto, using(acl_outside::proofs::Remaining::chain))]
pub fn write_attributes_and_start<K: Sink>(
    attributes: &[Bytes],
    name: &[u8],
    sink: &mut K,
) -> Result<(), Failed>
    ensures written { Writes K.written K.missed K.settled K.faults result sink.old sink.new
        (start_text attributes.now name.now) }
{
    write_attributes(attributes, sink)?;
    write_start(name, sink)
}

/// Writes a text.
pub fn write_text<K: Sink>(bytes: &[u8], sink: &mut K) -> Result<(), Failed>
    ensures written { Writes K.written K.missed K.settled K.faults result sink.old sink.new
        (line hyphen bytes.now) }
{
    write_line(b'-', bytes, sink)
}

/// Writes the end of an element. The name of a dummy is `-`.
pub fn write_end<K: Sink>(name: &[u8], sink: &mut K) -> Result<(), Failed>
    ensures written { Writes K.written K.missed K.settled K.faults result sink.old sink.new
        (line right_parenthesis name.now) }
{
    write_line(b')', name, sink)
}

/// Writes one line.
fn write_line<K: Sink>(kind: u8, argument: &[u8], sink: &mut K) -> Result<(), Failed>
    ensures written { Writes K.written K.missed K.settled K.faults result sink.old sink.new
        (line kind argument.now) }
{
    write_pieces(sink, &[&[kind], argument, b"\n"])
}

// ---- lines in pieces: first the beginning, then the argument by `write_piece`, then `end_line`

/// Begins the line of a text.
pub fn begin_text<K: Sink>(sink: &mut K) -> Result<(), Failed>
    ensures written { Writes K.written K.missed K.settled K.faults result sink.old sink.new
        (hyphen ∷ []) }
{
    write_piece(sink, b"-")
}

/// Begins the line of an attribute.
pub fn begin_attribute<K: Sink>(sink: &mut K) -> Result<(), Failed>
    ensures written { Writes K.written K.missed K.settled K.faults result sink.old sink.new
        (capital_a ∷ []) }
{
    write_piece(sink, b"A")
}

/// Ends a line.
pub fn end_line<K: Sink>(sink: &mut K) -> Result<(), Failed>
    ensures written { Writes K.written K.missed K.settled K.faults result sink.old sink.new
        (line_feed ∷ []) }
{
    write_piece(sink, b"\n")
}
