//! Writes a whole text, and has the sink settle all of it, so that it holds no byte back. No call on the sink follows.

ghost use Rattle.std.specs.Prelude.{OnOk};
ghost use Rattle.acl_model.specs.Text.{text};
ghost use Rattle.acl_outside.specs.Outside.{AreAllSettled};
ghost use Rattle.acl_outside.specs.WrittenText.{Writes};

use acl_model::Doc;
use acl_outside::{Failed, Sink, finish, write_piece};
use esis_lines::write_doc;

/// Writes a text, and has the sink settle all of it.
pub fn write_text<W: Sink>(text: &[u8], sink: &mut W) -> Result<(), Failed>
    ensures written { Writes W.written W.missed W.settled W.faults result
        sink.old sink.new text.now }
    ensures settled { OnOk result (AreAllSettled (W.settled sink.new) (W.written sink.new)) }
{
    write_piece(sink, text)?;
    finish(sink)
}

/// Writes the lines of a document, and has the sink settle all of them.
pub fn write_document<W: Sink>(doc: &Doc, sink: &mut W) -> Result<(), Failed>
    ensures written { Writes W.written W.missed W.settled W.faults result
        sink.old sink.new (text doc.now) }
    ensures settled { OnOk result (AreAllSettled (W.settled sink.new) (W.written sink.new)) }
{
    write_doc(doc, sink)?;
    finish(sink)
}
