//! Reads a document from a source: reads the source to its end, and then its bytes as a document.

ghost use Rattle.std.specs.Prelude.{◌≡◌, ◌+◌, true, is_some, IfSome, IfOk, OnOk};
ghost use Rattle.std.specs.Io.KnownBytes.{IsAtEnd};
ghost use Rattle.acl_model.specs.Limits.{most_document_bytes};
ghost use Rattle.acl_model.specs.Document.{is_document};
ghost use Rattle.acl_outside.specs.Outside.{CountsWhere, NotFallen, TakesAtMost};
ghost use Rattle.esis_lines.specs.DocumentAnswers.{IfAboutBytes, IsTrueAnswer, TakesUpTo, answer_within, is_source_fault};

use crate::doc_fault::DocFault;
use crate::document_of::document_of;
use crate::input::{ReadAllFault, read_all};
use acl_model::Doc;
use acl_model::limits::MOST_DOCUMENT_BYTES;
use acl_outside::Source;
use std::alloc::Global;

/// Reads a source to its end as a document. Where it gives more than `MOST_DOCUMENT_BYTES`, one byte more than that
/// is taken. Also where the source doesn't tell its bytes (contracts can't see them), each `Doc` has the form of a
/// document.
pub fn read_doc<Q: Source>(alloc: Global, source: &mut Q) -> Result<Doc, DocFault>
    ensures exact { IfSome (Q.left source.old) (λ bytes.
        IfAboutBytes result (result ≡ answer_within most_document_bytes bytes)) }
    ensures document { IfSome (Q.left source.old) (λ bytes.
        IsTrueAnswer result most_document_bytes bytes) }
    ensures form { IfOk result (λ d. is_document d ≡ true) }
    ensures end { OnOk result (IsAtEnd (Q.left source.new)) }
    ensures taken { IfAboutBytes result
        (TakesUpTo (most_document_bytes + 1) (Q.left source.old) (Q.left source.new)) }

    // On every answer, including out of memory and a failure.
    ensures taken_at_most { TakesAtMost (most_document_bytes + 1)
        (Q.left source.old) (Q.left source.new) }
    ensures count { CountsWhere (is_source_fault result)
        (Q.faults source.old) (Q.faults source.new) }
    ensures never_falls { NotFallen (Q.faults source.old) (Q.faults source.new) }
    ensures telling { is_some (Q.left source.new) ≡ is_some (Q.left source.old) }
{
    match read_all(alloc, source, MOST_DOCUMENT_BYTES) {
        Ok(bytes) => document_of(alloc, bytes.as_slice()),
        Err(ReadAllFault::TooLong { limit }) => Err(DocFault::InputTooLong { limit }),
        Err(ReadAllFault::Failed) => Err(DocFault::SourceFault),
        Err(ReadAllFault::NoMemory) => Err(DocFault::NoMemory),
    }
}
