//! Reads a document from bytes: the state machine takes one line at a time.

ghost use Rattle.std.specs.Prelude.{◌≤◌, length};
ghost use Rattle.acl_model.specs.Limits.{most_document_bytes};
ghost use Rattle.esis_lines.specs.DocumentAnswers.{ButForMemory};
ghost use Rattle.esis_lines.specs.LineMachine.{read_doc_of};

use crate::doc_fault::DocFault;
use crate::line::{Line, classify};
use crate::reader::Reader;
use acl_model::{Doc, next_line};
use std::alloc::Global;

/// Reads all bytes as a document. Each line is read once. The limit on the bytes keeps line numbers within `u32`.
pub fn document_of(alloc: Global, bytes: &[u8]) -> Result<Doc, DocFault>
    requires { length bytes.now ≤ most_document_bytes }
    ensures { ButForMemory result (read_doc_of bytes.now) }
{
    let mut reader = Reader::new(alloc);
    let mut number = 1;
    let mut closed = false;
    let mut rest = bytes;
    'lines: while let Some((line, after)) = next_line(rest) {
        if closed {
            return Err(DocFault::BadLine { line: number });
        }
        let said = classify(line, number)?;
        closed = said.is_closing();
        reader.take(alloc, number, said)?;
        number += 1;
        rest = after;
    }
    reader.finish(number)
}
