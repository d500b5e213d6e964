//! The laws of reading: the machine reads and refuses exactly as the definitions of a document's text and of the
//! refusals say. These functions do nothing: their contracts are the laws.

ghost use Rattle.std.specs.Prelude.{◌≡◌, ℕ, List, Ok, Err, true};
ghost use Rattle.acl_model.specs.Ascii.{are_bytes};
ghost use Rattle.acl_model.specs.Document.{is_document};
ghost use Rattle.acl_model.specs.Lines.{lines};
ghost use Rattle.acl_model.specs.Text.{text};
ghost use Rattle.acl_model.specs.declared.document.Doc.{Doc};
ghost use Rattle.esis_lines.specs.DocumentText.{IsDocumentText, document_lines};
ghost use Rattle.esis_lines.specs.LineMachine.{read_doc_of};
ghost use Rattle.esis_lines.specs.LineRefusals.{IsRefused, is_of_lines};
ghost use Rattle.esis_lines.specs.declared.doc_fault.DocFault.{DocFault};

/// Each text of a document is read as that document. It may have lines that belong to no document and a last line
/// 'C', and it may lack the last line feed.
pub fn reads_every_document()
    ensures { (d : Doc) (bytes : List ℕ) → IsDocumentText d bytes → read_doc_of bytes ≡ Ok d }
{}

/// Bytes that are read as a document are a text of it.
pub fn reads_documents_alone()
    ensures { (d : Doc) (bytes : List ℕ) → are_bytes bytes ≡ true → read_doc_of bytes ≡ Ok d
        → IsDocumentText d bytes }
{}

/// Texts of two documents differ in more than lines that belong to no document.
pub fn a_text_is_of_one_document()
    ensures { (d e : Doc) (one other : List ℕ) → IsDocumentText d one → IsDocumentText e other
        → document_lines (lines one) ≡ document_lines (lines other) → d ≡ e }
{}

/// The text that is written for a document is a text of it, and is read as that document, whatever its length.
pub fn what_is_written_is_read()
    ensures text { (d : Doc) → is_document d ≡ true → IsDocumentText d (text d) }
    ensures read { (d : Doc) → is_document d ≡ true → read_doc_of (text d) ≡ Ok d }
{}

/// Where bytes are refused, the answer is that of the first refused line, by its first cause in the table.
pub fn refuses_by_the_table()
    ensures { (bytes : List ℕ) (fault : DocFault) → read_doc_of bytes ≡ Err fault
        → IsRefused fault (lines bytes) }
{}

/// Where the table refuses lines with an answer, the machine does too.
pub fn refuses_all_of_the_table()
    ensures { (bytes : List ℕ) (fault : DocFault) → IsRefused fault (lines bytes)
        → read_doc_of bytes ≡ Err fault }
{}

/// The machine refuses bytes with an answer about lines: never about their number, the source, or memory.
pub fn refusals_are_of_lines()
    ensures { (bytes : List ℕ) (fault : DocFault) → read_doc_of bytes ≡ Err fault
        → is_of_lines fault ≡ true }
{}

/// Bytes that are refused are a text of no document.
pub fn what_is_refused_is_no_document()
    ensures { (d : Doc) (bytes : List ℕ) (fault : DocFault) → IsRefused fault (lines bytes)
        → IsDocumentText d bytes → ⊥ }
{}
