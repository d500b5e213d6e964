//! Reads and writes documents as lines, in this project's profile of the ESIS line form of `nsgmls`. A source is read
//! whole, and then its bytes are read as a document.
#![tactic(auto)]

mod appending;
mod doc_fault;
mod document_of;
mod input;
mod laws;
mod line;
mod open_element;
mod output;
mod reader;
mod reading;

pub use doc_fault::DocFault;
pub use input::{ReadAllFault, read_all};
pub use laws::{
    a_text_is_of_one_document, reads_documents_alone, reads_every_document, refusals_are_of_lines,
    refuses_all_of_the_table, refuses_by_the_table, what_is_refused_is_no_document,
    what_is_written_is_read,
};
pub use output::write_doc;
pub use reading::read_doc;
