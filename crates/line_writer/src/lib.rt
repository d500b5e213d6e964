//! Writes the lines of a document, a view or an explanation to a sink, whole or in parts.
#![tactic(auto)]

mod document_lines;
mod explanation_lines;

pub use document_lines::{
    begin_attribute, begin_text, end_line, write_attribute, write_attributes,
    write_attributes_and_start, write_end, write_start, write_text,
};
pub use explanation_lines::{
    rule_word, write_explanation_head, write_explanation_line, write_number, write_place,
};

#[cfg(test)]
mod tests;
