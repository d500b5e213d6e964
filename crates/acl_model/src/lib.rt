//! What documents, paths and rules are, and which part of a document a list of rules shows. The promises of `acl` are
//! stated with these definitions.
#![tactic(auto)]

mod document;
mod form;
mod laws;
pub mod limits;
mod lines;
mod names;
mod path;
mod rule;
mod sequence;

pub use document::{Doc, Element, Item};
pub use form::{is_document, is_view_document};
pub use laws::{
    documents_are_view_documents, elements_show_where_granted, grants_are_of_places,
    least_widths_are_found, paths_select_by_ancestors, places_are_of_elements,
    signs_follow_ancestors, streams_of_small_documents, targets_are_where_paths_lead,
    texts_are_bytes, views_are_view_documents,
};
pub use lines::{cut, next_line};
pub use names::{is_a_name, may_begin_name, may_continue_name};
pub use path::{Axis, Cmp, Op, Operand, Path, Pred, PredStep, Step, Test};
pub use rule::{Rule, Sign};
pub use sequence::{Bytes, Name, Place, Sequence};

#[cfg(test)]
mod tests;
