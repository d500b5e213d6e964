//! Walks read a document forward as a list of events, from positions that can be copied.
#![tactic(auto)]

pub use acl_bits::Piece;
pub use close_laws::{
    closes_below_the_root, closes_of_an_attribute_in_two_pieces, closes_of_small_documents,
    predicates_close_where_they_are_met,
};
pub use document_laws::{
    documents_can_be_walked, elements_begin_once, elements_stand_in_the_list,
    spelled_documents_are_known,
};
pub use event::Event;
pub use laws::{
    events_are_no_more_than_bytes, spelled_lists_nest, spelled_lists_tell_texts,
    trees_spell_documents,
};
pub use lent::Lent;
pub use place_laws::{open_places_are_prefixes, passes_lead_to_the_finish};
pub use tree_spot::TreeSpot;
pub use tree_walk::TreeWalk;
pub use walk::Walk;
pub use walkable::can_be_walked;

mod close_laws;
mod counting;
mod document_laws;
mod event;
mod laws;
mod lent;
mod levels;
mod pieces;
mod place_laws;
mod tags;
#[cfg(test)]
mod tests;
mod tree_spot;
mod tree_step;
mod tree_walk;
mod walk;
mod walkable;
