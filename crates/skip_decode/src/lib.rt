//! Reads a Skip index stream: as a whole, which gives the document of a plain stream and the numbers of its header, or
//! event by event, over the checked fragments of a store.
#![tactic(auto)]

mod begun;
mod building;
mod checked;
mod decode;
mod fragments;
mod head;
mod head_read;
mod height;
mod index_set;
mod laws;
mod levels;
mod memory;
mod pieces;
mod position;
mod reading;
mod spot;
mod start;
mod start_fault;
mod start_laws;
mod step;
mod stepping;
mod steps;
mod stream_laws;
mod walk;
mod window;

pub use decode::decode_all;
pub use fragments::Fragments;
pub use laws::{a_stream_is_of_one_document, events_build_their_document};
pub use spot::SkipSpot;
pub use start::SkipStart;
pub use start_fault::StartFault;
pub use start_laws::starts_open_no_fragment;
pub use stream_laws::{
    heads_have_one_spelling, positions_move_along_the_events, small_streams_are_read,
    streams_have_one_spelling, streams_spell_documents, trees_have_one_spelling,
};
pub use walk::SkipWalk;

#[cfg(test)]
mod tests;
#[cfg(test)]
mod walk_tests;
