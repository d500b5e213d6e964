//! Reads and writes paths of access rules, exactly as their grammar says, and counts their steps and predicates.
#![tactic(auto)]

mod inside;
mod laws;
mod lists;
mod machine;
mod name_test;
mod operand;
mod path_error;
mod quote;
mod reading;
mod state;
mod states;
mod writing;

pub use laws::{
    a_place_is_of_whole_texts, a_place_is_one, a_text_spells_one_path,
    the_canonical_spelling_is_shortest, what_is_read_is_spelled, what_is_refused_is_no_path,
    what_is_spelled_is_read,
};
pub use path_error::PathError;
pub use reading::read_path;
pub use states::{States, count_states};
pub use writing::write_path;
