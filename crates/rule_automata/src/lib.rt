//! Compiles rules to automata over tags: tables with a state for each step of the rules' paths,
//! and for each suffix of the paths of their predicates.
#![tactic(auto)]

mod bearing;
mod compiler;
mod laws;
mod limits;
mod preds;
mod state;
mod suffix;
mod tables;

pub use bearing::Bearing;
pub use compiler::compile;
pub use laws::{
    a_predicate_has_a_bearing, a_step_has_a_state, states_take_the_rules_that_select,
    tags_pass_as_names_do,
};
pub use limits::are_within_limits;
pub use state::{State, TagTest};
pub use suffix::{Suffix, SuffixStep};
pub use tables::Tables;

#[cfg(test)]
mod tests;
