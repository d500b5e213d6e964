//! Tokens: the active states of the rules' tables at each open element, and the rules that select
//! it.
#![tactic(auto)]

mod bound_laws;
mod entry;
mod laws;
mod moves;
mod predicate_laws;
mod rows;
mod sign_laws;
mod tokens;

pub use bound_laws::{
    a_look_ahead_tells_more, bounds_of_a_small_document, predicates_are_settled,
    predicates_lie_between_bounds, rules_lie_between_bounds, selection_follows_predicates,
    selection_lies_between_bounds, standing_sets_are_right, standing_sets_follow_a_look_ahead,
    standing_tokens_stand_by_what_is_known,
};
pub use entry::Entry;
pub use laws::{
    levels_follow_tags, open_elements_stand_in_the_document, rows_have_the_rules_that_select,
    standing_tokens_are_sure_and_complete, standing_tokens_have_the_rules_that_select,
    tokens_follow_events,
};
pub use predicate_laws::{
    events_meet_what_they_hit, levels_follow_a_look_ahead, levels_follow_events,
    levels_give_the_bounds, levels_give_the_rules, levels_give_the_standing_sets, levels_join,
    levels_tell_what_steps_keep, one_event_more_is_known, open_predicates_are_not_settled,
    rows_of_a_small_document, rows_of_steps_tell_what_paths_select, rows_rise_as_ways_lead,
    rows_rise_from_the_innermost_element, undecided_rules_have_an_open_predicate,
    values_are_read_whole, ways_lead_by_names,
};
pub use sign_laws::{standing_rows_give_signs, standing_tokens_give_signs};
pub use tokens::Tokens;

#[cfg(test)]
mod tests;
