//! Computes the entries at a child from those at its parent. Each state tests the tag once, and a
//! step that is taken makes the next state wait.

ghost use Rattle.std.specs.Prelude.{◌≡◌, ◌≤◌, ◌+◌, ◌++◌, None, true, drop, length, option_to_list, option_map, vec_capacity};
ghost use Rattle.std.specs.List.{slice_get};
ghost use Rattle.rule_automata.specs.Run.{begun, goes_on, is_taken, selected_rule, waits_below};
ghost use Rattle.token_stack.specs.Entries.{entries_below, entry_made, is_next, next_state, own_entry, passed_entry, waiting_entry};
ghost use Rattle.token_stack.specs.Stand.{entries_from};

use crate::entry::Entry;
use acl_model::Axis;
use rule_automata::State;

/// The entry of a state that waits and with which no rule selects.
pub fn waiting(state: u16) -> Entry
    ensures { result ≡ waiting_entry state }
{
    Entry {
        state,
        waits: true,
        selects: None,
    }
}

/// Adds the entries of a child with this tag, from those of its parent, which begin at `from`.
#[tactic(auto, using(crate::proofs::MoveSteps::move_steps))]
pub fn push_moved(entries: &mut Vec<Entry>, from: usize, states: &[State], tag: u16)
    requires from { from ≤ length entries.old.items }
    requires few { length states.now ≤ 256 }
    requires room { length entries.old.items
        + length (entries_below states.now tag None (drop from entries.old.items))
        ≤ vec_capacity entries.old }
    ensures entries { entries.new.items ≡ entries.old.items
        ++ entries_below states.now tag None (drop from entries.old.items) }
    ensures capacity { vec_capacity entries.new ≡ vec_capacity entries.old }
{
    let mut next = None;
    for i in from..entries.len() {
        let entry = entries[i];
        put(entries, passed(next, entry.state));
        put(entries, own(states, tag, next, entry));
        next = after(states, tag, entry);
    }
    put(entries, last(next));
}

/// Adds the entries of the virtual root, at which the first state of each rule waits.
#[tactic(auto, using(crate::proofs::MoveSteps::begun_steps))]
pub fn push_begun(entries: &mut Vec<Entry>, states: &[State])
    requires few { length states.now ≤ 256 }
    requires room { length entries.old.items + length states.now ≤ vec_capacity entries.old }
    ensures entries { entries.new.items
        ≡ entries.old.items ++ entries_from 0 (begun true states.now) }
    ensures capacity { vec_capacity entries.new ≡ vec_capacity entries.old }
{
    let mut is_first = true;
    for (number, state) in states.iter().enumerate() {
        put(entries, made(number as u16, is_first, None));
        is_first = state.ends.is_some();
    }
}

/// Appends the entry, if there is one.
fn put(entries: &mut Vec<Entry>, entry: Option<Entry>)
    requires { length entries.old.items + length (option_to_list entry) ≤ vec_capacity entries.old }
    ensures entries { entries.new.items ≡ entries.old.items ++ option_to_list entry }
    ensures capacity { vec_capacity entries.new ≡ vec_capacity entries.old }
{
    match entry {
        Some(entry) => entries.push_reserved(entry),
        None => {}
    }
}

/// Whether the state is the next one.
fn is_it(next: Option<u16>, state: u16) -> bool
    ensures { result ≡ is_next next state }
{
    match next {
        Some(number) => number == state,
        None => false,
    }
}

/// The entry of the next state, if there is one.
fn last(next: Option<u16>) -> Option<Entry>
    ensures { result ≡ option_map waiting_entry next }
{
    match next {
        Some(state) => Some(waiting(state)),
        None => None,
    }
}

/// The entry of the next state, if that is the one whose step before was just taken.
fn passed(next: Option<u16>, state: u16) -> Option<Entry>
    ensures { result ≡ passed_entry next state }
{
    if is_it(next, state) { None } else { last(next) }
}

/// The entry of a state, if it waits or a rule selects with it.
fn made(state: u16, waits: bool, selects: Option<u8>) -> Option<Entry>
    ensures { result ≡ entry_made state waits selects }
{
    if waits || selects.is_some() {
        Some(Entry {
            state,
            waits,
            selects,
        })
    } else {
        None
    }
}

/// Whether a state waits at a child.
fn does_wait(axis: Axis, before: bool, waits: bool) -> bool
    ensures { result ≡ waits_below axis before waits }
{
    match axis {
        Axis::Child => before,
        Axis::Descendant => before || waits,
    }
}

fn does_take(state: State, waits: bool, tag: u16) -> bool
    ensures { result ≡ is_taken state waits tag }
{
    waits && state.test.does_pass(tag)
}

/// The entry of the same state at a child.
fn own(states: &[State], tag: u16, next: Option<u16>, entry: Entry) -> Option<Entry>
    ensures { result ≡ own_entry (slice_get states.now entry.state) tag next entry }
{
    match state_of(states, entry) {
        Some(state) => made(
            entry.state,
            does_wait(state.axis, is_it(next, entry.state), entry.waits),
            rule_of(state, does_take(state, entry.waits, tag)),
        ),
        None => None,
    }
}

fn state_of(states: &[State], entry: Entry) -> Option<State>
    ensures { result ≡ slice_get states.now entry.state }
{
    states.get(entry.state as usize).copied()
}

/// The rule that selects the child with this step.
fn rule_of(state: State, taken: bool) -> Option<u8>
    ensures { result ≡ selected_rule state taken }
{
    if taken { state.ends } else { None }
}

/// Whether the next state waits.
fn does_go_on(state: State, taken: bool) -> bool
    ensures { result ≡ goes_on state.ends taken }
{
    match state.ends {
        Some(_) => false,
        None => taken,
    }
}

/// The next state, if the step is taken at a child and doesn't end its rule.
fn after(states: &[State], tag: u16, entry: Entry) -> Option<u16>
    requires { length states.now ≤ 256 }
    ensures { result ≡ next_state (slice_get states.now entry.state) tag entry }
{
    match state_of(states, entry) {
        Some(state) => {
            if does_go_on(state, does_take(state, entry.waits, tag)) {
                Some(entry.state + 1)
            } else {
                None
            }
        }
        None => None,
    }
}
