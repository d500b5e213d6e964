//! The tables of rules, which `token_stack` and `sign_stack` use.

ghost use Rattle.std.specs.Prelude.{◌≡◌, ◌≤◌, ◌<◌, ℕ, All, Some, None, length, false, true};
ghost use Rattle.std.specs.List.{slice_get};
ghost use Rattle.rule_automata.specs.Compile.{AreTables, is_closed, are_in_turn, has_step_at};

use crate::bearing::Bearing;
use crate::preds::PredTables;
use crate::state::State;
use crate::suffix::Suffix;
use acl_bits::Row;
use std::marker::Model;

/// A state for each step of some rules, the suffixes of the paths of their predicates, which step has each predicate,
/// and which rules grant and which deny. Its model is `Automata`.
#[derive(Debug, Drop)]
pub struct Tables {
    states: Vec<State>,
    preds: PredTables,
    grants: Row,
    denies: Row,
}

impl Model for Tables {
    ghost use Rattle.rule_automata.specs.Compile.{Automata, AreTables};

    ghost Value = { Automata };

    ghost view = { λ t. record {
      states = t.states.items;
      suffixes = t.preds.suffixes.items;
      bearings = t.preds.bearings.items;
      grants = t.grants;
      denies = t.denies;
    } };

    ghost invariant = { λ t. AreTables (record {
      states = t.states.items;
      suffixes = t.preds.suffixes.items;
      bearings = t.preds.bearings.items;
      grants = t.grants;
      denies = t.denies;
    }) };
}

impl Tables {
    /// Tables of these parts.
    pub(crate) fn from_parts(
        states: Vec<State>,
        preds: PredTables,
        grants: Row,
        denies: Row,
    ) -> Tables
        requires { AreTables (record {
          states = states.items;
          suffixes = preds.suffixes.items;
          bearings = preds.bearings.items;
          grants = grants;
          denies = denies;
        }) }
        ensures { result ≡ record {
          states = states.items;
          suffixes = preds.suffixes.items;
          bearings = preds.bearings.items;
          grants = grants;
          denies = denies;
        } }
    {
        Tables {
            states,
            preds,
            grants,
            denies,
        }
    }

    /// The numbers of the rules that grant.
    pub fn grants(&self) -> Row
        ensures { result ≡ self.now.grants }
    {
        self.grants
    }

    /// The numbers of the rules that deny.
    pub fn denies(&self) -> Row
        ensures { result ≡ self.now.denies }
    {
        self.denies
    }

    /// The states, one for each step, one rule after another.
    pub fn states(&self) -> &[State]
        ensures states { result.now ≡ self.now.states }

        // The invariant of tables: at most 256 states, and each rule ends with one of its states.
        ensures few { length self.now.states ≤ 256 }
        ensures closed { is_closed false self.now.states ≡ true }
    {
        self.states.as_slice()
    }

    /// The suffixes of the paths of predicates, one predicate after another, each from the empty suffix to the whole
    /// path.
    pub fn suffixes(&self) -> &[Suffix]
        ensures suffixes { result.now ≡ self.now.suffixes }
        ensures few { length self.now.suffixes ≤ 320 }
    {
        self.preds.suffixes.as_slice()
    }

    /// Which step has each predicate, and which suffixes its path has.
    pub fn bearings(&self) -> &[Bearing]
        ensures bearings { result.now ≡ self.now.bearings }

        // The invariant of tables: at most 64 bearings, each of a step that has a state.
        ensures few { length self.now.bearings ≤ 64 }
        ensures steps { All (λ b. b.step < length self.now.states) self.now.bearings }

        // Their suffixes lie one after another. The first of each has no step, and the others have one.
        ensures order { All (λ b. b.first ≤ b.whole) self.now.bearings }
        ensures within { All (λ b. b.whole < length self.now.suffixes) self.now.bearings }
        ensures in_turn { are_in_turn (length self.now.suffixes) 0 self.now.bearings ≡ true }
        ensures empty { All (λ b. slice_get self.now.suffixes b.first ≡ Some (record { step = None }))
            self.now.bearings }
        ensures longer { All (λ b. (n : ℕ) → b.first < n → n ≤ b.whole
            → has_step_at self.now.suffixes n ≡ true) self.now.bearings }
    {
        self.preds.bearings.as_slice()
    }
}
