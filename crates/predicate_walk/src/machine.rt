//! The tables of a walk. They are made from the predicates once, before the walk.

ghost use Rattle.std.specs.Prelude.{◌≡◌, IfOk, OnOk, length, ◌++◌};
ghost use Rattle.std.specs.List.{list_any};
ghost use Rattle.predicate_walk.specs.inside.States.{number_of_states, row_at, clear_row, tests_of, with_child};
ghost use Rattle.predicate_walk.specs.inside.KeptTexts.{compares_element, compares_texts, needs_texts, kept};
ghost use Rattle.predicate_walk.specs.Truths.{preds_in};

use crate::name_rows::find_name_rows;
use crate::question::Question;
use crate::rows::find_answers;
use crate::truths::PredRef;
use acl_bits::Flags;
use acl_model::{Element, Pred};
use std::alloc::{AllocError, Global};
use std::collections::HashMap;
use std::marker::Model;

/// The tables of a walk. In contracts a machine is the list of its predicates.
#[derive(Drop)]
pub struct Machine<'a> {
    preds: &'a [PredRef<'a>],
    /// Which states have a step to the descendants.
    deep: Flags,
    /// For each name in a step, which states have a step that passes it.
    named: HashMap<Vec<u8>, Flags>,
    /// The same for all other names.
    others: Flags,
    /// Whether a predicate compares the string-values of elements.
    needs_texts: bool,
}

impl<'a> Model for Machine<'a> {
    ghost use Rattle.std.specs.Prelude.{List};
    ghost use Rattle.acl_model.specs.declared.path.Pred.{Pred};
    ghost use Rattle.predicate_walk.specs.inside.NameRows.{IsMachine};
    ghost use Rattle.predicate_walk.specs.Truths.{preds_in};

    ghost Value = { List Pred };

    ghost view = { λ m. preds_in m.preds.now };

    ghost invariant = { λ m.
        IsMachine (preds_in m.preds.now) m.deep m.named m.others m.needs_texts };
}

/// Whether the predicate compares the string-values of elements.
fn does_compare_texts(pred: &Pred) -> bool
    ensures { result ≡ compares_texts pred.now }
{
    match (&pred.attribute, &pred.cmp) {
        (None, Some(_)) => true,
        (None, None) => false,
        (Some(_), _) => false,
    }
}

/// Whether some predicate compares the string-values of elements.
fn do_any_compare_texts(preds: &[PredRef<'_>]) -> bool
    ensures { result ≡ list_any (λ r. compares_texts r.pred.now) preds.now }
{
    preds.iter().any(|r| does_compare_texts(r.pred))
}

impl<'a> Machine<'a> {
    /// Makes the tables for these predicates.
    pub fn new(alloc: Global, preds: &'a [PredRef<'a>]) -> Result<Machine<'a>, AllocError>
        ensures { IfOk result (λ machine. machine ≡ preds_in preds.now) }
    {
        Ok(Machine {
            preds,
            deep: find_answers(alloc, Question::IsDeep, preds)?,
            named: find_name_rows(alloc, preds)?,
            others: find_answers(alloc, Question::PassesEachName, preds)?,
            needs_texts: do_any_compare_texts(preds),
        })
    }

    /// The predicates, in the order in which they were passed.
    pub fn preds(&self) -> &'a [PredRef<'a>]
        ensures { preds_in result.now ≡ self.now }
    {
        self.preds
    }

    /// A row in which no state is set.
    pub fn clear_row(&self, alloc: Global) -> Result<Flags, AllocError>
        ensures { IfOk result (λ row. row ≡ clear_row self.now) }
    {
        let mut row = Flags::new(alloc);
        row.grow(self.deep.len())?;
        Ok(row)
    }

    /// Which states have a step that passes the name.
    fn tests(&self, name: &[u8]) -> &Flags
        ensures { result.now ≡ tests_of name.now self.now }
    {
        match self.named.get(name) {
            Some(row) => row,
            None => &self.others,
        }
    }

    /// Sets the states in a parent's row that follow from the row `below` of a child.
    #[tactic(auto, unfolding(crate::specs::inside::States::with_child))]
    pub fn take_in(&self, child: &Element, below: &Flags, row: &mut Flags)
        requires below { below.now ≡ row_at self.now child.now }
        requires row { length row.old ≡ number_of_states self.now }
        ensures { row.new ≡ with_child self.now row.old child.now }
    {
        row.rise(below, self.tests(child.name.as_slice()), &self.deep);
    }

    /// Appends a text to `texts`, if some predicate compares string-values.
    pub fn keep_text(&self, bytes: &[u8], texts: &mut Vec<u8>) -> Result<(), AllocError>
        ensures { OnOk result
            (texts.new.items ≡ texts.old.items ++ kept (needs_texts self.now) bytes.now) }
    {
        if self.needs_texts {
            texts.extend_from_slice(bytes)?;
        }
        Ok(())
    }
}
