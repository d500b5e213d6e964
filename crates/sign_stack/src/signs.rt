//! A stack of sets of rules, one level for each open element. The innermost level at which a rule
//! selects decides, and a denial wins there.

ghost use Rattle.std.specs.Prelude.{◌≡◌, ◌≤◌, ◌+◌, [], length, take, reverse, IfOk};
ghost use Rattle.sign_stack.specs.SignLevels.{sign_of_levels, rule_of_levels, with_level};

use crate::level::{Level, Verdict, deciding_rule, verdict_of};
use acl_bits::Row;
use acl_model::Sign;
use acl_outside::NoMemory;
use std::alloc::Global;
use std::marker::Model;

/// The sets of rules of the open elements, the root's at level 1. Its model, `SignStack`, is the rules
/// of each sign, the room for levels, and the levels that are set.
#[derive(Debug, Drop)]
pub struct Signs {
    grants: Row,
    denies: Row,
    depth: u16,
    levels: Vec<Level>,
}

impl Model for Signs {
    ghost use Rattle.std.specs.Prelude.{◌≤◌, vec_len, vec_capacity};
    ghost use Rattle.sign_stack.specs.SignLevels.{SignStack};

    ghost Value = { SignStack };

    ghost view = { λ s. record {
      grants = s.grants;
      denies = s.denies;
      depth = s.depth;
      levels = s.levels.items;
    } };

    ghost invariant = { λ s. (vec_len s.levels ≤ s.depth) × (s.depth ≤ vec_capacity s.levels) };
}

impl Signs {
    /// A stack with no level set. All memory is taken here, for `depth` levels.
    pub fn new(alloc: Global, grants: Row, denies: Row, depth: u16) -> Result<Signs, NoMemory>
        ensures { IfOk result (λ s. s
            ≡ record { grants = grants; denies = denies; depth = depth; levels = [] }) }
    {
        Ok(Signs {
            grants,
            denies,
            depth,
            levels: Vec::with_capacity(alloc, depth as usize)?,
        })
    }

    /// Sets the sets of a level, in place of those that were there.
    pub fn set(&mut self, level: u16, sure: Row, may: Row)
        requires from_one { 1 ≤ level }
        requires room { level ≤ self.old.depth }
        requires next { level ≤ length self.old.levels + 1 }
        ensures { self.new ≡ record self.old {
          levels = with_level self.old.levels level (record { sure = sure; may = may });
        } }
    {
        let rows = Level { sure, may };
        let place = (level - 1) as usize;
        if place < self.levels.len() {
            self.levels[place] = rows;
        } else {
            self.levels.push(rows).unwrap();
        }
    }

    /// Removes the levels with greater numbers.
    pub fn cut(&mut self, level: u16)
        ensures { self.new ≡ record self.old { levels = take level self.old.levels } }
    {
        self.levels.truncate(level as usize);
    }

    /// Becomes equal to another stack of the same rules.
    pub fn copy_from(&mut self, other: &Signs)
        requires grants { self.old.grants ≡ other.now.grants }
        requires denies { self.old.denies ≡ other.now.denies }
        requires depth { self.old.depth ≡ other.now.depth }
        ensures { self.new ≡ other.now }
    {
        self.levels.clear();
        self.levels
            .extend_from_slice(other.levels.as_slice())
            .unwrap();
    }

    /// The sign of the innermost element; `None` where it isn't settled yet.
    #[tactic(auto, using(crate::proofs::LevelSteps::level_steps))]
    pub fn sign(&self) -> Option<Sign>
        ensures { result
            ≡ sign_of_levels self.now.grants self.now.denies (reverse self.now.levels) }
    {
        let mut left = self.levels.len();
        while left > 0 {
            left -= 1;
            match verdict_of(&self.grants, &self.denies, &self.levels[left]) {
                Verdict::Decided(sign) => return Some(sign),
                Verdict::Unsettled => return None,
                Verdict::Inherited => {}
            }
        }
        Some(Sign::Deny)
    }

    /// The number of the rule that decides the sign of the innermost element; `None` where no rule
    /// surely selects it or an element around it.
    #[tactic(auto, using(crate::proofs::LevelSteps::level_steps))]
    pub fn decider(&self) -> Option<u16>
        ensures { result
            ≡ rule_of_levels self.now.grants self.now.denies (reverse self.now.levels) }
    {
        let mut left = self.levels.len();
        while left > 0 {
            left -= 1;
            match deciding_rule(&self.grants, &self.denies, &self.levels[left]) {
                Some(rule) => return Some(rule),
                None => {}
            }
        }
        None
    }
}
