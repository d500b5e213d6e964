//! A stack of entries, one level for each open element and one for the virtual root, in one piece
//! of memory.

ghost use Rattle.std.specs.Prelude.{◌≡◌, ◌≤◌, ◌<◌, ◌+◌, ◌*◌, ◌-◌, [], ◌∷◌, ◌++◌, ℕ, List, IfOk, None, length, take, true};
ghost use Rattle.acl_bits.specs.declared.piece.Piece.{Piece};
ghost use Rattle.acl_walk.specs.declared.event.Event.TheVariants.{Begin, Attr, HeadEnd, Text, Finish};
ghost use Rattle.rule_automata.specs.Run.{begun};
ghost use Rattle.token_stack.specs.Entries.{entries_below, rules_of};
ghost use Rattle.token_stack.specs.Stack.{are_levels, entries_at, entry_count, innermost, open_elements, start_of};
ghost use Rattle.token_stack.specs.Stand.{entries_from};
ghost use Rattle.token_stack.specs.TokensStand.{fed};

use crate::entry::Entry;
use crate::moves::{push_begun, push_moved};
use crate::rows::rules_between;
use acl_bits::{Piece, Row};
use acl_outside::NoMemory;
use rule_automata::Tables;
use std::alloc::Global;
use std::marker::Model;

/// The states that wait at each open element, and the rules that select it. Its model is
/// `TokenStack`, the entries of each level.
#[derive(Debug, Drop)]
pub struct Tokens {
    states: u16,
    depth: u16,
    /// Where each level ends among the entries, from the virtual root's and the root's inward.
    ends: Vec<u32>,
    entries: Vec<Entry>,
}

impl Model for Tokens {
    ghost use Rattle.std.specs.Prelude.{vec_capacity};
    ghost use Rattle.token_stack.specs.Stack.{TokenStack, levels_cut};
    ghost use Rattle.token_stack.specs.inside.Kept.{AreTokens};

    ghost Value = { TokenStack };

    ghost view = { λ t. record {
      states = t.states;
      depth = t.depth;
      levels = levels_cut 0 t.ends.items t.entries.items;
    } };

    ghost invariant = { λ t. AreTokens t.states t.depth t.ends.items t.entries.items
        (vec_capacity t.ends) (vec_capacity t.entries) };
}

impl Tokens {
    /// No element is open. All memory is taken here, for `depth` open elements.
    pub fn new(alloc: Global, tables: &Tables, depth: u16) -> Result<Tokens, NoMemory>
        ensures { IfOk result (λ tokens. tokens ≡ record {
          states = length tables.now.states;
          depth = depth;
          levels = entries_from 0 (begun true tables.now.states) ∷ [];
        }) }
    {
        let states = tables.states();
        let levels = depth as usize + 1;
        let mut entries = Vec::with_capacity(alloc, levels * states.len())?;
        let mut ends = Vec::with_capacity(alloc, levels)?;
        push_begun(&mut entries, states);
        ends.push_reserved(entries.len() as u32);
        Ok(Tokens {
            states: states.len() as u16,
            depth,
            ends,
            entries,
        })
    }

    /// Opens an element with this tag.
    pub fn begin(&mut self, tables: &Tables, tag: u16)
        requires tables { length tables.now.states ≡ self.old.states }
        requires room { open_elements self.old < self.old.depth }
        ensures feeds { (below : List ℕ)
            → self.new ≡ fed tables.now.states (Begin tag below) self.old }
        ensures levels { self.new ≡ record self.old {
          levels = self.old.levels
              ++ (entries_below tables.now.states tag None (innermost self.old.levels) ∷ []);
        } }
    {
        let from = level_start(&self.ends, self.ends.len() - 1);
        push_moved(&mut self.entries, from, tables.states(), tag);
        self.ends.push_reserved(self.entries.len() as u32);
    }

    /// Takes a piece of an attribute of the innermost open element. Without predicates this changes
    /// nothing.
    pub fn attr(&mut self, tables: &Tables, piece: &Piece)
        requires tables { length tables.now.states ≡ self.old.states }
        requires open { 0 < open_elements self.old }
        ensures feeds { self.new ≡ fed tables.now.states (Attr piece.now) self.old }
        ensures kept { self.new ≡ self.old }
    {}

    /// Takes the end of the attributes of the innermost open element. Without predicates this
    /// changes nothing.
    pub fn head_end(&mut self, tables: &Tables)
        requires tables { length tables.now.states ≡ self.old.states }
        requires open { 0 < open_elements self.old }
        ensures feeds { self.new ≡ fed tables.now.states HeadEnd self.old }
        ensures kept { self.new ≡ self.old }
    {}

    /// Takes a piece of a text in the innermost open element. Without predicates this changes
    /// nothing.
    pub fn text(&mut self, tables: &Tables, piece: &[u8])
        requires tables { length tables.now.states ≡ self.old.states }
        requires open { 0 < open_elements self.old }
        ensures feeds { (part : Piece) → part.bytes.items ≡ piece.now
            → self.new ≡ fed tables.now.states (Text part) self.old }
        ensures kept { self.new ≡ self.old }
    {}

    /// Settles what is decided when the innermost open element closes, and leaves it open. Without
    /// predicates all is settled already.
    pub fn settle(&mut self, tables: &Tables)
        requires tables { length tables.now.states ≡ self.old.states }
        requires open { 0 < open_elements self.old }
        ensures { self.new ≡ self.old }
    {}

    /// Copies what other tokens, which are further on, have settled at the levels up to this one.
    /// Without predicates all is settled already.
    pub fn learn(&mut self, tables: &Tables, ahead: &Tokens, level: u16)
        requires tables { length tables.now.states ≡ self.old.states }
        requires states { ahead.now.states ≡ self.old.states }
        requires depth { ahead.now.depth ≡ self.old.depth }
        requires open { level ≤ open_elements self.old }
        requires open_ahead { level ≤ open_elements ahead.now }
        ensures { self.new ≡ self.old }
    {}

    /// Closes the innermost open element.
    pub fn finish(&mut self, tables: &Tables)
        requires tables { length tables.now.states ≡ self.old.states }
        requires open { 0 < open_elements self.old }
        ensures feeds { (tag : ℕ) → self.new ≡ fed tables.now.states (Finish tag) self.old }
        ensures levels { self.new ≡ record self.old {
          levels = take (length self.old.levels - 1) self.old.levels;
        } }
    {
        let levels = self.ends.len() - 1;
        self.entries.truncate(level_start(&self.ends, levels));
        self.ends.truncate(levels);
    }

    /// The rules that surely select the element of a level. The root's level is 1. Past the
    /// innermost level the set is empty.
    pub fn sure(&self, level: u16) -> Row
        ensures { result ≡ rules_of (entries_at self.now.levels level) }
    {
        let level = level as usize;
        if level == 0 || level >= self.ends.len() {
            return Row::none();
        }
        let from = level_start(&self.ends, level);
        rules_between(&self.entries, from, self.ends[level] as usize)
    }

    /// The rules that may select the element of a level: without predicates those that surely do.
    pub fn may(&self, level: u16) -> Row
        ensures { result ≡ rules_of (entries_at self.now.levels level) }
    {
        self.sure(level)
    }

    /// How many entries there are: at most one of each state at each open element and at the
    /// virtual root.
    pub fn entries(&self) -> u32
        ensures count { result ≡ entry_count self.now.levels }
        ensures bound { result ≤ (open_elements self.now + 1) * self.now.states }

        // What each value is: no two entries of a level have one state.
        ensures once { are_levels self.now.states self.now.levels ≡ true }
    {
        self.entries.len() as u32
    }

    /// Becomes equal to other tokens of the same tables.
    pub fn copy_from(&mut self, other: &Tokens)
        requires states { self.old.states ≡ other.now.states }
        requires depth { self.old.depth ≡ other.now.depth }
        ensures { self.new ≡ other.now }
    {
        self.ends.clear();
        self.ends.extend_from_slice(other.ends.as_slice()).unwrap();
        self.entries.clear();
        self.entries
            .extend_from_slice(other.entries.as_slice())
            .unwrap();
    }
}

/// Where a level begins among the entries.
fn level_start(ends: &[u32], level: usize) -> usize
    requires { level < length ends.now }
    ensures { result ≡ start_of ends.now level }
{
    if level == 0 {
        0
    } else {
        ends[level - 1] as usize
    }
}
