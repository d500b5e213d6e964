//! A set of indexes below a bound. Its memory is taken once, when it is made.

ghost use Rattle.std.specs.Prelude.{◌≡◌, ◌<◌, ◌^◌, ℕ, List, [], ◌∷◌, length, IfOk};
ghost use Rattle.skip_decode.specs.Different.{different};
ghost use Rattle.skip_decode.specs.inside.IndexSets.{AreFlagsOf, set_count};

use acl_bits::Flags;
use std::alloc::{AllocError, Global};

/// A set of indexes below a bound.
#[derive(Debug, Drop)]
pub(crate) struct IndexSet {
    /// For each index below the bound, whether it is a member.
    flags: Flags,
    /// The number of members.
    len: u32,
    ghost counted: { len ≡ set_count flags },
    ghost bound: { length flags < 2 ^ 32 },
}

impl IndexSet {
    /// The empty set, of indexes below this bound.
    pub fn new(alloc: Global, bound: u32) -> Result<IndexSet, AllocError>
        ensures bound { IfOk result (λ set. length set.flags ≡ bound) }
        ensures empty { IfOk result (λ set. AreFlagsOf [] set.flags) }
    {
        let mut flags = Flags::new(alloc);
        flags.grow(bound as usize)?;
        Ok(IndexSet { flags, len: 0 })
    }

    /// Adds an index, if it isn't a member yet.
    pub fn insert(&mut self, index: u32)
        requires { index < length self.old.flags }
        ensures bound { length self.new.flags ≡ length self.old.flags }
        ensures member { (members : List ℕ) → AreFlagsOf members self.old.flags
            → AreFlagsOf (index ∷ members) self.new.flags }
    {
        if !self.flags.has(index as usize) {
            self.flags.put(index as usize);
            self.len += 1;
        }
    }

    /// The number of members.
    pub fn len(&self) -> u32
        ensures { (members : List ℕ) → AreFlagsOf members self.now.flags
            → result ≡ different members }
    {
        self.len
    }
}
