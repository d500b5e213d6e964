//! Which predicates hold at the elements of a document, as flags that a walk reads in document order.

ghost use Rattle.std.specs.Prelude.{◌≡◌, take, drop};
ghost use Rattle.std.specs.List.{list_all};

use acl_bits::Flags;
use std::marker::Model;

/// The flags of the predicates at the elements that a walk has not reached yet, in document order.
#[derive(Drop)]
pub struct Known<'a> {
    flags: &'a Flags,
    at: usize,
}

impl<'a> Model for Known<'a> {
    ghost use Rattle.std.specs.Prelude.{◌≤◌, List, Bool, drop, length};

    ghost Value = { List Bool };

    ghost view = { λ k. drop k.at k.flags.now };

    ghost invariant = { λ k. k.at ≤ length k.flags.now };
}

impl<'a> Known<'a> {
    /// All flags of a document.
    pub fn all(flags: &'a Flags) -> Known<'a>
        ensures { result ≡ flags.now }
    {
        Known { flags, at: 0 }
    }

    /// Whether each of the next `count` flags is set, or each that is left where there are fewer.
    pub fn are_set(&self, count: usize) -> bool
        ensures { result ≡ list_all (λ flag. flag) (take count self.now) }
    {
        let left = self.flags.len() - self.at;
        for n in 0..count.min(left) {
            if !self.flags.has(self.at + n) {
                return false;
            }
        }
        true
    }

    /// Skips `count` flags, or all that are left.
    pub fn pass(&mut self, count: usize)
        ensures { self.new ≡ drop count self.old }
    {
        let left = self.flags.len() - self.at;
        self.at += count.min(left);
    }
}
