//! A list of flags, 64 to a word: flag `n` is set exactly where bit `n % 64` of word `n / 64` is 1.
//! The bits after the last flag are 0.

ghost use Rattle.std.specs.Prelude.{◌≡◌, ◌<◌, ◌+◌, ◌==◌, [], ◌∷◌, ◌++◌, length, take, drop, get_or, replicate, IfOk, ℕ, true, false};
ghost use Rattle.acl_bits.specs.FilledBits.{has_bit};
ghost use Rattle.acl_bits.specs.Flags.{risen, rises, flag_before, AreRisen};

use std::alloc::{AllocError, Global};
use std::marker::Model;

#[cfg(test)]
mod tests;

/// A list of flags, 64 to a machine word. In contracts it is the list of the flags' values.
#[derive(Debug, Drop)]
pub struct Flags {
    words: Vec<u64>,
    len: usize,
}

impl Model for Flags {
    ghost use Rattle.std.specs.Prelude.{List, Bool};
    ghost use Rattle.acl_bits.specs.Flags.{flags_of, HoldFlags};

    ghost Value = { List Bool };

    ghost view = { λ f. flags_of f.words.items f.len };

    ghost invariant = { λ f. HoldFlags f.words.items f.len };
}

impl Flags {
    /// The empty list.
    pub fn new(alloc: Global) -> Flags
        ensures { result ≡ [] }
    {
        Flags {
            words: Vec::new(alloc),
            len: 0,
        }
    }

    /// Appends `count` flags that are not set. After an error the list is unspecified.
    pub fn grow(&mut self, count: usize) -> Result<(), AllocError>
        ensures { IfOk result (λ done. self.new ≡ self.old ++ replicate count false) }
    {
        let len = self.len.checked_add(count).ok_or(AllocError)?;
        self.words.resize(len.div_ceil(64), 0)?;
        self.len = len;
        Ok(())
    }

    /// The number of flags.
    pub fn len(&self) -> usize
        ensures { result ≡ length self.now }
    {
        self.len
    }

    /// Whether flag `n` is set; false past the end.
    pub fn has(&self, n: usize) -> bool
        ensures { result ≡ get_or self.now n false }
    {
        n < self.len && self.words[n / 64] >> (n % 64) & 1 == 1
    }

    /// Sets flag `n`.
    pub fn put(&mut self, n: usize)
        requires { n < length self.old }
        ensures { self.new ≡ take n self.old ++ (true ∷ drop (n + 1) self.old) }
    {
        self.words[n / 64] |= 1 << (n % 64);
    }

    /// Updates the flags of an element from those of a child, `below`, as the definition `risen` says.
    pub fn rise(&mut self, below: &Flags, tests: &Flags, deep: &Flags)
        requires below { length below.now ≡ length self.old }
        requires tests { length tests.now ≡ length self.old }
        requires deep { length deep.now ≡ length self.old }
        ensures { self.new ≡ risen false tests.now deep.now below.now self.old }
    {
        rise_words(&mut self.words, &tests.words, &deep.words, &below.words);
    }
}

/// Updates all words as `rise` does, from the first word to the last.
fn rise_words(own: &mut [u64], tests: &[u64], deep: &[u64], below: &[u64])
    requires tests { length tests.now ≡ length own.old }
    requires deep { length deep.now ≡ length own.old }
    requires below { length below.now ≡ length own.old }
    ensures { AreRisen own.old own.new tests.now deep.now below.now }
{
    let mut carry = 0;
    for i in 0..own.len() {
        own[i] = risen_word(own[i], tests[i], deep[i], below[i], carry);
        carry = below[i] >> 63;
    }
}

/// Updates one word as `rise` does. `carry` is the highest bit of the child's word before this one.
fn risen_word(own: u64, tests: u64, deep: u64, below: u64, carry: u64) -> u64
    requires { carry < 2 }
    ensures { (i : ℕ) → i < 64
        → has_bit result i
        ≡ rises (has_bit own i) (has_bit tests i) (flag_before (has_bit below) (carry == 1) i)
        (has_bit deep i) (has_bit below i) }
{
    own | ((tests & ((below << 1) | carry)) | (deep & below))
}
