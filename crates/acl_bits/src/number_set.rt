//! A set of numbers from 0 to 255 in four machine words: number `n` is a member exactly where bit `n % 64` of word
//! `n / 64` is 1.

ghost use Rattle.std.specs.Prelude.{◌≡◌, ◌↔◌, ◌<◌, ◌≤◌, ◌==◌, ◌||◌, ◌-◌, ◌^◌, nat_lt, min, [], length, count_by, slice_get, IsNone, IfSome, MatchOption, ◌∷◌, ℕ, Bool, false};
ghost use Rattle.std.specs.List.{range_with_len, list_any};
ghost use Rattle.acl_bits.specs.Row.{row_of, is_member, is_set, IsRow, IsFirst};
ghost use Rattle.acl_bits.specs.inside.RowLaws.{numbers_below};

use std::marker::Model;

#[cfg(test)]
mod tests;

/// A set contains numbers below this one only.
const NUMBERS: u16 = 256;

/// A set of numbers from 0 to 255. In contracts it is the list of its members in rising order.
#[derive(Clone, Copy, Debug)]
pub struct Row {
    words: [u64; 4],
}

impl Model for Row {
    ghost use Rattle.std.specs.Prelude.{List, ℕ};
    ghost use Rattle.acl_bits.specs.Row.{AreWords, members_of, words_of};
    ghost use Rattle.std.proofs.Common.{ap};
    ghost use Rattle.acl_bits.specs.inside.RowWords.{words_of-members};

    ghost Value = { List ℕ };

    ghost view = { λ r. members_of r.words };

    ghost invariant = { λ r. AreWords r.words };

    ghost inverse = { λ members. record { words = words_of members } };

    ghost inverse_ok = { λ r h. ap (λ ws. record { words = ws }) (words_of-members r.words h) };
}

impl PartialEq for Row {
    ghost use Rattle.std.specs.Prelude.{◌==◌};
    ghost use Rattle.std.specs.Cmp.Lexicographic.{pointwise};
    ghost use Rattle.std.specs.Cmp.Rules.{comparing};
    ghost use Rattle.std.proofs.Common.{rules};

    ghost eq = { pointwise ◌==◌ };

    ghost laws = { Prim.search (comparing, rules) };

    fn eq(&self, other: &Row) -> bool {
        self.words == other.words
    }
}

impl Eq for Row {
    ghost use Rattle.std.specs.Cmp.Rules.{comparing};
    ghost use Rattle.std.proofs.Common.{rules};

    ghost laws = { Prim.search (comparing, rules) };
}

impl Row {
    /// The empty set.
    pub fn none() -> Row
        ensures { result ≡ [] }
    {
        Row { words: [0; 4] }
    }

    /// The set of the first `count` numbers, beginning with 0.
    pub fn full(count: u16) -> Row
        requires { count ≤ 256 }
        ensures { result ≡ range_with_len 0 count }
    {
        Row {
            words: [
                low_ones(count),
                low_ones(count.saturating_sub(64)),
                low_ones(count.saturating_sub(128)),
                low_ones(count.saturating_sub(192)),
            ],
        }
    }

    /// Whether `n` is a member; false from 256 on.
    pub fn has(&self, n: u16) -> bool
        ensures { result ≡ is_member self.now n }
    {
        n < NUMBERS && self.words[(n / 64) as usize] >> (n % 64) & 1 == 1
    }

    /// Adds `n`.
    pub fn put(&mut self, n: u16)
        requires { n < 256 }
        ensures { self.new ≡ row_of (λ m. m == n || is_member self.old m) }
    {
        self.words[(n / 64) as usize] |= 1 << (n % 64);
    }

    /// Whether the two sets have a member in common.
    pub fn meets(&self, other: &Row) -> bool
        ensures { result ≡ list_any (is_member other.now) self.now }
    {
        for i in 0..4 {
            if self.words[i] & other.words[i] != 0 {
                return true;
            }
        }
        false
    }

    /// Adds each member of `other`.
    pub fn join(&mut self, other: &Row)
        ensures { self.new ≡ row_of (λ m. is_member self.old m || is_member other.now m) }
    {
        for i in 0..4 {
            self.words[i] |= other.words[i];
        }
    }

    /// The number of members, at most 256.
    pub fn count(&self) -> u16
        ensures number { result ≡ length self.now }

        // The members of each set rise and are below 256, and a set is determined by them.
        ensures row { IsRow self.now }
        ensures whole { row_of (is_member self.now) ≡ self.now }
    {
        ones_before(&self.words, NUMBERS)
    }

    /// The number of members below `n`.
    pub fn rank(&self, n: u16) -> u16
        ensures { result ≡ count_by (λ m. nat_lt m n) self.now }
    {
        ones_before(&self.words, n.min(NUMBERS))
    }

    /// The member that has exactly `k` members below it, or `None` where there are at most `k` members.
    pub fn nth(&self, k: u16) -> Option<u16>
        ensures value { result ≡ slice_get self.now k }
        ensures none { IsNone result ↔ (length self.now ≤ k) }
    {
        if k >= self.count() {
            return None;
        }
        let mut low = 0;
        let mut high = NUMBERS;
        while high - low > 1 {
            let middle = (low + high) / 2;
            if self.rank(middle) <= k {
                low = middle;
            } else {
                high = middle;
            }
        }
        Some(low)
    }

    /// Removes the least member and returns it, if there is one. A loop that calls this visits all members in rising
    /// order.
    pub fn take_first(&mut self) -> Option<u16>
        ensures first { MatchOption result (self.old ≡ []) (λ n. self.old ≡ n ∷ self.new) }
        ensures small { IfSome result (λ n. n < 256) }
        ensures kept { IsNone result → self.new ≡ self.old }
    {
        let first = first_of(&self.words)?;
        self.words[(first / 64) as usize] &= !(1 << (first % 64));
        Some(first)
    }
}

/// A law: the set `row_of test` contains exactly the numbers below 256 that pass the test, in rising order.
pub fn sets_have_what_passes()
    ensures member { (test : ℕ → Bool) (n : ℕ) → n < 256 → is_member (row_of test) n ≡ test n }
    ensures past { (test : ℕ → Bool) (n : ℕ) → 256 ≤ n → is_member (row_of test) n ≡ false }
    ensures row { (test : ℕ → Bool) → IsRow (row_of test) }
{}

/// The word whose lowest `count` bits are 1; all its bits where `count` is 64 or more.
fn low_ones(count: u16) -> u64
    ensures { result ≡ 2 ^ min count 64 - 1 }
{
    if count < 64 {
        (1 << count) - 1
    } else {
        u64::MAX
    }
}

/// The least number that the words contain, or `None` where there is none.
fn first_of(words: &[u64; 4]) -> Option<u16>
    ensures { MatchOption result
        ((n : ℕ) → n < 256 → is_set words.now n ≡ false)
        (IsFirst words.now) }
{
    for i in 0..4 {
        if words[i] != 0 {
            return Some(64 * i as u16 + words[i].trailing_zeros() as u16);
        }
    }
    None
}

/// How many of the first `n` bits of the words are 1, counted from the lowest bit of the first word.
fn ones_before(words: &[u64; 4], n: u16) -> u16
    requires { n ≤ 256 }
    ensures { result ≡ length (numbers_below (is_set words.now) n) }
{
    let whole = (n / 64) as usize;
    let mut ones = 0;
    for i in 0..whole {
        ones += words[i].count_ones();
    }
    if whole < 4 {
        ones += (words[whole] & low_ones(n % 64)).count_ones();
    }
    ones as u16
}
