//! `acl_model` and `acl_bits` define bits alike, since neither can depend on the other. The function here does nothing:
//! its contract is the theorem that the definitions agree.

ghost use Rattle.std.specs.Prelude.{◌≡◌, ℕ, List, Bool};
ghost use Rattle.acl_model.specs.StreamBits as model;
ghost use Rattle.acl_bits.specs.FilledBits as bits;

/// The definitions on bits of `acl_model` and of `acl_bits` are the same.
pub fn words_on_bits_are_the_same()
    ensures bits { (n value : ℕ) → model.bits_of n value ≡ bits.bits_of n value }
    ensures number { (high : ℕ) (list : List Bool)
        → model.number_after high list ≡ bits.number_after high list }
    ensures bytes { (list : List Bool) → model.bytes_of list ≡ bits.bytes_of list }
{}
