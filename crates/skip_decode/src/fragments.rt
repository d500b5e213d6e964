//! A stream that is read by its fragments.

ghost use Rattle.std.specs.Prelude.{◌≡◌, ℕ, ◌*◌, ◌<◌, ◌≤◌, Option, List, length, IsErrOf, OnOk};
ghost use Rattle.acl_outside.specs.declared.read_fault.ReadFault.{ReadFault};
ghost use Rattle.skip_decode.specs.Fragments.{FitsNone, ForEach, Leads, Narrows, OpensFragment, Refuses, fragment_of};

use acl_outside::ReadFault;

/// Fragments of one stream, 256 bytes each.
pub trait Fragments: Drop {
    /// The number of fragments.
    ghost count: { Self → ℕ };

    /// The stream may be this one: it has all the bytes that were given so far.
    ghost may_be: { Self → List ℕ → Type 0 };

    /// The indexes of the fragments opened so far, the newest first, where they are told.
    ghost opened: { Self → Option (List ℕ) };

    /// The refusal that each fetch repeats, if there was one.
    ghost refused: { Self → Option ReadFault };

    /// Only fetches led from the first state to the second.
    ghost went: { Self → Self → Type 0 };

    /// Opens the fragment at an index, counted from 0, and writes its bytes to `into`.
    fn fetch(&mut self, index: u32, into: &mut [u8; 256]) -> Result<(), ReadFault>
        requires { index < count self.old }
        ensures same_count { count self.new ≡ count self.old }
        ensures refuses { Refuses result (refused self.old) (refused self.new) }
        ensures narrows { Narrows (may_be self.old) (may_be self.new) }
        ensures went { Leads went self.old self.new }
        ensures index { IsErrOf result ReadFault.BadIndex → FitsNone (may_be self.new) }
        ensures given { OnOk result (ForEach (may_be self.new) (λ stream.
            into.new ≡ fragment_of stream index)) }
        ensures opens { OpensFragment result index (opened self.old) (opened self.new) };

    /// There are at most as many fragments as the longest stream has.
    ghost few: { (w : Self) → count w ≤ 131072 };

    /// A stream that it may be has exactly these fragments.
    ghost whole: { (w : Self) (stream : List ℕ) → may_be w stream → length stream ≡ 256 * count w };
}
