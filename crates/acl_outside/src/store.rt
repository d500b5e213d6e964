//! Stores: bytes that are read by their offset. Where a store doesn't tell its bytes, only the length of an answer is
//! bounded, and two reads at one offset may give different bytes.
ghost use Rattle.std.specs.Prelude.{◌≡◌, ℕ, Option, ◌-◌, List, length, take, drop, min, is_some, IfOk, IfSome, OnOk, OnErr};
ghost use Rattle.std.specs.Io.{ReadsAtMost};
ghost use Rattle.acl_outside.specs.Outside.{Rose, NotFallen, StoreRead, Serves, KeepsServed};

use crate::Failed;

/// An object that holds bytes. It *tells* them where contracts can see them; nothing is claimed of bytes that it
/// doesn't tell.
pub trait Store {
    /// The bytes that the store holds, which never change, where it tells them.
    ghost holds: { Self → Option (List ℕ) };

    /// The good reads so far, in order, where the store tells them.
    ghost served: { Self → Option (List StoreRead) };

    /// How often the store has failed.
    ghost faults: { Self → ℕ };

    /// Copies the bytes from offset `at` on to the start of `into`, and returns how many. The rest of `into` is
    /// unspecified.
    fn read_at(&mut self, at: u64, into: &mut [u8]) -> Result<usize, Failed>
        ensures constant { holds self.new ≡ holds self.old }
        ensures within { ReadsAtMost result into.new }
        ensures count { IfSome (holds self.old)
            (λ all. IfOk result (λ n. n ≡ min (length into.new) (length all - at))) }
        ensures part { IfSome (holds self.old)
            (λ all. IfOk result (λ n. take n into.new ≡ take n (drop at all))) }

        ensures served_ok { IfOk result (λ n. Serves (served self.old) (served self.new)
            (record { at = at; asked = length into.new; bytes = take n into.new })) }
        ensures served_err { OnErr result (KeepsServed (served self.old) (served self.new)) }
        ensures telling { is_some (served self.new) ≡ is_some (served self.old) }

        ensures cause { OnErr result (Rose (faults self.old) (faults self.new)) }
        ensures never_falls { NotFallen (faults self.old) (faults self.new) }
        ensures quiet { OnOk result (faults self.new ≡ faults self.old) };
}
