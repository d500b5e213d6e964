//! Sources: objects that give bytes in order, from first to last. A failed read consumes nothing.
ghost use Rattle.std.specs.Prelude.{◌≡◌, ℕ, Option, ◌<◌, List, length, take, is_some, IfOk, OnOk, OnErr};
ghost use Rattle.std.specs.Io.{ReadsAtMost};
ghost use Rattle.std.specs.Io.KnownBytes.{Consumes, IsAtEnd, Keeps};
ghost use Rattle.acl_outside.specs.Outside.{Rose, NotFallen};

use crate::Failed;

/// An object that bytes are read from. It *tells* its bytes where contracts can see them; nothing is claimed of bytes
/// that it doesn't tell.
pub trait Source {
    /// The bytes to come, where the source tells them.
    ghost left: { Self → Option (List ℕ) };

    /// How often the source has failed.
    ghost faults: { Self → ℕ };

    /// Copies some of the bytes to come to the start of `into`, and returns how many. Where `into` is not empty, 0
    /// means that no byte is left. The rest of `into` is unspecified.
    fn read(&mut self, into: &mut [u8]) -> Result<usize, Failed>
        ensures within { ReadsAtMost result into.new }
        ensures good { IfOk result
            (λ n. Consumes (left self.old) (left self.new) (take n into.new)) }
        ensures end { IfOk result (λ n. n ≡ 0 → 0 < length into.old → IsAtEnd (left self.new)) }
        ensures kept { OnErr result (Keeps (left self.old) (left self.new)) }
        ensures telling { is_some (left self.new) ≡ is_some (left self.old) }

        ensures cause { OnErr result (Rose (faults self.old) (faults self.new)) }
        ensures never_falls { NotFallen (faults self.old) (faults self.new) }
        ensures quiet { OnOk result (faults self.new ≡ faults self.old) };
}
