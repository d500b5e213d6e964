//! Sinks: objects that take bytes in order. A failed write took a prefix of its piece, possibly none of it.
ghost use Rattle.std.specs.Prelude.{◌≡◌, ℕ, Option, List, [], is_some, OnOk, OnErr};
ghost use Rattle.std.specs.Io.KnownBytes.{Appends, Keeps};
ghost use Rattle.acl_outside.specs.Outside.{Rose, NotFallen, AppendsPart, AreAllSettled, Misses};

use crate::Failed;

/// An object that bytes are written to. It *tells* something where contracts can see it; nothing is claimed of what it
/// doesn't tell.
pub trait Sink {
    /// All bytes taken so far, where the sink tells them.
    ghost written: { Self → Option (List ℕ) };

    /// How many bytes of its piece the last failed write did not take, where the sink tells it.
    ghost missed: { Self → Option ℕ };

    /// The *settled* bytes, where the sink tells them: those that it was asked to hold back no longer.
    ghost settled: { Self → Option (List ℕ) };

    /// How often the sink has failed.
    ghost faults: { Self → ℕ };

    /// Takes the whole piece, or fails. An empty piece is a flush: it asks the sink to hold no earlier byte back.
    fn write(&mut self, piece: &[u8]) -> Result<(), Failed>
        ensures whole { OnOk result (Appends (written self.old) (written self.new) piece.now) }
        ensures part { OnErr result (AppendsPart (written self.old) (written self.new) piece.now) }
        ensures missed { OnErr result
            (Misses (written self.old) (written self.new) (missed self.new) piece.now) }
        ensures settled { OnOk result
            (piece.now ≡ [] → AreAllSettled (settled self.new) (written self.new)) }
        ensures same_missed { OnOk result (missed self.new ≡ missed self.old) }

        ensures telling { is_some (written self.new) ≡ is_some (written self.old) }
        ensures tells_missed { is_some (missed self.new) ≡ is_some (missed self.old) }
        ensures tells_settled { is_some (settled self.new) ≡ is_some (settled self.old) }

        ensures cause { OnErr result (Rose (faults self.old) (faults self.new)) }
        ensures never_falls { NotFallen (faults self.old) (faults self.new) }
        ensures quiet { OnOk result (faults self.new ≡ faults self.old) };
}

/// Flushes a sink after the last write. Where this fails, bytes that the sink took may be lost; what it tells of them
/// stays as it was.
pub fn finish<K: Sink>(sink: &mut K) -> Result<(), Failed>
    ensures kept { Keeps (K.written sink.old) (K.written sink.new) }
    ensures missed { OnErr result
        (Misses (K.written sink.old) (K.written sink.new) (K.missed sink.new) []) }
    ensures settled { OnOk result (AreAllSettled (K.settled sink.new) (K.written sink.new)) }
    ensures telling { is_some (K.written sink.new) ≡ is_some (K.written sink.old) }
    ensures tells_missed { is_some (K.missed sink.new) ≡ is_some (K.missed sink.old) }
    ensures tells_settled { is_some (K.settled sink.new) ≡ is_some (K.settled sink.old) }
    ensures cause { OnErr result (Rose (K.faults sink.old) (K.faults sink.new)) }
    ensures never_falls { NotFallen (K.faults sink.old) (K.faults sink.new) }
    ensures quiet { OnOk result (K.faults sink.new ≡ K.faults sink.old) }
{
    sink.write(&[])
}
