//! A sink over a writer of the standard library. It counts errors. An empty piece flushes the writer, which may hold
//! bytes back, and fails where the flush fails.
ghost use Rattle.std.specs.Prelude.{◌≡◌, ◌+◌, ◌-◌, ◌^◌, [], is_some, min, OnOk, OnErr};
ghost use Rattle.std.specs.Io.KnownBytes.{Appends};
ghost use Rattle.acl_outside.specs.inside.Adapters.{unknown_bytes, unknown_count};
ghost use Rattle.acl_outside.specs.Outside.{Rose, NotFallen, AppendsPart, AreAllSettled, Misses};

use crate::{Failed, Sink};
use std::io::Write;
use std::marker::Model;

/// A writer. It doesn't tell its bytes (contracts can't see them), since after an error any part of the piece may be
/// written.
#[derive(Drop)]
pub struct WriterSink<W: Write> {
    inner: W,
    faults: u64,
}

impl<W: Write> Model for WriterSink<W> {
    ghost use Rattle.acl_outside.specs.inside.Adapters.{WriterSeen};

    ghost Value = { WriterSeen };

    ghost view = { λ s. record { holds = W.contents s.inner; faults = s.faults } };
}

impl<W: Write> WriterSink<W> {
    /// A sink over this writer.
    pub fn new(inner: W) -> WriterSink<W>
        ensures holds { result.holds ≡ W.contents inner }
        ensures faults { result.faults ≡ 0 }
    {
        WriterSink { inner, faults: 0 }
    }
}

impl<W: Write> Sink for WriterSink<W> {
    ghost written = { λ _. unknown_bytes };

    ghost missed = { λ _. unknown_count };

    ghost settled = { λ _. unknown_bytes };

    ghost faults = { λ s. s.faults };

    fn write(&mut self, piece: &[u8]) -> Result<(), Failed>
        ensures whole { OnOk result (Appends unknown_bytes unknown_bytes piece.now) }
        ensures part { OnErr result (AppendsPart unknown_bytes unknown_bytes piece.now) }
        ensures missed { OnErr result (Misses unknown_bytes unknown_bytes unknown_count piece.now) }
        ensures settled { OnOk result
            (piece.now ≡ [] → AreAllSettled unknown_bytes unknown_bytes) }
        ensures same_missed { OnOk result (unknown_count ≡ unknown_count) }
        ensures telling { is_some unknown_bytes ≡ is_some unknown_bytes }
        ensures tells_missed { is_some unknown_count ≡ is_some unknown_count }
        ensures tells_settled { is_some unknown_bytes ≡ is_some unknown_bytes }
        ensures cause { OnErr result (Rose self.old.faults self.new.faults) }
        ensures never_falls { NotFallen self.old.faults self.new.faults }
        ensures quiet { OnOk result (self.new.faults ≡ self.old.faults) }

        // Which bytes the writer takes.
        ensures through { OnOk result (Appends self.old.holds self.new.holds piece.now) }
        ensures one_fault { OnErr result
            (self.new.faults ≡ min (self.old.faults + 1) (2 ^ 64 - 1)) }
    {
        let done = if piece.is_empty() {
            self.inner.flush()
        } else {
            self.inner.write_all(piece)
        };
        if done.is_ok() {
            return Ok(());
        }
        self.faults = self.faults.saturating_add(1);
        Err(Failed)
    }
}
