//! A sink in memory with a fixed capacity that fails at chosen calls. It allocates all its memory when it is made.
//! Like a buffered writer it settles its bytes (holds none of them back) only at a write of an empty piece.
ghost use Rattle.std.specs.Prelude.{◌≡◌, ◌+◌, ◌-◌, ◌^◌, ◌<◌, ◌⊎◌, ◌↔◌, ◌++◌, [], Some, is_some, min, length, take, Contains, IfOk, OnOk, OnErr, IsErr};
ghost use Rattle.std.specs.Io.KnownBytes.{Appends};
ghost use Rattle.acl_outside.specs.Outside.{Rose, NotFallen, AppendsPart, AreAllSettled, Misses};

use crate::{Failed, NoMemory, Sink};
use std::alloc::Global;
use std::marker::Model;

/// A sink that keeps its bytes in memory. Calls of `write` are numbered from 0, and the number stays at `u64::MAX`.
#[derive(Drop)]
pub struct MemSink {
    bytes: Vec<u8>,
    room: usize,
    fails: Vec<u64>,
    calls: u64,
    missed: usize,
    settled: usize,
    faults: u64,
}

impl Model for MemSink {
    ghost use Rattle.std.specs.Prelude.{◌≤◌, take, vec_len, vec_capacity};
    ghost use Rattle.acl_outside.specs.Fakes.{MemSinkModel};

    ghost Value = { MemSinkModel };

    ghost view = { λ s. record {
      written = s.bytes.items;
      room = s.room;
      fails = s.fails.items;
      calls = s.calls;
      missed = s.missed;
      settled = take s.settled s.bytes.items;
      faults = s.faults;
    } };

    ghost invariant = { λ s. (vec_len s.bytes ≤ s.room) × (s.room ≤ vec_capacity s.bytes)
        × (s.settled ≤ vec_len s.bytes) };
}

impl MemSink {
    /// An empty sink with room for `room` bytes. The writes whose numbers are in `fails` fail.
    pub fn new(alloc: Global, room: usize, fails: Vec<u64>) -> Result<MemSink, NoMemory>
        ensures written { IfOk result (λ sink. sink.written ≡ []) }
        ensures room { IfOk result (λ sink. sink.room ≡ room) }
        ensures fails { IfOk result (λ sink. sink.fails ≡ fails.items) }
        ensures calls { IfOk result (λ sink. sink.calls ≡ 0) }
        ensures missed { IfOk result (λ sink. sink.missed ≡ 0) }
        ensures settled { IfOk result (λ sink. sink.settled ≡ []) }
        ensures faults { IfOk result (λ sink. sink.faults ≡ 0) }
    {
        let bytes = Vec::with_capacity(alloc, room)?;
        Ok(MemSink {
            bytes,
            room,
            fails,
            calls: 0,
            missed: 0,
            settled: 0,
            faults: 0,
        })
    }

    /// All bytes taken so far.
    pub fn written(&self) -> &[u8]
        ensures { result.now ≡ self.now.written }
    {
        self.bytes.as_slice()
    }

    /// The bytes taken up to the last good write of an empty piece.
    pub fn settled(&self) -> &[u8]
        ensures { result.now ≡ self.now.settled }
    {
        &self.bytes[..self.settled]
    }
}

impl Sink for MemSink {
    ghost written = { λ s. Some s.written };

    ghost missed = { λ s. Some s.missed };

    ghost settled = { λ s. Some s.settled };

    ghost faults = { λ s. s.faults };

    fn write(&mut self, piece: &[u8]) -> Result<(), Failed>
        ensures whole { OnOk result
            (Appends (Some self.old.written) (Some self.new.written) piece.now) }
        ensures part { OnErr result
            (AppendsPart (Some self.old.written) (Some self.new.written) piece.now) }
        ensures missed { OnErr result
            (Misses (Some self.old.written) (Some self.new.written) (Some self.new.missed)
            piece.now) }
        ensures settled { OnOk result
            (piece.now ≡ [] → AreAllSettled (Some self.new.settled) (Some self.new.written)) }
        ensures same_missed { OnOk result (Some self.new.missed ≡ Some self.old.missed) }
        ensures telling { is_some (Some self.new.written) ≡ is_some (Some self.old.written) }
        ensures tells_missed { is_some (Some self.new.missed) ≡ is_some (Some self.old.missed) }
        ensures tells_settled { is_some (Some self.new.settled) ≡ is_some (Some self.old.settled) }
        ensures cause { OnErr result (Rose self.old.faults self.new.faults) }
        ensures never_falls { NotFallen self.old.faults self.new.faults }
        ensures quiet { OnOk result (self.new.faults ≡ self.old.faults) }

        // Which calls fail, and what those took.
        ensures fails { IsErr result ↔
            (Contains self.old.fails self.old.calls
            ⊎ (self.old.room < length self.old.written + length piece.now)) }
        ensures refused { Contains self.old.fails self.old.calls →
            self.new.written ≡ self.old.written }
        ensures fits { ¬ Contains self.old.fails self.old.calls →
            self.new.written
            ≡ self.old.written ++ take (self.old.room - length self.old.written) piece.now }
        ensures same_room { self.new.room ≡ self.old.room }
        ensures same_fails { self.new.fails ≡ self.old.fails }
        ensures next_call { self.new.calls ≡ min (self.old.calls + 1) (2 ^ 64 - 1) }
        ensures same_settled { 0 < length piece.now → self.new.settled ≡ self.old.settled }
        ensures none_settled { OnErr result (self.new.settled ≡ self.old.settled) }
        ensures one_fault { OnErr result
            (self.new.faults ≡ min (self.old.faults + 1) (2 ^ 64 - 1)) }
    {
        let number = self.calls;
        self.calls = number.saturating_add(1);
        if self.fails.contains(&number) {
            self.missed = piece.len();
            self.faults = self.faults.saturating_add(1);
            return Err(Failed);
        }
        let count = piece.len().min(self.room - self.bytes.len());
        self.bytes.extend_from_slice(&piece[..count]).unwrap();
        if count < piece.len() {
            self.missed = piece.len() - count;
            self.faults = self.faults.saturating_add(1);
            return Err(Failed);
        }
        if piece.is_empty() {
            self.settled = self.bytes.len();
        }
        Ok(())
    }
}
