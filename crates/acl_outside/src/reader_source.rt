//! A source over a reader of the standard library. It counts errors, and repeats short reads until the buffer is full
//! or the reader ends.
ghost use Rattle.std.specs.Prelude.{◌≡◌, ℕ, ◌+◌, ◌-◌, ◌^◌, ◌<◌, Option, List, is_some, min, length, take, not, IsTrue, IfOk, OnOk, OnErr, IsErr};
ghost use Rattle.std.specs.Option.{option_and_then};
ghost use Rattle.std.specs.Io.{ReadsAtMost};
ghost use Rattle.std.specs.Io.KnownBytes.{Consumes, ReadConsumes, IsAtEnd, Keeps};
ghost use Rattle.acl_outside.specs.inside.Adapters.{unknown_bytes};
ghost use Rattle.acl_outside.specs.Outside.{Rose, NotFallen};
ghost use Rattle.acl_outside.specs.inside.Tries.{Tries, unknown_tries, CountsTry, NoneFailed, OneFailed};

use crate::{Failed, Source};
use std::io;
use std::io::{ErrorKind, Read};
use std::marker::Model;

/// A reader, or None where it could not be opened; then each read fails. It doesn't tell its bytes (contracts can't see
/// them), since those that came before an error are lost.
#[derive(Drop)]
pub struct ReaderSource<R: Read> {
    inner: Option<R>,
    faults: u64,
}

impl<R: Read> Model for ReaderSource<R> {
    ghost use Rattle.std.specs.Prelude.{is_some, option_and_then};
    ghost use Rattle.acl_outside.specs.inside.Adapters.{ReaderSeen};

    ghost Value = { ReaderSeen };

    ghost view = { λ s. record {
      is_there = is_some s.inner;
      to_come = option_and_then R.remaining s.inner;
      faults = s.faults;
    } };
}

impl<R: Read> ReaderSource<R> {
    /// A source over this reader.
    pub fn new(inner: Option<R>) -> ReaderSource<R>
        ensures is_there { result.is_there ≡ is_some inner }
        ensures to_come { result.to_come ≡ option_and_then R.remaining inner }
        ensures faults { result.faults ≡ 0 }
    {
        ReaderSource { inner, faults: 0 }
    }
}

impl<R: Read> Source for ReaderSource<R> {
    ghost left = { λ _. unknown_bytes };

    ghost faults = { λ s. s.faults };

    fn read(&mut self, into: &mut [u8]) -> Result<usize, Failed>
        ensures within { ReadsAtMost result into.new }
        ensures good { IfOk result (λ n. Consumes unknown_bytes unknown_bytes (take n into.new)) }
        ensures end { IfOk result (λ n. n ≡ 0 → 0 < length into.old → IsAtEnd unknown_bytes) }
        ensures kept { OnErr result (Keeps unknown_bytes unknown_bytes) }
        ensures telling { is_some unknown_bytes ≡ is_some unknown_bytes }
        ensures cause { OnErr result (Rose self.old.faults self.new.faults) }
        ensures never_falls { NotFallen self.old.faults self.new.faults }
        ensures quiet { OnOk result (self.new.faults ≡ self.old.faults) }

        // Which of the reader's bytes the source gives.
        ensures through { IfOk result
            (λ n. Consumes self.old.to_come self.new.to_come (take n into.new)) }
        ensures short_at_end { IfOk result (λ n. n < length into.old → IsAtEnd self.new.to_come) }
        ensures without { IsTrue (not self.old.is_there) → IsErr result }
        ensures same_reader { self.new.is_there ≡ self.old.is_there }
        ensures one_fault { OnErr result
            (self.new.faults ≡ min (self.old.faults + 1) (2 ^ 64 - 1)) }
    {
        if let Some(reader) = &mut self.inner {
            if let Ok(count) = read_full(reader, into) {
                return Ok(count);
            }
        }
        self.faults = self.faults.saturating_add(1);
        Err(Failed)
    }
}

/// What a `ReaderSource` reads from. One call may give fewer bytes than there are and fit.
trait SomeRead {
    /// The bytes to come, where it tells them.
    ghost to_come: { Self → Option (List ℕ) };

    /// The reads so far, where it tells them.
    ghost tries: { Self → Option Tries };

    /// Copies some of the bytes to come to the start of `into`, and returns how many.
    fn read_some(&mut self, into: &mut [u8]) -> io::Result<usize>
        ensures within { ReadsAtMost result into.new }
        ensures bytes { ReadConsumes (to_come self.old) (to_come self.new) result into.new }
        ensures counted { CountsTry (tries self.old) (tries self.new) result };
}

impl<R: Read> SomeRead for R {
    ghost to_come = { R.remaining };

    ghost tries = { λ _. unknown_tries };

    fn read_some(&mut self, into: &mut [u8]) -> io::Result<usize> {
        self.read(into)
    }
}

/// Reads until `into` is full, the reader ends, or a read fails. A read that a signal interrupts is repeated; after
/// `u64::MAX` reads the call fails.
fn read_full<R: SomeRead>(reader: &mut R, into: &mut [u8]) -> Result<usize, Failed>
    ensures within { ReadsAtMost result into.new }
    ensures consumed { IfOk result
        (λ n. Consumes (R.to_come reader.old) (R.to_come reader.new) (take n into.new)) }
    ensures short_at_end { IfOk result
        (λ n. n < length into.old → IsAtEnd (R.to_come reader.new)) }
    ensures none_failed { OnOk result (NoneFailed (R.tries reader.old) (R.tries reader.new)) }
    ensures one_failed { OnErr result (OneFailed (R.tries reader.old) (R.tries reader.new)) }
{
    let mut filled = 0;
    for _turn in 0..u64::MAX {
        if filled == into.len() {
            return Ok(filled);
        }
        match reader.read_some(&mut into[filled..]) {
            Ok(0) => return Ok(filled),
            Ok(count) => filled += count,
            Err(error) if error.kind() == ErrorKind::Interrupted => {}
            Err(_) => return Err(Failed),
        }
    }
    Err(Failed)
}
