//! A source in memory that never fails, so its count of faults is always 0.
ghost use Rattle.std.specs.Prelude.{◌≡◌, ◌<◌, Some, is_some, min, length, take, IfOk, OnOk, OnErr, IsOk};
ghost use Rattle.std.specs.Io.{ReadsAtMost};
ghost use Rattle.std.specs.Io.KnownBytes.{Consumes, IsAtEnd, Keeps};
ghost use Rattle.acl_outside.specs.Outside.{Rose, NotFallen, SameCount};

use crate::pieces::copy_prefix;
use crate::{Failed, Source};
use std::marker::Model;

/// Bytes in memory. Its model is the list of the bytes to come.
#[derive(Drop)]
pub struct SureSource {
    bytes: Vec<u8>,
    at: usize,
}

impl Model for SureSource {
    ghost use Rattle.std.specs.Prelude.{ℕ, ◌≤◌, List, drop, vec_len};

    ghost Value = { List ℕ };

    ghost view = { λ s. drop s.at s.bytes.items };

    ghost invariant = { λ s. s.at ≤ vec_len s.bytes };
}

impl SureSource {
    /// A source of `bytes`.
    pub fn new(bytes: Vec<u8>) -> SureSource
        ensures { result ≡ bytes.items }
    {
        SureSource { bytes, at: 0 }
    }
}

impl Source for SureSource {
    ghost left = { λ s. Some s };

    ghost faults = { λ _. 0 };

    fn read(&mut self, into: &mut [u8]) -> Result<usize, Failed>
        ensures within { ReadsAtMost result into.new }
        ensures good { IfOk result
            (λ n. Consumes (Some self.old) (Some self.new) (take n into.new)) }
        ensures end { IfOk result (λ n. n ≡ 0 → 0 < length into.old → IsAtEnd (Some self.new)) }
        ensures kept { OnErr result (Keeps (Some self.old) (Some self.new)) }
        ensures telling { is_some (Some self.new) ≡ is_some (Some self.old) }
        ensures cause { OnErr result (Rose 0 0) }
        ensures never_falls { NotFallen 0 0 }
        ensures quiet { OnOk result (SameCount 0 0) }

        ensures sure { IsOk result }
        ensures count { IfOk result (λ n. n ≡ min (length into.old) (length self.old)) }
    {
        let count = copy_prefix(&self.bytes[self.at..], usize::MAX, into);
        self.at += count;
        Ok(count)
    }
}
