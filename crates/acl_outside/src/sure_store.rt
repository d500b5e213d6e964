//! A store in memory that never fails, so its count of faults is always 0.
ghost use Rattle.std.specs.Prelude.{◌≡◌, ◌-◌, Some, is_some, length, take, drop, min, IfOk, OnOk, OnErr, IsOk};
ghost use Rattle.std.specs.Io.{ReadsAtMost};
ghost use Rattle.acl_outside.specs.inside.Adapters.{unknown_reads};
ghost use Rattle.acl_outside.specs.Outside.{Rose, NotFallen, SameCount, Serves, KeepsServed};

use crate::pieces::copy_prefix;
use crate::{Failed, Store};
use std::marker::Model;

/// Bytes in memory. Contracts can see them (the store *tells* them), but not which of them were read.
#[derive(Drop)]
pub struct SureStore {
    bytes: Vec<u8>,
}

impl Model for SureStore {
    ghost use Rattle.std.specs.Prelude.{ℕ, List};

    ghost Value = { List ℕ };

    ghost view = { λ s. s.bytes.items };
}

impl SureStore {
    /// A store of `bytes`.
    pub fn new(bytes: Vec<u8>) -> SureStore
        ensures { result ≡ bytes.items }
    {
        SureStore { bytes }
    }
}

impl Store for SureStore {
    ghost holds = { λ s. Some s };

    ghost served = { λ _. unknown_reads };

    ghost faults = { λ _. 0 };

    fn read_at(&mut self, at: u64, into: &mut [u8]) -> Result<usize, Failed>
        ensures constant { Some self.new ≡ Some self.old }
        ensures within { ReadsAtMost result into.new }
        ensures count { IfOk result (λ n. n ≡ min (length into.new) (length self.old - at)) }
        ensures part { IfOk result (λ n. take n into.new ≡ take n (drop at self.old)) }
        ensures served_ok { IfOk result (λ n. Serves unknown_reads unknown_reads
            (record { at = at; asked = length into.new; bytes = take n into.new })) }
        ensures served_err { OnErr result (KeepsServed unknown_reads unknown_reads) }
        ensures telling { is_some unknown_reads ≡ is_some unknown_reads }
        ensures cause { OnErr result (Rose 0 0) }
        ensures never_falls { NotFallen 0 0 }
        ensures quiet { OnOk result (SameCount 0 0) }

        ensures sure { IsOk result }
    {
        let from = self.bytes.len().min(at as usize);
        Ok(copy_prefix(&self.bytes[from..], usize::MAX, into))
    }
}
