//! A store in memory that fails at chosen calls.
ghost use Rattle.std.specs.Prelude.{◌≡◌, ◌+◌, ◌-◌, ◌^◌, ◌↔◌, Some, is_some, min, length, take, drop, Contains, IfOk, OnOk, OnErr, IsErr};
ghost use Rattle.std.specs.Io.{ReadsAtMost};
ghost use Rattle.acl_outside.specs.inside.Adapters.{unknown_reads};
ghost use Rattle.acl_outside.specs.Outside.{Rose, NotFallen, Serves, KeepsServed};

use crate::pieces::copy_prefix;
use crate::{Failed, Store};
use std::marker::Model;

/// Bytes in memory. Contracts can see them (the store *tells* them), but not which of them were read. Calls of
/// `read_at` are numbered from 0, and the number stays at `u64::MAX`.
#[derive(Drop)]
pub struct MemStore {
    bytes: Vec<u8>,
    fails: Vec<u64>,
    calls: u64,
    faults: u64,
}

impl Model for MemStore {
    ghost use Rattle.acl_outside.specs.Fakes.{MemStoreModel};

    ghost Value = { MemStoreModel };

    ghost view = { λ s. record {
      holds = s.bytes.items;
      fails = s.fails.items;
      calls = s.calls;
      faults = s.faults;
    } };
}

impl MemStore {
    /// A store of `bytes`. The reads whose numbers are in `fails` fail.
    pub fn new(bytes: Vec<u8>, fails: Vec<u64>) -> MemStore
        ensures holds { result.holds ≡ bytes.items }
        ensures fails { result.fails ≡ fails.items }
        ensures calls { result.calls ≡ 0 }
        ensures faults { result.faults ≡ 0 }
    {
        MemStore {
            bytes,
            fails,
            calls: 0,
            faults: 0,
        }
    }
}

impl Store for MemStore {
    ghost holds = { λ s. Some s.holds };

    ghost served = { λ _. unknown_reads };

    ghost faults = { λ s. s.faults };

    fn read_at(&mut self, at: u64, into: &mut [u8]) -> Result<usize, Failed>
        ensures constant { Some self.new.holds ≡ Some self.old.holds }
        ensures within { ReadsAtMost result into.new }
        ensures count { IfOk result (λ n. n ≡ min (length into.new) (length self.old.holds - at)) }
        ensures part { IfOk result (λ n. take n into.new ≡ take n (drop at self.old.holds)) }
        ensures served_ok { IfOk result (λ n. Serves unknown_reads unknown_reads
            (record { at = at; asked = length into.new; bytes = take n into.new })) }
        ensures served_err { OnErr result (KeepsServed unknown_reads unknown_reads) }
        ensures telling { is_some unknown_reads ≡ is_some unknown_reads }
        ensures cause { OnErr result (Rose self.old.faults self.new.faults) }
        ensures never_falls { NotFallen self.old.faults self.new.faults }
        ensures quiet { OnOk result (self.new.faults ≡ self.old.faults) }

        // Which calls fail.
        ensures fails { IsErr result ↔ Contains self.old.fails self.old.calls }
        ensures same_bytes { self.new.holds ≡ self.old.holds }
        ensures same_fails { self.new.fails ≡ self.old.fails }
        ensures next_call { self.new.calls ≡ min (self.old.calls + 1) (2 ^ 64 - 1) }
        ensures one_fault { OnErr result
            (self.new.faults ≡ min (self.old.faults + 1) (2 ^ 64 - 1)) }
    {
        let number = self.calls;
        self.calls = number.saturating_add(1);
        if self.fails.contains(&number) {
            self.faults = self.faults.saturating_add(1);
            return Err(Failed);
        }
        let from = self.bytes.len().min(at as usize);
        Ok(copy_prefix(&self.bytes[from..], usize::MAX, into))
    }
}
