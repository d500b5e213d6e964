//! A store over a file. It counts errors, and repeats short reads until the buffer is full or the file ends.
ghost use Rattle.std.specs.Prelude.{◌≡◌, ◌+◌, ◌-◌, ◌^◌, is_some, min, length, take, not, IsTrue, IfOk, OnOk, OnErr, IsErr};
ghost use Rattle.std.specs.Io.{ReadsAtMost};
ghost use Rattle.acl_outside.specs.inside.Adapters.{unknown_bytes, unknown_reads};
ghost use Rattle.acl_outside.specs.Outside.{Rose, NotFallen, Serves, KeepsServed};

use crate::positioned_read::read_full_at;
use crate::{Failed, Store};
use std::fs::File;
use std::marker::Model;

/// A file, or None where it could not be opened; then each read fails. It doesn't tell its bytes: contracts can't see
/// them.
#[derive(Drop)]
pub struct FileStore {
    inner: Option<File>,
    faults: u64,
}

impl Model for FileStore {
    ghost use Rattle.std.specs.Prelude.{is_some};
    ghost use Rattle.acl_outside.specs.inside.Adapters.{FileSeen};

    ghost Value = { FileSeen };

    ghost view = { λ s. record { is_there = is_some s.inner; faults = s.faults } };
}

impl FileStore {
    /// A store over this file.
    pub fn new(inner: Option<File>) -> FileStore
        ensures is_there { result.is_there ≡ is_some inner }
        ensures faults { result.faults ≡ 0 }
    {
        FileStore { inner, faults: 0 }
    }
}

impl Store for FileStore {
    ghost holds = { λ _. unknown_bytes };

    ghost served = { λ _. unknown_reads };

    ghost faults = { λ s. s.faults };

    fn read_at(&mut self, at: u64, into: &mut [u8]) -> Result<usize, Failed>
        ensures within { ReadsAtMost result into.new }
        ensures served_ok { IfOk result (λ n. Serves unknown_reads unknown_reads
            (record { at = at; asked = length into.new; bytes = take n into.new })) }
        ensures served_err { OnErr result (KeepsServed unknown_reads unknown_reads) }
        ensures telling { is_some unknown_reads ≡ is_some unknown_reads }
        ensures cause { OnErr result (Rose self.old.faults self.new.faults) }
        ensures never_falls { NotFallen self.old.faults self.new.faults }
        ensures quiet { OnOk result (self.new.faults ≡ self.old.faults) }

        ensures without { IsTrue (not self.old.is_there) → IsErr result }
        ensures same_file { self.new.is_there ≡ self.old.is_there }
        ensures one_fault { OnErr result
            (self.new.faults ≡ min (self.old.faults + 1) (2 ^ 64 - 1)) }
    {
        if let Some(file) = &mut self.inner {
            if let Ok(count) = read_full_at(file, at, into) {
                return Ok(count);
            }
        }
        self.faults = self.faults.saturating_add(1);
        Err(Failed)
    }
}
