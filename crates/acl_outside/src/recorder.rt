//! A store over another one that notes each good read (each one that succeeds). It allocates the memory for its notes
//! when it is made. A read for whose note there is no room fails.
ghost use Rattle.std.specs.Prelude.{◌≡◌, ◌+◌, ◌^◌, ◌≤◌, ◌↔◌, ◌++◌, ◌∷◌, [], Some, is_some, IsTrue, min, length, take, IfOk, OnOk, OnErr, IsErr, IfSome, ◌-◌, drop};
ghost use Rattle.std.specs.Io.{ReadsAtMost};
ghost use Rattle.acl_outside.specs.Fakes.{bytes_of, HasRoom};
ghost use Rattle.acl_outside.specs.Noted.{reads_of};
ghost use Rattle.acl_outside.specs.Outside.{Rose, NotFallen, Serves, KeepsServed};

use crate::{Failed, NoMemory, Served, Store};
use std::alloc::Global;
use std::marker::Model;

/// A store that notes the good reads of `inner`. Contracts can see these reads (it *tells* them), and the bytes of
/// `inner` where that store tells them.
#[derive(Drop)]
pub struct Recorder<S: Store> {
    inner: S,
    notes: Vec<Served>,
    bytes: Vec<u8>,
    read_room: usize,
    byte_room: usize,
    faults: u64,
}

impl<S: Store> Model for Recorder<S> {
    ghost use Rattle.std.specs.Prelude.{◌≡◌, ◌≤◌, length, vec_len, vec_capacity};
    ghost use Rattle.acl_outside.specs.Fakes.{Recording, bytes_of};
    ghost use Rattle.acl_outside.specs.Noted.{reads_of, AreWithin};

    ghost Value = { Recording S };

    ghost view = { λ s. record {
      inner = s.inner;
      reads = reads_of s.notes.items s.bytes.items;
      read_room = s.read_room;
      byte_room = s.byte_room;
      faults = s.faults;
    } };

    ghost invariant = { λ s. (vec_len s.notes ≤ s.read_room) × (s.read_room ≤ vec_capacity s.notes)
        × (vec_len s.bytes ≤ s.byte_room) × (s.byte_room ≤ vec_capacity s.bytes)
        × AreWithin s.notes.items (length s.bytes.items)
        × (bytes_of (reads_of s.notes.items s.bytes.items) ≡ s.bytes.items) };
}

impl<S: Store + Drop> Recorder<S> {
    /// A recorder over `inner` with room for `calls` good reads, and for `bytes` of their bytes in all.
    pub fn new(alloc: Global, inner: S, calls: usize, bytes: usize) -> Result<Recorder<S>, NoMemory>
        ensures inner { IfOk result (λ recorder. recorder.inner ≡ inner) }
        ensures reads { IfOk result (λ recorder. recorder.reads ≡ []) }
        ensures read_room { IfOk result (λ recorder. recorder.read_room ≡ calls) }
        ensures byte_room { IfOk result (λ recorder. recorder.byte_room ≡ bytes) }
        ensures faults { IfOk result (λ recorder. recorder.faults ≡ 0) }
    {
        Ok(Recorder {
            inner,
            notes: Vec::with_capacity(alloc, calls)?,
            bytes: Vec::with_capacity(alloc, bytes)?,
            read_room: calls,
            byte_room: bytes,
            faults: 0,
        })
    }
}

impl<S: Store> Recorder<S> {
    /// The notes of the good reads, in order. Each says where its bytes are in `bytes`.
    pub fn served(&self) -> &[Served]
        ensures { reads_of result.now (bytes_of self.now.reads) ≡ self.now.reads }
    {
        self.notes.as_slice()
    }

    /// The bytes of all noted reads, one after the other.
    pub fn bytes(&self) -> &[u8]
        ensures { result.now ≡ bytes_of self.now.reads }
    {
        self.bytes.as_slice()
    }

    /// Whether a read of `asked` bytes can be noted.
    fn has_room(&self, asked: usize) -> bool
        ensures { IsTrue result ↔ HasRoom self.now asked }
    {
        self.notes.len() < self.read_room && asked <= self.byte_room - self.bytes.len()
    }

    /// Notes a good read of `asked` bytes at offset `at` that gave `bytes`.
    fn note(&mut self, at: u64, asked: usize, bytes: &[u8])
        requires room { HasRoom self.old asked }
        requires within { length bytes.now ≤ asked }
        ensures noted { self.new.reads
            ≡ self.old.reads ++ (record { at = at; asked = asked; bytes = bytes.now } ∷ []) }
        ensures same_inner { self.new.inner ≡ self.old.inner }
        ensures same_read_room { self.new.read_room ≡ self.old.read_room }
        ensures same_byte_room { self.new.byte_room ≡ self.old.byte_room }
        ensures same_faults { self.new.faults ≡ self.old.faults }
    {
        let from = self.bytes.len() as u64;
        let count = bytes.len() as u64;
        let asked = asked as u64;
        self.bytes.extend_from_slice(bytes).unwrap();
        self.notes
            .push(Served {
                at,
                asked,
                from,
                count,
            })
            .unwrap();
    }
}

impl<S: Store> Store for Recorder<S> {
    ghost holds = { λ s. S.holds s.inner };

    ghost served = { λ s. Some s.reads };

    ghost faults = { λ s. s.faults };

    fn read_at(&mut self, at: u64, into: &mut [u8]) -> Result<usize, Failed>
        ensures constant { S.holds self.new.inner ≡ S.holds self.old.inner }
        ensures within { ReadsAtMost result into.new }
        ensures count { IfSome (S.holds self.old.inner)
            (λ all. IfOk result (λ n. n ≡ min (length into.new) (length all - at))) }
        ensures part { IfSome (S.holds self.old.inner)
            (λ all. IfOk result (λ n. take n into.new ≡ take n (drop at all))) }
        ensures served_ok { IfOk result (λ n. Serves (Some self.old.reads) (Some self.new.reads)
            (record { at = at; asked = length into.new; bytes = take n into.new })) }
        ensures served_err { OnErr result
            (KeepsServed (Some self.old.reads) (Some self.new.reads)) }
        ensures telling { is_some (Some self.new.reads) ≡ is_some (Some self.old.reads) }
        ensures cause { OnErr result (Rose self.old.faults self.new.faults) }
        ensures never_falls { NotFallen self.old.faults self.new.faults }
        ensures quiet { OnOk result (self.new.faults ≡ self.old.faults) }

        // Which calls fail: those without room for their note, and those that the inner store fails.
        ensures no_room { ¬ HasRoom self.old (length into.old) → IsErr result }
        ensures not_asked { ¬ HasRoom self.old (length into.old) →
            self.new.inner ≡ self.old.inner }
        ensures inner_cause { OnErr result (HasRoom self.old (length into.old) →
            Rose (S.faults self.old.inner) (S.faults self.new.inner)) }
        ensures inner_quiet { OnOk result
            (S.faults self.new.inner ≡ S.faults self.old.inner) }
        ensures one_fault { OnErr result
            (self.new.faults ≡ min (self.old.faults + 1) (2 ^ 64 - 1)) }

        // How the inner store and the room change.
        ensures inner_served { IfOk result
            (λ n. Serves (S.served self.old.inner) (S.served self.new.inner)
            (record { at = at; asked = length into.new; bytes = take n into.new })) }
        ensures inner_kept { OnErr result
            (KeepsServed (S.served self.old.inner) (S.served self.new.inner)) }
        ensures inner_never_falls { NotFallen
            (S.faults self.old.inner) (S.faults self.new.inner) }
        ensures same_read_room { self.new.read_room ≡ self.old.read_room }
        ensures same_byte_room { self.new.byte_room ≡ self.old.byte_room }
    {
        if self.has_room(into.len()) {
            if let Ok(count) = self.inner.read_at(at, into) {
                self.note(at, into.len(), &into[..count]);
                return Ok(count);
            }
        }
        self.faults = self.faults.saturating_add(1);
        Err(Failed)
    }
}
