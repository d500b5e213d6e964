//! Reads a source to its end into memory, up to a limit.
ghost use Rattle.std.specs.Prelude.{◌≡◌, ◌≤◌, ◌+◌, true, is_some, length, IfOk, OnOk, IfErr};
ghost use Rattle.std.specs.Bool.{OnTrue};
ghost use Rattle.std.specs.Io.KnownBytes.{Consumes, IsAtEnd};
ghost use Rattle.acl_model.specs.Ascii.{are_bytes};
ghost use Rattle.acl_outside.specs.Outside.{CountsWhere, NotFallen, TakesAtMost};
ghost use Rattle.esis_lines.specs.Input.{TookTooMany, is_failure};

use acl_model::Bytes;
use acl_outside::{NoMemory, Source};
use std::alloc::{AllocError, Global};

/// Why a source was not read to its end.
#[derive(Clone, Copy, Debug, PartialEq, Eq)]
pub enum ReadAllFault {
    /// The source gave more bytes than this limit. One more than the limit was taken.
    TooLong { limit: u32 },
    /// The source failed.
    Failed,
    /// Out of memory.
    NoMemory,
}

impl From<AllocError> for ReadAllFault {
    ghost use Rattle.esis_lines.specs.declared.input.ReadAllFault.TheVariants.{NoMemory};
    ghost use Rattle.std.specs.Prelude.{◌≡◌};

    ghost from_gives = { λ _ fault. fault ≡ NoMemory };

    fn from(_: AllocError) -> Self {
        ReadAllFault::NoMemory
    }
}

impl From<acl_outside::Failed> for ReadAllFault {
    ghost use Rattle.esis_lines.specs.declared.input.ReadAllFault.TheVariants.{Failed};
    ghost use Rattle.std.specs.Prelude.{◌≡◌};

    ghost from_gives = { λ _ fault. fault ≡ Failed };

    fn from(_: acl_outside::Failed) -> Self {
        ReadAllFault::Failed
    }
}

/// The most bytes of one read.
const CHUNK: usize = 8192;

/// All bytes of a source, at most `limit`. Where there are more, one more than the limit is taken from the source,
/// and no further read is made. So a source that fails has given at most `limit` bytes. No failed read is tried again.
pub fn read_all<Q: Source>(alloc: Global, source: &mut Q, limit: u32) -> Result<Bytes, ReadAllFault>
    ensures whole { IfOk result (λ bytes. Consumes (Q.left source.old) (Q.left source.new) bytes) }
    ensures end { OnOk result (IsAtEnd (Q.left source.new)) }
    ensures within { IfOk result (λ bytes. length bytes ≤ limit) }
    ensures bytes { IfOk result (λ bytes. are_bytes bytes ≡ true) }
    ensures too_long { IfErr result (λ fault.
        TookTooMany fault limit (Q.left source.old) (Q.left source.new)) }

    // On every answer, including out of memory and a failure.
    ensures taken { TakesAtMost (limit + 1) (Q.left source.old) (Q.left source.new) }
    ensures failed_within { OnTrue (is_failure result)
        (TakesAtMost limit (Q.left source.old) (Q.left source.new)) }
    ensures count { CountsWhere (is_failure result) (Q.faults source.old) (Q.faults source.new) }
    ensures never_falls { NotFallen (Q.faults source.old) (Q.faults source.new) }
    ensures telling { is_some (Q.left source.new) ≡ is_some (Q.left source.old) }
{
    let most = limit as usize + 1;
    let mut bytes = Vec::new(alloc);
    let mut chunk = [0u8; CHUNK];
    'reads: while bytes.len() < most {
        let room = CHUNK.min(most - bytes.len());
        let count = source.read(&mut chunk[..room])?;
        if count == 0 {
            return Ok(bytes_of(bytes));
        }
        bytes.extend_from_slice(&chunk[..count])?;
    }
    Err(ReadAllFault::TooLong { limit })
}

/// The bytes of a `Vec` of `u8`, all below 256.
#[tactic(auto, using(crate::proofs::Fitting::fitting))]
fn bytes_of(bytes: Vec<u8>) -> Bytes
    ensures same { result ≡ bytes.items }
    ensures bytes { are_bytes result ≡ true }
{
    Bytes::from_vec(bytes)
}
