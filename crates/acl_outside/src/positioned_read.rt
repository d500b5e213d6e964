//! Reads at a byte offset, which may be short, and the loop that repeats them until the buffer is full.
ghost use Rattle.std.specs.Prelude.{◌≡◌, ℕ, ◌-◌, ◌^◌, ◌<◌, ◌≤◌, Option, List, length, take, drop, min, IfOk, IfSome, OnOk, OnErr};
ghost use Rattle.std.specs.Io.{ReadsAtMost};
ghost use Rattle.acl_outside.specs.inside.Adapters.{unknown_bytes};
ghost use Rattle.acl_outside.specs.inside.Tries.{Tries, unknown_tries, CountsTry, NoneFailed, OneFailed};

use crate::Failed;
use std::fs::File;
use std::io;
use std::io::ErrorKind;
use std::os::unix::fs::FileExt;

/// What a `FileStore` reads from. One call may give fewer bytes than there are and fit.
pub(crate) trait PositionedRead {
    /// All its bytes, which never change, where it tells them (where contracts can see them).
    ghost told: { Self → Option (List ℕ) };

    /// The reads so far, where it tells them.
    ghost tries: { Self → Option Tries };

    /// Copies some of the bytes from offset `at` on to the start of `into`, and returns how many. Where `into` is not
    /// empty, 0 means that no byte follows.
    fn read_some_at(&mut self, at: u64, into: &mut [u8]) -> io::Result<usize>
        ensures constant { told self.new ≡ told self.old }
        ensures within { ReadsAtMost result into.new }
        ensures cut { IfSome (told self.old)
            (λ all. IfOk result (λ n. n ≤ length all - at)) }
        ensures part { IfSome (told self.old)
            (λ all. IfOk result (λ n. take n into.new ≡ take n (drop at all))) }
        ensures end { IfSome (told self.old)
            (λ all. IfOk result (λ n. n ≡ 0 → 0 < length into.old → length all ≤ at)) }
        ensures counted { CountsTry (tries self.old) (tries self.new) result };
}

impl PositionedRead for File {
    ghost told = { λ _. unknown_bytes };

    ghost tries = { λ _. unknown_tries };

    fn read_some_at(&mut self, at: u64, into: &mut [u8]) -> io::Result<usize> {
        self.read_at(into, at)
    }
}

/// Reads until `into` is full, the file ends, or a read fails. A read that a signal interrupts is repeated; after
/// `u64::MAX` reads the call fails. No file has a byte past offset `i64::MAX`, so nothing is read there.
pub(crate) fn read_full_at<F: PositionedRead>(
    file: &mut F,
    at: u64,
    into: &mut [u8],
) -> Result<usize, Failed>
    ensures constant { F.told file.new ≡ F.told file.old }
    ensures within { ReadsAtMost result into.new }
    ensures count { IfSome (F.told file.old) (λ all. length all < 2 ^ 63 →
        IfOk result (λ n. n ≡ min (length into.new) (length all - at))) }
    ensures part { IfSome (F.told file.old)
        (λ all. IfOk result (λ n. take n into.new ≡ take n (drop at all))) }
    ensures none_failed { OnOk result (NoneFailed (F.tries file.old) (F.tries file.new)) }
    ensures one_failed { OnErr result (OneFailed (F.tries file.old) (F.tries file.new)) }
{
    let mut filled = 0;
    for _turn in 0..u64::MAX {
        let place = at.saturating_add(filled as u64);
        if filled == into.len() || i64::try_from(place).is_err() {
            return Ok(filled);
        }
        match file.read_some_at(place, &mut into[filled..]) {
            Ok(0) => return Ok(filled),
            Ok(count) => filled += count,
            Err(error) if error.kind() == ErrorKind::Interrupted => {}
            Err(_) => return Err(Failed),
        }
    }
    Err(Failed)
}
