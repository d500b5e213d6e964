//! A stream in memory, read by its fragments.

ghost use Rattle.std.specs.Prelude.{◌≡◌, ◌%◌, ◌≤◌, length};

use crate::fragments::Fragments;
use acl_outside::ReadFault;

/// The fragments of bytes in memory. No call is refused, and which fragments were opened isn't told.
#[derive(Debug, Drop)]
pub(crate) struct Memory<'a> {
    /// The bytes of the stream.
    pub bytes: &'a [u8],
    ghost whole: { length bytes.now % 256 ≡ 0 },
    ghost few: { length bytes.now ≤ 33554432 },
}

impl<'a> Memory<'a> {
    /// The fragments of these bytes.
    pub fn new(bytes: &'a [u8]) -> Memory<'a>
        requires whole { length bytes.now % 256 ≡ 0 }
        requires few { length bytes.now ≤ 33554432 }
        ensures { result.bytes.now ≡ bytes.now }
    {
        Memory { bytes }
    }
}

impl<'a> Fragments for Memory<'a> {
    ghost use Rattle.std.specs.Prelude.{◌≡◌, ◌/◌, None, length};
    ghost use Rattle.skip_decode.specs.inside.MemoryLaws.{few_fragments, whole_fragments};

    ghost count = { λ w. length w.bytes.now / 256 };

    ghost may_be = { λ w stream. stream ≡ w.bytes.now };

    ghost opened = { λ w. None };

    ghost refused = { λ w. None };

    ghost went = { λ w v. v ≡ w };

    fn fetch(&mut self, index: u32, into: &mut [u8; 256]) -> Result<(), ReadFault> {
        let from = index as usize * 256;
        into.copy_from_slice(&self.bytes[from..from + 256]);
        Ok(())
    }

    ghost few = { λ w. few_fragments (length w.bytes.now) w.few };

    ghost whole = { λ w stream is. whole_fragments w.bytes.now stream w.whole is };
}
