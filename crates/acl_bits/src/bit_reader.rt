//! Reads a bit string from its start. A reader is the bytes that still have unread bits, and how many bits of the
//! first of them were read.

ghost use Rattle.std.specs.Prelude.{◌≡◌, ◌↔◌, ◌<◌, ◌≤◌, length, take, drop, slice_index, IsErr, IfOk, OnOk, OnErr};
ghost use Rattle.acl_bits.specs.FilledBits.{bits_of_bytes, number_of, IsWindow};

use crate::shortage::Short;
use std::marker::Model;

/// A reader of the bits of some bytes, the highest bit of each byte first. In contracts it is the list of the bits
/// that are left.
#[derive(Debug, Drop)]
pub struct BitIn<'a> {
    rest: &'a [u8],
    used: u32,
}

impl<'a> Model for BitIn<'a> {
    ghost use Rattle.std.specs.Prelude.{List, Bool, drop, ◌<◌, ◌≤◌, ◌*◌, length};
    ghost use Rattle.acl_bits.specs.FilledBits.{bits_of_bytes};

    ghost Value = { List Bool };

    ghost view = { λ i. drop i.used (bits_of_bytes i.rest.now) };

    ghost invariant = { λ i. (i.used < 8) × (i.used ≤ 8 * length i.rest.now) };
}

impl<'a> BitIn<'a> {
    /// A reader of all bits of the bytes.
    pub fn new(bytes: &'a [u8]) -> BitIn<'a>
        ensures { result ≡ bits_of_bytes bytes.now }
    {
        BitIn {
            rest: bytes,
            used: 0,
        }
    }

    /// Takes the next `n` bits and returns the number that they make, the highest bit first. Where fewer than `n` are
    /// left it returns `Short` and takes nothing.
    pub fn take(&mut self, n: u32) -> Result<u32, Short>
        requires { n ≤ 32 }
        ensures value { IfOk result (λ value. value ≡ number_of (take n self.old)) }
        ensures rest { OnOk result (self.new ≡ drop n self.old) }
        ensures short { IsErr result ↔ (length self.old < n) }
        ensures kept { OnErr result (self.new ≡ self.old) }
    {
        let end = self.used + n;
        if self.rest.len().min(5) * 8 < end as usize {
            return Err(Short);
        }
        let value = window_of(self.rest) >> (40 - end) & ((1 << n) - 1);
        self.rest = &self.rest[(end / 8) as usize..];
        self.used = end % 8;
        Ok(value as u32)
    }
}

/// The first five bytes as one big-endian number, with zeros where there are fewer.
fn window_of(bytes: &[u8]) -> u64
    ensures { IsWindow result bytes.now }
{
    let mut window = 0;
    for i in 0..5 {
        window = window * 256 + u64::from(byte_at(bytes, i));
    }
    window
}

/// Byte `i`, or 0 past the end.
fn byte_at(bytes: &[u8], i: usize) -> u8
    ensures { result ≡ slice_index bytes.now i }
{
    if i < bytes.len() { bytes[i] } else { 0 }
}
