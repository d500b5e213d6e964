//! Writes a bit string into forty bytes. All bits after the string are zero, so a value is added by bitwise `or`.

ghost use Rattle.std.specs.Prelude.{◌≡◌, ◌+◌, ◌^◌, ◌<◌, ◌≤◌, [], ◌++◌, length, ℕ, Bool, List};
ghost use Rattle.acl_bits.specs.FilledBits.{bits_of, bits_of_bytes, bytes_of, filled_bits, number_of, LaysOver};

use std::marker::Model;

/// The most bytes that a string may have.
const ROOM: usize = 40;

/// A bit string of at most 320 bits, to which values are appended. In contracts it is the list of its bits.
#[derive(Debug, Drop)]
pub struct BitOut {
    bytes: [u8; 40],
    len: u32,
}

impl Model for BitOut {
    ghost use Rattle.std.specs.Prelude.{List, Bool, take};
    ghost use Rattle.acl_bits.specs.FilledBits.{bits_of_bytes, HoldBits};

    ghost Value = { List Bool };

    ghost view = { λ o. take o.len (bits_of_bytes o.bytes) };

    ghost invariant = { λ o. HoldBits o.bytes o.len };
}

impl BitOut {
    /// The empty string.
    pub fn new() -> BitOut
        ensures { result ≡ [] }
    {
        BitOut {
            bytes: [0; ROOM],
            len: 0,
        }
    }

    /// Appends the `n` lowest bits of `value`, the highest of them first.
    pub fn put(&mut self, value: u32, n: u32)
        requires width { n ≤ 32 }
        requires fits { value < 2 ^ n }
        requires room { length self.old + n ≤ 320 }
        ensures bits { self.new ≡ self.old ++ bits_of n value }
        ensures length { length self.new ≡ length self.old + n }
    {
        let window = u64::from(value) << (40 - self.len % 8 - n);
        lay_over(&mut self.bytes, (self.len / 8) as usize, window);
        self.len += n;
    }

    /// The bytes of the string, the highest bit of each byte first. The last byte is padded with zero bits.
    pub fn bytes(&self) -> &[u8]
        ensures { result.now ≡ bytes_of self.now }
    {
        &self.bytes[..self.len.div_ceil(8) as usize]
    }
}

/// A law: the bits that are put are the bits that are taken. The bits of a string's bytes are the string, padded with
/// zero bits to a whole byte. A value can be computed from its bits, and the bits from the value.
pub fn bits_put_are_bits_taken()
    ensures bits { (bits : List Bool) → bits_of_bytes (bytes_of bits) ≡ filled_bits bits }
    ensures value { (n value : ℕ) → value < 2 ^ n → number_of (bits_of n value) ≡ value }
    ensures length { (n value : ℕ) → length (bits_of n value) ≡ n }
    ensures again { (bits : List Bool) → bits_of (length bits) (number_of bits) ≡ bits }
    ensures small { (bits : List Bool) → number_of bits < 2 ^ length bits }
{}

/// Combines the 40 lowest bits of `window` by bitwise `or` with the five bytes from index `first` on. Bits past the
/// last byte are dropped.
fn lay_over(bytes: &mut [u8; 40], first: usize, window: u64)
    requires { first ≤ 40 }
    ensures { LaysOver bytes.old bytes.new first window }
{
    for i in first..(first + 5).min(ROOM) {
        bytes[i] |= (window >> (32 - 8 * (i - first)) & 0xff) as u8;
    }
}
