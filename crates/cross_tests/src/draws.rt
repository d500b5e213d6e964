//! Pseudorandom numbers, the same in each run.

ghost use Rattle.std.specs.Prelude.{◌<◌};

/// A linear congruential generator with 32 bits, of which the upper 16 are used.
#[derive(Clone, Copy, Debug)]
pub struct Draws {
    seed: u32,
}

impl Draws {
    pub fn from_seed(seed: u32) -> Draws {
        Draws { seed }
    }

    /// The next number, below `count`.
    pub fn below(&mut self, count: u32) -> u32
        requires { 0 < count }
        ensures { result < count }
    {
        self.seed = self
            .seed
            .wrapping_mul(1_664_525)
            .wrapping_add(1_013_904_223);
        (self.seed >> 16) % count
    }
}
