//! Why the first pass fails. Each answer has one cause.

ghost use Rattle.std.specs.Prelude.{◌≡◌};
ghost use Rattle.skip_encode.specs.declared.measure_fault.MeasureFault.TheVariants as measure;

use std::alloc::AllocFailed;

/// Why the first pass fails.
#[derive(Clone, Copy, Debug)]
pub(crate) enum MeasureFault {
    /// What was measured so far is above the limit.
    TooLarge,
    /// There isn't enough memory for the measures.
    NoMemory,
}

impl<T: Drop> From<AllocFailed<T>> for MeasureFault {
    ghost from_gives = { λ _ fault. fault ≡ measure.NoMemory };

    fn from(_: AllocFailed<T>) -> MeasureFault {
        MeasureFault::NoMemory
    }
}
