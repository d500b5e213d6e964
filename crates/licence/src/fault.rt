//! Why bytes are refused as a licence. Each answer has one cause: the first that is found in order.

ghost use Rattle.std.specs.Prelude.{◌≡◌};
ghost use Rattle.licence.specs.declared.fault.LicenceFault.TheVariants.{NoMemory};

use std::alloc::{AllocError, AllocFailed};
use thiserror::Error;

/// Why bytes are no licence, or no body of one. Lines are counted from 1, in the bytes that were read.
#[derive(Debug, Drop, Error)]
pub enum LicenceFault {
    /// The seal in the seal line, `given`, differs from `made`, the HMAC of the body under the seal key.
    #[error("the seal is not that of the body")]
    BadSeal { given: [u8; 32], made: [u8; 32] },
    /// The line is that of a rule, but its path is refused at the byte offset `at` in the path.
    #[error("line {line}: the path is refused at {at}")]
    BadRule { line: u32, at: u32 },
    /// The line is missing or not of its form, or an earlier rule has the same id.
    #[error("line {line} is missing, or it is not of its form")]
    BadLicence { line: u32 },
    /// There is another rule after the 64th.
    #[error("there are more than 64 rules")]
    TooManyRules,
    /// All lines are right, but all rules together have more than 256 steps, 256 predicate steps, or 64 predicates.
    #[error("the rules have too many steps or predicates together")]
    TooManyStates,
    /// Out of memory.
    #[error("no memory")]
    NoMemory,
}

impl From<AllocError> for LicenceFault {
    ghost from_gives = { λ _ fault. fault ≡ NoMemory };

    fn from(_: AllocError) -> LicenceFault {
        LicenceFault::NoMemory
    }
}

impl<T: Drop> From<AllocFailed<T>> for LicenceFault {
    ghost from_gives = { λ _ fault. fault ≡ NoMemory };

    fn from(_: AllocFailed<T>) -> LicenceFault {
        LicenceFault::NoMemory
    }
}
