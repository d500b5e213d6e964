//! The errors of starting a walk over a file.

ghost use Rattle.std.specs.Prelude.{◌≡◌};
ghost use Rattle.skip_decode.specs.declared.start_fault.StartFault.TheVariants as start;
ghost use Rattle.skip_decode.specs.inside.StartFaults.{fault_of_index};

use acl_outside::{NoMemory, ReadFault};
use std::alloc::{AllocError, AllocFailed};
use tag_dictionary::DictFault;

/// Why a walk over a file doesn't start.
#[derive(Clone, Copy, Debug, PartialEq, Eq)]
pub enum StartFault {
    /// The store's bytes were refused, or the store failed.
    Read(ReadFault),
    /// There was no memory for the dictionary, or for the set of the fragments that were opened.
    NoMemory,
}

impl From<ReadFault> for StartFault {
    ghost from_gives = { λ fault made. made ≡ start.Read fault };

    fn from(fault: ReadFault) -> StartFault {
        StartFault::Read(fault)
    }
}

impl From<DictFault> for StartFault {
    ghost from_gives = { λ fault made. made ≡ fault_of_index fault };

    fn from(fault: DictFault) -> StartFault {
        match fault {
            DictFault::BadIndex => StartFault::Read(ReadFault::BadIndex),
            DictFault::NoMemory => StartFault::NoMemory,
        }
    }
}

impl From<NoMemory> for StartFault {
    ghost from_gives = { λ _ made. made ≡ start.NoMemory };

    fn from(_: NoMemory) -> StartFault {
        StartFault::NoMemory
    }
}

impl From<AllocError> for StartFault {
    ghost from_gives = { λ _ made. made ≡ start.NoMemory };

    fn from(_: AllocError) -> StartFault {
        StartFault::NoMemory
    }
}

impl<T: Drop> From<AllocFailed<T>> for StartFault {
    ghost from_gives = { λ _ made. made ≡ start.NoMemory };

    fn from(_: AllocFailed<T>) -> StartFault {
        StartFault::NoMemory
    }
}
