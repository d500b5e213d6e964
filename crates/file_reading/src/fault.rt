//! The errors of reading a file. Each error has one cause.

ghost use Rattle.std.specs.Prelude.{◌≡◌};
ghost use Rattle.file_reading.specs.declared.fault.FileFault.TheVariants as file;
ghost use Rattle.file_reading.specs.inside.FileFaults.{fault_of_index};

use acl_outside::ReadFault;
use std::alloc::{AllocError, AllocFailed};
use tag_dictionary::DictFault;

/// Why a file is not read.
#[derive(Clone, Copy, Debug, PartialEq, Eq)]
pub enum FileFault {
    /// The store's bytes were refused, or the store failed.
    Refused(ReadFault),
    /// There was no memory for the stream or the document.
    NoMemory,
}

impl From<ReadFault> for FileFault {
    ghost from_gives = { λ fault made. made ≡ file.Refused fault };

    fn from(fault: ReadFault) -> FileFault {
        FileFault::Refused(fault)
    }
}

impl From<DictFault> for FileFault {
    ghost from_gives = { λ fault made. made ≡ fault_of_index fault };

    fn from(fault: DictFault) -> FileFault {
        match fault {
            DictFault::BadIndex => FileFault::Refused(ReadFault::BadIndex),
            DictFault::NoMemory => FileFault::NoMemory,
        }
    }
}

impl From<AllocError> for FileFault {
    ghost from_gives = { λ _ made. made ≡ file.NoMemory };

    fn from(_: AllocError) -> FileFault {
        FileFault::NoMemory
    }
}

impl<T: Drop> From<AllocFailed<T>> for FileFault {
    ghost from_gives = { λ _ made. made ≡ file.NoMemory };

    fn from(_: AllocFailed<T>) -> FileFault {
        FileFault::NoMemory
    }
}
