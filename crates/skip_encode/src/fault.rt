//! Why encoding fails. Each answer has one cause.

ghost use Rattle.std.specs.Prelude.{◌≡◌};
ghost use Rattle.skip_encode.specs.declared.fault.EncodeFault.TheVariants as encode;
ghost use Rattle.skip_encode.specs.inside.Faults.{fault_of_tags, fault_of_measures};

use crate::measure_fault::MeasureFault;
use acl_outside::NoMemory;
use std::alloc::AllocError;
use tag_dictionary::TagFault;
use thiserror::Error;

/// Why a document is not encoded: it has no stream, or memory ran out.
#[derive(Debug, Drop, Error)]
pub enum EncodeFault {
    /// The document has more than 256 names.
    #[error("the document has more than 256 names")]
    TooManyTags,
    /// Its dictionary section and its tree section together have more than 33,554,432 bytes.
    #[error("the dictionary and the tree have more than 33,554,432 bytes")]
    TooLarge,
    /// There isn't enough memory for the stream, the file, the measures or the names.
    #[error("no memory")]
    NoMemory,
}

impl From<TagFault> for EncodeFault {
    ghost from_gives = { λ tags fault. fault ≡ fault_of_tags tags };

    fn from(tags: TagFault) -> EncodeFault {
        match tags {
            TagFault::TooManyTags => EncodeFault::TooManyTags,
            TagFault::NoMemory => EncodeFault::NoMemory,
        }
    }
}

impl From<MeasureFault> for EncodeFault {
    ghost from_gives = { λ measures fault. fault ≡ fault_of_measures measures };

    fn from(measures: MeasureFault) -> EncodeFault {
        match measures {
            MeasureFault::TooLarge => EncodeFault::TooLarge,
            MeasureFault::NoMemory => EncodeFault::NoMemory,
        }
    }
}

impl From<NoMemory> for EncodeFault {
    ghost from_gives = { λ _ fault. fault ≡ encode.NoMemory };

    fn from(_: NoMemory) -> EncodeFault {
        EncodeFault::NoMemory
    }
}

impl From<AllocError> for EncodeFault {
    ghost from_gives = { λ _ fault. fault ≡ encode.NoMemory };

    fn from(_: AllocError) -> EncodeFault {
        EncodeFault::NoMemory
    }
}
