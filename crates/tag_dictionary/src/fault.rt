//! Errors of making and of reading a dictionary. Each variant has one cause.

ghost use Rattle.std.specs.Prelude.{◌≡◌};
ghost use Rattle.tag_dictionary.specs.declared.fault.TagFault.TheVariants as tag;
ghost use Rattle.tag_dictionary.specs.declared.fault.DictFault.TheVariants as dictionary;

use std::alloc::{AllocError, AllocFailed};

/// Why a document has no dictionary.
#[derive(Clone, Copy, Debug, PartialEq, Eq)]
pub enum TagFault {
    /// The document has more than 256 names.
    TooManyTags,
    /// There isn't enough memory for the names.
    NoMemory,
}

impl From<AllocError> for TagFault {
    ghost from_gives = { λ _ fault. fault ≡ tag.NoMemory };

    fn from(_: AllocError) -> TagFault {
        TagFault::NoMemory
    }
}

impl<T: Drop> From<AllocFailed<T>> for TagFault {
    ghost from_gives = { λ _ fault. fault ≡ tag.NoMemory };

    fn from(_: AllocFailed<T>) -> TagFault {
        TagFault::NoMemory
    }
}

/// Why bytes can't be read as a dictionary.
#[derive(Clone, Copy, Debug, PartialEq, Eq)]
pub enum DictFault {
    /// The bytes are the section of no dictionary.
    BadIndex,
    /// There isn't enough memory for the names.
    NoMemory,
}

impl From<AllocError> for DictFault {
    ghost from_gives = { λ _ fault. fault ≡ dictionary.NoMemory };

    fn from(_: AllocError) -> DictFault {
        DictFault::NoMemory
    }
}

impl<T: Drop> From<AllocFailed<T>> for DictFault {
    ghost from_gives = { λ _ fault. fault ≡ dictionary.NoMemory };

    fn from(_: AllocFailed<T>) -> DictFault {
        DictFault::NoMemory
    }
}
