//! Why a source is not read as a document. Each answer has one cause. Lines are numbered from 1.

ghost use Rattle.std.specs.Prelude.{◌≡◌};
ghost use Rattle.esis_lines.specs.declared.doc_fault.DocFault.TheVariants.{NoMemory};

use std::alloc::{AllocError, AllocFailed};
use thiserror::Error;

/// Why a source is not read as a document. The line is the first that is refused. Where it has two causes,
/// `specs/LineRefusals.antt` says which one is the answer.
#[derive(Debug, Drop, Error)]
pub enum DocFault {
    /// The line has no form that a line may have, or it comes after the line `C`.
    #[error("line {line}: bad form")]
    BadLine { line: u32 },
    /// The line begins with a byte that this profile doesn't support.
    #[error("line {line}: kind {kind} is unsupported")]
    Unsupported { line: u32, kind: u8 },
    /// The line does not fit the open elements or the waiting attributes. Where an element is open or an attribute
    /// waits after the last line, `line` is the number of lines plus one.
    #[error("line {line}: unbalanced")]
    Unbalanced { line: u32 },
    /// No element was started.
    #[error("no root")]
    NoRoot,
    /// An element or an attribute after the end of the root.
    #[error("line {line}: second root")]
    SecondRoot { line: u32 },
    /// An element inside 255 others.
    #[error("line {line}: too deep")]
    TooDeep { line: u32 },
    /// A name of more than 255 bytes.
    #[error("line {line}: name too long")]
    NameTooLong { line: u32 },
    /// There are more bytes than this limit. One more than the limit was taken.
    #[error("more than {limit} bytes")]
    InputTooLong { limit: u32 },
    /// The source failed.
    #[error("the source failed")]
    SourceFault,
    /// One attribute more than 65,535 in one element.
    #[error("line {line}: too many attributes")]
    TooManyAttributes { line: u32 },
    /// Out of memory.
    #[error("no memory")]
    NoMemory,
}

impl From<AllocError> for DocFault {
    ghost from_gives = { λ _ fault. fault ≡ NoMemory };

    fn from(_: AllocError) -> DocFault {
        DocFault::NoMemory
    }
}

impl<T: Drop> From<AllocFailed<T>> for DocFault {
    ghost from_gives = { λ _ fault. fault ≡ NoMemory };

    fn from(_: AllocFailed<T>) -> DocFault {
        DocFault::NoMemory
    }
}
