//! Why bytes are not read as a path.

ghost use Rattle.std.specs.Prelude.{◌≡◌};
ghost use Rattle.xpath_rules.specs.declared.path_error.PathError.TheVariants.{NoMemory};

use std::alloc::AllocError;

/// The error of `read_path`.
#[derive(Debug, Clone, Copy, PartialEq, Eq)]
pub enum PathError {
    /// The bytes are no path, or there are more than 1,024. `at` is the length of the longest prefix
    /// that some text of the grammar begins with, or 1,024 where that is more.
    Fault { at: u32 },
    /// Out of memory.
    NoMemory,
}

impl From<AllocError> for PathError {
    ghost from_gives = { λ _ error. error ≡ NoMemory };

    fn from(_: AllocError) -> PathError {
        PathError::NoMemory
    }
}
