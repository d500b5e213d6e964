//! Appends to a list.

ghost use Rattle.std.specs.Prelude.{◌≡◌, ◌++◌, ◌∷◌, [], OnOk};

use std::alloc::{AllocError, Global};

/// Appends an element. The first one allocates room for one element only, as most lists in a document have just one.
pub fn append<T: Drop>(alloc: Global, list: &mut Vec<T>, element: T) -> Result<(), AllocError>
    ensures { OnOk result (list.new.items ≡ list.old.items ++ element ∷ []) }
{
    if list.is_empty() {
        *list = Vec::with_capacity(alloc, 1)?;
    }
    list.push(element)?;
    Ok(())
}
