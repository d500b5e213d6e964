//! Lists that grow by one element.

ghost use Rattle.std.specs.Prelude.{◌≡◌, [], ◌∷◌, ◌++◌, IfOk};

use acl_model::Sequence;
use std::alloc::{AllocError, Global};

/// The list with one more element at its end.
pub fn with_last<T: Drop>(list: Sequence<T>, element: T) -> Result<Sequence<T>, AllocError>
    ensures { IfOk result (λ longer. longer ≡ list ++ element ∷ []) }
{
    let mut elements = list.into_vec();
    elements.push(element)?;
    Ok(Sequence::from_vec(elements))
}

/// The list of one element.
pub fn only<T: Drop>(alloc: Global, element: T) -> Result<Sequence<T>, AllocError>
    ensures { IfOk result (λ list. list ≡ element ∷ []) }
{
    with_last(Sequence::new(alloc), element)
}
