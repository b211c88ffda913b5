//! Boxes that may find no memory.

ghost use Rattle.std.specs.Prelude.{◌≡◌, IfOk};

use std::alloc::{AllocError, Global};

/// A value in a box.
pub(crate) fn boxed<T: Drop>(alloc: Global, value: T) -> Result<Box<T>, AllocError>
    ensures { IfOk result (λ found. found.value ≡ value) }
{
    Ok(Box::new(alloc, value)?)
}
