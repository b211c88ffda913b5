//! Copies of parts that borrow nothing.

ghost use Rattle.std.specs.Prelude.{◌≡◌, IfOk, map};

use ae_base::lists::Seq;
use std::alloc::{AllocError, Global};

/// A part of a message that can be copied so that the copy borrows nothing.
pub trait ToOwn<T> {
    /// The copy of a part.
    ghost same: { Self → T };

    /// A copy that borrows nothing.
    fn to_own(&self, alloc: Global) -> Result<T, AllocError>
        ensures { IfOk result (λ copy. copy ≡ same self.now) };
}

/// Copies of parts, in their order.
pub fn own_parts<P: ToOwn<T>, T: Drop>(alloc: Global, parts: &[P]) -> Result<Seq<T>, AllocError>
    ensures { IfOk result (λ copies. copies ≡ map P.same parts.now) }
{
    let mut copies = Seq::new(alloc);
    for part in parts {
        copies.push(part.to_own(alloc)?)?;
    }
    Ok(copies)
}
