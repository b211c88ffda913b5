//! Sources of bytes.

ghost use Rattle.std.specs.Prelude.{◌≤◌, ℕ, List};
ghost use Rattle.ae_edge.specs.Devices.{Calls, Device, WhereExposed, lent};
ghost use Rattle.ae_edge.specs.Sources.{CountsTake, IsPiece, Takes};

use ae_base::blobs::Blob;
use std::alloc::Global;

/// What a call on a source answers.
#[derive(Drop)]
pub enum Taken {
    /// The next bytes.
    Bytes(Blob),
    /// No bytes are left.
    End,
    /// The call failed.
    Failed,
    OutOfMemory,
}

/// Where bytes come from.
pub trait Source {
    /// What is seen of it. Its content is the bytes that are left.
    ghost seen: { Self → Device (List ℕ) };

    /// Takes the next bytes, at least one and at most `max`. After `Failed` and out of memory the
    /// same bytes are left.
    fn take(&mut self, alloc: Global, max: usize) -> Taken
        requires { 1 ≤ max }
        ensures piece { IsPiece max result }
        ensures call { Calls (WhereExposed (Takes result)) (CountsTake result)
            (seen self.old) (seen self.new) };
}

/// A borrowed source.
impl<S: Source> Source for &mut S {
    ghost seen = { λ s. lent (S.seen s.now) s.ghost_name };

    fn take(&mut self, alloc: Global, max: usize) -> Taken {
        (**self).take(alloc, max)
    }
}
