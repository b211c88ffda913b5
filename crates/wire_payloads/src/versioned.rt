//! Messages with their version.

ghost use Rattle.std.specs.Prelude.{◌≡◌, IfOk};

use ae_base::frames::FrameVersion;
use std::alloc::{AllocError, Global};
use wire_messages::requests::Request;

/// A message, and the version in which it is spelled.
#[derive(Drop)]
pub struct Versioned<M> {
    pub version: FrameVersion,
    pub message: M,
}

impl<'a> Versioned<Request<'a>> {
    /// A copy that borrows nothing.
    pub fn to_own<'b>(&self, alloc: Global) -> Result<Versioned<Request<'b>>, AllocError>
        ensures { IfOk result (λ copy. copy ≡ self.now) }
    {
        Ok(Versioned {
            version: self.version,
            message: self.message.to_own(alloc)?,
        })
    }
}
