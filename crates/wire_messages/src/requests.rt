//! What the driver asks.

ghost use Rattle.std.specs.Prelude.{◌≡◌, IfOk};

use crate::params::{DeclarationParts, SentParams, own_params};
use ae_base::sessions::SessionId;
use std::alloc::{AllocError, Global};
use wire_parts::texts::StatementPart;

/// What the driver asks. Each request has a frame, since each part meets its condition by its type.
#[derive(Drop)]
pub enum Request<'a> {
    /// How the parameters of a statement are to be encrypted.
    Describe {
        session: SessionId,
        text: StatementPart<'a>,
        declarations: DeclarationParts<'a>,
    },
    /// To execute a statement, which was described at that version of the catalog.
    Execute {
        session: SessionId,
        version: u64,
        text: StatementPart<'a>,
        params: SentParams<'a>,
    },
}

impl<'a> Request<'a> {
    /// A copy that borrows nothing.
    pub fn to_own<'b>(&self, alloc: Global) -> Result<Request<'b>, AllocError>
        ensures { IfOk result (λ copy. copy ≡ self.now) }
    {
        match self {
            Request::Describe {
                session,
                text,
                declarations,
            } => Ok(Request::Describe {
                session: *session,
                text: text.to_own(alloc)?,
                declarations: own_params(alloc, declarations)?,
            }),
            Request::Execute {
                session,
                version,
                text,
                params,
            } => Ok(Request::Execute {
                session: *session,
                version: *version,
                text: text.to_own(alloc)?,
                params: own_params(alloc, params)?,
            }),
        }
    }
}
