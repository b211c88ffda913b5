//! Records: one or more whole frames of requests to execute a statement, each in its own version.

ghost use Rattle.std.specs.Prelude.{◌≡◌, ◌↔◌, IfOk, IsTrue};
ghost use Rattle.journal_core.specs.Records.{Prefixes, IsExecute, IsRecord};

use std::alloc::{AllocError, Global};
use wire_frames::{Decoded, decode_request, one_reading};
use wire_messages::requests::Request;

/// What stands at the front of some bytes.
#[derive(Clone, Copy)]
pub(crate) enum Front {
    /// The frame of a request to execute a statement, so many bytes long.
    Execute(usize),
    /// No such frame.
    Other,
    OutOfMemory,
}

fn is_execute(request: &Request<'_>) -> bool
    ensures { IsTrue result ↔ IsExecute request.now }
{
    match request {
        Request::Describe { .. } => false,
        Request::Execute { .. } => true,
    }
}

/// Reads the frame at the front.
fn front_of(alloc: Global, bytes: &[u8]) -> Front
    ensures { Prefixes result bytes.now }
{
    match decode_request(alloc, bytes) {
        Decoded::One(asked, used) => {
            if is_execute(&asked.message) {
                Front::Execute(used)
            } else {
                Front::Other
            }
        }
        Decoded::NotYet => Front::Other,
        Decoded::Bad => Front::Other,
        Decoded::OutOfMemory => Front::OutOfMemory,
    }
}

/// Whether some bytes may be a record of a journal. Each frame is read, and nothing of it is kept.
pub fn is_record(alloc: Global, bytes: &[u8]) -> Result<bool, AllocError>
    ensures { IfOk result (λ yes. IsTrue yes ↔ IsRecord bytes.now) }
{
    one_reading();
    if bytes.is_empty() {
        return Ok(false);
    }
    let mut rest = bytes;
    'frames: while !rest.is_empty() {
        match front_of(alloc, rest) {
            Front::Execute(used) => rest = &rest[used..],
            Front::Other => return Ok(false),
            Front::OutOfMemory => return Err(AllocError),
        }
    }
    Ok(true)
}
