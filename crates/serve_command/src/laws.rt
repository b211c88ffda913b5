//! The law of streams of requests: a function that does nothing, whose contract is the law.

ghost use Rattle.serve_command.specs.Laws.{StreamsAreServedAlike};

use frame_laws::laws::replies_are_carried_alike;
use server_core::laws::{requests_are_served_alike, served_alike};

/// For every renaming of cells: two streams of whole frames, whose requests are of like versions
/// and renamed one by one, are served with renamed replies, whose rows share frames alike, and
/// leave renamed states.
pub fn streams_are_served_alike()
    ensures { StreamsAreServedAlike }
{
    served_alike();
    requests_are_served_alike();
    replies_are_carried_alike();
}
