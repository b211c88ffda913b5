//! What replies tell of a request.

ghost use Rattle.std.specs.Prelude.{◌≡◌};
ghost use Rattle.recording_laws.specs.Recorded as spec;

use wire_messages::replies::{Done, Reply};

/// Whether a request was done: it was accepted, and is no question.
pub(crate) fn is_done(replies: &[Reply<'_>]) -> bool
    ensures { result ≡ spec.is_done replies.now }
{
    matches!(replies, [Reply::Ended(Done::Defined | Done::Changed(_))])
}
