//! Which replies a request gets.

ghost use Rattle.std.specs.Prelude.{◌≡◌, ◌↔◌, IsTrue};
ghost use Rattle.std.specs.List.{list_all};
ghost use Rattle.wire_messages.specs.Exchanges.{HasKinds};
ghost use Rattle.mem_peer.specs.Tested as kinds;

use wire_messages::replies::{Done, Reply};
use wire_messages::requests::Request;

/// Whether replies are of the kinds that a request is answered by: to a Describe one description,
/// to an Execute the end of a definition or of a change, or columns, rows of as many atoms and the
/// end of an answer; to each of them a refusal instead.
#[tactic(auto, using(crate::proofs::ReplyKinds::suits_exactly))]
pub(crate) fn suits(request: &Request<'_>, replies: &[Reply<'_>]) -> bool
    ensures { IsTrue result ↔ HasKinds request.now replies.now }
{
    has_kinds(request, replies)
}

fn has_kinds(request: &Request<'_>, replies: &[Reply<'_>]) -> bool
    ensures { result ≡ kinds.suits request.now replies.now }
{
    match request {
        Request::Describe { .. } => describes(replies),
        Request::Execute { .. } => executes(replies),
    }
}

fn describes(replies: &[Reply<'_>]) -> bool
    ensures { result ≡ kinds.describes replies.now }
{
    let [first, rest @ ..] = replies else {
        return false;
    };
    matches!(first, Reply::Described(_) | Reply::Refused(_)) && rest.is_empty()
}

fn executes(replies: &[Reply<'_>]) -> bool
    ensures { result ≡ kinds.executes replies.now }
{
    let [first, rest @ ..] = replies else {
        return false;
    };
    match first {
        Reply::Refused(_) | Reply::Ended(Done::Defined | Done::Changed(_)) => rest.is_empty(),
        Reply::Columns(header) => are_rows(header.columns().len(), rest),
        _ => false,
    }
}

fn are_rows(width: usize, replies: &[Reply<'_>]) -> bool
    ensures { result ≡ kinds.are_rows width replies.now }
{
    match replies.split_last() {
        Some((end, rows)) => is_end(end) && each_is_row(width, rows),
        None => false,
    }
}

fn each_is_row(width: usize, replies: &[Reply<'_>]) -> bool
    ensures { result ≡ list_all (kinds.is_row width) replies.now }
{
    replies.iter().all(|reply| is_row(width, reply))
}

fn is_row(width: usize, reply: &Reply<'_>) -> bool
    ensures { result ≡ kinds.is_row width reply.now }
{
    match reply {
        Reply::Row(row) => row.atoms().len() == width,
        _ => false,
    }
}

fn is_end(reply: &Reply<'_>) -> bool
    ensures { result ≡ kinds.is_end reply.now }
{
    matches!(reply, Reply::Ended(Done::Answered(_)))
}
