//! The requests that a feed holds, one after another.

ghost use Rattle.std.specs.Prelude.{◌≡◌, ◌<◌, ◌^◌, List, ℕ, length};
ghost use Rattle.wire_frames.specs.declared.decoding.Way.TheVariants.{ToServer};
ghost use Rattle.serve_command.specs.Turns.{CountsDrained, CountsTurn, Drains, IsAsked, Responds, Stands, Turns, WhereAnswered};

use crate::answering::Answering;
use ae_edge::sinks::Sink;
use frame_feed::{FrameFeed, Message, Next};
use std::alloc::Global;

/// The result of one step of the loop.
#[derive(Clone, Copy)]
enum Turn<E> {
    /// A request was answered, whose frame has so many bytes.
    Answered(usize),
    /// Less than a frame stands there.
    Waits,
    /// What stands at this place is no request.
    Refused(u64),
    /// No memory is left to read a request.
    OutOfMemory,
    /// A request wasn't answered whole.
    Stopped(E),
}

/// Answers the request that a message is, whose frame has so many bytes.
fn answer_message<W: Sink, D, A: Answering<D>>(
    alloc: Global,
    message: &Message<'_>,
    used: usize,
    answering: &mut A,
    out: &mut W,
    device: &mut D,
) -> Turn<A::Stop>
    requires asked { IsAsked message.now }
    requires ready { A.is_ready (A.seen answering.old device.old (W.seen out.old).content) }
    ensures responds { Responds A.answers A.stops result used message.now
        (A.seen answering.old device.old (W.seen out.old).content)
        (A.seen answering.new device.new (W.seen out.new).content) }
    ensures ready { WhereAnswered result
        (A.is_ready (A.seen answering.new device.new (W.seen out.new).content)) }
    ensures same { A.names device.new ≡ A.names device.old }
    ensures counts { CountsTurn A.counts result (A.failed device.old (W.seen out.old).faults)
        (A.failed device.new (W.seen out.new).faults) }
{
    match message {
        Message::Asks(asked) => match answering.answer(alloc, asked, out, device) {
            Ok(()) => Turn::Answered(used),
            Err(stop) => Turn::Stopped(stop),
        },
        Message::Tells(_) => unreachable!(),
    }
}

/// Answers the request that stands next. It stays in the feed.
fn answer_next<W: Sink, D, A: Answering<D>>(
    alloc: Global,
    feed: &FrameFeed,
    answering: &mut A,
    out: &mut W,
    device: &mut D,
) -> Turn<A::Stop>
    requires way { feed.now.way ≡ ToServer }
    requires ready { A.is_ready (A.seen answering.old device.old (W.seen out.old).content) }
    ensures turns { Turns A.answers A.stops result feed.now
        (A.seen answering.old device.old (W.seen out.old).content)
        (A.seen answering.new device.new (W.seen out.new).content) }
    ensures ready { WhereAnswered result
        (A.is_ready (A.seen answering.new device.new (W.seen out.new).content)) }
    ensures same { A.names device.new ≡ A.names device.old }
    ensures counts { CountsTurn A.counts result (A.failed device.old (W.seen out.old).faults)
        (A.failed device.new (W.seen out.new).faults) }
{
    match feed.front(alloc) {
        Next::One { message, used, .. } => {
            answer_message(alloc, &message, used, answering, out, device)
        }
        Next::NotYet => Turn::Waits,
        Next::Bad { place } => Turn::Refused(place),
        Next::OutOfMemory => Turn::OutOfMemory,
    }
}

/// How answering all that is held ended.
#[derive(Clone, Copy)]
pub(crate) enum Drained<E> {
    /// Each request was answered, and less than a frame is left.
    Waits,
    /// Each request was answered up to this place, where none is.
    Refused(u64),
    /// No memory is left to read a request.
    OutOfMemory,
    /// A request wasn't answered whole.
    Stopped(E),
}

/// Answers the requests that are held, one after another; the bytes of each are let go.
pub(crate) fn answer_held<W: Sink, D, A: Answering<D>>(
    alloc: Global,
    feed: &mut FrameFeed,
    answering: &mut A,
    out: &mut W,
    device: &mut D,
) -> Drained<A::Stop>
    requires way { feed.old.way ≡ ToServer }
    requires ready { A.is_ready (A.seen answering.old device.old (W.seen out.old).content) }
    ensures way { feed.new.way ≡ ToServer }
    ensures drains { (taken : List ℕ) (first : A.View) → length taken < 2 ^ 64
        → Stands A.answers taken feed.old first
        (A.seen answering.old device.old (W.seen out.old).content)
        → Drains A.answers A.stops result taken feed.new first
        (A.seen answering.new device.new (W.seen out.new).content) }
    ensures ready { result ≡ Drained.Waits
        → A.is_ready (A.seen answering.new device.new (W.seen out.new).content) }
    ensures same { A.names device.new ≡ A.names device.old }
    ensures counts { CountsDrained A.counts result (A.failed device.old (W.seen out.old).faults)
        (A.failed device.new (W.seen out.new).faults) }
{
    'requests: loop {
        match answer_next(alloc, feed, answering, out, device) {
            Turn::Answered(used) => feed.advance(used),
            Turn::Waits => return Drained::Waits,
            Turn::Refused(place) => return Drained::Refused(place),
            Turn::OutOfMemory => return Drained::OutOfMemory,
            Turn::Stopped(stop) => return Drained::Stopped(stop),
        }
    }
}
