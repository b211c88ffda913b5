//! The requests of an input, one after another.

ghost use Rattle.std.specs.Prelude.{◌≡◌, ◌++◌, ◌<◌, ◌^◌, List, ℕ, length};
ghost use Rattle.ae_edge.specs.Devices.{Rose};
ghost use Rattle.wire_frames.specs.declared.decoding.Way.TheVariants.{ToServer};
ghost use Rattle.serve_command.specs.Inputs.{CountsEnding, EndsAt, ServesInput};
ghost use Rattle.serve_command.specs.Turns.{CountsDrained, Drains, Stands};

use crate::answering::Answering;
use crate::turns::{Drained, answer_held};
use ae_base::blobs::Blob;
use ae_base::limits::MOST_STREAM_BYTES;
use ae_edge::sinks::Sink;
use ae_edge::sources::{Source, Taken};
use frame_feed::FrameFeed;
use std::alloc::Global;
use wire_frames::Way;

/// The most bytes that one call asks the input for.
const MOST_PIECE_BYTES: usize = 65_536;

/// How answering the requests of an input ended.
#[derive(Clone, Copy)]
pub enum Ending<E> {
    /// The input was read to its end, and each of its requests answered.
    Done,
    /// A call of the input failed.
    ReadFault,
    /// The input is past its limit.
    TooLong,
    /// What begins at this byte, from 0, is no request, or the input ends inside its frame.
    BadFrame(u64),
    /// No memory is left for a piece of the input, or to read a request.
    OutOfMemory,
    /// A request wasn't answered whole.
    Stopped(E),
}

/// What the end of the input means for what is held.
fn at_end<E>(feed: &FrameFeed) -> Ending<E>
    ensures { EndsAt result feed.now }
{
    match feed.finish() {
        None => Ending::Done,
        Some(place) => Ending::BadFrame(place),
    }
}

/// Takes a piece into the feed, and answers the requests that are whole.
fn answer_piece<W: Sink, D, A: Answering<D>>(
    alloc: Global,
    piece: &Blob,
    feed: &mut FrameFeed,
    answering: &mut A,
    out: &mut W,
    device: &mut D,
) -> Drained<A::Stop>
    requires way { feed.old.way ≡ ToServer }
    requires ready { A.is_ready (A.seen answering.old device.old (W.seen out.old).content) }
    ensures way { feed.new.way ≡ ToServer }
    ensures drains { (taken : List ℕ) (first : A.View) → length (taken ++ piece.now) < 2 ^ 64
        → Stands A.answers taken feed.old first
        (A.seen answering.old device.old (W.seen out.old).content)
        → Drains A.answers A.stops result (taken ++ piece.now) feed.new first
        (A.seen answering.new device.new (W.seen out.new).content) }
    ensures ready { result ≡ Drained.Waits
        → A.is_ready (A.seen answering.new device.new (W.seen out.new).content) }
    ensures same { A.names device.new ≡ A.names device.old }
    ensures counts { CountsDrained A.counts result (A.failed device.old (W.seen out.old).faults)
        (A.failed device.new (W.seen out.new).faults) }
{
    match feed.feed(piece.as_slice()) {
        Ok(()) => answer_held(alloc, feed, answering, out, device),
        Err(_) => Drained::OutOfMemory,
    }
}

/// Reads requests from an input, frame after frame, and has each answered before the next is looked
/// at. Of the input at most a frame and a piece are held. Up to the limit all whole frames are
/// answered, before a byte past it is asked for.
pub fn serve_input<S: Source, W: Sink, D, A: Answering<D>>(
    alloc: Global,
    input: &mut S,
    out: &mut W,
    device: &mut D,
    answering: &mut A,
) -> Ending<A::Stop>
    requires { A.is_ready (A.seen answering.old device.old (W.seen out.old).content) }
    // What was taken of the input, and which of its requests were answered, by how it ended.
    ensures serves { ServesInput A.answers A.stops result
        (S.seen input.old).content (S.seen input.new).content
        (A.seen answering.old device.old (W.seen out.old).content)
        (A.seen answering.new device.new (W.seen out.new).content) }
    ensures same { A.names device.new ≡ A.names device.old }
    // The faults of the outside come only where a count rose.
    ensures read { result ≡ Ending.ReadFault
        → Rose (S.seen input.old).faults (S.seen input.new).faults }
    ensures counts { CountsEnding A.counts result (A.failed device.old (W.seen out.old).faults)
        (A.failed device.new (W.seen out.new).faults) }
{
    let mut feed = FrameFeed::new(alloc, Way::ToServer);
    let mut left = MOST_STREAM_BYTES;
    'pieces: loop {
        match input.take(alloc, left.min(MOST_PIECE_BYTES).max(1)) {
            Taken::Bytes(piece) => {
                if left == 0 {
                    return Ending::TooLong;
                }
                left -= piece.len();
                match answer_piece(alloc, &piece, &mut feed, answering, out, device) {
                    Drained::Waits => {}
                    Drained::Refused(place) => return Ending::BadFrame(place),
                    Drained::OutOfMemory => return Ending::OutOfMemory,
                    Drained::Stopped(stop) => return Ending::Stopped(stop),
                }
            }
            Taken::End => return at_end(&feed),
            Taken::Failed => return Ending::ReadFault,
            Taken::OutOfMemory => return Ending::OutOfMemory,
        }
    }
}
