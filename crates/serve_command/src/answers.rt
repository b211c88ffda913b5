//! One request, and the frames of its replies.

ghost use Rattle.std.specs.Prelude.{◌<◌, length};
ghost use Rattle.ae_edge.specs.Devices.{Calls};
ghost use Rattle.ae_edge.specs.Streams.{CountsPutAll, PutsAll};
ghost use Rattle.wire_encoding.specs.Packing.{packed};
ghost use Rattle.serve_command.specs.Answers.{PutsOrKeeps};

use crate::answering::Answering;
use ae_base::frames::FrameVersion;
use ae_edge::sinks::Sink;
use ae_edge::streams::{WriteError, put_all};
use server_core::server::Server;
use std::alloc::Global;
use wire_encoding::push_front;
use wire_messages::replies::Reply;
use wire_messages::requests::Request;
use wire_payloads::versioned::Versioned;

/// A buffer of frames that has so many bytes is put, and emptied.
const FULL_BUFFER_BYTES: usize = 65_536;

/// Puts the frames of a full buffer, and empties it; the frames of another stay in it.
fn put_full<W: Sink>(frames: &mut Vec<u8>, out: &mut W) -> Result<(), WriteError>
    ensures call { Calls (PutsOrKeeps frames.old.items frames.new.items result)
        (CountsPutAll result) (W.seen out.old) (W.seen out.new) }
    ensures small { length frames.new.items < 65536 }
{
    if frames.len() < FULL_BUFFER_BYTES {
        return Ok(());
    }
    let put = put_all(out, frames.as_slice());
    frames.clear();
    put
}

/// Puts the frames of an answer, in a version. Of these at most a full buffer and one frame are
/// held.
pub fn put_replies<W: Sink>(
    alloc: Global,
    version: FrameVersion,
    replies: &[Reply<'_>],
    out: &mut W,
) -> Result<(), WriteError>
    ensures { Calls (PutsAll (packed version replies.now) result) (CountsPutAll result)
        (W.seen out.old) (W.seen out.new) }
{
    let mut frames = Vec::new(alloc);
    let mut done = 0;
    'frames: while done < replies.len() {
        let Ok(count) = push_front(&mut frames, version, &replies[done..]) else {
            return Err(WriteError::OutOfMemory);
        };
        done += count;
        put_full(&mut frames, out)?;
    }
    put_all(out, frames.as_slice())
}

impl Answering<()> for Server {
    ghost use Rattle.std.specs.Prelude.{[], ℕ};
    ghost use Rattle.ae_edge.specs.Streams.{CountsWrite};
    ghost use Rattle.serve_command.specs.Servers.{AnswersRequest, ServerView, StopsRequest};

    type Stop = WriteError;

    ghost View = { ServerView };

    ghost seen = { λ server device out. record { state = server; out = out } };

    ghost is_ready = { λ view. Unit {0} };

    ghost answers = { AnswersRequest };

    ghost stops = { StopsRequest };

    ghost Faults = { ℕ };

    ghost failed = { λ device out. out };

    ghost counts = { CountsWrite };

    ghost names = { λ device. [] };

    fn answer<W: Sink>(
        &mut self,
        alloc: Global,
        asked: &Versioned<Request<'_>>,
        out: &mut W,
        _device: &mut (),
    ) -> Result<(), WriteError> {
        match self.serve(alloc, &asked.message) {
            Ok(replies) => put_replies(alloc, asked.version, replies.as_slice(), out),
            Err(_) => Err(WriteError::OutOfMemory),
        }
    }
}
