//! The command `serve`.

ghost use Rattle.std.specs.Prelude.{◌≡◌, List, ℕ, Some, take};
ghost use Rattle.ae_edge.specs.Devices.{Rose};
ghost use Rattle.server_core.specs.Serve.{State, empty_state};
ghost use Rattle.wire_frames.specs.Frames.{End};
ghost use Rattle.serve_command.specs.ServeAll.{ServeAll};
ghost use Rattle.serve_command.specs.Serving.{IsServed, ServesStream, most_stream_bytes};

use crate::inputs::{Ending, serve_input};
use ae_edge::sinks::Sink;
use ae_edge::sources::Source;
use ae_edge::streams::WriteError;
use server_core::laws::requests_are_serial;
use server_core::server::Server;
use std::alloc::Global;
use wire_frames::{frames_are_read_back, one_reading, streams_are_read_once};

/// How the command ended.
#[derive(Clone, Copy, PartialEq, Eq, Debug)]
pub enum Served {
    /// The input was read to its end, and each of its requests answered.
    Done,
    /// A call of the input failed.
    ReadFault,
    /// A call of the output failed.
    WriteFault,
    OutOfMemory,
    /// The input is past its limit.
    TooLong,
    /// What begins at this byte, from 0, is no request, or the input ends inside its frame.
    BadFrame(u64),
}

impl From<Ending<WriteError>> for Served {
    ghost use Rattle.std.specs.Prelude.{◌≡◌};
    ghost use Rattle.serve_command.specs.Servers.{served_by};

    ghost from_gives = { λ ending served. served ≡ served_by ending };

    fn from(ending: Ending<WriteError>) -> Served {
        match ending {
            Ending::Done => Served::Done,
            Ending::ReadFault => Served::ReadFault,
            Ending::TooLong => Served::TooLong,
            Ending::BadFrame(place) => Served::BadFrame(place),
            Ending::OutOfMemory => Served::OutOfMemory,
            Ending::Stopped(WriteError::Failed) => Served::WriteFault,
            Ending::Stopped(WriteError::OutOfMemory) => Served::OutOfMemory,
        }
    }
}

/// Reads requests from the input, frame after frame, and puts the frames of the replies of a server
/// that begins with nothing defined to the output: all those of one request before the next request
/// is looked at. Of the input at most a frame and a piece are held. Up to the limit all whole
/// frames are answered, before a byte past it is asked for.
pub fn serve_stream<S: Source, W: Sink>(alloc: Global, input: &mut S, out: &mut W) -> Served
    // What was taken of the input, and what was put for it, by how it ended; and that transactions
    // took effect one after another.
    ensures content { ServesStream result (S.seen input.old).content (S.seen input.new).content
        (W.seen out.old).content (W.seen out.new).content }
    // Where the input tells its bytes: by how those within the limit end, and the frames of their
    // replies. So whole frames within the limit end with `Done` and all frames, unless memory or a
    // device fails.
    ensures exact { (bytes frames : List ℕ) (end : End) (after : State)
        → (S.seen input.old).content ≡ Some bytes
        → ServeAll empty_state (take most_stream_bytes bytes) end frames after
        → IsServed result bytes end frames (W.seen out.old).content (W.seen out.new).content }
    // The faults of the outside come only where a count rose.
    ensures read { result ≡ Served.ReadFault
        → Rose (S.seen input.old).faults (S.seen input.new).faults }
    ensures write { result ≡ Served.WriteFault
        → Rose (W.seen out.old).faults (W.seen out.new).faults }
{
    one_reading();
    streams_are_read_once();
    frames_are_read_back();
    requests_are_serial();
    let mut server = Server::new(alloc);
    let ending = serve_input(alloc, input, out, &mut (), &mut server);
    drop(server);
    Served::from(ending)
}
