//! The command `view`.

ghost use Rattle.std.specs.Prelude.{◌≡◌};
ghost use Rattle.ae_edge.specs.Devices.{Rose};
ghost use Rattle.view_command.specs.Endings.{number_of};
ghost use Rattle.view_command.specs.Viewing.{ViewsInput, is_listed};

use crate::frames::Seen;
use crate::pages::{put_foot, put_mark};
use crate::pieces::put_pieces;
use ae_edge::sinks::Sink;
use ae_edge::sources::Source;
use ae_edge::streams::WriteError;
use std::alloc::Global;
use std::fmt;

/// How the command ended.
#[derive(Clone, Copy, PartialEq, Eq, Debug)]
pub enum Viewed {
    /// The recording is frames to its end, and all of them were put.
    Done,
    /// A call of the input failed. All whole frames before it were put.
    ReadFault,
    /// A call of the output failed.
    WriteFault,
    OutOfMemory,
    /// The input is past its limit. All whole frames within it were put.
    TooLong,
    /// What begins at this byte, from 0, is no frame. All before it were put.
    BadFrame(u64),
    /// The recording ends inside the frame that begins at this byte. All before it were put.
    CutOff(u64),
}

impl Viewed {
    /// Whether the recording's end, or what is no frame, was met.
    pub(crate) fn is_listed(&self) -> bool
        ensures { result ≡ is_listed self.now }
    {
        match self {
            Viewed::Done | Viewed::BadFrame(_) | Viewed::CutOff(_) => true,
            Viewed::ReadFault | Viewed::WriteFault | Viewed::OutOfMemory | Viewed::TooLong => false,
        }
    }

    /// The number with which the program ends.
    pub fn number(&self) -> u8
        ensures { result ≡ number_of self.now }
    {
        match self {
            Viewed::Done => 0,
            Viewed::ReadFault => 3,
            Viewed::WriteFault => 4,
            Viewed::OutOfMemory => 5,
            Viewed::TooLong => 9,
            Viewed::BadFrame(_) | Viewed::CutOff(_) => 10,
        }
    }
}

impl fmt::Display for Viewed {
    ghost use Rattle.std.specs.Prelude.{Some};
    ghost use Rattle.view_command.specs.Endings.{said_of};

    ghost output = { λ v. Some (said_of v) };

    fn fmt<W: fmt::Write>(&self, f: &mut fmt::Formatter<W>) -> fmt::Result {
        match self {
            Viewed::Done => Ok(()),
            Viewed::ReadFault => writeln!(f, "ae_view: read fault"),
            Viewed::WriteFault => writeln!(f, "ae_view: write fault"),
            Viewed::OutOfMemory => writeln!(f, "ae_view: out of memory"),
            Viewed::TooLong => writeln!(f, "ae_view: too long"),
            Viewed::BadFrame(place) => writeln!(f, "ae_view: bad frame at {place}"),
            Viewed::CutOff(place) => writeln!(f, "ae_view: cut off at {place}"),
        }
    }
}

/// Reads a recording of frames, and puts it to the output, as lines of text or as a page: each
/// frame as it comes, up to the first place that is no frame; behind the last how many NULLs, plain
/// values and cells there were of each class, with the commonest cells, and how the recording
/// ended. Of the input at most a frame and a piece are held, with the different cells that were
/// seen. Up to the limit all whole frames are put, before a byte past it is asked for.
pub fn view<S: Source, W: Sink>(alloc: Global, page: bool, input: &mut S, out: &mut W) -> Viewed
    // What was taken of the input, and what was put for it, by how it ended.
    ensures content { ViewsInput page result (S.seen input.old).content (S.seen input.new).content
        (W.seen out.old).content (W.seen out.new).content }
    // The faults of the outside come only where a count rose.
    ensures read { result ≡ Viewed.ReadFault
        → Rose (S.seen input.old).faults (S.seen input.new).faults }
    ensures write { result ≡ Viewed.WriteFault
        → Rose (W.seen out.old).faults (W.seen out.new).faults }
{
    match put_mark(page, tap_page::head(), out) {
        Ok(()) => {}
        Err(WriteError::Failed) => return Viewed::WriteFault,
        Err(WriteError::OutOfMemory) => return Viewed::OutOfMemory,
    }
    let mut seen = Seen::new(alloc);
    let viewed = put_pieces(alloc, page, input, &mut seen, out);
    if !viewed.is_listed() {
        return viewed;
    }
    match put_foot(alloc, page, &seen.tally, viewed, out) {
        Ok(()) => viewed,
        Err(WriteError::Failed) => Viewed::WriteFault,
        Err(WriteError::OutOfMemory) => Viewed::OutOfMemory,
    }
}
