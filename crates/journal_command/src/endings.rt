//! How serving ends.

use serve_command::inputs::Ending;

/// How the command ended.
#[derive(Clone, Copy, PartialEq, Eq, Debug)]
pub enum Ended {
    /// The input was read to its end, and each of its requests answered.
    Done,
    /// A call of the input failed.
    ReadFault,
    /// A call of the output failed.
    WriteFault,
    /// A call of the disk failed.
    DiskFault,
    OutOfMemory,
    /// The input is past its limit.
    TooLong,
    /// What begins at this byte, from 0, is no request, or the input ends inside its frame.
    BadFrame(u64),
    /// Behind the gate at this byte of the file, from 0, stands no record that such a run has left.
    Damaged(u64),
    /// The file has no room for the record of a request, which isn't answered.
    JournalFull,
}

/// Why a request wasn't answered whole.
#[derive(Clone, Copy, PartialEq, Eq, Debug)]
pub(crate) enum Stop {
    WriteFault,
    DiskFault,
    JournalFull,
    OutOfMemory,
}

impl From<Ending<Stop>> for Ended {
    ghost use Rattle.std.specs.Prelude.{◌≡◌};
    ghost use Rattle.journal_command.specs.Endings.{ended_by};

    ghost from_gives = { λ ending ended. ended ≡ ended_by ending };

    fn from(ending: Ending<Stop>) -> Ended {
        match ending {
            Ending::Done => Ended::Done,
            Ending::ReadFault => Ended::ReadFault,
            Ending::TooLong => Ended::TooLong,
            Ending::BadFrame(place) => Ended::BadFrame(place),
            Ending::OutOfMemory => Ended::OutOfMemory,
            Ending::Stopped(Stop::WriteFault) => Ended::WriteFault,
            Ending::Stopped(Stop::DiskFault) => Ended::DiskFault,
            Ending::Stopped(Stop::JournalFull) => Ended::JournalFull,
            Ending::Stopped(Stop::OutOfMemory) => Ended::OutOfMemory,
        }
    }
}
