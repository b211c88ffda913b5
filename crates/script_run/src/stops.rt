//! Why a run stops.

use ae_edge::streams::WriteError;
use std::alloc::AllocError;

/// Why a conversation is followed no further.
#[derive(Clone, Copy, PartialEq, Eq, Debug)]
pub enum Stop {
    /// The reply at this place among the bytes of the reply frames isn't awaited.
    BadReply(u64),
    /// The replies couldn't be read.
    ReadFault,
    /// The replies are past their limit.
    TooLong,
    /// The source of random bytes failed.
    EntropyFault,
    /// The vault failed.
    VaultFault,
    /// The text or the tap couldn't be put.
    WriteFault,
    OutOfMemory,
}

impl From<AllocError> for Stop {
    ghost use Rattle.std.specs.Prelude.{◌≡◌};
    ghost use Rattle.script_run.specs.declared.stops.Stop.TheVariants.{OutOfMemory};

    ghost from_gives = { λ _ stop. stop ≡ OutOfMemory };

    fn from(_error: AllocError) -> Stop {
        Stop::OutOfMemory
    }
}

impl From<WriteError> for Stop {
    ghost use Rattle.std.specs.Prelude.{◌≡◌};
    ghost use Rattle.script_run.specs.Stops.{stop_of_write};

    ghost from_gives = { λ error stop. stop ≡ stop_of_write error };

    fn from(error: WriteError) -> Stop {
        match error {
            WriteError::Failed => Stop::WriteFault,
            WriteError::OutOfMemory => Stop::OutOfMemory,
        }
    }
}
