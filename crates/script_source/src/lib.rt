//! A script that is read from its source: its steps, or why it has none.
#![tactic(auto)]

ghost use Rattle.std.specs.Prelude.{◌≡◌, ◌≤◌, Err, length};
ghost use Rattle.ae_edge.specs.Streams.{Reads};
ghost use Rattle.script_source.specs.Scripts.{CountsScript, ReadsScript, TakesScript, most_script_bytes};

use ae_base::blobs::Blob;
use ae_base::limits::MOST_SCRIPT_BYTES;
use ae_base::lists::Seq;
use ae_edge::sources::Source;
use ae_edge::streams::{ReadError, read_all};
use script_lang::scripts::{ScriptFault, read_script};
use script_lang::steps::Step;
use std::alloc::Global;

/// Why a script has no steps.
#[derive(Clone, Copy, PartialEq, Eq, Debug)]
pub enum Unread {
    /// A call of its source failed.
    ReadFault,
    /// It has more than 16,777,216 bytes.
    TooLong,
    /// The first line that no script has, from 1.
    BadLine(u64),
    OutOfMemory,
}

impl From<ReadError> for Unread {
    ghost use Rattle.std.specs.Prelude.{◌≡◌};
    ghost use Rattle.script_source.specs.Scripts.{unread_of};

    ghost from_gives = { λ error unread. unread ≡ unread_of error };

    fn from(error: ReadError) -> Unread {
        match error {
            ReadError::TooLong => Unread::TooLong,
            ReadError::Failed => Unread::ReadFault,
            ReadError::OutOfMemory => Unread::OutOfMemory,
        }
    }
}

/// The steps of a script's bytes.
fn steps_in(alloc: Global, script: &Blob) -> Result<Seq<Step>, Unread>
    requires { length script.now ≤ most_script_bytes }
    ensures reads { ReadsScript result script.now }
    ensures read { result ≡ Err Unread.ReadFault → ⊥ }
    ensures whole { result ≡ Err Unread.TooLong → ⊥ }
{
    match read_script(alloc, script.as_slice()) {
        Ok(steps) => Ok(steps),
        Err(ScriptFault::BadLine(line)) => Err(Unread::BadLine(line)),
        Err(ScriptFault::OutOfMemory) => Err(Unread::OutOfMemory),
    }
}

/// Reads a script to its end: its steps, or why it has none. At most one byte more than the limit
/// is taken.
pub fn read_steps<S: Source>(alloc: Global, script: &mut S) -> Result<Seq<Step>, Unread>
    ensures { Reads (ReadsScript result) (TakesScript result) (CountsScript result)
        (S.seen script.old) (S.seen script.new) }
{
    let bytes = read_all(script, alloc, MOST_SCRIPT_BYTES)?;
    steps_in(alloc, &bytes)
}
