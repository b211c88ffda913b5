//! The command `gen`.

ghost use Rattle.gen_command.specs.Generating.{PutsScript};

use crate::scripts::script;
use ae_edge::sinks::Sink;
use ae_edge::streams::{WriteError, put_all};
use std::alloc::Global;

/// How the command ended.
#[derive(Clone, Copy, PartialEq, Eq, Debug)]
pub enum Generated {
    /// The script was put whole.
    Done,
    /// A call of the output failed.
    WriteFault,
    OutOfMemory,
}

/// Puts the script of a size to the output: two keys and a table with protected columns, so many
/// rows of it, and two reads. Of a script that can't be put whole a front is put.
pub fn generate<W: Sink>(alloc: Global, size: u32, out: &mut W) -> Generated
    ensures { PutsScript result size (W.seen out.old) (W.seen out.new) }
{
    let Ok(text) = script(alloc, size) else {
        return Generated::OutOfMemory;
    };
    match put_all(out, text.as_bytes()) {
        Ok(()) => Generated::Done,
        Err(WriteError::Failed) => Generated::WriteFault,
        Err(WriteError::OutOfMemory) => Generated::OutOfMemory,
    }
}
