//! The result of checking a batch.

ghost use Rattle.std.specs.Prelude.{◌≡◌, IfOk};
ghost use Rattle.script_lang.specs.Limits.{HasParams};
ghost use Rattle.check_command.specs.Asked.{ComesTo};
ghost use Rattle.check_command.specs.Check as check;

use crate::defining::defined;
use crate::definitions::defines;
use crate::describing::describe;
use ae_base::batches::Batch;
use ae_base::sessions::SessionId;
use conversation::answers::DescribeAnswer;
use conversation::faults::Halt;
use conversation::outcomes::Outcome;
use driver::Driver;
use server_core::server::Server;
use std::alloc::{AllocError, Global};

/// The result of a batch: a definition is executed, any other batch described. It has a driver of
/// its own, so nothing stays pending.
#[tactic(auto, using(crate::proofs::Executing::idle_at, crate::proofs::Telling::defined_as))]
pub fn outcome_of(
    alloc: Global,
    server: &mut Server,
    number: SessionId,
    batch: &Batch,
) -> Result<Outcome, AllocError>
    requires params { HasParams batch.now }
    requires alone { check.HasNoTransaction server.old }
    ensures comes { IfOk result (ComesTo (check.checked server.old number batch.now) server.new) }
    ensures sessions { server.new.sessions ≡ server.old.sessions }
{
    let defines = defines(alloc, &batch.text)?;
    let mut driver = Driver::new(alloc)?;
    match describe(alloc, server, &mut driver, number, batch) {
        Ok(DescribeAnswer::Ready(params)) => {
            if defines {
                drop(params);
                defined(alloc, server, &mut driver, number)
            } else {
                Ok(Outcome::Described(params))
            }
        }
        Ok(DescribeAnswer::Refused(fault)) => Ok(Outcome::Refused(fault)),
        Ok(DescribeAnswer::Failed(fault)) => Ok(Outcome::Failed(fault)),
        Err(Halt::OutOfMemory) => Err(AllocError),
        Err(Halt::BadReply | Halt::EntropyFault | Halt::VaultFault) => unreachable!(),
    }
}
