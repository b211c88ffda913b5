//! A definition is executed.

ghost use Rattle.std.specs.Prelude.{◌≡◌, [], IfOk, Option, Some};
ghost use Rattle.ae_edge.specs.Vaults.{KeyMap};
ghost use Rattle.conversation.specs.Pending.{Pending};
ghost use Rattle.conversation.specs.declared.outcomes.Outcome.{Outcome};
ghost use Rattle.conversation.specs.declared.sessions.Session.TheVariants as session_of;
ghost use Rattle.driver.specs.Clients as client;
ghost use Rattle.driver.specs.Clients.{IsOfVault};
ghost use Rattle.plaintext_laws.specs.Batches.{execution_of};
ghost use Rattle.wire_messages.specs.declared.requests.Request.TheVariants as request;
ghost use Rattle.check_command.specs.Asked.{AnswersAs, ComesTo, IsDefinition, IsUnused, OrShort, Says};

use ae_base::sessions::SessionId;
use ae_edge::memory::entropy::MemEntropy;
use ae_edge::memory::vault::MemVault;
use conversation::answers::ExecuteAnswer;
use conversation::faults::Halt;
use conversation::outcomes::Outcome;
use driver::Driver;
use resolve::laws::prepared_alone;
use server_core::server::Server;
use std::alloc::{AllocError, Global};
use wire_messages::replies::Reply;
use wire_messages::requests::Request;

/// Executes a described definition. It uses no parameter, so no key is there to open.
pub fn defined(
    alloc: Global,
    server: &mut Server,
    driver: &mut Driver,
    number: SessionId,
) -> Result<Outcome, AllocError>
    requires definition { IsDefinition server.old number (client.session_of driver.old number) }
    requires of_vault { (keys : Option KeyMap) → IsOfVault keys driver.old }
    ensures comes { (p : Pending) → client.session_of driver.old number ≡ session_of.Pending p
        → IfOk result (ComesTo (execution_of [] [] server.old number p) server.new) }
    ensures sessions { server.new.sessions ≡ server.old.sessions }
{
    prepared_alone();
    let mut vault = MemVault::new(Vec::new(alloc), Vec::new(alloc));
    let request = execution(alloc, driver, number, &mut vault)?;
    let replies = server.serve(alloc, &request);
    drop(request);
    match replies {
        Ok(replies) => told(alloc, driver, number, &mut vault, replies.as_slice()),
        Err(error) => Err(error),
    }
}

/// The request to execute a batch that uses no parameter: nothing is drawn for it.
#[tactic(auto, using(crate::proofs::Executing::sent_as))]
fn execution<'r>(
    alloc: Global,
    driver: &mut Driver,
    number: SessionId,
    vault: &mut MemVault,
) -> Result<Request<'r>, AllocError>
    requires unused { IsUnused (client.session_of driver.old number) }
    requires of_vault { IsOfVault (Some vault.old.keys) driver.old }
    ensures asks { (p : Pending) → client.session_of driver.old number ≡ session_of.Pending p
        → IfOk result (λ asked. asked ≡ request.Execute number p.version p.batch.text []) }
    ensures sent { IfOk result (λ _. client.session_of driver.new number ≡ session_of.Sent) }
    ensures of_vault { IsOfVault (Some vault.new.keys) driver.new }
{
    let mut entropy = MemEntropy::new(Vec::new(alloc), Vec::new(alloc));
    match driver.execute(alloc, number, vault, &mut entropy) {
        Ok(Ok(request)) => Ok(request),
        Err(Halt::OutOfMemory) => Err(AllocError),
        Ok(Err(_)) | Err(Halt::BadReply | Halt::EntropyFault | Halt::VaultFault) => unreachable!(),
    }
}

/// The result of the replies to a definition: there is one.
fn told(
    alloc: Global,
    driver: &mut Driver,
    number: SessionId,
    vault: &mut MemVault,
    replies: &[Reply<'static>],
) -> Result<Outcome, AllocError>
    requires sent { client.session_of driver.old number ≡ session_of.Sent }
    requires of_vault { IsOfVault (Some vault.old.keys) driver.old }
    requires answers { (comes : Outcome) × AnswersAs replies.now comes }
    ensures { (comes : Outcome) → AnswersAs replies.now comes → IfOk result (λ c. comes ≡ c) }
{
    let [reply] = replies else { unreachable!() };
    outcome_in(driver.answered(alloc, number, reply, vault))
}

/// The result that the driver tells of a definition.
fn outcome_in(said: Result<ExecuteAnswer, Halt>) -> Result<Outcome, AllocError>
    requires { (comes : Outcome) × OrShort (Says comes) said }
    ensures { (comes : Outcome) → OrShort (Says comes) said → IfOk result (λ c. comes ≡ c) }
{
    match said {
        Ok(ExecuteAnswer::Says(outcome)) => Ok(outcome),
        Err(Halt::OutOfMemory) => Err(AllocError),
        _ => unreachable!(),
    }
}
