//! The turns of a session: a whole batch, half a batch, and the execution of what is pending. A
//! batch is run aloud, where its outcome is printed, or quietly; it gives its outcome back.

ghost use Rattle.std.specs.Prelude.{◌≡◌, Some, None, IfOk, true};
ghost use Rattle.conversation.specs.Pending as told;
ghost use Rattle.conversation.specs.Talk.{Talk, Asks, Prints, Heard, Said, nothing_shown};
ghost use Rattle.conversation.specs.Turns as turns;
ghost use Rattle.conversation.specs.Turns.{Onward};
ghost use Rattle.conversation.specs.declared.outcomes.Outcome as comes_as;
ghost use Rattle.conversation.specs.declared.outcomes.Outcome.TheVariants as outcome_of;
ghost use Rattle.conversation.specs.declared.sessions.Session.{Session};
ghost use Rattle.conversation.specs.declared.sessions.Session.TheVariants.{Sent};
ghost use Rattle.driver.specs.Clients.{IsOfVault, columns_of, session_of};
ghost use Rattle.script_run.specs.Ways.{Advances};
ghost use Rattle.script_run.specs.declared.turns.Described.TheVariants as described_as;
ghost use Rattle.script_run.specs.Onward.{IsBegun, IsBlind, IsCleared, IsRows, IsReady, Keeps, Leaves, LooksAside, SaysThen, ready_on};

use crate::around::{Around, RowHeard};
use crate::hearing::is_skipping;
use crate::stops::Stop;
use ae_base::batches::Batch;
use ae_base::lists::Seq;
use ae_base::sessions::SessionId;
use conversation::answers::{DescribeAnswer, ExecuteAnswer};
use conversation::faults::DriverFault;
use conversation::outcomes::{DescribedParam, Listing, Outcome};
use driver::Driver;
use std::alloc::Global;
use wire_messages::requests::Request;

/// Whether a batch was described.
#[derive(Drop)]
pub enum Described {
    Ready(Seq<DescribedParam>),
    /// It was refused, with this outcome.
    Refused(Outcome),
}

/// Prints an outcome where its batch is run aloud, and gives it back.
fn say<A: Around>(
    alloc: Global,
    env: &mut A,
    aloud: bool,
    outcome: Outcome,
) -> Result<Outcome, Stop>
    ensures leads { (onward : comes_as.Outcome → Talk) → Advances result
        (turns.saying aloud (Some outcome) (onward outcome)) onward (A.outside env.old)
        (A.outside env.new) }
    ensures same { IfOk result (λ said. said ≡ outcome) }
    ensures keys { IfOk result
        (λ _. (A.outside env.new).client.vault.content
        ≡ (A.outside env.old).client.vault.content) }
{
    if !aloud {
        return Ok(outcome);
    }
    match env.print(alloc, &outcome) {
        Ok(()) => Ok(outcome),
        Err(stop) => Err(stop),
    }
}

/// Says what was heard, where that is an outcome.
fn say_heard<A: Around>(
    alloc: Global,
    env: &mut A,
    aloud: bool,
    outcome: Option<Outcome>,
) -> Result<Outcome, Stop>
    ensures leads { (onward : comes_as.Outcome → Talk) → Advances result
        (turns.saying aloud outcome (onward (turns.outcome_or outcome))) onward
        (A.outside env.old) (A.outside env.new) }
    ensures keys { IfOk result
        (λ _. (A.outside env.new).client.vault.content
        ≡ (A.outside env.old).client.vault.content) }
{
    match outcome {
        Some(outcome) => say(alloc, env, aloud, outcome),
        None => Ok(Outcome::Defined),
    }
}

/// Hears rows to their end.
fn hear_rows<A: Around>(
    alloc: Global,
    env: &mut A,
    driver: &mut Driver,
    number: SessionId,
    aloud: bool,
    shown: &mut Listing,
) -> Result<Option<Outcome>, Stop>
    requires rows { IsRows (session_of driver.old number) }
    requires of_vault { IsOfVault (A.outside env.old).client.vault.content driver.old }
    ensures leads { (f : Heard → Talk) → Advances result
        (turns.hearing aloud (session_of driver.old number) shown.old f)
        (λ comes. f (Said comes (session_of driver.new number))) (A.outside env.old)
        (A.outside env.new) }
    ensures keeps { IfOk result
        (λ _. Keeps number driver.old driver.new (A.outside env.new).client.vault.content) }
{
    'replies: loop {
        match env.hear_row(alloc, driver, number, aloud, shown) {
            Ok(RowHeard::More) => {}
            Ok(RowHeard::Said(outcome)) => return Ok(outcome),
            Err(stop) => return Err(stop),
        }
    }
}

/// Hears rows to their end, and says their result.
fn hear_out<A: Around>(
    alloc: Global,
    env: &mut A,
    driver: &mut Driver,
    number: SessionId,
    aloud: bool,
    shown: Listing,
) -> Result<Outcome, Stop>
    requires rows { IsRows (session_of driver.old number) }
    requires of_vault { IsOfVault (A.outside env.old).client.vault.content driver.old }
    ensures leads { (f : Heard → Talk) (k : comes_as.Outcome → Session → Talk) → SaysThen aloud f k
        → Advances result (turns.hearing aloud (session_of driver.old number) shown f)
        (λ comes. k comes (session_of driver.new number)) (A.outside env.old)
        (A.outside env.new) }
    ensures keeps { IfOk result
        (λ _. Keeps number driver.old driver.new (A.outside env.new).client.vault.content) }
{
    let mut shown = shown;
    match hear_rows(alloc, env, driver, number, aloud, &mut shown) {
        Ok(outcome) => say_heard(alloc, env, aloud, outcome),
        Err(stop) => Err(stop),
    }
}

fn nothing_shown(alloc: Global) -> Listing
    ensures { result ≡ nothing_shown }
{
    Listing {
        titles: Seq::new(alloc),
        rows: Seq::new(alloc),
    }
}

/// Hears to its end what is left of an answer that is no longer read, and gives its outcome back.
fn rest<A: Around>(
    alloc: Global,
    env: &mut A,
    driver: &mut Driver,
    number: SessionId,
    aloud: bool,
    outcome: Outcome,
) -> Result<Outcome, Stop>
    requires { IsOfVault (A.outside env.old).client.vault.content driver.old }
    ensures leads { (k : comes_as.Outcome → Session → Talk) → Advances result
        (turns.rested aloud (k outcome) (session_of driver.old number))
        (λ comes. k comes (session_of driver.new number)) (A.outside env.old)
        (A.outside env.new) }
    ensures keeps { IfOk result
        (λ _. Keeps number driver.old driver.new (A.outside env.new).client.vault.content) }
{
    if !is_skipping(driver.session(number)) {
        return Ok(outcome);
    }
    match hear_out(alloc, env, driver, number, aloud, nothing_shown(alloc)) {
        Ok(_) => Ok(outcome),
        Err(stop) => Err(stop),
    }
}

/// Hears the rows of an answer, and what is left of it.
fn read<A: Around>(
    alloc: Global,
    env: &mut A,
    driver: &mut Driver,
    number: SessionId,
    aloud: bool,
    shown: Listing,
) -> Result<Outcome, Stop>
    requires rows { IsRows (session_of driver.old number) }
    requires of_vault { IsOfVault (A.outside env.old).client.vault.content driver.old }
    ensures leads { (k : comes_as.Outcome → Session → Talk) → Advances result
        (turns.hearing aloud (session_of driver.old number) shown (turns.rows_on aloud k))
        (λ comes. k comes (session_of driver.new number)) (A.outside env.old)
        (A.outside env.new) }
    ensures keeps { IfOk result
        (λ _. Keeps number driver.old driver.new (A.outside env.new).client.vault.content) }
{
    match hear_out(alloc, env, driver, number, aloud, shown) {
        Ok(outcome) => rest(alloc, env, driver, number, aloud, outcome),
        Err(stop) => Err(stop),
    }
}

/// Says a fault of the driver; then what is left of the answer is heard.
fn say_and_rest<A: Around>(
    alloc: Global,
    env: &mut A,
    driver: &mut Driver,
    number: SessionId,
    aloud: bool,
    fault: DriverFault,
) -> Result<Outcome, Stop>
    requires { IsOfVault (A.outside env.old).client.vault.content driver.old }
    ensures leads { (k : comes_as.Outcome → Session → Talk) → Advances result
        (turns.saying aloud (Some (outcome_of.Failed fault))
        (turns.rested aloud (k (outcome_of.Failed fault)) (session_of driver.old number)))
        (λ comes. k comes (session_of driver.new number)) (A.outside env.old)
        (A.outside env.new) }
    ensures keeps { IfOk result
        (λ _. Keeps number driver.old driver.new (A.outside env.new).client.vault.content) }
{
    match say(alloc, env, aloud, Outcome::Failed(fault)) {
        Ok(outcome) => rest(alloc, env, driver, number, aloud, outcome),
        Err(stop) => Err(stop),
    }
}

/// Hears the answer to an execution.
fn hear_answer<A: Around>(
    alloc: Global,
    env: &mut A,
    driver: &mut Driver,
    number: SessionId,
    aloud: bool,
) -> Result<Outcome, Stop>
    requires sent { session_of driver.old number ≡ Sent }
    requires of_vault { IsOfVault (A.outside env.old).client.vault.content driver.old }
    ensures leads { (k : Onward) → LooksAside (columns_of driver.old number) k → Advances result
        (turns.hearing aloud (session_of driver.old number) nothing_shown
        (turns.answered_on aloud driver.old.trusted k))
        (λ comes. k comes (columns_of driver.new number) (session_of driver.new number))
        (A.outside env.old) (A.outside env.new) }
    ensures leaves { IfOk result
        (λ _. Leaves number driver.old driver.new (A.outside env.new).client.vault.content) }
{
    match env.hear_answer(alloc, driver, number) {
        Ok(ExecuteAnswer::Shows(titles)) => {
            let rows = Seq::new(alloc);
            read(alloc, env, driver, number, aloud, Listing { titles, rows })
        }
        Ok(ExecuteAnswer::Skips(fault)) => say_and_rest(alloc, env, driver, number, aloud, fault),
        Ok(ExecuteAnswer::Says(outcome)) => say(alloc, env, aloud, outcome),
        Err(stop) => Err(stop),
    }
}

/// Asks a request.
fn ask<A: Around>(alloc: Global, env: &mut A, request: Request<'_>) -> Result<(), Stop>
    ensures leads { (t : Talk) → Advances result (Asks request.entry t) (λ _. t) (A.outside env.old)
        (A.outside env.new) }
    ensures keys { IfOk result
        (λ _. (A.outside env.new).client.vault.content
        ≡ (A.outside env.old).client.vault.content) }
{
    env.ask(alloc, &request)
}

/// Asks an execution, and hears the answer.
fn answered<A: Around>(
    alloc: Global,
    env: &mut A,
    driver: &mut Driver,
    number: SessionId,
    aloud: bool,
    answer: Result<Request<'_>, DriverFault>,
) -> Result<Outcome, Stop>
    requires sent { IfOk answer (λ request. session_of driver.old number ≡ Sent) }
    requires of_vault { IsOfVault (A.outside env.old).client.vault.content driver.old }
    ensures leads { (k : Onward) → LooksAside (columns_of driver.old number) k → Advances result
        (turns.asked aloud (λ after. turns.hearing aloud after nothing_shown
        (turns.answered_on aloud driver.old.trusted k)) k answer.entry
        (session_of driver.old number))
        (λ comes. k comes (columns_of driver.new number) (session_of driver.new number))
        (A.outside env.old) (A.outside env.new) }
    ensures leaves { IfOk result
        (λ _. Leaves number driver.old driver.new (A.outside env.new).client.vault.content) }
{
    match answer {
        Ok(request) => match ask(alloc, env, request) {
            Ok(()) => hear_answer(alloc, env, driver, number, aloud),
            Err(stop) => Err(stop),
        },
        Err(fault) => say(alloc, env, aloud, Outcome::Failed(fault)),
    }
}

/// Executes what is pending.
fn execute<A: Around>(
    alloc: Global,
    env: &mut A,
    driver: &mut Driver,
    number: SessionId,
    aloud: bool,
) -> Result<Outcome, Stop>
    requires { IsOfVault (A.outside env.old).client.vault.content driver.old }
    ensures leads { (k : Onward) → LooksAside (columns_of driver.old number) k → Advances result
        (turns.executing aloud driver.old.trusted number (session_of driver.old number) k)
        (λ comes. k comes (columns_of driver.new number) (session_of driver.new number))
        (A.outside env.old) (A.outside env.new) }
    ensures leaves { IfOk result
        (λ _. Leaves number driver.old driver.new (A.outside env.new).client.vault.content) }
{
    match env.execute(alloc, driver, number) {
        Ok(answer) => answered(alloc, env, driver, number, aloud, answer),
        Err(stop) => Err(stop),
    }
}

/// Says the outcome of a batch that was refused.
fn refused<A: Around>(
    alloc: Global,
    env: &mut A,
    aloud: bool,
    outcome: Outcome,
) -> Result<Described, Stop>
    ensures leads { (ready : told.Pending → Talk) (k : Onward) (after : Session) → Advances result
        (turns.saying aloud (Some outcome) (k outcome None after)) (ready_on ready k after)
        (A.outside env.old) (A.outside env.new) }
    ensures refused { IfOk result (λ described. described ≡ described_as.Refused outcome) }
    ensures keys { IfOk result
        (λ _. (A.outside env.new).client.vault.content
        ≡ (A.outside env.old).client.vault.content) }
{
    match say(alloc, env, aloud, outcome) {
        Ok(outcome) => Ok(Described::Refused(outcome)),
        Err(stop) => Err(stop),
    }
}

/// Hears the description of a batch.
fn hear_description<A: Around>(
    alloc: Global,
    env: &mut A,
    driver: &mut Driver,
    number: SessionId,
    aloud: bool,
) -> Result<Described, Stop>
    requires begun { IsBegun (session_of driver.old number) }
    requires of_vault { IsOfVault (A.outside env.old).client.vault.content driver.old }
    ensures leads { (ready : told.Pending → Talk) (k : Onward) → Advances result
        (turns.hearing aloud (session_of driver.old number) nothing_shown
        (turns.described_on aloud ready k))
        (ready_on ready k (session_of driver.new number)) (A.outside env.old) (A.outside env.new) }
    ensures ready { IfOk result (IsReady (session_of driver.new number)) }
    ensures keeps { IfOk result
        (λ _. Keeps number driver.old driver.new (A.outside env.new).client.vault.content) }
{
    match env.hear_description(alloc, driver, number) {
        Ok(DescribeAnswer::Ready(params)) => Ok(Described::Ready(params)),
        Ok(DescribeAnswer::Refused(fault)) => refused(alloc, env, aloud, Outcome::Refused(fault)),
        Ok(DescribeAnswer::Failed(fault)) => refused(alloc, env, aloud, Outcome::Failed(fault)),
        Err(stop) => Err(stop),
    }
}

/// Asks to describe a batch, and hears the description.
fn ask_description<A: Around>(
    alloc: Global,
    env: &mut A,
    driver: &mut Driver,
    number: SessionId,
    aloud: bool,
    answer: Result<Request<'_>, DriverFault>,
) -> Result<Described, Stop>
    requires begun { IfOk answer (λ request. IsBegun (session_of driver.old number)) }
    requires columns { IfOk answer (λ request. columns_of driver.old number ≡ None) }
    requires of_vault { IsOfVault (A.outside env.old).client.vault.content driver.old }
    ensures leads { (ready : told.Pending → Talk) (k : Onward) → Advances result
        (turns.asked aloud (λ after. turns.hearing aloud after nothing_shown
        (turns.described_on aloud ready k)) k answer.entry (session_of driver.old number))
        (ready_on ready k (session_of driver.new number)) (A.outside env.old) (A.outside env.new) }
    ensures ready { IfOk result (IsReady (session_of driver.new number)) }
    ensures cleared { IfOk result (IsCleared (columns_of driver.new number)) }
    ensures leaves { IfOk result
        (λ _. Leaves number driver.old driver.new (A.outside env.new).client.vault.content) }
{
    match answer {
        Ok(request) => match ask(alloc, env, request) {
            Ok(()) => hear_description(alloc, env, driver, number, aloud),
            Err(stop) => Err(stop),
        },
        Err(fault) => refused(alloc, env, aloud, Outcome::Failed(fault)),
    }
}

/// Describes a batch.
fn describe<A: Around>(
    alloc: Global,
    env: &mut A,
    driver: &mut Driver,
    number: SessionId,
    aloud: bool,
    batch: Batch,
) -> Result<Described, Stop>
    requires { IsOfVault (A.outside env.old).client.vault.content driver.old }
    ensures leads { (ready : told.Pending → Talk) (k : Onward) → Advances result
        (turns.describing aloud number batch (session_of driver.old number) ready k)
        (ready_on ready k (session_of driver.new number)) (A.outside env.old) (A.outside env.new) }
    ensures ready { IfOk result (IsReady (session_of driver.new number)) }
    ensures cleared { IfOk result (IsCleared (columns_of driver.new number)) }
    ensures leaves { IfOk result
        (λ _. Leaves number driver.old driver.new (A.outside env.new).client.vault.content) }
{
    match driver.begin(alloc, number, batch) {
        Ok(answer) => ask_description(alloc, env, driver, number, aloud, answer),
        Err(_) => Err(Stop::OutOfMemory),
    }
}

/// Describes a batch and executes it.
pub fn run<A: Around>(
    alloc: Global,
    env: &mut A,
    driver: &mut Driver,
    number: SessionId,
    aloud: bool,
    batch: Batch,
) -> Result<Outcome, Stop>
    requires { IsOfVault (A.outside env.old).client.vault.content driver.old }
    ensures leads { (k : Onward) → IsBlind k → Advances result
        (turns.running aloud driver.old.trusted number batch (session_of driver.old number) k)
        (λ comes. k comes (columns_of driver.new number) (session_of driver.new number))
        (A.outside env.old) (A.outside env.new) }
    ensures leaves { IfOk result
        (λ _. Leaves number driver.old driver.new (A.outside env.new).client.vault.content) }
{
    match describe(alloc, env, driver, number, aloud, batch) {
        Ok(Described::Ready(_)) => execute(alloc, env, driver, number, aloud),
        Ok(Described::Refused(outcome)) => Ok(outcome),
        Err(stop) => Err(stop),
    }
}

/// Runs a batch aloud.
pub fn whole<A: Around>(
    alloc: Global,
    env: &mut A,
    driver: &mut Driver,
    number: SessionId,
    batch: Batch,
) -> Result<(), Stop>
    requires { IsOfVault (A.outside env.old).client.vault.content driver.old }
    ensures leads { (k : Session → Talk) → Advances result
        (turns.whole driver.old.trusted number batch (session_of driver.old number) k)
        (λ _. k (session_of driver.new number)) (A.outside env.old) (A.outside env.new) }
    ensures leaves { IfOk result
        (λ _. Leaves number driver.old driver.new (A.outside env.new).client.vault.content) }
{
    match run(alloc, env, driver, number, true, batch) {
        Ok(outcome) => {
            drop(outcome);
            Ok(())
        }
        Err(stop) => Err(stop),
    }
}

/// Executes aloud what is pending.
pub fn execute_pending<A: Around>(
    alloc: Global,
    env: &mut A,
    driver: &mut Driver,
    number: SessionId,
) -> Result<(), Stop>
    requires { IsOfVault (A.outside env.old).client.vault.content driver.old }
    ensures leads { (k : Session → Talk) → Advances result
        (turns.executing true driver.old.trusted number (session_of driver.old number)
        (turns.after_all k))
        (λ _. k (session_of driver.new number)) (A.outside env.old) (A.outside env.new) }
    ensures leaves { IfOk result
        (λ _. Leaves number driver.old driver.new (A.outside env.new).client.vault.content) }
{
    match execute(alloc, env, driver, number, true) {
        Ok(outcome) => {
            drop(outcome);
            Ok(())
        }
        Err(stop) => Err(stop),
    }
}

/// Describes half a batch, aloud.
pub fn half<A: Around>(
    alloc: Global,
    env: &mut A,
    driver: &mut Driver,
    number: SessionId,
    batch: Batch,
) -> Result<(), Stop>
    requires { IsOfVault (A.outside env.old).client.vault.content driver.old }
    ensures leads { (k : Session → Talk) → Advances result
        (turns.half number batch (session_of driver.old number) k)
        (λ _. k (session_of driver.new number)) (A.outside env.old) (A.outside env.new) }
    ensures leaves { IfOk result
        (λ _. Leaves number driver.old driver.new (A.outside env.new).client.vault.content) }
{
    match describe(alloc, env, driver, number, true, batch) {
        Ok(Described::Ready(params)) => print(alloc, env, Outcome::Described(params)),
        Ok(Described::Refused(_)) => Ok(()),
        Err(stop) => Err(stop),
    }
}

/// Prints an outcome.
pub fn print<A: Around>(alloc: Global, env: &mut A, outcome: Outcome) -> Result<(), Stop>
    ensures leads { (t : Talk) → Advances result (Prints outcome t) (λ _. t) (A.outside env.old)
        (A.outside env.new) }
    ensures keys { IfOk result
        (λ _. (A.outside env.new).client.vault.content
        ≡ (A.outside env.old).client.vault.content) }
{
    env.print(alloc, &outcome)
}
