//! All that a turn touches, in one trait.

ghost use Rattle.std.specs.Prelude.{◌≡◌, ◌<◌, ◌^◌, Bool, List, Result, IfOk};
ghost use Rattle.wire_messages.specs.declared.requests.Request.{Request};
ghost use Rattle.conversation.specs.declared.faults.DriverFault.{DriverFault};
ghost use Rattle.conversation.specs.declared.sessions.Session.{Session};
ghost use Rattle.conversation.specs.declared.sessions.Session.TheVariants.{Sent};
ghost use Rattle.conversation.specs.Talk.{Talk, Ends, Asks, Prints, Heard, nothing_shown};
ghost use Rattle.conversation.specs.Turns as turns;
ghost use Rattle.conversation.specs.Turns.{Onward};
ghost use Rattle.driver.specs.Clients.{IsOfVault, columns_of, session_of};
ghost use Rattle.script_run.specs.Closing.{closed_as};
ghost use Rattle.script_run.specs.Shares.{Outside};
ghost use Rattle.script_run.specs.Ways.{IsReadOut, Advances};
ghost use Rattle.script_run.specs.Onward.{IsBegun, IsRows, IsDescribed, Keeps, Leaves, RowsStay, shown_first, said_first, told_on, first_on, row_on};

use crate::stops::Stop;
use ae_base::sessions::SessionId;
use conversation::answers::{DescribeAnswer, ExecuteAnswer};
use conversation::faults::DriverFault;
use conversation::outcomes::{Listing, Outcome};
use driver::Driver;
use std::alloc::Global;
use wire_messages::requests::Request;

/// What a reply says while rows are awaited.
#[derive(Drop)]
pub enum RowHeard {
    /// More is awaited.
    More,
    /// That is all.
    Said(Option<Outcome>),
}

/// All that a turn touches. One type implements it, `Env`, so contracts of turns name it and not
/// five devices.
pub trait Around {
    ghost outside: { Self → Outside };

    /// What holds of it at its end, besides what is told.
    ghost is_ended: { Self → Type 0 };

    /// Asks a request.
    fn ask(&mut self, alloc: Global, request: &Request<'_>) -> Result<(), Stop>
        ensures leads { (t : Talk) → Advances result (Asks request.now t) (λ _. t)
            (outside self.old) (outside self.new) }
        ensures keys { IfOk result
            (λ _. (outside self.new).client.vault.content
            ≡ (outside self.old).client.vault.content) };

    /// Ends it, where nothing more is asked, and looks whether any reply is left. None may be.
    fn finish(&mut self, alloc: Global) -> Result<(), Stop>
        ensures leads { (sessions : List Session) → Advances result (Ends sessions)
            (λ _. Ends sessions) (outside self.old)
            (closed_as (outside self.old).wire.closed (outside self.new)) }
        ensures tap { (outside self.new).wire.tap.content ≡ (outside self.old).wire.tap.content }
        ensures read { IfOk result
            (λ _. IsReadOut (outside self.new).wire.stream (outside self.new).wire.waiting) }
        ensures ended { IfOk result (λ _. is_ended self.new) };

    /// Prints an outcome.
    fn print(&mut self, alloc: Global, outcome: &Outcome) -> Result<(), Stop>
        ensures leads { (t : Talk) → Advances result (Prints outcome.now t) (λ _. t)
            (outside self.old) (outside self.new) }
        ensures keys { IfOk result
            (λ _. (outside self.new).client.vault.content
            ≡ (outside self.old).client.vault.content) };

    /// Executes what is pending: the request.
    fn execute<'r>(
        &mut self,
        alloc: Global,
        driver: &mut Driver,
        number: SessionId,
    ) -> Result<Result<Request<'r>, DriverFault>, Stop>
        requires { IsOfVault (outside self.old).client.vault.content driver.old }
        ensures leads { (k : Result Request DriverFault → Session → Talk) → Advances result
            (turns.execute driver.old.trusted number (session_of driver.old number) k)
            (λ answer. k answer (session_of driver.new number)) (outside self.old)
            (outside self.new) }
        ensures sent { IfOk result
            (λ answer. IfOk answer (λ request. session_of driver.new number ≡ Sent)) }
        ensures keeps { IfOk result
            (λ _. Keeps number driver.old driver.new (outside self.new).client.vault.content) };

    /// Hears the description of a batch, aloud or quietly.
    fn hear_description(
        &mut self,
        alloc: Global,
        driver: &mut Driver,
        number: SessionId,
    ) -> Result<DescribeAnswer, Stop>
        requires begun { IsBegun (session_of driver.old number) }
        requires of_vault { IsOfVault (outside self.old).client.vault.content driver.old }
        ensures leads { (aloud : Bool) (f : Heard → Talk) → Advances result
            (turns.hearing aloud (session_of driver.old number) nothing_shown f)
            (told_on f (session_of driver.new number)) (outside self.old) (outside self.new) }
        ensures described { IfOk result
            (λ answer. IsDescribed answer (session_of driver.new number)) }
        ensures keeps { IfOk result
            (λ _. Keeps number driver.old driver.new (outside self.new).client.vault.content) };

    /// Hears the first reply to an execution, aloud or quietly.
    fn hear_answer(
        &mut self,
        alloc: Global,
        driver: &mut Driver,
        number: SessionId,
    ) -> Result<ExecuteAnswer, Stop>
        requires sent { session_of driver.old number ≡ Sent }
        requires of_vault { IsOfVault (outside self.old).client.vault.content driver.old }
        ensures leads { (aloud : Bool) (k : Onward) → Advances result
            (turns.hearing aloud (session_of driver.old number) nothing_shown
            (turns.answered_on aloud driver.old.trusted k))
            (first_on aloud k (columns_of driver.new number) (session_of driver.new number))
            (outside self.old) (outside self.new) }
        ensures rows { IfOk result (shown_first (session_of driver.new number)) }
        ensures columns { IfOk result
            (said_first (columns_of driver.old number) (columns_of driver.new number)) }
        ensures leaves { IfOk result
            (λ _. Leaves number driver.old driver.new (outside self.new).client.vault.content) };

    /// Hears one more reply where rows are awaited. Aloud, a listing that breaks off is printed.
    fn hear_row(
        &mut self,
        alloc: Global,
        driver: &mut Driver,
        number: SessionId,
        aloud: bool,
        shown: &mut Listing,
    ) -> Result<RowHeard, Stop>
        requires rows { IsRows (session_of driver.old number) }
        requires of_vault { IsOfVault (outside self.old).client.vault.content driver.old }
        ensures leads { (f : Heard → Talk) → Advances result
            (turns.hearing aloud (session_of driver.old number) shown.old f)
            (row_on aloud f (session_of driver.new number) shown.new) (outside self.old)
            (outside self.new) }
        ensures rows { IfOk result (RowsStay (session_of driver.new number)) }
        ensures more { IfOk result
            (λ _. ((outside self.old).wire.taken < (outside self.new).wire.taken)
            × ((outside self.new).wire.taken < 2 ^ 64)) }
        ensures keeps { IfOk result
            (λ _. Keeps number driver.old driver.new (outside self.new).client.vault.content) };
}
