//! The rotation of a table: its batches are run quietly, and it comes to one outcome.

ghost use Rattle.std.specs.Prelude.{◌≡◌, ℕ, List, IfOk};
ghost use Rattle.column_rotate.specs.Rotating as rotating_as;
ghost use Rattle.column_rotate.specs.Rotating.{Ends};
ghost use Rattle.column_rotate.specs.declared.sent.Sent.{Sent};
ghost use Rattle.conversation.specs.Talk.{Talk};
ghost use Rattle.conversation.specs.declared.outcomes.Listing as listings;
ghost use Rattle.conversation.specs.declared.outcomes.Outcome.TheVariants as outcome_of;
ghost use Rattle.conversation.specs.declared.sessions.Session.{Session};
ghost use Rattle.driver.specs.Clients.{IsOfVault, columns_of, session_of};
ghost use Rattle.script_run.specs.Ways.{Advances};
ghost use Rattle.script_run.specs.Onward.{Leaves};
ghost use Rattle.script_run.specs.Rotations.{rotated_as, standing, next_on};

use crate::around::Around;
use crate::stops::Stop;
use crate::turns::{print, run};
use ae_base::lists::Duplicate;
use ae_base::names::Name;
use ae_base::sessions::SessionId;
use column_rotate::laws::rotations_are_next;
use column_rotate::{Next, Rotation};
use conversation::counts::past_64_bits;
use conversation::faults::DriverFault;
use conversation::outcomes::Outcome;
use driver::{Driver, Fault};
use std::alloc::{AllocError, Global};

/// An answer that broke off, as the driver tells it.
fn told_broken(fault: Option<DriverFault>) -> driver::Outcome
    ensures { (shown : listings.Listing)
        → result ≡ rotating_as.told_of (outcome_of.Broken shown fault) }
{
    match fault {
        Some(fault) => driver::Outcome::Refused(Fault::OfDriver(fault)),
        None => driver::Outcome::Defined,
    }
}

/// The outcome of a batch, as the driver tells it.
fn told_of(outcome: Outcome) -> driver::Outcome
    ensures { result ≡ rotating_as.told_of outcome }
{
    match outcome {
        Outcome::Rows(shown) => driver::Outcome::Rows(shown.rows),
        Outcome::Broken(_, fault) => told_broken(fault),
        Outcome::Changed(count) => driver::Outcome::Changed(count),
        Outcome::Defined | Outcome::Rotated(_) | Outcome::Described(_) => driver::Outcome::Defined,
        Outcome::Refused(fault) => driver::Outcome::Refused(Fault::OfServer(fault)),
        Outcome::Failed(fault) => driver::Outcome::Refused(Fault::OfDriver(fault)),
    }
}

/// What a rotation came to, as it is printed.
fn rotated_as(rotated: Result<u64, Fault>) -> Outcome
    ensures { result ≡ rotated_as rotated }
{
    match rotated {
        Ok(count) => Outcome::Rotated(count),
        Err(Fault::OfServer(fault)) => Outcome::Refused(fault),
        Err(Fault::OfDriver(fault)) => Outcome::Failed(fault),
    }
}

/// A rotation that hasn't begun.
fn start(number: SessionId, old: &Name, new: &Name) -> Result<Rotation, AllocError>
    ensures { IfOk result (λ rotation. rotation
        ≡ record { session = number; from = old.now; into = new.now; sent = Sent.Nothing }) }
{
    Ok(Rotation::start(number, old.copy()?, new.copy()?))
}

/// What comes next in a rotation.
fn next_of(
    alloc: Global,
    driver: &Driver,
    rotation: &mut Rotation,
    outcome: Option<driver::Outcome>,
) -> Result<Next, AllocError>
    ensures leads { (trusted : List (List ℕ)) (k : Ends) (after : Session) → IfOk result (λ next.
        standing trusted rotation.old.session rotation.old.from rotation.old.into k
        rotation.old.sent (columns_of driver.now rotation.old.session) outcome after
        ≡ next_on trusted rotation.old.session rotation.old.from rotation.old.into k
        rotation.new.sent next after) }
    ensures session { rotation.new.session ≡ rotation.old.session }
    ensures from { rotation.new.from ≡ rotation.old.from }
    ensures into { rotation.new.into ≡ rotation.old.into }
{
    rotations_are_next();
    rotation.next(alloc, driver, outcome)
}

/// Runs the rotation of a table quietly: how many rows were moved, or why nothing was changed.
pub(crate) fn run_rotation<A: Around>(
    alloc: Global,
    env: &mut A,
    driver: &mut Driver,
    number: SessionId,
    old: &Name,
    new: &Name,
) -> Result<Result<u64, Fault>, Stop>
    requires { IsOfVault (A.outside env.old).client.vault.content driver.old }
    ensures leads { (k : Ends) → Advances result
        (rotating_as.beginning driver.old.trusted number old.now new.now k
        (session_of driver.old number))
        (λ rotated. k (rotated_as rotated) (session_of driver.new number)) (A.outside env.old)
        (A.outside env.new) }
    ensures leaves { IfOk result
        (λ _. Leaves number driver.old driver.new (A.outside env.new).client.vault.content) }
{
    let mut rotation = match start(number, old, new) {
        Ok(rotation) => rotation,
        Err(_) => return Err(Stop::OutOfMemory),
    };
    let mut outcome = None;
    'batches: for _ in 0..u64::MAX {
        let batch = match next_of(alloc, driver, &mut rotation, outcome) {
            Ok(Next::Send(batch)) => batch,
            Ok(Next::Finished(count)) => return Ok(Ok(count)),
            Ok(Next::Failed(fault)) => return Ok(Err(fault)),
            Err(_) => return Err(Stop::OutOfMemory),
        };
        outcome = match run(alloc, env, driver, number, false, batch) {
            Ok(outcome) => Some(told_of(outcome)),
            Err(stop) => return Err(stop),
        };
    }
    Err(Stop::from(past_64_bits()))
}

/// Rotates a table, and prints what that came to.
pub fn rotate<A: Around>(
    alloc: Global,
    env: &mut A,
    driver: &mut Driver,
    number: SessionId,
    old: &Name,
    new: &Name,
) -> Result<(), Stop>
    requires { IsOfVault (A.outside env.old).client.vault.content driver.old }
    ensures leads { (k : Session → Talk) → Advances result
        (rotating_as.rotates driver.old.trusted number old.now new.now
        (session_of driver.old number) k)
        (λ _. k (session_of driver.new number)) (A.outside env.old) (A.outside env.new) }
    ensures leaves { IfOk result
        (λ _. Leaves number driver.old driver.new (A.outside env.new).client.vault.content) }
{
    match run_rotation(alloc, env, driver, number, old, new) {
        Ok(rotated) => print(alloc, env, rotated_as(rotated)),
        Err(stop) => Err(stop),
    }
}
