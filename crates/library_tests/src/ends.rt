//! Both ends in one program.

ghost use Rattle.std.specs.Prelude.{◌≡◌, Some};
ghost use Rattle.driver.specs.Clients.{IsOfVault};

use ae_base::batches::Batch;
use ae_base::lists::Seq;
use ae_base::sessions::SessionId;
use ae_edge::memory::entropy::MemEntropy;
use ae_edge::memory::vault::MemVault;
use ae_edge::vaults::Vault;
use conversation::answers::{DescribeAnswer, ExecuteAnswer, RowAnswer};
use conversation::faults::Halt;
use conversation::outcomes;
use driver::{Driver, Fault, Outcome};
use server_core::server::Server;
use std::alloc::{AllocError, Global};
use std::marker::Model;
use wire_messages::replies::Reply;

/// Both ends, with the client's master keys and its random bytes.
pub struct Ends {
    driver: Driver,
    vault: MemVault,
    entropy: MemEntropy,
    server: Server,
}

impl Drop for Ends {
    fn drop(self) {
        let Ends {
            driver: _,
            vault: _,
            entropy: _,
            server: _,
        } = self;
    }
}

impl Model for Ends {
    ghost use Rattle.std.specs.Prelude.{Some};
    ghost use Rattle.driver.specs.Clients.{IsOfVault};

    ghost Value = { Unit {0} };

    ghost view = { λ _. tt };

    ghost invariant = { λ e. IsOfVault (Some e.vault.keys) e.driver };
}

/// Has the server describe a batch, or says why it is refused.
fn describe(
    alloc: Global,
    driver: &mut Driver,
    server: &mut Server,
    session: SessionId,
    batch: Batch,
) -> Result<Option<Fault>, Halt>
    ensures { driver.new.kept ≡ driver.old.kept }
{
    let request = match driver.begin(alloc, session, batch)? {
        Ok(request) => request,
        Err(fault) => return Ok(Some(Fault::OfDriver(fault))),
    };
    match server.serve(alloc, &request)?.as_slice() {
        [reply] => match driver.described(alloc, session, reply)? {
            DescribeAnswer::Ready(_) => Ok(None),
            DescribeAnswer::Refused(fault) => Ok(Some(Fault::OfServer(fault))),
            DescribeAnswer::Failed(fault) => Ok(Some(Fault::OfDriver(fault))),
        },
        _ => Err(Halt::BadReply),
    }
}

/// What a batch without rows came to.
fn ended(outcome: outcomes::Outcome) -> Result<Outcome, Halt> {
    match outcome {
        outcomes::Outcome::Changed(count) => Ok(Outcome::Changed(count)),
        outcomes::Outcome::Defined => Ok(Outcome::Defined),
        outcomes::Outcome::Refused(fault) => Ok(Outcome::Refused(Fault::OfServer(fault))),
        _ => Err(Halt::BadReply),
    }
}

/// Hands the driver the replies with the rows of an answer: all rows, or why one isn't opened.
fn read_rows(
    alloc: Global,
    driver: &mut Driver,
    session: SessionId,
    replies: &[Reply<'static>],
) -> Result<Outcome, Halt>
    ensures { driver.new.kept ≡ driver.old.kept }
{
    let mut rows = Seq::new(alloc);
    let mut fault = None;
    for reply in replies {
        match driver.next_row(alloc, session, reply)? {
            RowAnswer::Row(row) => rows.push(row)?,
            RowAnswer::Failed(why) => fault = Some(why),
            RowAnswer::Rows(_) | RowAnswer::Skipped | RowAnswer::Over => {}
        }
    }
    match fault {
        Some(fault) => Ok(Outcome::Refused(Fault::OfDriver(fault))),
        None => Ok(Outcome::Rows(rows)),
    }
}

/// Hands the driver all replies to an execution, and answers what the batch came to.
fn read(
    alloc: Global,
    driver: &mut Driver,
    vault: &mut MemVault,
    session: SessionId,
    replies: &[Reply<'static>],
) -> Result<Outcome, Halt>
    requires { IsOfVault (Some vault.old.keys) driver.old }
    ensures { IsOfVault (Some vault.new.keys) driver.new }
{
    let [first, rest @ ..] = replies else {
        return Err(Halt::BadReply);
    };
    match driver.answered(alloc, session, first, vault)? {
        ExecuteAnswer::Shows(_) => read_rows(alloc, driver, session, rest),
        ExecuteAnswer::Skips(fault) => {
            drop(read_rows(alloc, driver, session, rest)?);
            Ok(Outcome::Refused(Fault::OfDriver(fault)))
        }
        ExecuteAnswer::Says(outcome) => ended(outcome),
    }
}

impl Ends {
    /// A driver that keeps no key, and a server in which nothing is defined.
    pub fn new(alloc: Global, vault: MemVault, entropy: MemEntropy) -> Result<Ends, AllocError> {
        Ok(Ends {
            driver: Driver::new(alloc)?,
            vault,
            entropy,
            server: Server::new(alloc),
        })
    }

    /// The driver.
    pub fn driver(&self) -> &Driver {
        &self.driver
    }

    /// Runs a batch in a session: what it came to.
    pub fn run(
        &mut self,
        alloc: Global,
        session: SessionId,
        batch: Batch,
    ) -> Result<Outcome, Halt> {
        let (driver, vault) = (&mut self.driver, &mut self.vault);
        if let Some(fault) = describe(alloc, driver, &mut self.server, session, batch)? {
            return Ok(Outcome::Refused(fault));
        }
        match driver.execute(alloc, session, vault, &mut self.entropy)? {
            Ok(request) => {
                let replies = self.server.serve(alloc, &request)?;
                read(alloc, driver, vault, session, replies.as_slice())
            }
            Err(fault) => Ok(Outcome::Refused(Fault::OfDriver(fault))),
        }
    }
}
