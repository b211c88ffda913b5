//! The driver: its sessions, each by its number.

ghost use Rattle.std.specs.Prelude.{◌≡◌, ◌++◌, ◌∷◌, [], IfOk, OnOk, OnErr, MatchOption, Option, Some, None, false};
ghost use Rattle.conversation.specs.declared.sessions.Session.{Session};
ghost use Rattle.ae_edge.specs.Vaults.{KeyMap};
ghost use Rattle.key_store.specs.Stores.{IsOf};
ghost use Rattle.conversation.specs.Devices.{Devices};
ghost use Rattle.conversation.specs.Sessions as held;
ghost use Rattle.conversation.specs.Sessions.{nobody};
ghost use Rattle.driver.specs.Calls.{Answers, Comes, Executes, IsOnlyAt, IsSent, Takes, is_pending, opens_keys};
ghost use Rattle.driver.specs.Accepted.{accepted_answered, accepted_begun, IsAcceptedOnlyAt};
ghost use Rattle.driver.specs.Accepted as accepted;
ghost use Rattle.driver.specs.Clients.{session_of, columns_of};

use crate::accepting::{Columns, forget_if_begun, none_accepted};
use crate::executing::execute;
use crate::replies::{answered, row_answered};
use crate::starting::{begin, described};
use ae_base::batches::Batch;
use ae_base::keys::KeyPath;
use ae_base::lists::Seq;
use ae_base::sessions::SessionId;
use ae_edge::entropies::Entropy;
use ae_edge::vaults::Vault;
use conversation::answers::{DescribeAnswer, ExecuteAnswer, RowAnswer};
use conversation::faults::{DriverFault, Halt};
use conversation::sessions::Session;
use key_store::KeyStore;
use std::alloc::{AllocError, Global};
use std::marker::Model;
use std::mem;
use wire_messages::replies::Reply;
use wire_messages::requests::Request;

/// The client's end of 64 sessions, used with one vault.
pub struct Driver {
    sessions: Vec<Session>,
    accepted: Vec<Option<Columns>>,
    trusted: Seq<KeyPath>,
    store: KeyStore,
}

impl Drop for Driver {
    fn drop(self) {
        let Driver {
            sessions: _,
            accepted: _,
            trusted: _,
            store: _,
        } = self;
    }
}

impl Model for Driver {
    ghost use Rattle.std.specs.Prelude.{◌≡◌, length};
    ghost use Rattle.driver.specs.Clients.{Client};

    ghost Value = { Client };

    ghost view = { λ d. record {
      sessions = d.sessions.items;
      columns = d.accepted.items;
      trusted = d.trusted;
      kept = d.store;
    } };

    ghost invariant = { λ d. (length d.sessions.items ≡ 64) × (length d.accepted.items ≡ 64) };
}

impl Driver {
    /// A driver whose 64 sessions hold nothing, and which keeps no key.
    pub fn new(alloc: Global) -> Result<Driver, AllocError>
        ensures idle { IfOk result (λ driver. driver.sessions ≡ nobody) }
        ensures columns { IfOk result (λ driver. driver.columns ≡ accepted.none_accepted) }
        ensures trusted { IfOk result (λ driver. driver.trusted ≡ []) }
        ensures of_vault { IfOk result (λ driver. (keys : Option KeyMap) → IsOf keys driver.kept) }
    {
        Ok(Driver {
            sessions: idle_sessions(alloc)?,
            accepted: none_accepted(alloc)?,
            trusted: Seq::new(alloc),
            store: KeyStore::new(alloc)?,
        })
    }

    /// Trusts a path from here on, in all sessions. Without memory the driver is as before.
    pub fn trust(&mut self, path: KeyPath) -> Result<(), AllocError>
        ensures ok { OnOk result (self.new.trusted ≡ self.old.trusted ++ path ∷ []) }
        ensures err { OnErr result (self.new.trusted ≡ self.old.trusted) }
        ensures sessions { self.new.sessions ≡ self.old.sessions }
        ensures columns { self.new.columns ≡ self.old.columns }
        ensures kept { self.new.kept ≡ self.old.kept }
    {
        self.trusted.push(path)
    }

    /// What a session holds.
    pub fn session(&self, number: SessionId) -> &Session
        ensures { result.now ≡ session_of self.now number }
    {
        &self.sessions[number.number() as usize - 1]
    }

    /// The columns that a session accepted since its last batch was begun, where there were any,
    /// also once that answer has ended.
    pub fn columns_of(&self, number: SessionId) -> Option<&Columns>
        ensures { MatchOption result (columns_of self.now number ≡ None)
            (λ columns. columns_of self.now number ≡ Some columns.now) }
    {
        match &self.accepted[number.number() as usize - 1] {
            Some(columns) => Some(columns),
            None => None,
        }
    }

    /// Begins a batch in a session: the request to describe it. Refused where the session has a
    /// batch, where a value doesn't fit its declared type, by the first such parameter, and where
    /// the text has more than 65,536 bytes, in this order. A refusal leaves the session as it was,
    /// as it is left out of memory.
    pub fn begin<'r>(
        &mut self,
        alloc: Global,
        number: SessionId,
        batch: Batch,
    ) -> Result<Result<Request<'r>, DriverFault>, AllocError>
        ensures begun { Comes result (held.begin (session_of self.old number) number batch)
            (session_of self.old number) (session_of self.new number) }
        ensures others { IsOnlyAt number self.old.sessions self.new.sessions }
        ensures columns { columns_of self.new number
            ≡ accepted_begun result (columns_of self.old number) }
        ensures other_columns { IsAcceptedOnlyAt number self.old.columns self.new.columns }
        ensures trusted { self.new.trusted ≡ self.old.trusted }
        ensures kept { self.new.kept ≡ self.old.kept }
    {
        let place = number.number() as usize - 1;
        let slot = &mut self.sessions[place];
        let turn = begin(alloc, mem::replace(slot, Session::Idle), number, batch);
        put(slot, turn.after);
        forget_if_begun(&mut self.accepted[place], &turn.answer);
        turn.answer
    }

    /// Takes the reply to a session's request to describe a batch. A reply that isn't awaited
    /// leaves the driver as it was, as it is left out of memory.
    pub fn described(
        &mut self,
        alloc: Global,
        number: SessionId,
        reply: &Reply<'_>,
    ) -> Result<DescribeAnswer, Halt>
        ensures described { Takes result (held.described (session_of self.old number) reply.now)
            (session_of self.old number) (session_of self.new number) }
        ensures others { IsOnlyAt number self.old.sessions self.new.sessions }
        ensures columns { self.new.columns ≡ self.old.columns }
        ensures trusted { self.new.trusted ≡ self.old.trusted }
        ensures kept { self.new.kept ≡ self.old.kept }
    {
        let slot = &mut self.sessions[number.number() as usize - 1];
        let turn = described(alloc, mem::replace(slot, Session::Idle), reply);
        put(slot, turn.after);
        turn.answer
    }

    /// Executes the described batch of a session: the request to do so. Refused where none is
    /// described, which leaves the driver as it was, and where a key of a parameter isn't opened,
    /// which ends the batch. A vault or a source of random bytes that fails, and out of memory,
    /// leave the session as it was; keys that were opened stay kept, and bytes that were drawn stay
    /// drawn.
    pub fn execute<'r, V: Vault, E: Entropy>(
        &mut self,
        alloc: Global,
        number: SessionId,
        vault: &mut V,
        entropy: &mut E,
    ) -> Result<Result<Request<'r>, DriverFault>, Halt>
        requires { IsOf (V.seen vault.old).content self.old.kept }
        ensures executed { Executes self.old.trusted result number (session_of self.old number)
            (session_of self.new number)
            (record { entropy = E.seen entropy.old; vault = V.seen vault.old })
            (record { entropy = E.seen entropy.new; vault = V.seen vault.new }) }
        ensures sent { IsSent result (session_of self.new number) }
        ensures others { IsOnlyAt number self.old.sessions self.new.sessions }
        ensures columns { self.new.columns ≡ self.old.columns }
        ensures trusted { self.new.trusted ≡ self.old.trusted }
        ensures kept { is_pending (session_of self.old number) ≡ false
            → self.new.kept ≡ self.old.kept }
        ensures of_vault { IsOf (V.seen vault.new).content self.new.kept }
    {
        let slot = &mut self.sessions[number.number() as usize - 1];
        let session = mem::replace(slot, Session::Idle);
        let turn = execute(
            alloc,
            &mut self.store,
            vault,
            entropy,
            self.trusted.as_slice(),
            session,
            number,
        );
        put(slot, turn.after);
        turn.answer
    }

    /// Takes the first reply to a session's request to execute a batch. A reply that isn't awaited
    /// leaves the driver as it was. A vault that fails and out of memory leave the session as it
    /// was. What is kept of keys changes only where columns are shown, whose keys are opened.
    pub fn answered<V: Vault>(
        &mut self,
        alloc: Global,
        number: SessionId,
        reply: &Reply<'_>,
        vault: &mut V,
    ) -> Result<ExecuteAnswer, Halt>
        requires { IsOf (V.seen vault.old).content self.old.kept }
        ensures answered { (beside : Devices) → Answers self.old.trusted result
            (held.answered (session_of self.old number) reply.now)
            (session_of self.old number) (session_of self.new number)
            (record beside { vault = V.seen vault.old })
            (record beside { vault = V.seen vault.new }) }
        ensures others { IsOnlyAt number self.old.sessions self.new.sessions }
        ensures columns { columns_of self.new number ≡ accepted_answered result
            (held.answered (session_of self.old number) reply.now) (columns_of self.old number) }
        ensures other_columns { IsAcceptedOnlyAt number self.old.columns self.new.columns }
        ensures trusted { self.new.trusted ≡ self.old.trusted }
        ensures kept { opens_keys (session_of self.old number) reply.now ≡ false
            → self.new.kept ≡ self.old.kept }
        ensures of_vault { IsOf (V.seen vault.new).content self.new.kept }
    {
        let place = number.number() as usize - 1;
        let slot = &mut self.sessions[place];
        let session = mem::replace(slot, Session::Idle);
        let turn = answered(
            alloc,
            &mut self.store,
            vault,
            self.trusted.as_slice(),
            &mut self.accepted[place],
            session,
            reply,
        );
        put(slot, turn.after);
        turn.answer
    }

    /// Takes the next reply to a session that reads or skips rows. A reply that isn't awaited
    /// leaves the driver as it was, as it is left out of memory.
    pub fn next_row(
        &mut self,
        alloc: Global,
        number: SessionId,
        reply: &Reply<'_>,
    ) -> Result<RowAnswer, Halt>
        ensures next_row { Takes result (held.next_row (session_of self.old number) reply.now)
            (session_of self.old number) (session_of self.new number) }
        ensures others { IsOnlyAt number self.old.sessions self.new.sessions }
        ensures columns { self.new.columns ≡ self.old.columns }
        ensures trusted { self.new.trusted ≡ self.old.trusted }
        ensures kept { self.new.kept ≡ self.old.kept }
    {
        let slot = &mut self.sessions[number.number() as usize - 1];
        let turn = row_answered(alloc, mem::replace(slot, Session::Idle), reply);
        put(slot, turn.after);
        turn.answer
    }
}

/// Puts what a session holds, in the place of nothing.
fn put(slot: &mut Session, session: Session)
    ensures { slot.new ≡ session }
{
    drop(mem::replace(slot, session));
}

fn idle() -> Session
    ensures { result ≡ Session.Idle }
{
    Session::Idle
}

fn idle_sessions(alloc: Global) -> Result<Vec<Session>, AllocError>
    ensures { IfOk result (λ sessions. sessions.items ≡ nobody) }
{
    let mut sessions = Vec::with_capacity(alloc, SessionId::MOST as usize)?;
    for _ in 0..SessionId::MOST {
        sessions.push(idle())?;
    }
    Ok(sessions)
}
