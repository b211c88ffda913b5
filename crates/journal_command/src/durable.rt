//! A server whose changes are kept in a journal.

ghost use Rattle.recording_laws.specs.Recorded as records;
ghost use Rattle.std.specs.Prelude.{◌≡◌, ◌||◌, None, false, map, option_to_list, IfOk, IfSome, OnOk};
ghost use Rattle.journal_core.specs.Appends.{CountsAppended, IsMounted};
ghost use Rattle.journal_core.specs.Records.{IsRecord};
ghost use Rattle.recording_laws.specs.Recorded.{nothing_held};
ghost use Rattle.serve_command.specs.Requests.{CountsAnswer};
ghost use Rattle.journal_command.specs.Durable.{AppendsEntry, IsReadOf, IsServed, IsStatementOf, PutsBy};
ghost use Rattle.journal_command.specs.Keeping.{IsHolding, frames_of};
ghost use Rattle.wire_encoding.specs.Packing.{packed};
ghost use Rattle.journal_command.specs.Stopping.{CountsStop, faults, outside};

use crate::endings::Stop;
use crate::keepers::Keeper;
use crate::replies::is_done;
use ae_base::blobs::Blob;
use ae_base::frames::FrameVersion;
use ae_base::lists::Seq;
use ae_base::sessions::SessionId;
use ae_edge::sinks::Sink;
use ae_edge::streams::WriteError;
use disk::disks::Disk;
use journal_core::journal::{Appended, Journal};
use serve_command::answering::Answering;
use serve_command::answers::put_replies;
use server_core::server::Server;
use statement_analysis::sorts::Sort;
use std::alloc::{AllocError, Global};
use std::marker::Model;
use wire_messages::replies::Reply;
use wire_messages::requests::Request;
use wire_payloads::versioned::Versioned;

/// A server, what is held of its sessions' transactions, and the journal.
pub(crate) struct Durable {
    server: Server,
    keeper: Keeper,
    journal: Journal,
}

impl Drop for Durable {
    fn drop(self) {
        let Durable {
            server: _,
            keeper: _,
            journal: _,
        } = self;
    }
}

impl Model for Durable {
    ghost use Rattle.journal_command.specs.Durable.{DurableState};

    ghost Value = { DurableState };

    ghost view = { λ d. record { state = d.server; held = d.keeper; journal = d.journal } };
}

/// The replies to a request, and the record that it completes, if it does.
#[derive(Drop)]
struct Answer {
    replies: Seq<Reply<'static>>,
    entry: Option<Blob>,
}

impl Durable {
    /// Nothing is held yet.
    pub(crate) fn new(
        alloc: Global,
        server: Server,
        journal: Journal,
    ) -> Result<Durable, AllocError>
        ensures { IfOk result (λ durable. durable
            ≡ record { state = server; held = map frames_of nothing_held; journal = journal }) }
    {
        Ok(Durable {
            server,
            keeper: Keeper::new(alloc)?,
            journal,
        })
    }

    /// Whether what is held of a session stays, after a request with these replies.
    fn goes_on(&self, session: SessionId, replies: &[Reply<'_>]) -> bool
        ensures { result
            ≡ (records.is_done replies.now || records.has_transaction self.now.state session) }
    {
        is_done(replies) || self.server.has_transaction(session)
    }

    /// Serves a request that changes nothing.
    fn serve_read(
        &mut self,
        alloc: Global,
        session: SessionId,
        asked: &Versioned<Request<'_>>,
    ) -> Result<Answer, AllocError>
        requires asked { IsReadOf session asked.now.message }
        requires holds { IsHolding self.old.held }
        ensures served { IfOk result (λ answer. IsServed answer.replies answer.entry asked.now
            self.old self.new) }
        ensures none { IfOk result (λ answer. answer.entry ≡ None) }
        ensures holds { OnOk result (IsHolding self.new.held) }
        ensures journal { self.new.journal ≡ self.old.journal }
    {
        let replies = self.server.serve(alloc, &asked.message)?;
        let stays = self.goes_on(session, replies.as_slice());
        self.keeper.stay(alloc, session, stays);
        Ok(Answer {
            replies,
            entry: None,
        })
    }

    /// Serves a request that may change something. Room for its record is made before.
    fn serve_change(
        &mut self,
        alloc: Global,
        session: SessionId,
        asked: &Versioned<Request<'_>>,
        sort: Sort,
    ) -> Result<Answer, AllocError>
        requires asked { IsStatementOf session sort asked.now.message }
        requires holds { IsHolding self.old.held }
        ensures served { IfOk result (λ answer. IsServed answer.replies answer.entry asked.now
            self.old self.new) }
        ensures proper { IfOk result (λ answer. IfSome answer.entry IsRecord) }
        ensures holds { OnOk result (IsHolding self.new.held) }
        ensures journal { self.new.journal ≡ self.old.journal }
    {
        let room = self.keeper.reserve(alloc, session, asked)?;
        let replies = self.server.serve(alloc, &asked.message)?;
        if is_done(replies.as_slice()) {
            let entry = self.keeper.keep(alloc, session, room, sort);
            Ok(Answer { replies, entry })
        } else {
            let stays = self.server.has_transaction(session);
            self.keeper.leave(alloc, session, &room, stays);
            Ok(Answer {
                replies,
                entry: None,
            })
        }
    }

    /// Serves a request, and holds or hands out what is to be recorded of it.
    fn serve(&mut self, alloc: Global, asked: &Versioned<Request<'_>>) -> Result<Answer, AllocError>
        requires { IsHolding self.old.held }
        ensures served { IfOk result (λ answer. IsServed answer.replies answer.entry asked.now
            self.old self.new) }
        ensures proper { IfOk result (λ answer. IfSome answer.entry IsRecord) }
        ensures holds { OnOk result (IsHolding self.new.held) }
        ensures journal { self.new.journal ≡ self.old.journal }
    {
        match &asked.message {
            Request::Describe { .. } => Ok(Answer {
                replies: self.server.serve(alloc, &asked.message)?,
                entry: None,
            }),
            Request::Execute { session, text, .. } => match self.server.sort_of(alloc, text)? {
                Sort::Reads | Sort::NoStatement => self.serve_read(alloc, *session, asked),
                sort => self.serve_change(alloc, *session, asked, sort),
            },
        }
    }

    /// Adds a record to the journal, where there is one.
    fn append<D: Disk>(&mut self, alloc: Global, entry: &Option<Blob>, disk: &mut D) -> Appended
        requires ready { self.old.journal.failed ≡ false }
        requires mounted { IfSome (D.seen disk.old).content (IsMounted self.old.journal.gate) }
        requires proper { IfSome entry.now IsRecord }
        ensures appended { AppendsEntry result self.old.journal.gate self.new.journal.gate
            (option_to_list entry.now) (D.seen disk.old).content (D.seen disk.new).content }
        ensures kept { self.new ≡ record self.old { journal = self.new.journal } }
        ensures ready { result ≡ Appended.Done → self.new.journal.failed ≡ false }
        ensures mounted { result ≡ Appended.Done
            → IfSome (D.seen disk.new).content (IsMounted self.new.journal.gate) }
        ensures same { (D.seen disk.new).names ≡ (D.seen disk.old).names }
        ensures counts { CountsAppended result (D.seen disk.old).faults (D.seen disk.new).faults }
    {
        match entry {
            Some(entry) => self.journal.append(alloc, disk, entry.as_slice()),
            None => Appended::Done,
        }
    }

    /// Puts the replies of an answer in a version, once its record is on the disk.
    fn append_and_put<W: Sink, D: Disk>(
        &mut self,
        alloc: Global,
        version: FrameVersion,
        answer: &Answer,
        out: &mut W,
        disk: &mut D,
    ) -> Result<(), Stop>
        requires ready { self.old.journal.failed ≡ false }
        requires mounted { IfSome (D.seen disk.old).content (IsMounted self.old.journal.gate) }
        requires proper { IfSome answer.now.entry IsRecord }
        ensures put { PutsBy result (packed version answer.now.replies)
            (option_to_list answer.now.entry)
            (outside self.old.journal.gate (D.seen disk.old).content (W.seen out.old).content)
            (outside self.new.journal.gate (D.seen disk.new).content (W.seen out.new).content) }
        ensures kept { self.new ≡ record self.old { journal = self.new.journal } }
        ensures ready { OnOk result (self.new.journal.failed ≡ false) }
        ensures mounted { OnOk result
            (IfSome (D.seen disk.new).content (IsMounted self.new.journal.gate)) }
        ensures same { (D.seen disk.new).names ≡ (D.seen disk.old).names }
        ensures counts { CountsAnswer CountsStop result
            (faults (D.seen disk.old).faults (W.seen out.old).faults)
            (faults (D.seen disk.new).faults (W.seen out.new).faults) }
    {
        match self.append(alloc, &answer.entry, disk) {
            Appended::Done => match put_replies(alloc, version, answer.replies.as_slice(), out) {
                Ok(()) => Ok(()),
                Err(WriteError::Failed) => Err(Stop::WriteFault),
                Err(WriteError::OutOfMemory) => Err(Stop::OutOfMemory),
            },
            Appended::DiskFault => Err(Stop::DiskFault),
            Appended::JournalFull => Err(Stop::JournalFull),
            Appended::OutOfMemory => Err(Stop::OutOfMemory),
        }
    }
}

impl<D: Disk> Answering<D> for Durable {
    ghost use Rattle.journal_command.specs.Durable.{AnswersRequest, DurableView, IsSound, StopsRequest};
    ghost use Rattle.journal_command.specs.Stopping.{CountsStop, Faults, faults};

    type Stop = Stop;

    ghost View = { DurableView };

    ghost seen = { λ durable disk out.
        record { durable = durable; disk = (D.seen disk).content; out = out } };

    ghost is_ready = { λ view. IsSound view.durable view.disk };

    ghost answers = { AnswersRequest };

    ghost stops = { StopsRequest };

    ghost Faults = { Faults };

    ghost failed = { λ disk out. faults (D.seen disk).faults out };

    ghost counts = { CountsStop };

    ghost names = { λ disk. (D.seen disk).names };

    /// The record is on the disk before a byte of the replies is put.
    fn answer<W: Sink>(
        &mut self,
        alloc: Global,
        asked: &Versioned<Request<'_>>,
        out: &mut W,
        disk: &mut D,
    ) -> Result<(), Stop> {
        match self.serve(alloc, asked) {
            Ok(answer) => self.append_and_put(alloc, asked.version, &answer, out, disk),
            Err(_) => Err(Stop::OutOfMemory),
        }
    }
}
