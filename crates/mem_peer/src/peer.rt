//! The peer: listed answers, and a record of requests and answers.

ghost use Rattle.std.specs.Prelude.{◌≡◌, ◌≤◌, ◌∷◌, ◌++◌, ◌↔◌, [], IfOk, IsTrue, MatchResult, Some, None, length};
ghost use Rattle.wire_messages.specs.Exchanges.{HasKinds};
ghost use Rattle.mem_peer.specs.MemPeers.{MemAsks, NextSuits, syntax_refusal};

use crate::exchanges::Exchange;
use crate::kinds::suits;
use ae_base::faults::SqlFault;
use ae_base::lists::Seq;
use server_core::peers::Peer;
use std::alloc::{AllocError, Global};
use std::collections::VecDeque;
use std::marker::Model;
use wire_messages::replies::Reply;
use wire_messages::requests::Request;

/// A peer in memory, which gives listed answers in order, and records requests and answers.
pub struct MemPeer {
    answers: VecDeque<Seq<Reply<'static>>>,
    exchanges: Vec<Exchange>,
}

impl Drop for MemPeer {
    fn drop(self) {
        let MemPeer {
            answers: _,
            exchanges: _,
        } = self;
    }
}

impl Model for MemPeer {
    ghost use Rattle.mem_peer.specs.MemPeers.{MemPeerState};

    ghost Value = { MemPeerState };

    ghost view = { λ p. record { answers = p.answers.items; exchanges = p.exchanges.items } };
}

impl MemPeer {
    /// A peer that was asked nothing, of some answers. It takes no memory.
    pub fn new(alloc: Global, answers: Vec<Seq<Reply<'static>>>) -> MemPeer
        ensures { result ≡ record { answers = answers.entry.items; exchanges = [] } }
    {
        MemPeer {
            answers: VecDeque::from(answers),
            exchanges: Vec::new(alloc),
        }
    }

    /// How many answers are left.
    pub fn left(&self) -> usize
        ensures { result ≡ length self.now.answers }
    {
        self.answers.len()
    }

    /// All that was asked and answered.
    pub fn exchanges(&self) -> &[Exchange]
        ensures { result.now ≡ self.now.exchanges }
    {
        self.exchanges.as_slice()
    }

    /// Whether there is a next answer, of the request's kinds.
    fn next_suits(&self, request: &Request<'_>) -> bool
        ensures { IsTrue result ↔ NextSuits request.now self.now.answers }
    {
        match self.answers.front() {
            Some(next) => suits(request, next.as_slice()),
            None => false,
        }
    }

    /// Gives the next answer, and keeps it with the request.
    fn give(
        &mut self,
        alloc: Global,
        request: &Request<'_>,
    ) -> Result<Seq<Reply<'static>>, AllocError>
        requires { 1 ≤ length self.old.answers }
        ensures { MatchResult result
            (λ replies. (self.old.answers ≡ replies ∷ self.new.answers)
            × (self.new.exchanges
            ≡ self.old.exchanges ++ record { request = request.now; replies = replies } ∷ []))
            (λ _. self.new ≡ self.old) }
    {
        let exchange = Exchange::copied(alloc, request, self.answers[0].as_slice())?;
        self.exchanges.push(exchange)?;
        match self.answers.pop_front() {
            Some(replies) => Ok(replies),
            None => unreachable!(),
        }
    }

    /// Refuses a request, and keeps that.
    fn refuse(
        &mut self,
        alloc: Global,
        request: &Request<'_>,
    ) -> Result<Seq<Reply<'static>>, AllocError>
        ensures { MatchResult result
            (λ replies. (replies ≡ syntax_refusal) × (self.new ≡ record self.old {
              exchanges =
                  self.old.exchanges ++ record { request = request.now; replies = replies } ∷ [];
            }))
            (λ _. self.new ≡ self.old) }
    {
        let replies = refusal(alloc)?;
        let exchange = Exchange::copied(alloc, request, replies.as_slice())?;
        self.exchanges.push(exchange)?;
        Ok(replies)
    }
}

fn refusal(alloc: Global) -> Result<Seq<Reply<'static>>, AllocError>
    ensures { IfOk result (λ replies. replies ≡ syntax_refusal) }
{
    let mut replies = Seq::new(alloc);
    replies.push(Reply::Refused(SqlFault::Syntax))?;
    Ok(replies)
}

impl Peer for MemPeer {
    ghost log = { λ p. Some p.exchanges };

    ghost state = { λ _. None };

    ghost names = { λ _. [] };

    fn ask(
        &mut self,
        alloc: Global,
        request: &Request<'_>,
    ) -> Result<Seq<Reply<'static>>, AllocError>
        ensures answer { IfOk result (λ replies. HasKinds request.now replies) }
        ensures asked { MemAsks request.now result self.old self.new }
    {
        if self.next_suits(request) {
            self.give(alloc, request)
        } else {
            self.refuse(alloc, request)
        }
    }
}
