//! A peer that other sessions ask too.

ghost use Rattle.std.specs.Prelude.{◌≡◌, ◌≤◌, ◌∷◌, [], Option, None, false, IfOk, MatchResult, drop, length};
ghost use Rattle.ae_edge.specs.Devices.{WhereExposed};
ghost use Rattle.conversation.specs.Paths.{Asked};
ghost use Rattle.script_run.specs.Shares.{AreServed, Wire};
ghost use Rattle.run_command.specs.Queues.{all_placed};
ghost use Rattle.server_core.specs.Beside.{first_of, rest_of};
ghost use Rattle.server_core.specs.Serve.{State};
ghost use Rattle.rotate_among.specs.Beside.{IsBehindSome, told_beside};

use ae_base::frames::FrameVersion;
use ae_base::lists::Seq;
use ae_edge::sinks::Sink;
use ae_edge::streams::WriteError;
use conversation::counts::past_64_bits;
use run_command::peer_connection::{Places, Waiting, join, put_exchange};
use script_run::connection::{Connection, EndFault, Front, LentReply, ReplyFault};
use server_core::peers::Peer;
use std::alloc::{AllocError, Global};
use std::marker::Model;
use std::snapshot::Snapshot;
use wire_messages::replies::Reply;
use wire_messages::requests::Request;

/// A peer that others ask too, as it stands behind this session's last request and some of those
/// that others ask before the next one.
#[derive(Drop)]
pub struct Stand<'d, P: Peer> {
    pub peer: P,
    /// The peer behind this session's last request.
    pub asked: Snapshot<P>,
    /// What others ask before each request.
    pub between: &'d [Seq<Request<'static>>],
    /// The place of what they ask before the next one.
    pub at: usize,
    /// How many of these were asked.
    pub others: usize,
}

/// A peer that was asked so many of what others ask before the next request.
#[derive(Drop)]
pub struct AskedPeer<P: Peer> {
    pub peer: P,
    pub others: usize,
}

impl<'d, P: Peer> Model for Stand<'d, P> {
    ghost use Rattle.std.specs.Prelude.{drop};
    ghost use Rattle.server_core.specs.Beside.{first_of};
    ghost use Rattle.rotate_among.specs.Beside.{IsBehindSome, Standing};

    ghost Value = { Standing };

    ghost view = { λ s. record {
      names = P.names s.peer;
      told = P.state s.asked.value;
      state = P.state s.peer;
      between = drop s.at s.between.now;
      others = s.others;
    } };

    ghost invariant = { λ s. IsBehindSome s.others (first_of (drop s.at s.between.now))
        (P.state s.asked.value) (P.state s.peer) };
}

impl<'d, P: Peer> Stand<'d, P> {
    /// None of them was asked. It takes no memory.
    pub fn new(peer: P, between: &'d [Seq<Request<'static>>]) -> Stand<'d, P>
        ensures { result ≡ record {
          names = P.names peer;
          told = P.state peer;
          state = P.state peer;
          between = between.now;
          others = 0;
        } }
    {
        Stand {
            asked: Snapshot::of(&peer),
            peer,
            between,
            at: 0,
            others: 0,
        }
    }

    /// The peer, which was asked so many of what others ask before the next request.
    pub fn into_peer(self) -> AskedPeer<P>
        ensures names { P.names result.peer ≡ self.entry.names }
        ensures state { P.state result.peer ≡ self.entry.state }
        ensures stands { IsBehindSome result.others (first_of self.entry.between) self.entry.told
            self.entry.state }
    {
        let Stand {
            peer,
            asked: _,
            between: _,
            at: _,
            others,
        } = self;
        AskedPeer { peer, others }
    }

    /// Asks a request behind the rest of the others: the replies to it. Without memory, it wasn't
    /// asked.
    fn ask(
        &mut self,
        alloc: Global,
        request: &Request<'_>,
    ) -> Result<Seq<Reply<'static>>, AllocError>
        ensures same { self.new.names ≡ self.old.names }
        ensures asked { MatchResult result
            (λ replies. WhereExposed (AreServed (Asked request.now replies ∷ []))
            (told_beside self.old) (told_beside self.new))
            (λ _. told_beside self.new ≡ told_beside self.old) }
    {
        let others = others_at(self.between, self.at);
        ask_rest(alloc, &mut self.peer, others, &mut self.others)?;
        let replies = self.peer.ask(alloc, request)?;
        self.asked = Snapshot::of(&self.peer);
        self.at = next_at(self.between, self.at);
        self.others = 0;
        Ok(replies)
    }
}

/// A peer behind a tap, of which others ask some requests before each of this session's; nobody
/// here hears the replies to theirs.
#[derive(Drop)]
pub struct AmongConnection<'a, 'd, T: Sink, P: Peer> {
    pub tap: T,
    pub stand: Stand<'d, P>,
    pub waiting: &'a mut Waiting,
    pub version: FrameVersion,
    /// How many replies were taken.
    pub taken: u64,
    /// The place behind the frames of all answers.
    pub behind: u64,
}

/// What others ask before the next request.
fn others_at<'a>(between: &'a [Seq<Request<'static>>], at: usize) -> &'a [Request<'static>]
    ensures { result.now ≡ first_of (drop at between.now) }
{
    match between.get(at) {
        Some(others) => others.as_slice(),
        None => &[],
    }
}

/// The place of what they ask before the one behind it.
fn next_at(between: &[Seq<Request<'static>>], at: usize) -> usize
    ensures { drop result between.now ≡ rest_of (drop at between.now) }
{
    if at < between.len() { at + 1 } else { at }
}

/// Asks the rest of some requests, of which so many were asked, and lets their replies go. Without
/// memory for one, none behind it is asked.
fn ask_rest<P: Peer>(
    alloc: Global,
    peer: &mut P,
    requests: &[Request<'static>],
    asked: &mut usize,
) -> Result<(), AllocError>
    ensures same { P.names peer.new ≡ P.names peer.old }
    ensures state { (told : Option State)
        → IsBehindSome asked.old requests.now told (P.state peer.old)
        → IsBehindSome asked.new requests.now told (P.state peer.new) }
    ensures whole { IfOk result (λ _. length requests.now ≤ asked.new) }
{
    'rest: while let Some(request) = requests.get(*asked) {
        let _ = peer.ask(alloc, request)?;
        *asked += 1;
    }
    Ok(())
}

impl<T: Sink, P: Peer> Connection for AmongConnection<'_, '_, T, P> {
    ghost wire = { λ l. record {
      tap = T.seen l.tap;
      closed = false;
      log = None;
      state = told_beside l.stand;
      names = l.stand.names ∷ [];
      version = l.version;
      waiting = all_placed l.waiting.now.replies.items;
      behind = l.behind;
      stream = None;
      taken = l.taken;
    } };

    ghost is_ended = { λ l. Unit {0} };

    fn ask(&mut self, alloc: Global, request: &Request<'_>) -> Result<(), WriteError> {
        let Ok(replies) = self.stand.ask(alloc, request) else {
            return Err(WriteError::OutOfMemory);
        };
        let mut places = Places {
            noted: Vec::new(alloc),
            behind: self.behind,
        };
        let answer = replies.as_slice();
        put_exchange(
            alloc,
            &mut self.tap,
            self.version,
            request,
            answer,
            &mut places,
        )?;
        self.behind = places.behind;
        match join(&mut self.waiting.replies, replies, places.noted.as_slice()) {
            Ok(()) => Ok(()),
            Err(_) => Err(WriteError::OutOfMemory),
        }
    }

    fn fetch(&mut self, alloc: Global) -> Result<(), ReplyFault> {
        if self.waiting.replies.is_empty() {
            Err(ReplyFault::BadReply)
        } else {
            Ok(())
        }
    }

    fn front(&self, alloc: Global) -> Result<Front<'_>, AllocError> {
        let Some(first) = self.waiting.replies.front() else {
            unreachable!()
        };
        if self.taken < u64::MAX {
            Ok(Front {
                reply: LentReply::Kept(&first.reply),
                used: 0,
            })
        } else {
            Err(past_64_bits())
        }
    }

    fn place(&self) -> u64 {
        match self.waiting.replies.front() {
            Some(first) => first.at,
            None => self.behind,
        }
    }

    fn take(&mut self, used: usize) {
        self.taken += 1;
        let _ = self.waiting.replies.pop_front();
    }

    fn finish(&mut self, alloc: Global) -> Result<(), EndFault> {
        if self.waiting.replies.is_empty() {
            Ok(())
        } else {
            Err(EndFault::Replies(ReplyFault::BadReply))
        }
    }
}
