//! Requests with the replies that are given to them.

ghost use Rattle.std.specs.Prelude.{◌≡◌, IfOk, map};

use ae_base::lists::Seq;
use std::alloc::{AllocError, Global};
use std::marker::Model;
use wire_messages::replies::Reply;
use wire_messages::requests::Request;

/// A request and the replies to it.
pub struct Exchange {
    request: Request<'static>,
    replies: Seq<Reply<'static>>,
}

impl Drop for Exchange {
    fn drop(self) {
        let Exchange {
            request: _,
            replies: _,
        } = self;
    }
}

impl Model for Exchange {
    ghost use Rattle.wire_messages.specs.Exchanges as specs;

    ghost Value = { specs.Exchange };

    ghost view = { λ e. record { request = e.request; replies = e.replies } };
}

impl Exchange {
    /// Own copies of a request and of the replies to it.
    pub fn copied(
        alloc: Global,
        request: &Request<'_>,
        replies: &[Reply<'_>],
    ) -> Result<Exchange, AllocError>
        ensures { IfOk result
            (λ exchange. exchange ≡ record { request = request.now; replies = replies.now }) }
    {
        let request = request.to_own(alloc)?;
        Ok(Exchange {
            request,
            replies: own_replies(alloc, replies)?,
        })
    }

    /// The request.
    pub fn request(&self) -> &Request<'static>
        ensures { result.now ≡ self.now.request }
    {
        &self.request
    }

    /// The replies.
    pub fn replies(&self) -> &[Reply<'static>]
        ensures { result.now ≡ self.now.replies }
    {
        self.replies.as_slice()
    }
}

fn own_replies(alloc: Global, replies: &[Reply<'_>]) -> Result<Seq<Reply<'static>>, AllocError>
    ensures { IfOk result (λ copies. copies ≡ replies.now) }
{
    let mut copies = Seq::new(alloc);
    for reply in replies {
        copies.push(reply.to_own(alloc)?)?;
    }
    Ok(copies)
}
