//! The replies to a request over a state, and the state after it.

ghost use Rattle.std.specs.Prelude.{IfOk};
ghost use Rattle.wire_messages.specs.Exchanges.{HasKinds};
ghost use Rattle.statement_analysis.specs.Describing.{describe};
ghost use Rattle.server_core.specs.Calls.{AreDescribeKinds, Serves, ServesOrFails};
ghost use Rattle.server_core.specs.Serve as spec;
ghost use Rattle.server_core.specs.States.{IsState};

use crate::executing::execute;
use crate::replies::{one_reply, one_reply_in};
use ae_base::cells::Cell;
use ae_base::lists::Seq;
use ae_base::refusals::Refusal;
use ae_base::sessions::SessionId;
use statement_analysis::describing::describe;
use std::alloc::{AllocError, Global};
use transactions::stores::Store;
use wire_messages::params::DeclarationParts;
use wire_messages::replies::Reply;
use wire_messages::requests::Request;
use wire_parts::texts::StatementPart;

/// Serves a request: the replies to it, and the state after it. Out of memory, the state is as
/// before: a COMMIT that is refused ends its transaction, so room for a refusal is taken first.
#[tactic(auto, using(crate::proofs::ReplyKinds::refusal_kinds))]
pub fn serve(
    alloc: Global,
    store: &mut Store<Cell>,
    request: &Request<'_>,
) -> Result<Seq<Reply<'static>>, AllocError>
    requires { IsState store.old }
    ensures served { Serves result request.now store.old store.new }
    ensures state { IsState store.new }
    ensures kinds { IfOk result (λ replies. HasKinds request.now replies) }
{
    let room = Vec::with_capacity(alloc, 1)?;
    match answered(alloc, store, request) {
        Ok(replies) => {
            drop(room);
            Ok(replies)
        }
        Err(Refusal::Fault(fault)) => Ok(one_reply_in(room, Reply::Refused(fault))),
        Err(Refusal::OutOfMemory) => {
            drop(room);
            Err(AllocError)
        }
    }
}

/// The replies to a request, or the fault for which it is refused.
fn answered(
    alloc: Global,
    store: &mut Store<Cell>,
    request: &Request<'_>,
) -> Result<Seq<Reply<'static>>, Refusal>
    requires { IsState store.old }
    ensures served { ServesOrFails result (spec.serve store.old request.now) store.old store.new }
    ensures state { IsState store.new }
    ensures kinds { IfOk result (λ replies. HasKinds request.now replies) }
{
    match request {
        Request::Describe {
            session,
            text,
            declarations,
        } => described(alloc, store, *session, text, declarations),
        Request::Execute {
            session,
            version,
            text,
            params,
        } => execute(alloc, store, *session, *version, text, params.as_slice()),
    }
}

/// Answers a request to describe.
#[tactic(auto, using(crate::proofs::ReplyKinds::described_kinds, crate::proofs::Readiness::seen_catalog))]
fn described(
    alloc: Global,
    store: &Store<Cell>,
    session: SessionId,
    text: &StatementPart<'_>,
    declarations: &DeclarationParts<'_>,
) -> Result<Seq<Reply<'static>>, Refusal>
    requires { IsState store.now }
    ensures served { ServesOrFails result
        (spec.described store.now
        (describe (spec.catalog_of store.now session) text.now declarations.now)) store.now
        store.now }
    ensures kinds { IfOk result AreDescribeKinds }
{
    let description = describe(alloc, store.catalog(session), text, declarations)?;
    Ok(one_reply(alloc, Reply::Described(description))?)
}
