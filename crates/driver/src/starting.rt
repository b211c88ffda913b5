//! A session begins a batch, and takes its description.

ghost use Rattle.std.specs.Prelude.{◌≡◌, IfOk, Ok, Err, length};
ghost use Rattle.conversation.specs.Sessions as held;
ghost use Rattle.conversation.specs.Batches.{fit_batch};
ghost use Rattle.conversation.specs.declared.sessions.Session.{Session};
ghost use Rattle.driver.specs.Calls.{Comes, Takes, is_idle};
ghost use Rattle.driver.specs.Found.{FindsAs};
ghost use Rattle.wire_messages.specs.declared.replies.Reply.TheVariants as reply;

use crate::asking::describe;
use crate::describing::{described_params, encs_of, own_keys};
use crate::trusting::first_open;
use ae_base::batches::Batch;
use ae_base::faults::SqlFault;
use ae_base::keys::KeyMeta;
use ae_base::lists::{Duplicate, Seq};
use ae_base::names::ParamName;
use ae_base::sessions::SessionId;
use ae_base::types::Enc;
use conversation::answers::DescribeAnswer;
use conversation::faults::{DriverFault, Halt};
use conversation::outcomes::DescribedParam;
use conversation::sessions::{FitBatch, Pending, Session, Turn};
use std::alloc::{AllocError, Global};
use wire_messages::replies::{Description, Reply};
use wire_messages::requests::Request;

fn is_idle(session: &Session) -> bool
    ensures { result ≡ is_idle session.now }
{
    match session {
        Session::Idle => true,
        Session::Begun(_)
        | Session::Pending(_)
        | Session::Sent
        | Session::Reading { .. }
        | Session::Skipping { .. } => false,
    }
}

/// Begins a batch in a session: the request to describe it.
pub fn begin<'r>(
    alloc: Global,
    session: Session,
    number: SessionId,
    batch: Batch,
) -> Turn<Result<Result<Request<'r>, DriverFault>, AllocError>>
    ensures { Comes result.answer (held.begin session number batch) session result.after }
{
    if !is_idle(&session) {
        drop(batch);
        return Turn {
            answer: Ok(Err(DriverFault::StillPending)),
            after: session,
        };
    }
    match begun(alloc, number, batch) {
        Ok(turn) => {
            drop(session);
            Turn {
                answer: Ok(turn.answer),
                after: turn.after,
            }
        }
        Err(error) => Turn {
            answer: Err(error),
            after: session,
        },
    }
}

fn begun<'r>(
    alloc: Global,
    number: SessionId,
    batch: Batch,
) -> Result<Turn<Result<Request<'r>, DriverFault>>, AllocError>
    ensures { IfOk result (λ turn. turn ≡ held.begun number (fit_batch batch)) }
{
    match FitBatch::check(batch)? {
        Ok(batch) => asked(alloc, number, batch),
        Err(fault) => Ok(Turn {
            answer: Err(fault),
            after: Session::Idle,
        }),
    }
}

fn asked<'r>(
    alloc: Global,
    number: SessionId,
    batch: FitBatch,
) -> Result<Turn<Result<Request<'r>, DriverFault>>, AllocError>
    ensures { IfOk result (λ turn. turn ≡ held.begun number (Ok batch)) }
{
    match describe(alloc, number, batch.as_batch()) {
        Ok(request) => Ok(Turn {
            answer: Ok(request),
            after: Session::Begun(batch),
        }),
        Err(error) => {
            drop(batch);
            Err(error)
        }
    }
}

/// What a description says of a batch: the parameters that are used, the version of the catalog,
/// the keys, and how each declared parameter is to be encrypted.
#[derive(Drop)]
pub struct Found {
    pub params: Seq<DescribedParam>,
    pub version: u64,
    pub keys: Seq<KeyMeta>,
    pub encs: Seq<Option<Enc>>,
}

fn find(alloc: Global, batch: &FitBatch, description: &Description<'_>) -> Result<Found, Halt>
    ensures { FindsAs result batch.now description.now }
{
    let params = batch.as_batch().params.as_slice();
    let Some(encs) = encs_of(alloc, params, description.params().as_slice())? else {
        return Err(Halt::BadReply);
    };
    let keys = own_keys(alloc, description.keys())?;
    let params = described_params(alloc, keys.as_slice(), params, encs.as_slice())?;
    Ok(Found {
        params,
        version: description.version(),
        keys,
        encs,
    })
}

fn begun_described(
    alloc: Global,
    batch: FitBatch,
    description: &Description<'_>,
) -> Turn<Result<DescribeAnswer, Halt>>
    ensures { Takes result.answer
        (held.described (Session.Begun batch) (reply.Described description.now))
        (Session.Begun batch) result.after }
{
    let found = match find(alloc, &batch, description) {
        Ok(found) => found,
        Err(halt) => return waiting(halt, batch),
    };
    match open_name(&batch, found.encs.as_slice()) {
        Ok(None) => Turn {
            answer: Ok(DescribeAnswer::Ready(found.params)),
            after: Session::Pending(Pending::new(batch, found.version, found.keys, found.encs)),
        },
        Ok(Some(name)) => {
            drop(batch);
            Turn {
                answer: Ok(DescribeAnswer::Failed(DriverFault::NotEncrypted(name))),
                after: Session::Idle,
            }
        }
        Err(_) => waiting(Halt::OutOfMemory, batch),
    }
}

/// The name of the first forced parameter that would not be sent as a cell.
fn open_name(batch: &FitBatch, encs: &[Option<Enc>]) -> Result<Option<ParamName>, AllocError>
    requires { length encs.now ≡ length batch.now.params }
    ensures { IfOk result (λ name. name
        ≡ held.first_open batch.now.forced batch.now.params encs.now) }
{
    let batch = batch.as_batch();
    match first_open(batch.forced.as_slice(), batch.params.as_slice(), encs) {
        Some(name) => Ok(Some(name.copy()?)),
        None => Ok(None),
    }
}

/// The description is awaited still.
fn waiting(halt: Halt, batch: FitBatch) -> Turn<Result<DescribeAnswer, Halt>>
    ensures { result ≡ record { answer = Err halt; after = Session.Begun batch } }
{
    Turn {
        answer: Err(halt),
        after: Session::Begun(batch),
    }
}

fn begun_refused(batch: FitBatch, fault: &SqlFault) -> Turn<Result<DescribeAnswer, Halt>>
    ensures { Takes result.answer
        (held.described (Session.Begun batch) (reply.Refused fault.now)) (Session.Begun batch)
        result.after }
{
    match fault.copy() {
        Ok(fault) => {
            drop(batch);
            Turn {
                answer: Ok(DescribeAnswer::Refused(fault)),
                after: Session::Idle,
            }
        }
        Err(_) => Turn {
            answer: Err(Halt::OutOfMemory),
            after: Session::Begun(batch),
        },
    }
}

fn begun_replied(
    alloc: Global,
    batch: FitBatch,
    reply: &Reply<'_>,
) -> Turn<Result<DescribeAnswer, Halt>>
    ensures { Takes result.answer (held.described (Session.Begun batch) reply.now)
        (Session.Begun batch) result.after }
{
    match reply {
        Reply::Refused(fault) => begun_refused(batch, fault),
        Reply::Described(description) => begun_described(alloc, batch, description),
        Reply::Columns(_) | Reply::Row(_) | Reply::Ended(_) => unawaited(Session::Begun(batch)),
    }
}

fn unawaited(session: Session) -> Turn<Result<DescribeAnswer, Halt>>
    ensures { result ≡ record { answer = Err Halt.BadReply; after = session } }
{
    Turn {
        answer: Err(Halt::BadReply),
        after: session,
    }
}

/// Takes the reply to a session's request to describe a batch.
pub fn described(
    alloc: Global,
    session: Session,
    reply: &Reply<'_>,
) -> Turn<Result<DescribeAnswer, Halt>>
    ensures { Takes result.answer (held.described session reply.now) session result.after }
{
    match session {
        Session::Begun(batch) => begun_replied(alloc, batch, reply),
        other => unawaited(other),
    }
}
