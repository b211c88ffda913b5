//! Bodies of messages from bytes.

ghost use Rattle.std.specs.Prelude.{◌≡◌};
ghost use Rattle.wire_bodies.specs.Found.{GivesBody};
ghost use Rattle.wire_decoding.specs.Reading as read;

use crate::faults::fault_of;
use crate::found::{Body, Found};
use crate::listing::{declarations_of, keys_of, many_of, sent_params_of, used_params_of};
use crate::rows::rows_of;
use ae_base::frames::FrameVersion;
use std::alloc::Global;
use wire_decoding::checks;
use wire_decoding::reading::{done_of, session_of, statement_of, u64_of};
use wire_messages::replies::Reply;
use wire_messages::requests::Request;
use wire_payloads::payloads::Payload;

#[tactic(auto, unfolding(wire_decoding::specs::Reading::describe_at))]
fn describe_of(alloc: Global, body: &[u8]) -> Body<Request<'_>>
    ensures { GivesBody result (read.describe_at body.now) }
{
    let Some((session, rest)) = session_of(body) else {
        return Body::Bad;
    };
    let Some((text, rest)) = statement_of(rest) else {
        return Body::Bad;
    };
    match declarations_of(alloc, rest) {
        Found::One(declarations, rest) => {
            if !rest.is_empty() {
                return Body::Bad;
            }
            Body::One(Request::Describe {
                session,
                text,
                declarations,
            })
        }
        Found::Bad => Body::Bad,
        Found::OutOfMemory => Body::OutOfMemory,
    }
}

#[tactic(auto, unfolding(wire_decoding::specs::Reading::execute_at))]
fn execute_of(alloc: Global, body: &[u8]) -> Body<Request<'_>>
    ensures { GivesBody result (read.execute_at body.now) }
{
    let Some((session, rest)) = session_of(body) else {
        return Body::Bad;
    };
    let Some((version, rest)) = u64_of(rest) else {
        return Body::Bad;
    };
    let Some((text, rest)) = statement_of(rest) else {
        return Body::Bad;
    };
    match sent_params_of(alloc, rest) {
        Found::One(params, rest) => {
            if !rest.is_empty() {
                return Body::Bad;
            }
            Body::One(Request::Execute {
                session,
                version,
                text,
                params,
            })
        }
        Found::Bad => Body::Bad,
        Found::OutOfMemory => Body::OutOfMemory,
    }
}

/// The body of a request of a kind.
#[tactic(auto, unfolding(wire_decoding::specs::Reading::request_at))]
pub fn request_body_of(alloc: Global, kind: u8, body: &[u8]) -> Body<Request<'_>>
    ensures { GivesBody result (read.request_at kind body.now) }
{
    match kind {
        0x01 => describe_of(alloc, body),
        0x02 => execute_of(alloc, body),
        _ => Body::Bad,
    }
}

#[tactic(auto, unfolding(wire_decoding::specs::Reading::described_at))]
fn described_of(alloc: Global, body: &[u8]) -> Body<Reply<'_>>
    ensures { GivesBody result (read.described_at body.now) }
{
    let Some((version, rest)) = u64_of(body) else {
        return Body::Bad;
    };
    match keys_of(alloc, rest) {
        Found::One(keys, rest) => match used_params_of(alloc, rest) {
            Found::One(params, rest) => match checks::description(version, keys, params) {
                Some(description) if rest.is_empty() => { Body::One(Reply::Described(description)) }
                _ => Body::Bad,
            },
            Found::Bad => Body::Bad,
            Found::OutOfMemory => Body::OutOfMemory,
        },
        Found::Bad => Body::Bad,
        Found::OutOfMemory => Body::OutOfMemory,
    }
}

#[tactic(auto, unfolding(wire_decoding::specs::Reading::columns_at))]
fn columns_of(alloc: Global, body: &[u8]) -> Body<Reply<'_>>
    ensures { GivesBody result (read.columns_at body.now) }
{
    match keys_of(alloc, body) {
        Found::One(keys, rest) => match many_of(alloc, rest) {
            Found::One(columns, rest) => match checks::header(keys, columns) {
                Some(header) if rest.is_empty() => Body::One(Reply::Columns(header)),
                _ => Body::Bad,
            },
            Found::Bad => Body::Bad,
            Found::OutOfMemory => Body::OutOfMemory,
        },
        Found::Bad => Body::Bad,
        Found::OutOfMemory => Body::OutOfMemory,
    }
}

#[tactic(auto, unfolding(wire_decoding::specs::Reading::row_at))]
fn row_of(alloc: Global, body: &[u8]) -> Body<Reply<'_>>
    ensures { GivesBody result (read.row_at body.now) }
{
    match many_of(alloc, body) {
        Found::One(atoms, rest) => match checks::row(atoms) {
            Some(row) if rest.is_empty() => Body::One(Reply::Row(row)),
            _ => Body::Bad,
        },
        Found::Bad => Body::Bad,
        Found::OutOfMemory => Body::OutOfMemory,
    }
}

#[tactic(auto, unfolding(wire_decoding::specs::Reading::ended_at))]
fn ended_of(body: &[u8]) -> Body<Reply<'_>>
    ensures { GivesBody result (read.ended_at body.now) }
{
    match done_of(body) {
        Some((done, rest)) => {
            if !rest.is_empty() {
                return Body::Bad;
            }
            Body::One(Reply::Ended(done))
        }
        None => Body::Bad,
    }
}

#[tactic(auto, unfolding(wire_decoding::specs::Reading::refused_at))]
fn refused_of(alloc: Global, body: &[u8]) -> Body<Reply<'_>>
    ensures { GivesBody result (read.refused_at body.now) }
{
    match fault_of(alloc, body) {
        Body::One(fault) => Body::One(Reply::Refused(fault)),
        Body::Bad => Body::Bad,
        Body::OutOfMemory => Body::OutOfMemory,
    }
}

/// The body of a reply of a kind.
#[tactic(auto, unfolding(wire_decoding::specs::Reading::reply_at))]
fn reply_body_of(alloc: Global, kind: u8, body: &[u8]) -> Body<Reply<'_>>
    ensures { GivesBody result (read.reply_at kind body.now) }
{
    match kind {
        0x81 => described_of(alloc, body),
        0x82 => columns_of(alloc, body),
        0x83 => row_of(alloc, body),
        0x84 => ended_of(body),
        0x85 => refused_of(alloc, body),
        _ => Body::Bad,
    }
}

/// A reply that has the frame of a kind to itself.
fn alone_of(alloc: Global, kind: u8, body: &[u8]) -> Body<Payload<'_>>
    ensures { GivesBody result (read.alone (read.reply_at kind body.now)) }
{
    match reply_body_of(alloc, kind, body) {
        Body::One(reply) => Body::One(Payload::One(reply)),
        Body::Bad => Body::Bad,
        Body::OutOfMemory => Body::OutOfMemory,
    }
}

/// Rows that share a frame.
#[tactic(auto, unfolding(wire_decoding::specs::Reading::batch_at))]
fn batch_of(alloc: Global, body: &[u8]) -> Body<Payload<'_>>
    ensures { GivesBody result (read.batch_at body.now) }
{
    match rows_of(alloc, body) {
        Found::One(batch, rest) if rest.is_empty() => Body::One(Payload::Rows(batch)),
        Found::One(_, _) | Found::Bad => Body::Bad,
        Found::OutOfMemory => Body::OutOfMemory,
    }
}

/// What a frame of a kind carries to the driver, in a version.
#[tactic(auto, unfolding(wire_decoding::specs::Reading::payload_at))]
pub fn payload_body_of(
    alloc: Global,
    version: FrameVersion,
    kind: u8,
    body: &[u8],
) -> Body<Payload<'_>>
    ensures { GivesBody result (read.payload_at version kind body.now) }
{
    match version {
        FrameVersion::V1 => alone_of(alloc, kind, body),
        FrameVersion::V2 => match kind {
            0x83 => Body::Bad,
            0x86 => batch_of(alloc, body),
            _ => alone_of(alloc, kind, body),
        },
    }
}
