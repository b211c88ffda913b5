//! Two sessions of one driver, in turn. The frames are by the format of frames.

ghost use Rattle.std.specs.Prelude.{◌≡◌, IfOk};
ghost use Rattle.ae_base.specs.Sessions.{IsSession};
ghost use Rattle.driver.specs.Clients.{IsOfVault};

use crate::runs::vault;
use ae_base::batches::Batch;
use ae_base::frames::FrameVersion;
use ae_base::lists::Seq;
use ae_base::params::ParamList;
use ae_base::sessions::SessionId;
use ae_base::texts::Txt;
use ae_base::values::{Datum, Value};
use ae_edge::entropies::Entropy;
use ae_edge::memory::entropy::MemEntropy;
use ae_edge::vaults::Vault;
use conversation::answers::{DescribeAnswer, ExecuteAnswer, RowAnswer};
use conversation::faults::{DriverFault, Halt};
use conversation::outcomes::Outcome;
use driver::Driver;
use std::alloc::{AllocError, Global};
use std::test::Fail;
use wire_encoding::encode_request;
use wire_frames::{Decoded, decode_reply};
use wire_messages::replies::Reply;
use wire_messages::requests::Request;
use wire_payloads::payloads::Payload;

/// What a session asks, and what it is answered to its description.
#[derive(Clone, Copy)]
struct Talk {
    text: &'static str,
    describe: &'static [u8],
    described: &'static [u8],
    execute: &'static [u8],
}

const SELECTS: Talk = Talk {
    text: "SELECT a FROM t",
    describe: b"\x01\x01\x00\x00\x00\x16\x00\x01\x00\x00\x00\x0fSELECT a FROM t\x00",
    described: b"\x01\x81\x00\x00\x00\x0a\x00\x00\x00\x00\x00\x00\x00\x03\x00\x00",
    execute: b"\x01\x02\x00\x00\x00\x1e\x00\x01\x00\x00\x00\x00\x00\x00\x00\x03\x00\x00\x00\x0fSELECT a FROM t\x00",
};

const DELETES: Talk = Talk {
    text: "DELETE FROM t",
    describe: b"\x01\x01\x00\x00\x00\x14\x00\x02\x00\x00\x00\x0dDELETE FROM t\x00",
    described: b"\x01\x81\x00\x00\x00\x0a\x00\x00\x00\x00\x00\x00\x00\x04\x00\x00",
    execute: b"\x01\x02\x00\x00\x00\x1c\x00\x02\x00\x00\x00\x00\x00\x00\x00\x04\x00\x00\x00\x0dDELETE FROM t\x00",
};

/// A column of numbers, its row 5, the end of one row, and the end of a change of two rows.
const COLUMNS: &[u8] = b"\x01\x82\x00\x00\x00\x08\x00\x00\x01\x00\x01a\x01\x00";

const ROW: &[u8] = b"\x01\x83\x00\x00\x00\x0b\x00\x01\x01\x00\x00\x00\x00\x00\x00\x00\x05";

const ANSWERED: &[u8] = b"\x01\x84\x00\x00\x00\x09\x02\x00\x00\x00\x00\x00\x00\x00\x01";

const CHANGED: &[u8] = b"\x01\x84\x00\x00\x00\x09\x01\x00\x00\x00\x00\x00\x00\x00\x02";

/// The session of a number.
pub fn session(number: u16) -> SessionId
    requires { IsSession number }
    ensures { result ≡ number }
{
    match SessionId::from_number(number) {
        Some(session) => session,
        None => unreachable!(),
    }
}

/// A driver that keeps no key, beside a vault.
fn new_driver<V: Vault>(alloc: Global, vault: &V) -> Result<Driver, AllocError>
    ensures { IfOk result (λ driver. IsOfVault (V.seen vault.now).content driver) }
{
    Driver::new(alloc)
}

/// The frame of what a driver asks, or why it doesn't.
fn framed(
    alloc: Global,
    answer: Result<Request<'_>, DriverFault>,
) -> Result<Result<Vec<u8>, DriverFault>, AllocError> {
    match answer {
        Ok(request) => Ok(Ok(encode_request(alloc, FrameVersion::V1, &request)?)),
        Err(fault) => Ok(Err(fault)),
    }
}

/// The reply that a frame of version 1 carries.
fn reply_of(alloc: Global, frame: &[u8]) -> Option<Reply<'_>> {
    match decode_reply(alloc, FrameVersion::V1, frame) {
        Decoded::One(Payload::One(reply), _) => Some(reply),
        Decoded::One(Payload::Rows(_), _) | Decoded::NotYet | Decoded::Bad | Decoded::OutOfMemory =>
            None,
    }
}

#[tactic(auto, using(crate::proofs::Keeping::of_same))]
fn begun<V: Vault>(
    alloc: Global,
    driver: &mut Driver,
    number: SessionId,
    text: &str,
    vault: &V,
) -> Result<Result<Vec<u8>, DriverFault>, AllocError>
    requires { IsOfVault (V.seen vault.now).content driver.old }
    ensures { IsOfVault (V.seen vault.now).content driver.new }
{
    let text = Txt::copied(alloc, text)?;
    let batch = Batch {
        text,
        params: ParamList::new(alloc),
        forced: Seq::new(alloc),
    };
    framed(alloc, driver.begin(alloc, number, batch)?)
}

#[tactic(auto, using(crate::proofs::Keeping::of_same))]
fn described<V: Vault>(
    alloc: Global,
    driver: &mut Driver,
    number: SessionId,
    frame: &[u8],
    vault: &V,
) -> Result<DescribeAnswer, Halt>
    requires { IsOfVault (V.seen vault.now).content driver.old }
    ensures { IsOfVault (V.seen vault.now).content driver.new }
{
    match reply_of(alloc, frame) {
        Some(reply) => driver.described(alloc, number, &reply),
        None => Err(Halt::OutOfMemory),
    }
}

fn executed<V: Vault, E: Entropy>(
    alloc: Global,
    driver: &mut Driver,
    number: SessionId,
    vault: &mut V,
    entropy: &mut E,
) -> Result<Result<Vec<u8>, DriverFault>, AllocError>
    requires { IsOfVault (V.seen vault.old).content driver.old }
    ensures { IsOfVault (V.seen vault.new).content driver.new }
{
    match driver.execute(alloc, number, vault, entropy) {
        Ok(answer) => framed(alloc, answer),
        Err(_) => Err(AllocError),
    }
}

fn answered<V: Vault>(
    alloc: Global,
    driver: &mut Driver,
    number: SessionId,
    frame: &[u8],
    vault: &mut V,
) -> Result<ExecuteAnswer, Halt>
    requires { IsOfVault (V.seen vault.old).content driver.old }
    ensures { IsOfVault (V.seen vault.new).content driver.new }
{
    match reply_of(alloc, frame) {
        Some(reply) => driver.answered(alloc, number, &reply, vault),
        None => Err(Halt::OutOfMemory),
    }
}

#[tactic(auto, using(crate::proofs::Keeping::of_same))]
fn next_row<V: Vault>(
    alloc: Global,
    driver: &mut Driver,
    number: SessionId,
    frame: &[u8],
    vault: &V,
) -> Result<RowAnswer, Halt>
    requires { IsOfVault (V.seen vault.now).content driver.old }
    ensures { IsOfVault (V.seen vault.now).content driver.new }
{
    match reply_of(alloc, frame) {
        Some(reply) => driver.next_row(alloc, number, &reply),
        None => Err(Halt::OutOfMemory),
    }
}

/// Whether a frame is asked.
fn asks(answer: Result<Result<Vec<u8>, DriverFault>, AllocError>, frame: &[u8]) -> bool {
    match answer {
        Ok(Ok(asked)) => asked.as_slice() == frame,
        Ok(Err(_)) | Err(_) => false,
    }
}

/// The fault with which nothing is asked.
fn refusal(answer: Result<Result<Vec<u8>, DriverFault>, AllocError>) -> Option<DriverFault> {
    match answer {
        Ok(Err(fault)) => Some(fault),
        Ok(Ok(_)) | Err(_) => None,
    }
}

fn is_ready(answer: Result<DescribeAnswer, Halt>) -> bool {
    matches!(answer, Ok(DescribeAnswer::Ready(_)))
}

fn shows_columns(answer: Result<ExecuteAnswer, Halt>) -> bool {
    matches!(answer, Ok(ExecuteAnswer::Shows(_)))
}

fn is_change_of(answer: Result<ExecuteAnswer, Halt>, count: u64) -> bool {
    match answer {
        Ok(ExecuteAnswer::Says(Outcome::Changed(changed))) => changed == count,
        _ => false,
    }
}

fn is_row_of(answer: Result<RowAnswer, Halt>, number: i64) -> bool {
    match answer {
        Ok(RowAnswer::Row(values)) => match values.as_slice() {
            [Value::Is(Datum::Num(n))] => *n == number,
            _ => false,
        },
        _ => false,
    }
}

fn is_end_of(answer: Result<RowAnswer, Halt>, count: u64) -> bool {
    match answer {
        Ok(RowAnswer::Rows(rows)) => rows == count,
        _ => false,
    }
}

fn is_stray<A: Drop>(answer: Result<A, Halt>) -> bool {
    matches!(answer, Err(Halt::BadReply))
}

/// Both begin; neither can begin again, nor execute what isn't described. They are described, and
/// executed in the other order. Each reads its own replies, and none of the other's.
fn keep_their_batches<V: Vault, E: Entropy>(
    alloc: Global,
    driver: &mut Driver,
    vault: &mut V,
    entropy: &mut E,
) -> [bool; 15]
    requires { IsOfVault (V.seen vault.old).content driver.old }
{
    let (one, two) = (session(1), session(2));
    [
        asks(
            begun(alloc, driver, one, SELECTS.text, vault),
            SELECTS.describe,
        ),
        asks(
            begun(alloc, driver, two, DELETES.text, vault),
            DELETES.describe,
        ),
        is_pending(refusal(begun(alloc, driver, one, DELETES.text, vault))),
        is_nothing(refusal(executed(alloc, driver, two, vault, entropy))),
        is_ready(described(alloc, driver, one, SELECTS.described, vault)),
        is_ready(described(alloc, driver, two, DELETES.described, vault)),
        asks(
            executed(alloc, driver, two, vault, entropy),
            DELETES.execute,
        ),
        asks(
            executed(alloc, driver, one, vault, entropy),
            SELECTS.execute,
        ),
        shows_columns(answered(alloc, driver, one, COLUMNS, vault)),
        is_stray(answered(alloc, driver, one, COLUMNS, vault)),
        is_stray(answered(alloc, driver, two, ROW, vault)),
        is_stray(next_row(alloc, driver, two, ROW, vault)),
        is_row_of(next_row(alloc, driver, one, ROW, vault), 5),
        is_change_of(answered(alloc, driver, two, CHANGED, vault), 2),
        is_end_of(next_row(alloc, driver, one, ANSWERED, vault), 1),
    ]
}

fn is_pending(fault: Option<DriverFault>) -> bool {
    matches!(fault, Some(DriverFault::StillPending))
}

fn is_nothing(fault: Option<DriverFault>) -> bool {
    matches!(fault, Some(DriverFault::NothingPending))
}

#[test]
fn sessions_in_turn_keep_their_batches(rt: HostRuntime) -> Result<(), Fail> {
    let alloc = rt.alloc();
    let mut vault = vault(alloc)?;
    let mut driver = new_driver(alloc, &vault)?;
    let mut entropy = MemEntropy::new(Vec::new(alloc), Vec::new(alloc));
    let kept = keep_their_batches(alloc, &mut driver, &mut vault, &mut entropy);
    drop(entropy);
    drop(driver);
    drop(vault);
    assert_eq!(rt; kept, [true; 15]);
    Ok(())
}
