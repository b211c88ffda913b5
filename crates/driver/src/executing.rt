//! A session executes its described batch: its parameters are sealed, and it is sent.

ghost use Rattle.std.specs.Prelude.{◌≡◌, ◌≤◌, List, IfOk, IsTrue, Ok, Err, None, map, true, false, length};
ghost use Rattle.ae_base.specs.Batches.{first_unfit};
ghost use Rattle.ae_base.specs.Values.{value_is_within};
ghost use Rattle.key_store.specs.Stores.{IsOf};
ghost use Rattle.wire_messages.specs.declared.params.SentParam.{SentParam};
ghost use Rattle.conversation.specs.declared.faults.DriverFault.{DriverFault};
ghost use Rattle.conversation.specs.Devices.{Leads};
ghost use Rattle.conversation.specs.Pending.{uses_in, uses_of};
ghost use Rattle.conversation.specs.Talk.{Talk};
ghost use Rattle.conversation.specs.Turns.{on_result, sealing, sealing_one};
ghost use Rattle.ae_base.specs.Names.{all_differ};
ghost use Rattle.conversation.specs.declared.sessions.Session.{Session};
ghost use Rattle.driver.specs.Calls.{Executes, IsSent, is_pending};
ghost use Rattle.driver.specs.Listed.{IsListed, AreListed};
ghost use Rattle.driver.specs.Sealed.{with_atom, sending, sent_names, use_names};

use crate::asking::statement;
use crate::sealing::seal_value;
use ae_base::batches::Param;
use ae_base::keys::{KeyMeta, KeyPath};
use ae_base::lists::{Duplicate, Seq};
use ae_base::names::ParamName;
use ae_base::params::ParamList;
use ae_base::sessions::SessionId;
use ae_base::types::Enc;
use ae_edge::entropies::Entropy;
use ae_edge::vaults::Vault;
use conversation::faults::{DriverFault, Halt};
use conversation::sessions::{Pending, Session, Turn};
use key_store::KeyStore;
use std::alloc::Global;
use wire_messages::params::{SentParam, SentParams};
use wire_messages::requests::Request;
use wire_parts::atoms::AtomPart;
use wire_parts::texts::ParamNamePart;

fn with_atom<'r>(
    name: ParamName,
    param: &Param,
    enc: &Enc,
    sealed: Result<AtomPart<'r>, DriverFault>,
) -> Result<SentParam<'r>, DriverFault>
    requires { name ≡ param.now.declaration.name }
    ensures { result ≡ with_atom param.now enc.now sealed.entry }
{
    match sealed {
        Ok(atom) => Ok(SentParam {
            name: ParamNamePart::own(name),
            ty: param.declaration.ty,
            enc: *enc,
            atom,
        }),
        Err(fault) => Err(fault),
    }
}

fn seal_param<'r, V: Vault, E: Entropy>(
    alloc: Global,
    store: &mut KeyStore,
    vault: &mut V,
    entropy: &mut E,
    trusted: &[KeyPath],
    metas: &[KeyMeta],
    param: &Param,
    enc: &Enc,
) -> Result<Result<SentParam<'r>, DriverFault>, Halt>
    requires listed { IsListed metas.now enc.now }
    requires of_vault { IsOf (V.seen vault.old).content store.old }
    requires fits { value_is_within param.now.value param.now.declaration.ty ≡ true }
    ensures leads { (k : SentParam → Talk) (fails : DriverFault → Talk)
        → Leads result (sealing_one trusted.now metas.now (record
        { param = param.now; enc = enc.now }) k fails)
        (on_result k fails)
        (record { entropy = E.seen entropy.old; vault = V.seen vault.old })
        (record { entropy = E.seen entropy.new; vault = V.seen vault.new }) }
    ensures named { IfOk result
        (λ sealed. IfOk sealed (λ sending. sending.name ≡ param.now.declaration.name)) }
    ensures of_vault { IsOf (V.seen vault.new).content store.new }
{
    let name = match param.declaration.name.copy() {
        Ok(name) => name,
        Err(_) => return Err(Halt::OutOfMemory),
    };
    match seal_value(
        alloc,
        store,
        vault,
        entropy,
        trusted,
        metas,
        *enc,
        &param.declaration.ty,
        &param.value,
    ) {
        Ok(sealed) => Ok(with_atom(name, param, enc, sealed)),
        Err(halt) => Err(halt),
    }
}

fn seal_params<'r, V: Vault, E: Entropy>(
    alloc: Global,
    store: &mut KeyStore,
    vault: &mut V,
    entropy: &mut E,
    trusted: &[KeyPath],
    metas: &[KeyMeta],
    params: &[Param],
    encs: &[Option<Enc>],
) -> Result<Result<Seq<SentParam<'r>>, DriverFault>, Halt>
    requires each { length encs.now ≡ length params.now }
    requires listed { AreListed metas.now (map (λ u. u.enc) (uses_in params.now encs.now)) }
    requires of_vault { IsOf (V.seen vault.old).content store.old }
    requires fits { first_unfit params.now ≡ None }
    ensures leads { (k : List SentParam → Talk) (fails : DriverFault → Talk)
        → Leads result (sealing trusted.now metas.now (uses_in params.now encs.now) k fails)
        (on_result k fails)
        (record { entropy = E.seen entropy.old; vault = V.seen vault.old })
        (record { entropy = E.seen entropy.new; vault = V.seen vault.new }) }
    ensures named { IfOk result
        (λ sealed. IfOk sealed
        (λ sending. sent_names sending ≡ use_names (uses_in params.now encs.now))) }
    ensures of_vault { IsOf (V.seen vault.new).content store.new }
{
    let mut sent = Seq::new(alloc);
    for i in 0..params.len() {
        let enc = match encs[i] {
            Some(enc) => enc,
            None => continue,
        };
        let sealed = match seal_param(
            alloc, store, vault, entropy, trusted, metas, &params[i], &enc,
        ) {
            Ok(sealed) => sealed,
            Err(halt) => return Err(halt),
        };
        match sealed {
            Ok(part) => match sent.push(part) {
                Ok(()) => {}
                Err(_) => return Err(Halt::OutOfMemory),
            },
            Err(fault) => return Ok(Err(fault)),
        }
    }
    Ok(Ok(sent))
}

/// Parameters that are few, with names that differ.
fn listed<'r>(params: Seq<SentParam<'r>>) -> SentParams<'r>
    requires few { length params ≤ 128 }
    requires differ { IsTrue (all_differ (sent_names params)) }
    ensures { result ≡ params.entry }
{
    match ParamList::from_seq(params) {
        Some(params) => params,
        None => unreachable!(),
    }
}

fn seal<'r, V: Vault, E: Entropy>(
    alloc: Global,
    store: &mut KeyStore,
    vault: &mut V,
    entropy: &mut E,
    trusted: &[KeyPath],
    pending: &Pending,
) -> Result<Result<SentParams<'r>, DriverFault>, Halt>
    requires { IsOf (V.seen vault.old).content store.old }
    ensures leads { (k : List SentParam → Talk) (fails : DriverFault → Talk)
        → Leads result (sealing trusted.now pending.now.keys (uses_of pending.now) k fails)
        (on_result k fails)
        (record { entropy = E.seen entropy.old; vault = V.seen vault.old })
        (record { entropy = E.seen entropy.new; vault = V.seen vault.new }) }
    ensures of_vault { IsOf (V.seen vault.new).content store.new }
{
    let sealed = match seal_params(
        alloc,
        store,
        vault,
        entropy,
        trusted,
        pending.keys(),
        pending.params(),
        pending.encs(),
    ) {
        Ok(sealed) => sealed,
        Err(halt) => return Err(halt),
    };
    match sealed {
        Ok(params) => Ok(Ok(listed(params))),
        Err(fault) => Ok(Err(fault)),
    }
}

fn sent<'r>(
    number: SessionId,
    pending: Pending,
    sealed: Result<SentParams<'r>, DriverFault>,
) -> Turn<Result<Request<'r>, DriverFault>>
    ensures { result ≡ sending number pending sealed.entry }
{
    match sealed {
        Ok(params) => {
            let version = pending.version();
            Turn {
                answer: Ok(Request::Execute {
                    session: number,
                    version,
                    text: statement(pending.into_batch().into_text()),
                    params,
                }),
                after: Session::Sent,
            }
        }
        Err(fault) => Turn {
            answer: Err(fault),
            after: Session::Idle,
        },
    }
}

fn execute_pending<'r, V: Vault, E: Entropy>(
    alloc: Global,
    store: &mut KeyStore,
    vault: &mut V,
    entropy: &mut E,
    trusted: &[KeyPath],
    pending: Pending,
    number: SessionId,
) -> Turn<Result<Result<Request<'r>, DriverFault>, Halt>>
    requires { IsOf (V.seen vault.old).content store.old }
    ensures executes { Executes trusted.now result.answer number
        (Session.Pending pending) result.after
        (record { entropy = E.seen entropy.old; vault = V.seen vault.old })
        (record { entropy = E.seen entropy.new; vault = V.seen vault.new }) }
    ensures sent { IsSent result.answer result.after }
    ensures of_vault { IsOf (V.seen vault.new).content store.new }
{
    match seal(alloc, store, vault, entropy, trusted, &pending) {
        Ok(sealed) => {
            let turn = sent(number, pending, sealed);
            Turn {
                answer: Ok(turn.answer),
                after: turn.after,
            }
        }
        Err(halt) => Turn {
            answer: Err(halt),
            after: Session::Pending(pending),
        },
    }
}

fn nothing_pending<'r>(session: Session) -> Turn<Result<Result<Request<'r>, DriverFault>, Halt>>
    ensures { result ≡ record { answer = Ok (Err DriverFault.NothingPending); after = session } }
{
    Turn {
        answer: Ok(Err(DriverFault::NothingPending)),
        after: session,
    }
}

/// Executes the described batch of a session: the request to do so. Where none is described no key
/// is opened, and the store stays as it is.
pub fn execute<'r, V: Vault, E: Entropy>(
    alloc: Global,
    store: &mut KeyStore,
    vault: &mut V,
    entropy: &mut E,
    trusted: &[KeyPath],
    session: Session,
    number: SessionId,
) -> Turn<Result<Result<Request<'r>, DriverFault>, Halt>>
    requires { IsOf (V.seen vault.old).content store.old }
    ensures executes { Executes trusted.now result.answer number session result.after
        (record { entropy = E.seen entropy.old; vault = V.seen vault.old })
        (record { entropy = E.seen entropy.new; vault = V.seen vault.new }) }
    ensures sent { IsSent result.answer result.after }
    ensures kept { is_pending session ≡ false → store.new ≡ store.old }
    ensures of_vault { IsOf (V.seen vault.new).content store.new }
{
    match session {
        Session::Pending(pending) => {
            execute_pending(alloc, store, vault, entropy, trusted, pending, number)
        }
        Session::Idle => nothing_pending(Session::Idle),
        Session::Begun(batch) => nothing_pending(Session::Begun(batch)),
        Session::Sent => nothing_pending(Session::Sent),
        Session::Reading {
            columns,
            keys,
            count,
        } => nothing_pending(Session::Reading {
            columns,
            keys,
            count,
        }),
        Session::Skipping { columns, count } => {
            nothing_pending(Session::Skipping { columns, count })
        }
    }
}
