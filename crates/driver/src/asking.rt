//! The request to describe a batch.

ghost use Rattle.std.specs.Prelude.{◌≡◌, IfOk, None, map};
ghost use Rattle.conversation.specs.Batches.{why_unfit};
ghost use Rattle.wire_messages.specs.declared.requests.Request.TheVariants as request;
ghost use Rattle.wire_parts.specs.Texts.{IsStatementText};

use ae_base::batches::{Batch, Param, Params};
use ae_base::lists::{Duplicate, Seq};
use ae_base::params::ParamList;
use ae_base::sessions::SessionId;
use ae_base::texts::Txt;
use std::alloc::{AllocError, Global};
use wire_messages::params::{Declaration, DeclarationParts};
use wire_messages::requests::Request;
use wire_parts::parts::TxtPart;
use wire_parts::texts::StatementPart;

/// The request to describe a batch in a session.
#[tactic(auto, using(crate::proofs::Fitting::fit_is_short))]
pub fn describe<'r>(
    alloc: Global,
    number: SessionId,
    batch: &Batch,
) -> Result<Request<'r>, AllocError>
    requires { why_unfit batch.now ≡ None }
    ensures { IfOk result
        (λ asked. asked
        ≡ request.Describe number batch.now.text (map (λ p. p.declaration) batch.now.params)) }
{
    Ok(Request::Describe {
        session: number,
        text: statement(batch.text.copy()?),
        declarations: declared(alloc, &batch.params)?,
    })
}

/// A text that is a statement's.
pub fn statement<'r>(text: Txt) -> StatementPart<'r>
    requires { IsStatementText text }
    ensures { result ≡ text }
{
    match StatementPart::from_part(TxtPart::own(text)) {
        Some(part) => part,
        None => unreachable!(),
    }
}

fn declared<'r>(alloc: Global, params: &Params) -> Result<DeclarationParts<'r>, AllocError>
    ensures { IfOk result (λ parts. parts ≡ map (λ p. p.declaration) params.now) }
{
    match ParamList::from_seq(declarations(alloc, params.as_slice())?) {
        Some(parts) => Ok(parts),
        None => unreachable!(),
    }
}

fn declarations<'r>(alloc: Global, params: &[Param]) -> Result<Seq<Declaration<'r>>, AllocError>
    ensures { IfOk result (λ parts. parts ≡ map (λ p. p.declaration) params.now) }
{
    let mut parts = Seq::new(alloc);
    for param in params {
        parts.push(Declaration::own(param.declaration.copy()?))?;
    }
    Ok(parts)
}
