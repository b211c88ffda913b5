//! Batches, and what they are run with.

use crate::ends::Ends;
use ae_base::batches::{Batch, Param, ParamDecl, Params};
use ae_base::lists::Seq;
use ae_base::names::ParamName;
use ae_base::sessions::SessionId;
use ae_base::texts::Txt;
use ae_base::types::{TextSize, Ty};
use ae_base::values::{Datum, Value};
use ae_edge::memory::entropy::MemEntropy;
use ae_edge::memory::vault::MemVault;
use conversation::faults::Halt;
use driver::Outcome;
use std::alloc::{AllocError, Global};

/// The master key: the bytes 0 to 31.
const MAIN: [u8; 32] = [
    0, 1, 2, 3, 4, 5, 6, 7, 8, 9, 10, 11, 12, 13, 14, 15, 16, 17, 18, 19, 20, 21, 22, 23, 24, 25,
    26, 27, 28, 29, 30, 31,
];

/// Both ends, whose client has a master key under the path `main`.
pub fn ends(alloc: Global) -> Result<Ends, AllocError> {
    let mut keys = Vec::new(alloc);
    keys.push((Txt::copied(alloc, "main")?, MAIN))?;
    let vault = MemVault::new(keys, Vec::new(alloc));
    let entropy = MemEntropy::new(Vec::new(alloc), Vec::new(alloc));
    Ends::new(alloc, vault, entropy)
}

/// Session 1.
pub fn first_session() -> SessionId {
    match SessionId::from_number(1) {
        Some(session) => session,
        None => unreachable!(),
    }
}

/// A statement with parameters.
pub fn with_params(alloc: Global, text: &str, params: Params) -> Result<Batch, AllocError> {
    Ok(Batch {
        text: Txt::copied(alloc, text)?,
        params,
        forced: Seq::new(alloc),
    })
}

/// A statement alone.
pub fn batch(alloc: Global, text: &str) -> Result<Batch, AllocError> {
    with_params(alloc, text, Params::new(alloc))
}

/// Runs statements that define something: whether each is accepted.
pub fn are_defined(
    alloc: Global,
    ends: &mut Ends,
    session: SessionId,
    texts: &[&str],
) -> Result<bool, Halt> {
    let mut all = true;
    for text in texts {
        let outcome = ends.run(alloc, session, batch(alloc, text)?)?;
        all = all && matches!(outcome, Outcome::Defined);
    }
    Ok(all)
}

/// The type NVARCHAR(11).
fn eleven_units() -> Ty {
    match TextSize::from_number(11) {
        Some(size) => Ty::NVarChar(size),
        None => unreachable!(),
    }
}

/// The name of the parameter `@number`.
fn number_name(alloc: Global) -> Result<ParamName, AllocError> {
    ParamName::from_txt(Txt::copied(alloc, "number")?).ok_or(AllocError)
}

/// A statement with a parameter `@number`, a text.
pub fn with_number(alloc: Global, text: &str, number: &str) -> Result<Batch, AllocError> {
    let mut params = Params::new(alloc);
    let _ = params.push(Param {
        declaration: ParamDecl {
            name: number_name(alloc)?,
            ty: eleven_units(),
        },
        value: Value::Is(Datum::Text(Txt::copied(alloc, number)?)),
    })?;
    with_params(alloc, text, params)
}
