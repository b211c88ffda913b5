//! Bound statements with a typing.

ghost use Rattle.std.specs.Prelude.{◌≡◌, Ok};
ghost use Rattle.sql_tree.specs.Bound.{bound_of};
ghost use Rattle.enc_types.specs.Least.{inferred_encs};
ghost use Rattle.std.proofs.Props.{props};

use ae_base::lists::Seq;
use ae_base::types::Enc;
use sql_tree::bound::Bound;

/// A bound statement with its least typing: what that gives to each parameter.
#[derive(Drop)]
pub struct Typed {
    bound: Bound,
    encs: Seq<Enc>,
    pub ghost typed: { inferred_encs (bound_of bound) ≡ Ok encs } by { Prim.hlevel props },
}

impl Typed {
    /// A statement with what the least typing of its rules gives to its parameters.
    pub fn new(bound: Bound, encs: Seq<Enc>) -> Typed
        requires { inferred_encs (bound_of bound) ≡ Ok encs }
        ensures bound { result.bound ≡ bound }
        ensures encs { result.encs ≡ encs }
    {
        Typed { bound, encs }
    }

    /// The statement.
    pub fn bound(&self) -> &Bound
        ensures { result.now ≡ self.now.bound }
    {
        &self.bound
    }

    /// The statement, and the encryption of each of its parameters.
    pub fn into_parts(self) -> (Bound, Seq<Enc>)
        ensures bound { result.0 ≡ self.bound }
        ensures encs { result.1 ≡ self.encs }
    {
        (self.bound, self.encs)
    }

    /// The encryption of each parameter, in the order of the declarations.
    pub fn encs(&self) -> &[Enc]
        ensures { result.now ≡ self.now.encs }
    {
        self.encs.as_slice()
    }
}
