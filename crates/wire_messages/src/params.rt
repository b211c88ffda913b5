//! Parameters as they are declared, sent and described.

ghost use Rattle.std.specs.Prelude.{◌≡◌, IfOk, map};

use ae_base::batches::ParamDecl;
use ae_base::params::{Named, ParamList};
use ae_base::types::{Enc, Ty};
use std::alloc::{AllocError, Global};
use std::marker::Model;
use wire_parts::atoms::AtomPart;
use wire_parts::copies::{ToOwn, own_parts};
use wire_parts::texts::ParamNamePart;

/// A parameter's declaration, which contracts see as a `ParamDecl`.
pub struct Declaration<'a> {
    name: ParamNamePart<'a>,
    ty: Ty,
}

impl<'a> Drop for Declaration<'a> {
    fn drop(self) {
        let Declaration { name: _, ty: _ } = self;
    }
}

impl<'a> Model for Declaration<'a> {
    ghost use Rattle.ae_base.specs.declared.batches.ParamDecl.{ParamDecl};

    ghost Value = { ParamDecl };

    ghost view = { λ d. record { name = d.name; ty = d.ty } };
}

impl<'a> Declaration<'a> {
    /// The declaration of a name with a type. It takes no memory.
    pub fn new(name: ParamNamePart<'a>, ty: Ty) -> Declaration<'a>
        ensures { result ≡ record { name = name.entry; ty = ty } }
    {
        Declaration { name, ty }
    }

    /// A declaration of one's own. It takes no memory.
    pub fn own(declaration: ParamDecl) -> Declaration<'a>
        ensures { result ≡ declaration }
    {
        Declaration {
            name: ParamNamePart::own(declaration.name),
            ty: declaration.ty,
        }
    }

    /// A declaration that is borrowed. It takes no memory.
    pub fn lent(declaration: &'a ParamDecl) -> Declaration<'a>
        ensures { result ≡ declaration.now }
    {
        Declaration {
            name: ParamNamePart::lent(&declaration.name),
            ty: declaration.ty,
        }
    }

    /// The parameter's name.
    pub fn name(&self) -> &ParamNamePart<'a>
        ensures { result.now ≡ self.now.name }
    {
        &self.name
    }

    /// The parameter's type.
    pub fn ty(&self) -> Ty
        ensures { result ≡ self.now.ty }
    {
        self.ty
    }

    /// An own copy of the declaration.
    pub fn to_declaration(&self, alloc: Global) -> Result<ParamDecl, AllocError>
        ensures { IfOk result (λ copy. copy ≡ self.now) }
    {
        Ok(ParamDecl {
            name: self.name.to_ruled(alloc)?,
            ty: self.ty,
        })
    }
}

/// A parameter as it is sent: its name, its type, how it is encrypted, and its atom.
#[derive(Drop)]
pub struct SentParam<'a> {
    pub name: ParamNamePart<'a>,
    pub ty: Ty,
    pub enc: Enc,
    pub atom: AtomPart<'a>,
}

/// A parameter that a statement uses, and how it is to be encrypted.
#[derive(Drop)]
pub struct UsedParam<'a> {
    pub name: ParamNamePart<'a>,
    pub enc: Enc,
}

/// The declarations that a statement is described with.
pub type DeclarationParts<'a> = ParamList<Declaration<'a>>;

/// The parameters that a statement is executed with.
pub type SentParams<'a> = ParamList<SentParam<'a>>;

/// The parameters that a described statement uses.
pub type UsedParams<'a> = ParamList<UsedParam<'a>>;

impl<'a> Named for Declaration<'a> {
    ghost called = { λ d. d.name };

    fn same_name(&self, other: &Declaration<'a>) -> bool {
        self.name.as_str() == other.name.as_str()
    }
}

impl<'a> Named for SentParam<'a> {
    ghost called = { λ p. p.name };

    fn same_name(&self, other: &SentParam<'a>) -> bool {
        self.name.as_str() == other.name.as_str()
    }
}

impl<'a> Named for UsedParam<'a> {
    ghost called = { λ p. p.name };

    fn same_name(&self, other: &UsedParam<'a>) -> bool {
        self.name.as_str() == other.name.as_str()
    }
}

impl<'a, 'b> ToOwn<Declaration<'b>> for Declaration<'a> {
    ghost same = { λ d. d };

    fn to_own(&self, alloc: Global) -> Result<Declaration<'b>, AllocError> {
        Ok(Declaration {
            name: self.name.to_own(alloc)?,
            ty: self.ty,
        })
    }
}

impl<'a, 'b> ToOwn<SentParam<'b>> for SentParam<'a> {
    ghost same = { λ p. p };

    fn to_own(&self, alloc: Global) -> Result<SentParam<'b>, AllocError> {
        Ok(SentParam {
            name: self.name.to_own(alloc)?,
            ty: self.ty,
            enc: self.enc,
            atom: self.atom.to_own(alloc)?,
        })
    }
}

impl<'a, 'b> ToOwn<UsedParam<'b>> for UsedParam<'a> {
    ghost same = { λ p. p };

    fn to_own(&self, alloc: Global) -> Result<UsedParam<'b>, AllocError> {
        Ok(UsedParam {
            name: self.name.to_own(alloc)?,
            enc: self.enc,
        })
    }
}

/// A copy of parts with names that borrows nothing.
pub(crate) fn own_params<P: Named + ToOwn<T>, T: Named>(
    alloc: Global,
    params: &ParamList<P>,
) -> Result<ParamList<T>, AllocError>
    requires { (p : P) → T.called (P.same p) ≡ P.called p }
    ensures { IfOk result (λ copy. copy ≡ map P.same params.now) }
{
    match ParamList::from_seq(own_parts(alloc, params.as_slice())?) {
        Some(copy) => Ok(copy),
        None => unreachable!(),
    }
}
