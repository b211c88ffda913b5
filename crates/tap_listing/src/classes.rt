//! Classes of cells.

ghost use Rattle.std.specs.Prelude.{◌≡◌};
ghost use Rattle.enc_types.specs.Typing.{ty_eq};
ghost use Rattle.scalar.specs.Classes.{class_of};
ghost use Rattle.tap_listing.specs.Classes.{class_code, kind_of, type_code};

use ae_base::types::{Enc, Ty};
use std::hash::{Hash, Hasher};
use std::marker::Model;

/// How the cells of a class are shown.
#[derive(Clone, Copy, PartialEq, Eq, Debug)]
pub enum Kind {
    /// As they are, since nothing is protected there.
    Open,
    /// By number: equal cells have one.
    Deterministic,
    /// By length alone.
    Randomized,
}

/// The class of a column or a parameter: its declared type, and how it is encrypted. Contracts see
/// the class.
pub struct CellClass {
    ty: Ty,
    enc: Enc,
}

impl Drop for CellClass {
    fn drop(self) {
        let CellClass { ty: _, enc: _ } = self;
    }
}

impl Model for CellClass {
    ghost use Rattle.scalar.specs.Classes.{Class, class_of};

    ghost Value = { Class };

    ghost view = { λ c. class_of c.ty c.enc };
}

impl CellClass {
    /// The class of a type and an encryption.
    pub fn new(ty: Ty, enc: Enc) -> CellClass
        ensures { result ≡ class_of ty enc }
    {
        CellClass { ty, enc }
    }

    /// How its cells are shown.
    pub fn kind(&self) -> Kind
        ensures { result ≡ kind_of self.now }
    {
        match self.enc {
            Enc::Plain => Kind::Open,
            Enc::Det(_) => Kind::Deterministic,
            Enc::Rnd(_) => Kind::Randomized,
        }
    }

    /// Its type and its encryption.
    pub fn parts(&self) -> (Ty, Enc)
        ensures { class_of result.0 result.1 ≡ self.now }
    {
        (self.ty, self.enc)
    }

    /// The same class.
    pub fn copy(&self) -> CellClass
        ensures { result ≡ self.now }
    {
        CellClass {
            ty: self.ty,
            enc: self.enc,
        }
    }
}

fn same_type(s: Ty, t: Ty) -> bool
    ensures { result ≡ ty_eq s t }
{
    s == t
}

impl PartialEq for CellClass {
    ghost use Rattle.tap_listing.specs.Classes.{class_eq};
    ghost use Rattle.tap_listing.specs.ClassLaws.{class_eq-Decides};
    ghost use Rattle.std.specs.Cmp.{partial_equiv_from_equiv, decided};

    ghost eq = { class_eq };

    ghost laws = { partial_equiv_from_equiv (decided class_eq class_eq-Decides) };

    fn eq(&self, other: &CellClass) -> bool {
        match self.enc {
            Enc::Plain => matches!(other.enc, Enc::Plain),
            Enc::Det(key) => match other.enc {
                Enc::Det(second) => {
                    key.number() == second.number() && same_type(self.ty, other.ty)
                }
                Enc::Plain | Enc::Rnd(_) => false,
            },
            Enc::Rnd(key) => match other.enc {
                Enc::Rnd(second) => {
                    key.number() == second.number() && same_type(self.ty, other.ty)
                }
                Enc::Plain | Enc::Det(_) => false,
            },
        }
    }
}

impl Eq for CellClass {
    ghost use Rattle.tap_listing.specs.Classes.{class_eq};
    ghost use Rattle.tap_listing.specs.ClassLaws.{class_eq-Decides};
    ghost use Rattle.std.specs.Cmp.{decided};

    ghost laws = { decided class_eq class_eq-Decides };
}

/// A number of a type: each has one of its own.
fn type_code(ty: Ty) -> u32
    ensures { result ≡ type_code ty }
{
    match ty {
        Ty::Int => 0,
        Ty::BigInt => 1,
        Ty::NVarChar(size) => 65_536 + u32::from(size.number()),
        Ty::VarBinary(size) => 131_072 + u32::from(size.number()),
    }
}

/// A number of a class, which is hashed for it.
fn class_code(class: &CellClass) -> u64
    ensures { result ≡ class_code class.now }
{
    match class.enc {
        Enc::Plain => 0,
        Enc::Det(key) | Enc::Rnd(key) => {
            4_294_967_296 * u64::from(key.number()) + u64::from(type_code(class.ty))
        }
    }
}

impl Hash for CellClass {
    ghost use Rattle.std.proofs.Common.{ap};
    ghost use Rattle.std.specs.Hash as fed;
    ghost use Rattle.tap_listing.specs.Classes.{class_code};
    ghost use Rattle.tap_listing.specs.ClassLaws.{class_eq-Decides};

    ghost hash_input = { λ c. fed.u64 (class_code c) };

    ghost respects_eq = { λ c d h. ap (λ e. fed.u64 (class_code e)) ((class_eq-Decides c d).0 h) };

    fn hash<H: Hasher>(&self, state: &mut H) {
        class_code(self).hash(state);
    }
}
