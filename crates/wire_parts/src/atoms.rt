//! What is sent for a value, own or borrowed.

ghost use Rattle.std.specs.Prelude.{◌≡◌, ◌≤◌, ◌↔◌, IfOk, IfSome, IsSome, length, encode_utf8_all};
ghost use Rattle.ae_base.specs.declared.atoms.AtomOf.TheVariants as atom;
ghost use Rattle.ae_base.specs.declared.values.Datum.TheVariants.{Num, Text, Bin};
ghost use Rattle.wire_parts.specs.Atoms.{atom_of};
ghost use Rattle.wire_parts.specs.AtomBounds.{IsSendable};

use crate::copies::ToOwn;
use crate::parts::{BlobPart, CellPart, TxtPart};
use ae_base::atoms::{Atom, AtomOf};
use ae_base::cells::Cell;
use ae_base::limits::{MOST_BINARY_BYTES, MOST_CELL_BYTES, MOST_TEXT_BYTES};
use ae_base::values::Datum;
use std::alloc::{AllocError, Global};
use std::marker::Model;

/// What is sent for a value, by case.
#[derive(Drop)]
pub enum AtomCase<'a> {
    Null,
    Num(i64),
    Text(TxtPart<'a>),
    Bin(BlobPart<'a>),
    Sealed(CellPart<'a>),
}

/// What is sent for a value: NULL, the value as it is, or an encrypted one. A text has at most
/// 12,000 bytes, a binary 8,000 and a cell 16,384. Contracts see the atom.
pub struct AtomPart<'a> {
    case: AtomCase<'a>,
}

impl<'a> Drop for AtomPart<'a> {
    fn drop(self) {
        let AtomPart { case: _ } = self;
    }
}

impl<'a> Model for AtomPart<'a> {
    ghost use Rattle.std.specs.Prelude.{List, ℕ};
    ghost use Rattle.ae_base.specs.declared.atoms.AtomOf.{AtomOf};
    ghost use Rattle.wire_parts.specs.Atoms.{atom_of};
    ghost use Rattle.wire_parts.specs.AtomBounds.{IsSendable};

    ghost Value = { AtomOf (List ℕ) };

    ghost view = { λ a. atom_of a.case };

    ghost invariant = { λ a. IsSendable (atom_of a.case) };
}

impl<'a> AtomPart<'a> {
    /// NULL.
    pub fn null() -> AtomPart<'a>
        ensures { result ≡ atom.Null }
    {
        AtomPart {
            case: AtomCase::Null,
        }
    }

    /// A number as it is.
    pub fn number(n: i64) -> AtomPart<'a>
        ensures { result ≡ atom.Plain (Num n) }
    {
        AtomPart {
            case: AtomCase::Num(n),
        }
    }

    /// A text as it is, where it is short enough to be sent. It takes no memory.
    pub fn text(text: TxtPart<'a>) -> Option<AtomPart<'a>>
        ensures atom { IfSome result (λ part. part ≡ atom.Plain (Text text.entry)) }
        ensures exactly { IsSome result ↔ (length (encode_utf8_all text.entry) ≤ 12000) }
    {
        if text.as_str().len() > MOST_TEXT_BYTES {
            return None;
        }
        Some(AtomPart {
            case: AtomCase::Text(text),
        })
    }

    /// A binary as it is, where it is short enough to be sent. It takes no memory.
    pub fn binary(bytes: BlobPart<'a>) -> Option<AtomPart<'a>>
        ensures atom { IfSome result (λ part. part ≡ atom.Plain (Bin bytes.entry)) }
        ensures exactly { IsSome result ↔ (length bytes.entry ≤ 8000) }
    {
        if bytes.as_slice().len() > MOST_BINARY_BYTES {
            return None;
        }
        Some(AtomPart {
            case: AtomCase::Bin(bytes),
        })
    }

    /// An encrypted value, where it is short enough to be sent. It takes no memory.
    pub fn sealed(cell: CellPart<'a>) -> Option<AtomPart<'a>>
        ensures atom { IfSome result (λ part. part ≡ atom.Sealed cell.entry) }
        ensures exactly { IsSome result ↔ (length cell.entry ≤ 16384) }
    {
        if cell.bytes().len() > MOST_CELL_BYTES {
            return None;
        }
        Some(AtomPart {
            case: AtomCase::Sealed(cell),
        })
    }

    /// An own datum, where it is short enough to be sent. It takes no memory.
    pub fn datum(datum: Datum) -> Option<AtomPart<'a>>
        ensures atom { IfSome result (λ part. part ≡ atom.Plain datum) }
        ensures exactly { IsSome result ↔ IsSendable (atom.Plain datum) }
    {
        match datum {
            Datum::Num(n) => Some(AtomPart::number(n)),
            Datum::Text(text) => AtomPart::text(TxtPart::own(text)),
            Datum::Bin(bytes) => AtomPart::binary(BlobPart::own(bytes)),
        }
    }

    /// An own atom, where it is short enough to be sent. It takes no memory.
    pub fn own(atom: Atom<Cell>) -> Option<AtomPart<'a>>
        ensures atom { IfSome result (λ part. part ≡ atom) }
        ensures exactly { IsSome result ↔ IsSendable atom }
    {
        match atom.into_case() {
            AtomOf::Null => Some(AtomPart::null()),
            AtomOf::Plain(datum) => AtomPart::datum(datum),
            AtomOf::Sealed(cell) => AtomPart::sealed(CellPart::own(cell)),
        }
    }

    /// The case.
    pub fn case(&self) -> &AtomCase<'a>
        ensures atom { atom_of result.now ≡ self.now }
        ensures short { IsSendable self.now }
    {
        &self.case
    }

    /// The case, by value. It takes no memory.
    pub fn into_case(self) -> AtomCase<'a>
        ensures atom { atom_of result ≡ self.entry }
        ensures short { IsSendable self.entry }
    {
        let AtomPart { case } = self;
        case
    }

    /// An own copy of the atom.
    pub fn to_atom(&self, alloc: Global) -> Result<Atom<Cell>, AllocError>
        ensures { IfOk result (λ copy. copy ≡ self.now) }
    {
        let case = match &self.case {
            AtomCase::Null => AtomOf::Null,
            AtomCase::Num(n) => AtomOf::Plain(Datum::Num(*n)),
            AtomCase::Text(text) => AtomOf::Plain(Datum::Text(text.to_txt(alloc)?)),
            AtomCase::Bin(bytes) => AtomOf::Plain(Datum::Bin(bytes.to_blob(alloc)?)),
            AtomCase::Sealed(cell) => AtomOf::Sealed(cell.to_cell(alloc)?),
        };
        Ok(Atom::new(case))
    }
}

impl<'a, 'b> ToOwn<AtomPart<'b>> for AtomPart<'a> {
    ghost same = { λ a. a };

    fn to_own(&self, alloc: Global) -> Result<AtomPart<'b>, AllocError> {
        let case = match &self.case {
            AtomCase::Null => AtomCase::Null,
            AtomCase::Num(n) => AtomCase::Num(*n),
            AtomCase::Text(text) => AtomCase::Text(text.to_own(alloc)?),
            AtomCase::Bin(bytes) => AtomCase::Bin(bytes.to_own(alloc)?),
            AtomCase::Sealed(cell) => AtomCase::Sealed(cell.to_own(alloc)?),
        };
        Ok(AtomPart { case })
    }
}
