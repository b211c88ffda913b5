//! Cells: a value as it is sealed, in bytes.

ghost use Rattle.std.specs.Prelude.{◌≡◌, ◌==◌, List, ℕ, IfOk, length, slice_index, refl};
ghost use Rattle.std.specs.Str.{bytes_eq};
ghost use Rattle.std.specs.Hash as fed;
ghost use Rattle.std.specs.Cmp.Lexicographic.{nat_list_eq_equiv};
ghost use Rattle.std.specs.Cmp.{partial_equiv_from_equiv};
ghost use Rattle.std.specs.Cmp.Rules.{hashing};
ghost use Rattle.std.proofs.Common.{rules};

use crate::sameness::Same;
use std::alloc::{AllocError, Global};
use std::hash::{Hash, Hasher};
use std::marker::Model;
use std::rc::RcSlice;

/// An encrypted value, which stands for its bytes. The codec of cells and the frames alone see
/// them; everybody else has sameness, the length and the first byte. Copies share the bytes.
pub struct Cell {
    bytes: RcSlice<u8>,
}

impl Drop for Cell {
    fn drop(self) {
        let Cell { bytes: _ } = self;
    }
}

impl Model for Cell {
    ghost Value = { List ℕ };

    ghost view = { λ c. c.bytes.items.value.items };
}

impl Cell {
    /// The cell of some bytes.
    pub fn from_bytes(alloc: Global, bytes: &[u8]) -> Result<Cell, AllocError>
        ensures { IfOk result (λ cell. cell ≡ bytes.now) }
    {
        Ok(Cell {
            bytes: RcSlice::from_slice(alloc, bytes)?,
        })
    }

    /// The bytes of the cell.
    pub fn bytes(&self) -> &[u8]
        ensures { result.now ≡ self.now }
    {
        self.bytes.as_slice()
    }

    /// Whether another cell has the same bytes.
    pub fn same(&self, other: &Cell) -> bool
        ensures { result ≡ bytes_eq self.now other.now }
    {
        *self == *other
    }

    /// How many bytes the cell has.
    pub fn len(&self) -> usize
        ensures { result ≡ length self.now }
    {
        self.bytes.len()
    }

    /// Whether the cell has no bytes.
    pub fn is_empty(&self) -> bool
        ensures { result ≡ (length self.now == 0) }
    {
        self.bytes.len() == 0
    }

    /// The first byte, or 0 where there is none.
    pub fn lead(&self) -> u8
        ensures { result ≡ slice_index self.now 0 }
    {
        match self.bytes.as_slice() {
            [] => 0,
            [first, ..] => *first,
        }
    }
}

impl PartialEq for Cell {
    ghost eq = { bytes_eq };

    ghost laws = { partial_equiv_from_equiv nat_list_eq_equiv };

    fn eq(&self, other: &Cell) -> bool {
        self.bytes == other.bytes
    }
}

impl Eq for Cell {
    ghost laws = { nat_list_eq_equiv };
}

impl Hash for Cell {
    ghost hash_input = { fed.slice fed.u8 };

    ghost respects_eq = { Prim.search (hashing, rules) };

    fn hash<H: Hasher>(&self, state: &mut H) {
        self.bytes.hash(state);
    }
}

impl Same for Cell {
    ghost stands = { λ c. c };

    ghost fed = { fed.slice fed.u8 };

    ghost same_where = { λ x y. refl };

    ghost hashed = { λ x. refl };

    fn copy(&self) -> Result<Cell, AllocError> {
        Ok(Cell {
            bytes: self.bytes.clone()?,
        })
    }
}
