//! Whether two values are equal, as contracts compare them.

ghost use Rattle.std.specs.Prelude.{◌≡◌, ◌↔◌, IsTrue};

use ae_base::atoms::Atom;
use ae_base::cells::Cell;
use ae_base::keys::EncryptedValue;
use ae_base::lists::Seq;
use ae_base::one_or_two::OneOrTwo;
use ae_base::tables::{ColumnDef, TableDef};
use catalog::keys::{ColumnKey, MasterKey};

/// A value that can be compared with another.
pub(crate) trait Equal {
    /// Whether another is equal.
    fn equals(&self, other: &Self) -> bool
        ensures { IsTrue result ↔ (self.now ≡ other.now) };
}

/// Whether two lists have equal items.
pub(crate) fn equal_items<T: Equal>(items: &[T], others: &[T]) -> bool
    ensures { IsTrue result ↔ (items.now ≡ others.now) }
{
    if items.len() != others.len() {
        return false;
    }
    'items: for i in 0..items.len() {
        if !items[i].equals(&others[i]) {
            return false;
        }
    }
    true
}

impl<T: Equal> Equal for Seq<T> {
    fn equals(&self, other: &Seq<T>) -> bool {
        equal_items(self.as_slice(), other.as_slice())
    }
}

impl Equal for usize {
    fn equals(&self, other: &usize) -> bool {
        *self == *other
    }
}

impl Equal for Atom<Cell> {
    fn equals(&self, other: &Atom<Cell>) -> bool {
        self.alike(other)
    }
}

impl Equal for ColumnDef {
    fn equals(&self, other: &ColumnDef) -> bool {
        self.name == other.name
            && self.ty == other.ty
            && self.enc == other.enc
            && self.not_null == other.not_null
    }
}

impl Equal for TableDef {
    fn equals(&self, other: &TableDef) -> bool {
        self.name == other.name
            && self.columns.equals(&other.columns)
            && self.uniques.equals(&other.uniques)
    }
}

impl Equal for MasterKey {
    fn equals(&self, other: &MasterKey) -> bool {
        self.name == other.name && self.path == other.path
    }
}

impl Equal for EncryptedValue {
    fn equals(&self, other: &EncryptedValue) -> bool {
        self.master == other.master && self.wrapped == other.wrapped
    }
}

impl<T: Equal> Equal for OneOrTwo<T> {
    fn equals(&self, other: &OneOrTwo<T>) -> bool {
        if !self.first.equals(&other.first) {
            return false;
        }
        match (&self.second, &other.second) {
            (None, None) => true,
            (Some(second), Some(another)) => second.equals(another),
            _ => false,
        }
    }
}

impl Equal for ColumnKey {
    fn equals(&self, other: &ColumnKey) -> bool {
        self.id == other.id && self.name == other.name && self.values.equals(&other.values)
    }
}
