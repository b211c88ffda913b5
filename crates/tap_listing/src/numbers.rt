//! Cells numbered by first appearance, class by class.

ghost use Rattle.std.specs.Prelude.{◌≡◌, List, IfOk, OnOk, true};
ghost use Rattle.first_seen.specs.Parts.{Spot, number_in, noted};
ghost use Rattle.scalar.specs.Classes.{Class};
ghost use Rattle.tap_listing.specs.Classes.{classing, is_deterministic};
ghost use Rattle.tap_listing.specs.Tables.{Knows, no_tables};

use crate::classes::CellClass;
use crate::tables::ClassTable;
use ae_base::cells::Cell;
use indexmap::IndexSet;
use std::alloc::{AllocError, Global};
use std::marker::Model;

/// The cells that were seen, in a table for each class. Contracts see the classes, and the cells of
/// each.
pub struct CellNumbers {
    classes: IndexSet<CellClass>,
    tables: Vec<ClassTable>,
}

impl Drop for CellNumbers {
    fn drop(self) {
        let CellNumbers {
            classes: _,
            tables: _,
        } = self;
    }
}

impl Model for CellNumbers {
    ghost use Rattle.std.specs.Prelude.{◌≡◌, length};
    ghost use Rattle.tap_listing.specs.Tables.{Tables};

    ghost Value = { Tables };

    ghost view = { λ n. record { classes = n.classes.keys; cells = n.tables.items } };

    ghost invariant = { λ n. length n.tables.items ≡ length n.classes.keys };
}

impl CellNumbers {
    /// No cell was seen. It takes no memory.
    pub fn new(alloc: Global) -> CellNumbers
        ensures { result ≡ no_tables }
    {
        CellNumbers {
            classes: IndexSet::new(alloc),
            tables: Vec::new(alloc),
        }
    }

    /// The number of a cell of a deterministic class, which is seen from now on. Without memory the
    /// other cells have the numbers that they had.
    pub fn number(
        &mut self,
        alloc: Global,
        class: &CellClass,
        cell: Cell,
    ) -> Result<usize, AllocError>
        requires { is_deterministic class.now ≡ true }
        ensures number { (seen : List (Spot Class)) → Knows self.old seen
            → IfOk result (λ n. n ≡ number_in classing seen class.now cell) }
        ensures seen { (seen : List (Spot Class)) → Knows self.old seen
            → OnOk result (Knows self.new (noted classing seen class.now cell)) }
    {
        self.tables.reserve(1)?;
        let (at, added) = self.classes.insert_full(class.copy())?;
        if added {
            self.tables.push_reserved(ClassTable::new(alloc));
            return self.tables[at].number(cell);
        }
        self.tables[at].number(cell)
    }
}
