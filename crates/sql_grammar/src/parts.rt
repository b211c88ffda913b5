//! The parts of CREATE TABLE between commas.

use sql_tree::statements::{ColumnSpec, UniqueSpec};

/// A part of a table's definition.
#[derive(Drop)]
pub enum TablePart {
    Column(ColumnSpec),
    Unique(UniqueSpec),
}
