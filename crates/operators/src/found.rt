//! Rows that were found, beside what orders them.

use ae_base::atoms::Row;
use ae_base::sameness::Same;

/// What a query shows of a row, which it is ordered by.
#[derive(Drop)]
pub struct Found<'a, K: Same> {
    pub row: &'a Row<K>,
    pub shown: Row<K>,
}
