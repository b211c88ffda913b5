//! Rows that take the places of others.

/// A row that is to stand in the place of another.
#[derive(Drop)]
pub struct Change<T> {
    pub place: usize,
    pub row: T,
}
