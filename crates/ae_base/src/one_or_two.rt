//! One thing or two, in their order.

use crate::lists::Duplicate;
use std::alloc::AllocError;

/// One thing, or two in their order, as the values of a column encryption key are.
#[derive(Drop)]
pub struct OneOrTwo<T> {
    pub first: T,
    pub second: Option<T>,
}

impl<T: Duplicate> Duplicate for OneOrTwo<T> {
    fn copy(&self) -> Result<OneOrTwo<T>, AllocError> {
        let first = self.first.copy()?;
        let second = match &self.second {
            Some(second) => Some(second.copy()?),
            None => None,
        };
        Ok(OneOrTwo { first, second })
    }
}
