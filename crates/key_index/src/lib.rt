//! The numbers of rows, found by what they have in the columns of a key.
#![tactic(auto)]

pub mod index;
pub mod keys;
mod levels;
pub mod lookups;
