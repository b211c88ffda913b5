//! Unique keys: whether two rows are alike on one, by an index of each.
#![tactic(auto)]

pub mod index;
pub mod keys;
