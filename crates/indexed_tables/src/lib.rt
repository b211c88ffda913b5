//! Tables: rows in pages, with an index for each unique key.
#![tactic(auto)]

mod exchanges;
mod keys_set;
pub mod lending;
pub mod tables;
