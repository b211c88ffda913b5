//! What INSERT, UPDATE and DELETE make of the rows of a table.
#![tactic(auto)]

pub mod deletes;
mod filters;
pub mod inserts;
pub mod updates;
