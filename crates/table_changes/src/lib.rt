//! What an UPDATE changes in a table, and what a DELETE drops: where WHERE gives a unique key, the
//! rows of that key alone are asked.
#![tactic(auto)]

pub mod deletes;
mod filters;
mod found;
pub mod updates;
