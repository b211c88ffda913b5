//! The grammar of SQL: which tokens spell which statement, and the readers of it.
#![tactic(auto)]

pub mod laws;
pub mod parts;
pub mod settings;
pub mod types;
