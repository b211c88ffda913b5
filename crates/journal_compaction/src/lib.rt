//! The compaction of a journal: its definitions, and the rows that its tables have, as records that
//! lead to the same tables.
#![tactic(auto)]

mod checking;
pub mod commands;
mod definitions;
mod equality;
mod finding;
mod inserts;
pub mod laws;
mod records;
mod statements;
mod worlds;
mod writing;
