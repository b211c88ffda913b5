//! Stored values are proper, from the texts of statements on: laws over definitions.
#![tactic(auto)]

pub mod laws;
