//! What the texts of a rotation mean to a server: laws over definitions.
#![tactic(auto)]

pub mod laws;
