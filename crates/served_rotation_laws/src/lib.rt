//! Rotations over a server, among other sessions: laws over definitions.
#![tactic(auto)]

pub mod laws;
