//! The rotation of a table at a peer that other sessions ask too.
#![tactic(auto)]

mod among_connection;
pub mod frames;
pub mod rotating;
