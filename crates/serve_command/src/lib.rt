//! The command `serve`: requests are read from a stream of frames, and each is answered before the
//! next is looked at.
#![tactic(auto)]

pub mod answering;
pub mod answers;
pub mod commands;
pub mod inputs;
pub mod laws;
mod turns;
