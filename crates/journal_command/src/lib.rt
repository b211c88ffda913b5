//! The command `serve --journal`: a server that is durable. What a request changes is on the disk
//! before its replies are put, and is served again at the next start.
#![tactic(auto)]

pub mod commands;
mod durable;
pub mod endings;
mod keepers;
mod replies;
pub mod restarts;
