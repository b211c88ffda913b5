//! The words of the command line, which `clap` reads, and the status with which it ends.
#![tactic(auto)]

pub mod commands;
mod programs;
pub mod status;
