//! The least encryption typing of a statement, or the first rule at which its rules clash.
#![tactic(auto)]

mod chains;
mod encs;
pub mod infer;
pub mod laws;
mod reach;
mod sites;
mod steps;
