//! Encryption types: the sites of a bound statement, the rules that its constructs ask of them, and
//! what a typing is.
#![tactic(auto)]

mod asks;
mod conditions;
pub mod laws;
mod operands;
mod queries;
pub mod rules;
pub mod sites;
pub mod statements;
pub mod typed;
