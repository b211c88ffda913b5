//! The printed text of outcomes, and counts of them.
#![tactic(auto)]

pub mod tallies;
pub mod texts;
