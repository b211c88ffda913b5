//! A peer in memory, which gives listed answers.
#![tactic(auto)]

pub mod exchanges;
pub mod kinds;
pub mod peer;
