//! The laws of listings: what a recording of frames shows, with nothing more and nothing less.
#![tactic(auto)]

pub mod laws;
