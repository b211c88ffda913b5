//! The command `view`: a recording of frames as text, or as a page, for one who has no key.
#![tactic(auto)]

pub mod commands;
mod frames;
mod held;
pub mod laws;
mod pages;
mod pieces;
pub mod words;
