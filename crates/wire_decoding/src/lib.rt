//! The fields of messages, read from bytes.
#![tactic(auto)]

pub mod checks;
pub mod reading;
