//! The bodies of messages, read from bytes: lists of parts, faults, and each kind of message.
#![tactic(auto)]

mod bodies;
mod faults;
mod found;
mod listing;
mod rows;

pub use bodies::{payload_body_of, request_body_of};
pub use found::Body;
