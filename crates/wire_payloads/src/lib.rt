//! What frames carry: a request, a reply, or rows of an answer.
#![tactic(auto)]

pub mod payloads;
pub mod versioned;
