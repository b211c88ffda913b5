//! What a durable server records of requests: definitions, and laws over them.
#![tactic(auto)]

pub mod laws;
