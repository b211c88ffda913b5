//! What is the same of worlds, statements and answers whose protected cells differ by a renaming
//! alone: definitions, and laws over them.
#![tactic(auto)]

pub mod laws;
