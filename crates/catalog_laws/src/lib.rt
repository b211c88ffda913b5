//! A server's catalogs follow one another, so key numbers aren't used again: laws over definitions.
#![tactic(auto)]

pub mod laws;
