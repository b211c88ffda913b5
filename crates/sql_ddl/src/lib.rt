//! Definitions of keys and tables, read from tokens.
#![tactic(auto)]

pub mod definitions;
mod key_values;
mod settings;
mod tables;
