//! What the server knows of keys and tables: lists in the order of their definitions, and a
//! version.
#![tactic(auto)]

pub mod catalogs;
pub mod effects;
pub mod keys;
pub mod laws;
