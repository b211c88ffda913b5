//! What is the same of frames whose rows differ by a renaming of cells alone: definitions, and a
//! law over them.
#![tactic(auto)]

pub mod laws;
