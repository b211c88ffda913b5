//! Look-ups: which rows of a table a conjunction asks for by a unique key, and which conditions
//! can't overflow.
#![tactic(auto)]

pub mod conjuncts;
pub mod finding;
pub mod reach;
pub mod uniques;
