//! The words of SQL: tokens, the statement trees that they spell, and the bound trees in which
//! each name is a place.
#![tactic(auto)]

pub mod bound;
pub mod conditions;
mod fronts;
mod gaps;
pub mod lexemes;
pub mod operands;
mod quoted;
pub mod sorts;
pub mod statements;
pub mod tokens;
pub mod words;
