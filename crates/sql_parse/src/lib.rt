//! The statement that a text spells, or the first fault of the text.
#![tactic(auto)]

mod limits;
pub mod parsing;
mod queries;
mod statements;

pub use parsing::parse;
