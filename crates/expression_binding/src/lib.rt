//! The scopes of a statement, and its operands and conditions bound over them.
#![tactic(auto)]

mod boxes;
pub mod conditions;
pub mod operands;
pub mod scopes;
