//! The value of an operand in a row, and the truth of a condition.
#![tactic(auto)]

pub mod conditions;
pub mod faults;
pub mod laws;
mod lent;
pub mod operands;
pub mod rows;
pub mod truth;
