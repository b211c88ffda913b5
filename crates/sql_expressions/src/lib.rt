//! Lists, operands and conditions, read from tokens.
#![tactic(auto)]

pub mod conditions;
pub mod cursor;
pub mod operands;
pub mod reading;
