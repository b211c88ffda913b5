//! Conditions.

use crate::operands::Operand;

/// How a comparison compares.
#[derive(Clone, Copy, PartialEq, Eq, Debug)]
pub enum Comparison {
    Equal,
    NotEqual,
    Less,
    LessEqual,
    Greater,
    GreaterEqual,
}

/// A condition. `C` is what names a column, and `P` what names a parameter. Places are offsets in
/// the statement's text.
#[derive(Drop)]
#[cycle(condition)]
pub enum Condition<C, P> {
    /// A comparison, at its operator.
    Compare {
        at: u32,
        comparison: Comparison,
        left: Operand<C, P>,
        right: Operand<C, P>,
    },
    IsNull {
        negated: bool,
        operand: Operand<C, P>,
    },
    /// Equality with one of a list, at the word IN.
    In {
        at: u32,
        negated: bool,
        operand: Operand<C, P>,
        list: Vec<Operand<C, P>>,
    },
    Not(Box<Condition<C, P>>),
    /// Conditions joined by AND.
    AllOf(Vec<Condition<C, P>>),
    /// Conditions joined by OR.
    AnyOf(Vec<Condition<C, P>>),
}
