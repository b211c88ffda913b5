//! The fault of a sum past 64 bits.

/// A sum leaves 64 bits.
#[derive(Clone, Copy, PartialEq, Eq, Debug)]
pub struct Overflow;
