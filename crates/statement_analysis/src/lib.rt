//! What a server says about a statement without executing it: its meaning in a catalog, what
//! Describe answers, whether its parameters fit, and why it is refused.
#![tactic(auto)]

pub mod describing;
pub mod explaining;
pub mod keys;
pub mod kinds;
pub mod meaning;
pub mod params;
pub mod values;
