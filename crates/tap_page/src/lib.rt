//! The page that a listing is put on: what stands before its frames, and behind them.
#![tactic(auto)]

mod pages;

pub use pages::{foot, head};
