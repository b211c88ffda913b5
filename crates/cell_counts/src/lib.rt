//! How often what stands at the places of a class came: NULLs, plain values, and cells, which are
//! counted by number where they have one.
#![tactic(auto)]

mod counts;
mod frequent;

pub use counts::{Counts, Shown};
pub use frequent::{Common, commonest};
