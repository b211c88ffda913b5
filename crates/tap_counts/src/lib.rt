//! What one without a key can count in a recording: how many NULLs, plain values and cells there
//! were of each class, and which cells of a deterministic class came most often.
#![tactic(auto)]

mod lines;
mod places;
mod tallies;

pub use lines::push_tally;
pub use places::count_frame;
pub use tallies::Tally;
