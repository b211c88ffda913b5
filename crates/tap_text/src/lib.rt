//! Frames of a recording as text, or as lines of a page: cells of protected columns by their number
//! and their length, all else as it is.
#![tactic(auto)]

mod atoms;
mod rows;
mod signs;
mod texts;
mod words;

pub use texts::push_frame;
