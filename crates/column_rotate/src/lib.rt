//! The rotation of a table: its rows are moved to another one, whose columns have other keys or
//! other kinds of encryption, and which then takes its place.
#![tactic(auto)]

mod headers;
pub mod laws;
mod parameters;
mod rotations;
mod sent;
mod texts;

pub use rotations::{Next, Rotation};
