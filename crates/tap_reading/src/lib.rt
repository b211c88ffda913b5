//! The frames of a recording, of either direction and version, from bytes.
#![tactic(auto)]

mod decoding;

pub use decoding::decode;
