//! What the messages between driver and server are made of: texts, atoms and keys, each own or
//! borrowed. A value of their types meets what a frame asks of it.
#![tactic(auto)]

pub mod atoms;
pub mod copies;
pub mod keys;
pub mod parts;
pub mod texts;
