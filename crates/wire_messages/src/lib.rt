//! The messages between driver and server. A value of their types meets all that a frame asks, so
//! whoever has one can send it.
#![tactic(auto)]

pub mod columns;
pub mod key_entries;
pub mod key_lists;
pub mod params;
pub mod replies;
pub mod requests;
