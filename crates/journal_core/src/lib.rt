//! A journal: a file of records, each of which is on the disk before it is answered. A record is
//! one or more frames of requests to execute a statement.
#![tactic(auto)]

pub mod entries;
pub mod journal;
pub mod laws;
pub mod mounting;
mod reading;
pub mod records;
mod scanning;
#[cfg(test)]
mod tests;
