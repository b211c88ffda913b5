//! The values of Herdcentury: texts, types, data, cells, atoms, rows, faults and batches, and what
//! each of them means in a contract.
#![tactic(auto)]

pub mod atoms;
pub mod batches;
pub mod blobs;
pub mod cells;
pub mod faults;
pub mod frames;
pub mod key_values;
pub mod keys;
pub mod limits;
pub mod lists;
pub mod names;
pub mod one_or_two;
pub mod params;
pub mod refusals;
pub mod ruled;
pub mod sameness;
pub mod sessions;
pub mod tables;
pub mod texts;
pub mod types;
pub mod uniques;
pub mod values;
pub mod versions;
