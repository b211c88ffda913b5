//! The outside of Herdcentury: sources, sinks, vaults of master keys and random sources, which
//! count their faults; in memory, where they tell what they hold, and over std, where they don't.
#![tactic(auto)]

pub mod adapters;
pub mod entropies;
pub mod memory;
pub mod sinks;
pub mod sources;
pub mod streams;
pub mod vaults;
