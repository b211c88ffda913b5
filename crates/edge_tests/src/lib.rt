//! The values of the base and the devices of the edge: what no clause says of them, and each of their public calls
//! once with ample memory.
#![tactic(auto)]

#[cfg(test)]
mod adapters;
#[cfg(test)]
mod base;
#[cfg(test)]
mod devices;
