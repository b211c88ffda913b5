//! Tests of frames and of streams of them, by tables of bytes.
#![tactic(auto)]

#[cfg(test)]
mod long;
#[cfg(test)]
mod streams;
#[cfg(test)]
mod tables;
