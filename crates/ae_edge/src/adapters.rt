//! Devices over std and over generators of random numbers. They count their faults, and don't tell
//! what they hold.

pub mod entropy;
pub mod file;
pub mod folder;
mod interrupts;
pub mod key_files;
pub mod sink;
pub mod source;
