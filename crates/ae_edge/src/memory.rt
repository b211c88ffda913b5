//! Devices in memory. Each fails at the calls of the listed numbers, from 0, and exposes its
//! content; with an empty list it never fails.

pub mod calls;
pub mod entropy;
pub mod sink;
pub mod source;
pub mod vault;
