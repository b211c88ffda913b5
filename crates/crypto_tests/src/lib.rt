//! The words of the cryptographic definitions against values from outside, each public call of those crates once with
//! ample memory, and the opening and the wrapping of column keys.
#![tactic(auto)]

#[cfg(test)]
mod cells;
#[cfg(test)]
mod ciphers;
#[cfg(test)]
mod codes;
#[cfg(test)]
mod makers;
#[cfg(test)]
mod opening;
#[cfg(test)]
mod values;
#[cfg(test)]
mod wrapping;
