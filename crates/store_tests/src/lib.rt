//! Tests of rows in pages, of the index of a key, and of a join by keys.
#![tactic(auto)]

#[cfg(test)]
mod indexes;
#[cfg(test)]
mod joins;
#[cfg(test)]
mod pages;
#[cfg(test)]
mod tables;
