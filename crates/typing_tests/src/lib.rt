//! Inference beside a search of every typing, over small statements.
#![tactic(auto)]

#[cfg(test)]
mod beside;
#[cfg(test)]
mod cases;
#[cfg(test)]
mod makers;
#[cfg(test)]
mod search;
#[cfg(test)]
mod small;
