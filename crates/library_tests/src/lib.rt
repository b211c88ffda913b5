//! Tests that call the two ends as a program of one's own does: batches with parameters, and the
//! rotation of a table.
#![tactic(auto)]

#[cfg(test)]
mod batches;
#[cfg(test)]
mod ends;
#[cfg(test)]
mod patients;
#[cfg(test)]
mod rotating;
