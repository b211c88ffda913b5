//! Tests of the command `view`: a recording as a page, and one that can't be read to its end.
#![tactic(auto)]

#[cfg(test)]
mod recordings;
