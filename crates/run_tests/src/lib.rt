//! Tests of the commands `run`, `serve` and `drive`: frames byte by byte, recorded runs, cells that are
//! renamed, replies that are changed, the cells of a key that is made again, two sessions of a driver
//! in turn, a rotation among other sessions, and the kinds of texts.
#![tactic(auto)]

#[cfg(test)]
mod among;
#[cfg(test)]
mod devices;
#[cfg(test)]
mod driven;
#[cfg(test)]
mod interleaved;
#[cfg(test)]
mod kinds;
#[cfg(test)]
mod made_again;
#[cfg(test)]
mod recorded;
#[cfg(test)]
mod renamed;
#[cfg(test)]
mod runs;
#[cfg(test)]
mod streams;
