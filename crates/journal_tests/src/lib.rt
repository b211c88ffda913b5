//! Disks and journals: what no clause says of them, each of their public calls once with ample
//! memory, and a journal that is stopped at each call of its disk, also while a rotation is added
//! to it and while it is written anew.
#![tactic(auto)]

#[cfg(test)]
mod compactions;
#[cfg(test)]
mod disks;
#[cfg(test)]
mod files;
#[cfg(test)]
mod journals;
#[cfg(test)]
mod noted;
#[cfg(test)]
mod rotations;
#[cfg(test)]
mod served;
#[cfg(test)]
mod stops;
