//! Column encryption keys, opened by the master keys of a vault: at most 8 of them are kept, each
//! under its master key's path and its wrapped bytes.
#![tactic(auto)]

mod faults;
mod laws;
mod opening;
mod stores;

pub use faults::{KeyFault, OpenFault};
pub use laws::opened_are_keys;
pub use stores::KeyStore;
