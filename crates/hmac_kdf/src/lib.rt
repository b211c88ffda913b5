//! HMAC-SHA-256 (RFC 2104), and the three keys that Always Encrypted derives from a column
//! encryption key.
#![tactic(auto)]

pub mod keys;
pub mod mac;

pub use keys::CellKeys;
pub use mac::Mac;
