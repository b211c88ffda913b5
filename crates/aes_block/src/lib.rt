//! AES-256, the block cipher of FIPS 197 with keys of 32 bytes, proved equal to the standard's
//! definitions both ways. Nothing here takes memory or fails.
#![tactic(auto)]

mod bytes;
mod cipher;
mod columns;
mod eights;
mod inv_mix;
mod inv_sbox;
mod key;
mod laws;
mod planes;
mod round_keys;
mod rounds;
mod state;
mod tables;
mod turning;

pub use bytes::xor;
pub use cipher::{Aes256, Decryptor};
pub use laws::each_undoes_the_other;
