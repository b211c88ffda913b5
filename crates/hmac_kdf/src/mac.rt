//! HMAC-SHA-256 (RFC 2104).

ghost use Rattle.std.specs.Prelude.{◌≡◌, ◌≤◌, List, ℕ, [], ◌++◌, length};
ghost use Rattle.hmac_kdf.specs.Hmac.{hmac, key_block, padded_with, zero_filled};

use sha2::{Digest, Sha256};

// The length in bytes of a block of SHA-256.
const BLOCK_LENGTH: usize = 64;

// The byte that ipad repeats.
const INNER_PAD: u8 = 0x36;

// The byte that opad repeats.
const OUTER_PAD: u8 = 0x5c;

/// An HMAC-SHA-256 (RFC 2104) under way: a key, and the message so far.
///
/// The result does not depend on how the message is cut into pieces. No call takes memory.
#[derive(Drop)]
pub struct Mac {
    inner: Sha256,
    outer: Sha256,
}

#[tactic(auto, unfolding(crate::specs::Holding::Holds, crate::specs::Hmac::hmac))]
impl Mac {
    ghost use Rattle.hmac_kdf.specs.Holding.{Holds};

    /// Begins a message under `key`, which may have any length: of a key longer than the 64 bytes
    /// of a block its SHA-256 digest is used (RFC 2104 section 2).
    pub fn new(key: &[u8]) -> Mac
        ensures { Holds result key.now [] }
    {
        let block = key_block(key);
        Mac {
            inner: Sha256::new_with_prefix(padded_with(INNER_PAD, &block)),
            outer: Sha256::new_with_prefix(padded_with(OUTER_PAD, &block)),
        }
    }

    /// The same message under the same key, to go on from.
    pub fn copy(&self) -> Mac
        ensures { result ≡ self.now }
    {
        Mac {
            inner: self.inner.clone().unwrap(),
            outer: self.outer.clone().unwrap(),
        }
    }

    /// Adds `piece` to the end of the message.
    pub fn add(&mut self, piece: &[u8])
        ensures { (key message : List ℕ) → Holds self.old key message
            → Holds self.new key (message ++ piece.now) }
    {
        self.inner.update(piece);
    }

    /// The HMAC of the message under the key (RFC 2104 section 2).
    pub fn finish(self) -> [u8; 32]
        ensures { (key message : List ℕ) → Holds self key message → result ≡ hmac key message }
    {
        let Mac { inner, outer } = self;
        outer.chain_update(inner.finalize()).finalize()
    }
}

// The key as one block of the hash function (RFC 2104 section 2).
fn key_block(key: &[u8]) -> [u8; BLOCK_LENGTH]
    ensures { result ≡ key_block key.now }
{
    if key.len() > BLOCK_LENGTH {
        zero_filled(&Sha256::digest(key))
    } else {
        zero_filled(key)
    }
}

// The bytes with zeros after them up to a block.
fn zero_filled(bytes: &[u8]) -> [u8; BLOCK_LENGTH]
    requires { length bytes.now ≤ BLOCK_LENGTH }
    ensures { result ≡ zero_filled bytes.now }
{
    let mut block = [0; BLOCK_LENGTH];
    block[..bytes.len()].copy_from_slice(bytes);
    block
}

// The exclusive or of the block with the pad's byte repeated.
fn padded_with(pad: u8, block: &[u8; BLOCK_LENGTH]) -> [u8; BLOCK_LENGTH]
    ensures { result ≡ padded_with pad block.now }
{
    let mut padded = *block;
    for byte in &mut padded {
        *byte ^= pad;
    }
    padded
}
