//! Eight blocks decrypted side by side.

// The equivalent inverse cipher (FIPS 197, section 5.3.5) of eight blocks at once, bit by bit: no
// table is read, so neither the time nor the memory that is touched depends on the blocks.

ghost use Rattle.std.specs.Prelude.{◌≡◌, List, ℕ, map};
ghost use Rattle.std.specs.List.{All};
ghost use Rattle.aes_block.specs.Aes.{IsBlock};
ghost use Rattle.aes_block.specs.Equivalent.{equivalent_cipher};
ghost use Rattle.aes_block.specs.RoundKeys.{AreRoundKeys};

use crate::inv_mix::inv_mixed;
use crate::inv_sbox::inv_substituted;
use crate::planes::{Plane, inv_shifted, summed};
use crate::turning::{blocks_of, planes_of};

/// EqInvCipher of each block.
pub(crate) fn equivalent_ciphers(keys: &[[Plane; 8]; 15], blocks: &[[u8; 16]; 8]) -> [[u8; 16]; 8]
    ensures value { (words : List (List ℕ)) → AreRoundKeys words keys.now
        → result ≡ map (equivalent_cipher words) blocks.now }
    ensures are_blocks { All IsBlock blocks.now }
{
    let mut planes = summed(planes_of(blocks), &keys[14]);
    for round in (1..14).rev() {
        planes = summed(
            inv_mixed(inv_shifted(inv_substituted(planes))),
            &keys[round],
        );
    }
    blocks_of(summed(inv_shifted(inv_substituted(planes)), &keys[0]))
}
