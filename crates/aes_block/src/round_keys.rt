//! Round keys as planes.

// Each round key stands in planes once for all eight blocks.

ghost use Rattle.std.specs.Prelude.{◌≡◌, ℕ, ◌<◌};
ghost use Rattle.aes_block.specs.Columns.{state_of, words_of};
ghost use Rattle.aes_block.specs.Planes.{block_in};
ghost use Rattle.aes_block.specs.RoundKeys.{AreRoundKeys, masked, masked_key, round_key};

use crate::planes::Plane;
use crate::state::block_of;
use crate::turning::rows_of;
use std::simd::u8x16;

/// The round keys that these key words have, in planes.
pub(crate) fn round_keys(words: &[u32; 60]) -> [[Plane; 8]; 15]
    ensures { AreRoundKeys (words_of words.now) result }
{
    let mut keys = [[Plane::from_array([0; 16]); 8]; 15];
    for round in 0..15 {
        keys[round] = key_planes(masked_key(words, round));
    }
    keys
}

/// The planes of eight blocks that are all this key.
fn key_planes(key: [u8; 16]) -> [Plane; 8]
    ensures { (j : ℕ) → j < 8 → block_in result j ≡ key }
{
    let rows = rows_of(key);
    [
        rows.spread(0),
        rows.spread(1),
        rows.spread(2),
        rows.spread(3),
        rows.spread(4),
        rows.spread(5),
        rows.spread(6),
        rows.spread(7),
    ]
}

/// A round key, to which 0x63 is added unless it is the last that is added.
fn masked_key(words: &[u32; 60], round: usize) -> [u8; 16]
    requires { round < 15 }
    ensures { result ≡ masked_key (words_of words.now) round }
{
    let key = round_key(words, round);
    if round == 0 { key } else { masked(key) }
}

/// The key words of a round as a block.
fn round_key(words: &[u32; 60], round: usize) -> [u8; 16]
    requires { round < 15 }
    ensures { result ≡ round_key (words_of words.now) round }
{
    block_of([
        words[4 * round],
        words[4 * round + 1],
        words[4 * round + 2],
        words[4 * round + 3],
    ])
}

/// 0x63 added to each byte.
fn masked(block: [u8; 16]) -> [u8; 16]
    ensures { result ≡ masked block }
{
    (u8x16::from_array(block) ^ u8x16::splat(0x63)).to_array()
}
