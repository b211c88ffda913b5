//! States, and what a round does to one.

// The state in four columns of 32 bits, and a round's transformations of it.

ghost use Rattle.std.specs.Prelude.{◌≡◌, ◌<◌, ◌++◌};
ghost use Rattle.aes_block.specs.Aes.{IsBlock, add_round_key, inv_shift_rows, inv_sub_bytes, mix_columns, shift_rows, sub_bytes};
ghost use Rattle.aes_block.specs.Columns.{state_of, word_of, words_of};
ghost use Rattle.aes_block.specs.Equivalent.{equivalent_round};

use crate::columns::{
    column, inv_mixed_column, inv_substituted_column, mixed_column, substituted_column,
};

/// The block's columns.
pub(crate) fn columns_of(block: &[u8; 16]) -> [u32; 4]
    ensures state { state_of result ≡ block.now }
    ensures is_block { IsBlock block.now }
{
    [
        column([block[0], block[1], block[2], block[3]]),
        column([block[4], block[5], block[6], block[7]]),
        column([block[8], block[9], block[10], block[11]]),
        column([block[12], block[13], block[14], block[15]]),
    ]
}

/// The block of these columns.
#[tactic(auto, unfolding(crate::specs::Columns::state_of, crate::specs::Columns::word_of))]
pub(crate) fn block_of(columns: [u32; 4]) -> [u8; 16]
    ensures { result ≡ state_of columns }
{
    let [a0, a1, a2, a3, b0, b1, b2, b3] = bytes_of(columns[0], columns[1]);
    let [c0, c1, c2, c3, d0, d1, d2, d3] = bytes_of(columns[2], columns[3]);
    [
        a0, a1, a2, a3, b0, b1, b2, b3, c0, c1, c2, c3, d0, d1, d2, d3,
    ]
}

/// The bytes of two columns, which are written as one number.
#[tactic(auto, unfolding(crate::specs::Columns::word_of))]
fn bytes_of(first: u32, second: u32) -> [u8; 8]
    ensures { result ≡ word_of first ++ word_of second }
{
    (first as u64 + ((second as u64) << 32)).to_le_bytes()
}

/// SubBytes, ShiftRows, MixColumns and AddRoundKey (FIPS 197, sections 5.1.1 to 5.1.4).
pub(crate) fn mixed(words: &[u32; 60], round: usize, s: [u32; 4]) -> [u32; 4]
    requires { round < 15 }
    ensures { state_of result ≡ add_round_key (words_of words.now) round
        (mix_columns (shift_rows (sub_bytes (state_of s)))) }
{
    [
        mixed_column(s[0], s[1], s[2], s[3], words[4 * round]),
        mixed_column(s[1], s[2], s[3], s[0], words[4 * round + 1]),
        mixed_column(s[2], s[3], s[0], s[1], words[4 * round + 2]),
        mixed_column(s[3], s[0], s[1], s[2], words[4 * round + 3]),
    ]
}

/// SubBytes and ShiftRows.
pub(crate) fn substituted(s: [u32; 4]) -> [u32; 4]
    ensures { state_of result ≡ shift_rows (sub_bytes (state_of s)) }
{
    [
        substituted_column(s[0], s[1], s[2], s[3]),
        substituted_column(s[1], s[2], s[3], s[0]),
        substituted_column(s[2], s[3], s[0], s[1]),
        substituted_column(s[3], s[0], s[1], s[2]),
    ]
}

/// InvSubBytes, InvShiftRows, InvMixColumns and AddRoundKey (sections 5.3.1 to 5.3.4).
pub(crate) fn inv_mixed(words: &[u32; 60], round: usize, s: [u32; 4]) -> [u32; 4]
    requires { round < 15 }
    ensures { state_of result ≡ equivalent_round (words_of words.now) round (state_of s) }
{
    [
        inv_mixed_column(s[0], s[3], s[2], s[1], words[4 * round]),
        inv_mixed_column(s[1], s[0], s[3], s[2], words[4 * round + 1]),
        inv_mixed_column(s[2], s[1], s[0], s[3], words[4 * round + 2]),
        inv_mixed_column(s[3], s[2], s[1], s[0], words[4 * round + 3]),
    ]
}

/// InvSubBytes and InvShiftRows.
pub(crate) fn inv_substituted(s: [u32; 4]) -> [u32; 4]
    ensures { state_of result ≡ inv_shift_rows (inv_sub_bytes (state_of s)) }
{
    [
        inv_substituted_column(s[0], s[3], s[2], s[1]),
        inv_substituted_column(s[1], s[0], s[3], s[2]),
        inv_substituted_column(s[2], s[1], s[0], s[3]),
        inv_substituted_column(s[3], s[2], s[1], s[0]),
    ]
}

/// AddRoundKey (section 5.1.4).
pub(crate) fn add_round_key(words: &[u32; 60], round: usize, s: [u32; 4]) -> [u32; 4]
    requires { round < 15 }
    ensures { state_of result ≡ add_round_key (words_of words.now) round (state_of s) }
{
    [
        s[0] ^ words[4 * round],
        s[1] ^ words[4 * round + 1],
        s[2] ^ words[4 * round + 2],
        s[3] ^ words[4 * round + 3],
    ]
}
