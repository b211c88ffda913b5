//! Columns of a state, byte by byte.

// A round's work on columns, by tables.

ghost use Rattle.std.specs.Prelude.{◌≡◌, ◌<◌, map, slice_index};
ghost use Rattle.aes_block.specs.Aes.{inv_mix_polynomial, inv_sub_byte, mix_polynomial, sub_byte, word_product, word_sum};
ghost use Rattle.aes_block.specs.Columns.{diagonal, word_of};

use crate::tables::{INV_MIXED, INV_SBOX, MIXED, SBOX};

#[tactic(auto, unfolding(crate::specs::Columns::word_of))]
fn row_0(column: u32) -> usize
    ensures value { result ≡ slice_index (word_of column) 0 }
    ensures below { result < 256 }
{
    (column % 256) as usize
}

#[tactic(auto, unfolding(crate::specs::Columns::word_of))]
fn row_1(column: u32) -> usize
    ensures value { result ≡ slice_index (word_of column) 1 }
    ensures below { result < 256 }
{
    ((column >> 8) % 256) as usize
}

#[tactic(auto, unfolding(crate::specs::Columns::word_of))]
fn row_2(column: u32) -> usize
    ensures value { result ≡ slice_index (word_of column) 2 }
    ensures below { result < 256 }
{
    ((column >> 16) % 256) as usize
}

#[tactic(auto, unfolding(crate::specs::Columns::word_of))]
fn row_3(column: u32) -> usize
    ensures value { result ≡ slice_index (word_of column) 3 }
    ensures below { result < 256 }
{
    ((column >> 24) % 256) as usize
}

/// The column that SubBytes and MixColumns make of row 0 of `a`, row 1 of `b`, row 2 of `c` and
/// row 3 of `d`, and the key word added to it.
pub(crate) fn mixed_column(a: u32, b: u32, c: u32, d: u32, key: u32) -> u32
    ensures { word_of result
        ≡ word_sum (word_product mix_polynomial (map sub_byte (diagonal a b c d))) (word_of key) }
{
    MIXED[0][row_0(a)] ^ MIXED[1][row_1(b)] ^ MIXED[2][row_2(c)] ^ MIXED[3][row_3(d)] ^ key
}

/// The same of InvSubBytes and InvMixColumns.
pub(crate) fn inv_mixed_column(a: u32, b: u32, c: u32, d: u32, key: u32) -> u32
    ensures { word_of result
        ≡ word_sum (word_product inv_mix_polynomial (map inv_sub_byte (diagonal a b c d)))
        (word_of key) }
{
    INV_MIXED[0][row_0(a)]
        ^ INV_MIXED[1][row_1(b)]
        ^ INV_MIXED[2][row_2(c)]
        ^ INV_MIXED[3][row_3(d)]
        ^ key
}

/// The same of SubBytes alone, and no key word.
pub(crate) fn substituted_column(a: u32, b: u32, c: u32, d: u32) -> u32
    ensures { word_of result ≡ map sub_byte (diagonal a b c d) }
{
    column([
        SBOX[row_0(a)],
        SBOX[row_1(b)],
        SBOX[row_2(c)],
        SBOX[row_3(d)],
    ])
}

/// The same of InvSubBytes alone.
pub(crate) fn inv_substituted_column(a: u32, b: u32, c: u32, d: u32) -> u32
    ensures { word_of result ≡ map inv_sub_byte (diagonal a b c d) }
{
    column([
        INV_SBOX[row_0(a)],
        INV_SBOX[row_1(b)],
        INV_SBOX[row_2(c)],
        INV_SBOX[row_3(d)],
    ])
}

/// The column of a word.
pub(crate) fn column(word: [u8; 4]) -> u32
    ensures { word_of result ≡ word }
{
    u32::from_le_bytes(word)
}

/// The word's product by InvMixColumns' polynomial.
pub(crate) fn inv_mixed_word(word: u32) -> u32
    ensures { word_of result ≡ word_product inv_mix_polynomial (word_of word) }
{
    let substituted = substituted_column(word, word, word, word);
    inv_mixed_column(substituted, substituted, substituted, substituted, 0)
}
