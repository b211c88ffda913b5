//! The key schedule.

// The key expansion (FIPS 197, section 5.2).

ghost use Rattle.std.specs.Prelude.{◌≡◌, ◌<◌, ◌≤◌, length, take};
ghost use Rattle.aes_block.specs.Aes.{changed_word, expanded_key, key_word, key_words, next_word, rot_word, sub_byte, sub_word, word_sum};
ghost use Rattle.aes_block.specs.Columns.{word_of, words_of};
ghost use Rattle.aes_block.specs.Equivalent.{inv_key_word, inv_key_words};

use crate::columns::{column, inv_mixed_word};
use crate::tables::{RCON, SBOX};

#[tactic(auto, using(crate::proofs::Inverses::by_tables))]
fn sub_byte(byte: u8) -> u8
    ensures { result ≡ sub_byte byte }
{
    SBOX[byte as usize]
}

// The sum of two words: their bytes' exclusive or.
fn word_sum(v: [u8; 4], w: [u8; 4]) -> [u8; 4]
    ensures { result ≡ word_sum v w }
{
    [v[0] ^ w[0], v[1] ^ w[1], v[2] ^ w[2], v[3] ^ w[3]]
}

fn rot_word(word: [u8; 4]) -> [u8; 4]
    ensures { result ≡ rot_word word }
{
    [word[1], word[2], word[3], word[0]]
}

fn sub_word(word: [u8; 4]) -> [u8; 4]
    ensures { result ≡ sub_word word }
{
    [
        sub_byte(word[0]),
        sub_byte(word[1]),
        sub_byte(word[2]),
        sub_byte(word[3]),
    ]
}

#[tactic(auto, using(crate::proofs::Expansion::changes))]
fn changed_word(i: usize, word: [u8; 4]) -> [u8; 4]
    requires low { 8 ≤ i }
    requires high { i < 60 }
    ensures { result ≡ changed_word i word }
{
    match i % 8 {
        0 => word_sum(sub_word(rot_word(word)), [RCON[i / 8 - 1], 0, 0, 0]),
        4 => sub_word(word),
        _ => word,
    }
}

fn key_word(key: &[u8; 32], i: usize) -> [u8; 4]
    requires { i < 8 }
    ensures { result ≡ key_word key.now i }
{
    [key[4 * i], key[4 * i + 1], key[4 * i + 2], key[4 * i + 3]]
}

fn next_word(words: &[[u8; 4]; 60], i: usize) -> [u8; 4]
    requires low { 8 ≤ i }
    requires high { i < 60 }
    ensures { result ≡ next_word words.now i }
{
    word_sum(words[i - 8], changed_word(i, words[i - 1]))
}

// The key's own eight words, with room for the others.
#[tactic(auto, using(crate::proofs::Expansion::key_words_first))]
fn first_words(key: &[u8; 32]) -> [[u8; 4]; 60]
    ensures long { length result ≡ 60 }
    ensures own { take 8 result ≡ key_words key.now 0 }
{
    let mut words = [[0; 4]; 60];
    for i in 0..8 {
        words[i] = key_word(key, i);
    }
    words
}

// The 60 key words.
fn expanded_key(key: &[u8; 32]) -> [[u8; 4]; 60]
    ensures { result ≡ expanded_key key.now }
{
    let mut words = first_words(key);
    for i in 8..60 {
        words[i] = next_word(&words, i);
    }
    words
}

/// The key words in columns.
pub(crate) fn key_columns(key: &[u8; 32]) -> [u32; 60]
    ensures { words_of result ≡ expanded_key key.now }
{
    expanded_key(key).map(column)
}

fn inv_key_word(words: &[u32; 60], i: usize) -> u32
    requires { i < 60 }
    ensures { word_of result ≡ inv_key_word (words_of words.now) i }
{
    if 4 <= i && i < 56 {
        inv_mixed_word(words[i])
    } else {
        words[i]
    }
}

/// The key words of the equivalent inverse cipher (section 5.3.5).
pub(crate) fn inv_key_words(words: &[u32; 60]) -> [u32; 60]
    ensures { words_of result ≡ inv_key_words (words_of words.now) }
{
    let mut inverse = [0; 60];
    for i in 0..60 {
        inverse[i] = inv_key_word(words, i);
    }
    inverse
}
