//! The rounds of both directions.

// The cipher and the equivalent inverse cipher over the key words
// (FIPS 197, sections 5.1 and 5.3.5).

ghost use Rattle.std.specs.Prelude.{◌≡◌};
ghost use Rattle.aes_block.specs.Aes.{cipher};
ghost use Rattle.aes_block.specs.Columns.{words_of};
ghost use Rattle.aes_block.specs.Equivalent.{equivalent_cipher};

use crate::state::{
    add_round_key, block_of, columns_of, inv_mixed, inv_substituted, mixed, substituted,
};

/// Cipher: fourteen rounds, the last without MixColumns.
pub(crate) fn cipher(words: &[u32; 60], block: &[u8; 16]) -> [u8; 16]
    ensures { result ≡ cipher (words_of words.now) block.now }
{
    let mut state = add_round_key(words, 0, columns_of(block));
    for round in 1..14 {
        let next = mixed(words, round, state);
        state = next;
    }
    block_of(add_round_key(words, 14, substituted(state)))
}

/// EqInvCipher: the rounds' inverses, the last first.
pub(crate) fn equivalent_cipher(words: &[u32; 60], block: &[u8; 16]) -> [u8; 16]
    ensures { result ≡ equivalent_cipher (words_of words.now) block.now }
{
    let mut state = add_round_key(words, 14, columns_of(block));
    for round in (1..14).rev() {
        let next = inv_mixed(words, round, state);
        state = next;
    }
    block_of(add_round_key(words, 0, inv_substituted(state)))
}
