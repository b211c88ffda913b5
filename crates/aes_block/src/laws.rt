//! Encryption and decryption undo each other, as a law.

// Laws of the definitions, over every key and every block.

ghost use Rattle.std.specs.Prelude.{◌≡◌, ℕ, List};
ghost use Rattle.aes_block.specs.Aes.{IsBlock, IsKey, decryption, encryption};

/// Under every key, decryption undoes encryption and encryption undoes decryption, and both make
/// blocks of blocks.
pub fn each_undoes_the_other()
    ensures decrypts { (key block : List ℕ) → IsKey key → IsBlock block
        → decryption key (encryption key block) ≡ block }
    ensures encrypts { (key block : List ℕ) → IsKey key → IsBlock block
        → encryption key (decryption key block) ≡ block }
    ensures ciphertext { (key block : List ℕ) → IsKey key → IsBlock block
        → IsBlock (encryption key block) }
    ensures plaintext { (key block : List ℕ) → IsKey key → IsBlock block
        → IsBlock (decryption key block) }
{}
