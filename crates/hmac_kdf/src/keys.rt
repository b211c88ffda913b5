//! The keys that are derived from a column encryption key.

ghost use Rattle.std.specs.Prelude.{◌≡◌, []};
ghost use Rattle.hmac_kdf.specs.Hmac.{hmac};
ghost use Rattle.hmac_kdf.specs.Holding.{Holds};
ghost use Rattle.hmac_kdf.specs.Keys.{Keys, keys_of, utf16le_of_ascii};

use crate::mac::Mac;
use aes_block::Aes256;
use std::marker::Model;

// The texts of the labels, which are ASCII.
const ENC_LABEL: &[u8; 114] =
    b"Microsoft SQL Server cell encryption key with encryption algorithm:AEAD_AES_256_CBC_HMAC_SHA256 and key length:256";

const MAC_LABEL: &[u8; 107] =
    b"Microsoft SQL Server cell MAC key with encryption algorithm:AEAD_AES_256_CBC_HMAC_SHA256 and key length:256";

const IV_LABEL: &[u8; 106] =
    b"Microsoft SQL Server cell IV key with encryption algorithm:AEAD_AES_256_CBC_HMAC_SHA256 and key length:256";

/// The three keys that are derived from a column encryption key for the cells of its columns. What
/// each cell takes of them is made once: the cipher's key words, and the HMACs' pads, which are
/// hashed.
#[derive(Drop)]
pub struct CellKeys {
    enc_key: [u8; 32],
    mac_key: [u8; 32],
    iv_key: [u8; 32],
    cipher: Aes256,
    tag_mac: Mac,
    iv_mac: Mac,
}

impl Model for CellKeys {
    ghost Value = { Keys };

    ghost view = { λ keys. record {
      enc_key = keys.enc_key;
      mac_key = keys.mac_key;
      iv_key = keys.iv_key;
    } };

    ghost invariant = { λ keys. (keys.cipher ≡ keys.enc_key)
        × Holds keys.tag_mac keys.mac_key []
        × Holds keys.iv_mac keys.iv_key [] };
}

impl CellKeys {
    /// The keys of the column encryption key `cek`: the HMAC-SHA-256 of each key's label under it.
    /// Takes no memory.
    pub fn derive(cek: &[u8; 32]) -> CellKeys
        ensures { result ≡ keys_of cek.now }
    {
        let enc_key = derived_key(cek, ENC_LABEL);
        let mac_key = derived_key(cek, MAC_LABEL);
        let iv_key = derived_key(cek, IV_LABEL);
        CellKeys {
            cipher: Aes256::new(&enc_key),
            tag_mac: Mac::new(&mac_key),
            iv_mac: Mac::new(&iv_key),
            enc_key,
            mac_key,
            iv_key,
        }
    }

    /// The same keys, of which nothing is derived again.
    pub fn copy(&self) -> CellKeys
        ensures { result ≡ self.now }
    {
        CellKeys {
            enc_key: self.enc_key,
            mac_key: self.mac_key,
            iv_key: self.iv_key,
            cipher: self.cipher.copy(),
            tag_mac: self.tag_mac.copy(),
            iv_mac: self.iv_mac.copy(),
        }
    }

    /// The AES-256 key that encrypts cells.
    pub fn enc_key(&self) -> &[u8; 32]
        ensures { result.now ≡ self.now.enc_key }
    {
        &self.enc_key
    }

    /// The HMAC key of the cells' authentication tags.
    pub fn mac_key(&self) -> &[u8; 32]
        ensures { result.now ≡ self.now.mac_key }
    {
        &self.mac_key
    }

    /// The HMAC key that gives deterministic cells their initialization vectors.
    pub fn iv_key(&self) -> &[u8; 32]
        ensures { result.now ≡ self.now.iv_key }
    {
        &self.iv_key
    }

    /// The cipher under `enc_key`.
    pub fn cipher(&self) -> &Aes256
        ensures { result.now ≡ self.now.enc_key }
    {
        &self.cipher
    }

    /// An HMAC under `mac_key`, of no message yet.
    pub fn tag_mac(&self) -> Mac
        ensures { Holds result self.now.mac_key [] }
    {
        self.tag_mac.copy()
    }

    /// An HMAC under `iv_key`, of no message yet.
    pub fn iv_mac(&self) -> Mac
        ensures { Holds result self.now.iv_key [] }
    {
        self.iv_mac.copy()
    }
}

// The HMAC of an ASCII label in UTF-16LE.
fn derived_key(cek: &[u8; 32], label: &[u8]) -> [u8; 32]
    ensures { result ≡ hmac cek.now (utf16le_of_ascii label.now) }
{
    let mut mac = Mac::new(cek);
    'characters: for character in label {
        mac.add(&[*character, 0]);
    }
    mac.finish()
}
