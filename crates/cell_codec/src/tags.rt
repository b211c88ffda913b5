//! The tags of cells.

ghost use Rattle.std.specs.Prelude.{◌≡◌};
ghost use Rattle.std.specs.Str.{bytes_eq};
ghost use Rattle.cell_codec.specs.Cells.{tag_of};

use crate::VERSION;
use hmac_kdf::CellKeys;

/// How many bytes the version takes, which the MAC covers too.
const VERSION_LENGTH: u8 = 1;

/// The MAC of a cell.
pub(crate) fn tag_of(keys: &CellKeys, iv: &[u8; 16], ciphertext: &[u8]) -> [u8; 32]
    ensures { result ≡ tag_of keys.now iv.now ciphertext.now }
{
    let mut mac = keys.tag_mac();
    mac.add(&[VERSION]);
    mac.add(iv);
    mac.add(ciphertext);
    mac.add(&[VERSION_LENGTH]);
    mac.finish()
}

/// Whether two tags are equal. Each byte is read, wherever the first difference is.
pub(crate) fn are_equal(a: &[u8; 32], b: &[u8; 32]) -> bool
    ensures { result ≡ bytes_eq a.now b.now }
{
    let mut difference = 0;
    for i in 0..32 {
        difference |= a[i] ^ b[i];
    }
    difference == 0
}
