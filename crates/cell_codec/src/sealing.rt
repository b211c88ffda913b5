//! Values sealed into cells.

ghost use Rattle.std.specs.Prelude.{◌≡◌, ◌∷◌, ◌++◌, ◌+◌, ◌*◌, ◌/◌, ◌≤◌, IfOk, length};
ghost use Rattle.cell_codec.specs.Cells.{version, cell_of, sealed_det, iv_of};

use crate::tags::tag_of;
use crate::{BLOCK_LENGTH, HEAD_LENGTH, VERSION};
use ae_base::cells::Cell;
use hmac_kdf::CellKeys;
use std::alloc::{AllocError, Global};

/// The most bytes that are sealed in one cell.
pub const MOST_BYTES: usize = 1_000_000;

/// The length of the cell of `n` bytes.
pub fn cell_len(n: usize) -> usize
    requires { n ≤ MOST_BYTES }
    ensures { result ≡ 49 + (n / 16 + 1) * 16 }
{
    HEAD_LENGTH + (n / BLOCK_LENGTH + 1) * BLOCK_LENGTH
}

/// The deterministic cell of `bytes`: equal bytes have equal cells.
pub fn seal_det(alloc: Global, keys: &CellKeys, bytes: &[u8]) -> Result<Cell, AllocError>
    requires { length bytes.now ≤ MOST_BYTES }
    ensures value { IfOk result (λ cell. cell ≡ sealed_det keys.now bytes.now) }
    ensures len { IfOk result (λ cell. length cell ≡ 49 + (length bytes.now / 16 + 1) * 16) }
{
    seal_rnd(alloc, keys, &deterministic_iv(keys, bytes), bytes)
}

/// The randomized cell of `bytes` under an initialization vector, which the caller draws at random
/// for this cell alone.
pub fn seal_rnd(
    alloc: Global,
    keys: &CellKeys,
    iv: &[u8; 16],
    bytes: &[u8],
) -> Result<Cell, AllocError>
    requires { length bytes.now ≤ MOST_BYTES }
    ensures value { IfOk result (λ cell. cell ≡ cell_of keys.now iv.now bytes.now) }
    ensures len { IfOk result (λ cell. length cell ≡ 49 + (length bytes.now / 16 + 1) * 16) }
{
    let ciphertext = cbc_mode::encrypt(alloc, keys.cipher(), iv, bytes)?;
    let tag = tag_of(keys, iv, &ciphertext);
    joined(alloc, &tag, iv, &ciphertext)
}

/// The cell of a version byte and these parts.
fn joined(
    alloc: Global,
    tag: &[u8; 32],
    iv: &[u8; 16],
    ciphertext: &[u8],
) -> Result<Cell, AllocError>
    ensures value { IfOk result
        (λ cell. cell ≡ version ∷ tag.now ++ iv.now ++ ciphertext.now) }
    ensures len { IfOk result (λ cell. length cell ≡ 49 + length ciphertext.now) }
{
    let mut cell = Vec::with_capacity(alloc, HEAD_LENGTH + ciphertext.len())?;
    cell.push(VERSION)?;
    cell.extend_from_slice(tag)?;
    cell.extend_from_slice(iv)?;
    cell.extend_from_slice(ciphertext)?;
    Cell::from_bytes(alloc, &cell)
}

fn deterministic_iv(keys: &CellKeys, bytes: &[u8]) -> [u8; 16]
    ensures { result ≡ iv_of keys.now bytes.now }
{
    let mut mac = keys.iv_mac();
    mac.add(bytes);
    let code = mac.finish();
    let mut iv = [0; 16];
    iv.copy_from_slice(&code[..16]);
    iv
}
