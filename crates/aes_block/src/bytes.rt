//! Exclusive or over blocks.

// Arrays of bytes.

ghost use Rattle.std.specs.Prelude.{◌≡◌};
ghost use Rattle.aes_block.specs.Bytes.{bytes_xor};

/// Exclusive or, byte by byte.
pub fn xor<const N: usize>(a: &[u8; N], b: &[u8; N]) -> [u8; N]
    ensures value { result ≡ bytes_xor a.now b.now }
    ensures undoes { bytes_xor result b.now ≡ a.now }
{
    let mut mixed = *a;
    for i in 0..N {
        mixed[i] ^= b[i];
    }
    mixed
}
