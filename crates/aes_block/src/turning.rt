//! Eight blocks as planes, and back.

// A plane has one bit of each byte, and eight of them have eight blocks. So the planes are the
// blocks with rows for columns, in which the 8 by 8 bits of each place are turned.

ghost use Rattle.std.specs.Prelude.{◌≡◌, ℕ, [], ◌∷◌, ◌+◌, ◌-◌, ◌*◌, ◌/◌, ◌%◌, ◌<◌, length, slice_index, slice_index_or};
ghost use Rattle.std.specs.List.{All};
ghost use Rattle.aes_block.specs.Aes.{IsBlock};
ghost use Rattle.aes_block.specs.Planes.{bit, block_in, plane};
ghost use Rattle.aes_block.specs.Exchanges.{ExchangeMask};

use crate::planes::Plane;

/// The planes of eight blocks.
#[inline(always)]
pub(crate) fn planes_of(blocks: &[[u8; 16]; 8]) -> [Plane; 8]
    ensures value { (j : ℕ) → j < 8 → block_in result j ≡ slice_index_or blocks.now j [] }
    ensures are_blocks { All IsBlock blocks.now }
{
    flipped([
        rows_of(blocks[0]),
        rows_of(blocks[1]),
        rows_of(blocks[2]),
        rows_of(blocks[3]),
        rows_of(blocks[4]),
        rows_of(blocks[5]),
        rows_of(blocks[6]),
        rows_of(blocks[7]),
    ])
}

/// The blocks of eight planes.
#[inline(always)]
pub(crate) fn blocks_of(planes: [Plane; 8]) -> [[u8; 16]; 8]
    ensures { (j : ℕ) → j < 8 → slice_index_or result j [] ≡ block_in planes j }
{
    let [a, b, c, d, e, f, g, h] = flipped(planes);
    [
        block_of(a),
        block_of(b),
        block_of(c),
        block_of(d),
        block_of(e),
        block_of(f),
        block_of(g),
        block_of(h),
    ]
}

/// A block's bytes row after row.
#[inline(always)]
pub(crate) fn rows_of(block: [u8; 16]) -> Plane
    ensures rows { (r c k : ℕ) → r < 4 → c < 4 → bit result r c k ≡ bit block c r k }
    ensures long { length block ≡ 16 }
    ensures bytes { (i : ℕ) → slice_index block i < 256 }
{
    Plane::from_array(block).turned()
}

/// The block that has these bytes row after row.
#[inline(always)]
fn block_of(rows: Plane) -> [u8; 16]
    ensures rows { (r c k : ℕ) → r < 4 → c < 4 → bit result c r k ≡ bit rows r c k }
    ensures long { length result ≡ 16 }
    ensures bytes { (i : ℕ) → slice_index result i < 256 }
{
    rows.turned().to_array()
}

/// Bit k of plane j becomes bit j of plane k.
#[inline(always)]
fn flipped(planes: [Plane; 8]) -> [Plane; 8]
    ensures { (r c j k : ℕ) → j < 8 → k < 8
        → bit (plane result k) r c j ≡ bit (plane planes j) r c k }
{
    layer(layer(layer(planes, 4, 0x0f), 2, 0x33), 1, 0x55)
}

/// Exchanges bits between the planes m and m + 4, which become 2m and 2m + 1.
#[inline(always)]
fn layer(planes: [Plane; 8], n: u8, mask: u8) -> [Plane; 8]
    requires { ExchangeMask n mask }
    ensures { (r c i m : ℕ) → i < 8 → m < 8 → bit (plane result m) r c i
        ≡ bit (plane planes (m / 2 + 4 * (i / n % 2))) r c (i - i / n % 2 * n + m % 2 * n) }
{
    let [a, b, c, d, e, f, g, h] = planes;
    let (a, e) = exchanged(a, e, n, mask);
    let (b, f) = exchanged(b, f, n, mask);
    let (c, g) = exchanged(c, g, n, mask);
    let (d, h) = exchanged(d, h, n, mask);
    [a, e, b, f, c, g, d, h]
}

/// Exchanges the first plane's bits that the mask lacks and the second's that it has, n places
/// apart.
#[inline(always)]
fn exchanged(low: Plane, high: Plane, n: u8, mask: u8) -> (Plane, Plane)
    requires { ExchangeMask n mask }
    ensures low { (r c i : ℕ) → i < 8 → bit result.0 r c i
        ≡ bit (plane (low ∷ high ∷ []) (i / n % 2)) r c (i - i / n % 2 * n) }
    ensures high { (r c i : ℕ) → i < 8 → bit result.1 r c i
        ≡ bit (plane (low ∷ high ∷ []) (i / n % 2)) r c (i - i / n % 2 * n + n) }
{
    let changes = (low.bits_down(n) ^ high).masked(mask);
    (low ^ changes.bits_up(n), high ^ changes)
}
