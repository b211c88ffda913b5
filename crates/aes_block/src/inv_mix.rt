//! InvMixColumns on planes.

// InvMixColumns is MixColumns after a product by {04}x^2 + {05}. So a column needs products by 2
// and 4 alone, and on planes these are other places of the planes and a few sums.

ghost use Rattle.std.specs.Prelude.{◌≡◌, ℕ, ◌+◌, ◌%◌, ◌<◌};
ghost use Rattle.aes_block.specs.Aes.{inv_mix_polynomial, word_product};
ghost use Rattle.aes_block.specs.Field.{product};
ghost use Rattle.aes_block.specs.Planes.{byte, column_in};

use crate::planes::{Plane, summed};

/// Row r of each state becomes its row r + 1.
#[inline(always)]
fn next_rows(a: [Plane; 8]) -> [Plane; 8]
    ensures { (r c j : ℕ) → r < 4 → c < 4
        → byte result r c j ≡ byte a ((r + 1) % 4) c j }
{
    let [a0, a1, a2, a3, a4, a5, a6, a7] = a;
    [
        a0.next_rows(),
        a1.next_rows(),
        a2.next_rows(),
        a3.next_rows(),
        a4.next_rows(),
        a5.next_rows(),
        a6.next_rows(),
        a7.next_rows(),
    ]
}

/// Row r becomes the row two below.
#[inline(always)]
fn second_rows(a: [Plane; 8]) -> [Plane; 8]
    ensures { (r c j : ℕ) → r < 4 → c < 4
        → byte result r c j ≡ byte a ((r + 2) % 4) c j }
{
    let [a0, a1, a2, a3, a4, a5, a6, a7] = a;
    [
        a0.second_rows(),
        a1.second_rows(),
        a2.second_rows(),
        a3.second_rows(),
        a4.second_rows(),
        a5.second_rows(),
        a6.second_rows(),
        a7.second_rows(),
    ]
}

/// The bytes times {02} (section 4.2): x^8 is x^4 + x^3 + x + 1.
#[inline(always)]
fn doubled(a: [Plane; 8]) -> [Plane; 8]
    ensures { (r c j : ℕ) → byte result r c j ≡ product 2 (byte a r c j) }
{
    let [a0, a1, a2, a3, a4, a5, a6, a7] = a;
    [a7, a0 ^ a7, a1, a2 ^ a7, a3 ^ a7, a4, a5, a6]
}

/// The bytes times {04}.
#[inline(always)]
fn fourfold(a: [Plane; 8]) -> [Plane; 8]
    ensures { (r c j : ℕ) → byte result r c j ≡ product 4 (byte a r c j) }
{
    let [a0, a1, a2, a3, a4, a5, a6, a7] = a;
    let high = a6 ^ a7;
    [a6, high, a0 ^ a7, a1 ^ a6, a2 ^ high, a3 ^ a7, a4, a5]
}

/// InvMixColumns (FIPS 197, section 5.3.3).
#[inline(always)]
pub(crate) fn inv_mixed(planes: [Plane; 8]) -> [Plane; 8]
    ensures { (c j : ℕ) → c < 4
        → column_in result c j ≡ word_product inv_mix_polynomial (column_in planes c j) }
{
    let even = summed(planes, &second_rows(planes));
    let y = summed(planes, &fourfold(even));
    let next = next_rows(y);
    let d = summed(y, &next);
    summed(summed(doubled(d), &next), &second_rows(d))
}
