//! One bit of each byte of eight blocks.

// Planes of bits: what is done to a plane is done to the bits of all eight blocks at once.

ghost use Rattle.std.specs.Prelude.{◌≡◌, ℕ, ◌+◌, ◌-◌, ◌%◌, ◌<◌, bit_xor, min};
ghost use Rattle.std.specs.Int.{bit_at};
ghost use Rattle.aes_block.specs.Planes.{bit, byte};

use std::marker::Model;
use std::ops::{BitAnd, BitXor};
use std::simd::u8x16;

/// One bit of each byte of eight blocks: lane 4r + c is for row r and column c of a state
/// (FIPS 197, section 3.4), and bit j of a lane for block j.
#[derive(Clone, Copy)]
pub(crate) struct Plane {
    lanes: u8x16,
}

impl Model for Plane {
    ghost use Rattle.std.specs.Prelude.{◌≡◌, ℕ, List, length};

    ghost Value = { List ℕ };

    ghost view = { λ p. p.lanes };

    ghost invariant = { λ p. length p.lanes ≡ 16 };

    ghost inverse = { λ lanes. record { lanes = lanes } };
}

impl BitXor for Plane {
    type Output = Plane;

    ghost use Rattle.std.specs.Prelude.{◌≡◌, ℕ, ◌+◌, ◌%◌};
    ghost use Rattle.aes_block.specs.Planes.{bit};

    ghost bitxor_gives = { λ a b result.
        (r c j : ℕ) → bit result r c j ≡ (bit a r c j + bit b r c j) % 2 };

    #[inline(always)]
    fn bitxor(self, other: Plane) -> Plane {
        Plane {
            lanes: self.lanes ^ other.lanes,
        }
    }
}

impl BitAnd for Plane {
    type Output = Plane;

    ghost use Rattle.std.specs.Prelude.{◌≡◌, ℕ, min};
    ghost use Rattle.aes_block.specs.Planes.{bit};

    ghost bitand_gives = { λ a b result.
        (r c j : ℕ) → bit result r c j ≡ min (bit a r c j) (bit b r c j) };

    #[inline(always)]
    fn bitand(self, other: Plane) -> Plane {
        Plane {
            lanes: self.lanes & other.lanes,
        }
    }
}

impl Plane {
    /// The plane of these lanes.
    #[inline(always)]
    pub(crate) fn from_array(lanes: [u8; 16]) -> Plane
        ensures { result ≡ lanes }
    {
        Plane {
            lanes: u8x16::from_array(lanes),
        }
    }

    /// Its lanes.
    #[inline(always)]
    pub(crate) fn to_array(self) -> [u8; 16]
        ensures { result ≡ self }
    {
        self.lanes.to_array()
    }

    /// Row r of the result is row r + 1, and the last is the first.
    #[inline(always)]
    pub(crate) fn next_rows(self) -> Plane
        ensures { (r c j : ℕ) → r < 4 → c < 4
            → bit result r c j ≡ bit self ((r + 1) % 4) c j }
    {
        Plane {
            lanes: self.lanes.rotate_elements_left::<4>(),
        }
    }

    /// Row r of the result is the row two below, and the first two follow the last.
    #[inline(always)]
    pub(crate) fn second_rows(self) -> Plane
        ensures { (r c j : ℕ) → r < 4 → c < 4
            → bit result r c j ≡ bit self ((r + 2) % 4) c j }
    {
        Plane {
            lanes: self.lanes.rotate_elements_left::<8>(),
        }
    }

    /// InvShiftRows (FIPS 197, section 5.3.1): row r turns right by r.
    #[inline(always)]
    pub(crate) fn inv_shifted(self) -> Plane
        ensures { (r c j : ℕ) → r < 4 → c < 4
            → bit result r c j ≡ bit self r ((c + 4 - r) % 4) j }
    {
        Plane {
            lanes: self
                .lanes
                .swizzle([0, 1, 2, 3, 7, 4, 5, 6, 10, 11, 8, 9, 13, 14, 15, 12]),
        }
    }

    /// The transpose: row r of the result is column r.
    #[inline(always)]
    pub(crate) fn turned(self) -> Plane
        ensures { (r c j : ℕ) → r < 4 → c < 4 → bit result r c j ≡ bit self c r j }
    {
        Plane {
            lanes: self
                .lanes
                .swizzle([0, 4, 8, 12, 1, 5, 9, 13, 2, 6, 10, 14, 3, 7, 11, 15]),
        }
    }

    /// The bits moved down by n places.
    #[inline(always)]
    pub(crate) fn bits_down(self, n: u8) -> Plane
        requires { n < 8 }
        ensures { (r c i : ℕ) → bit result r c i ≡ bit self r c (i + n) }
    {
        Plane {
            lanes: self.lanes >> u8x16::splat(n),
        }
    }

    /// The bits moved up by n places.
    #[inline(always)]
    pub(crate) fn bits_up(self, n: u8) -> Plane
        requires { n < 8 }
        ensures low { (r c i : ℕ) → i < n → bit result r c i ≡ 0 }
        ensures high { (r c i : ℕ) → i + n < 8 → bit result r c (i + n) ≡ bit self r c i }
    {
        Plane {
            lanes: self.lanes << u8x16::splat(n),
        }
    }

    /// Bit k of each lane in all bits of the lane.
    #[inline(always)]
    pub(crate) fn spread(self, k: u8) -> Plane
        requires { k < 8 }
        ensures { (r c j : ℕ) → r < 4 → c < 4 → j < 8 → bit result r c j ≡ bit self r c k }
    {
        let bits = (self.lanes >> u8x16::splat(k)) & u8x16::splat(1);
        Plane {
            lanes: (bits ^ u8x16::splat(1)) - u8x16::splat(1),
        }
    }

    /// The bits that the mask has, in each lane.
    #[inline(always)]
    pub(crate) fn masked(self, mask: u8) -> Plane
        ensures { (r c i : ℕ) → bit result r c i ≡ min (bit self r c i) (bit_at mask i) }
    {
        Plane {
            lanes: self.lanes & u8x16::splat(mask),
        }
    }
}

/// The sums of the bytes, as AddRoundKey makes them (FIPS 197, section 5.1.4).
#[inline(always)]
pub(crate) fn summed(a: [Plane; 8], b: &[Plane; 8]) -> [Plane; 8]
    ensures { (r c j : ℕ) → byte result r c j ≡ bit_xor (byte a r c j) (byte b.now r c j) }
{
    [
        a[0] ^ b[0],
        a[1] ^ b[1],
        a[2] ^ b[2],
        a[3] ^ b[3],
        a[4] ^ b[4],
        a[5] ^ b[5],
        a[6] ^ b[6],
        a[7] ^ b[7],
    ]
}

/// InvShiftRows of each block.
#[inline(always)]
pub(crate) fn inv_shifted(planes: [Plane; 8]) -> [Plane; 8]
    ensures { (r c j : ℕ) → r < 4 → c < 4
        → byte result r c j ≡ byte planes r ((c + 4 - r) % 4) j }
{
    [
        planes[0].inv_shifted(),
        planes[1].inv_shifted(),
        planes[2].inv_shifted(),
        planes[3].inv_shifted(),
        planes[4].inv_shifted(),
        planes[5].inv_shifted(),
        planes[6].inv_shifted(),
        planes[7].inv_shifted(),
    ]
}
