//! The inverse S-box on planes.

// The circuit, in stages. The names of planes are its authors': u0 is plane 7, and w0 plane 7 of
// the result. A gate that two stages want stands in both, and the compiler makes one of them.

ghost use Rattle.std.specs.Prelude.{◌≡◌, ℕ, bit_xor};
ghost use Rattle.aes_block.specs.Aes.{inv_sub_byte};
ghost use Rattle.aes_block.specs.InvSbox.{addends, all_planes, four_planes, left_factors, multipliers, norm, norm_inverse, products, right_factors, shared_sums};
ghost use Rattle.aes_block.specs.Planes.{bits, byte};

use crate::planes::Plane;

/// InvSubBytes of bytes to which 0x63 was added (FIPS 197, section 5.3.2), by the circuit of Boyar
/// and Peralta ("A depth-16 circuit for the AES S-box", 2012).
#[inline(always)]
pub(crate) fn inv_substituted(planes: [Plane; 8]) -> [Plane; 8]
    ensures { (r c j : ℕ) → byte result r c j ≡ inv_sub_byte (bit_xor (byte planes r c j) 0x63) }
{
    let left = left_factors(planes);
    let right = right_factors(planes, left);
    let norm = norm(products(left, right), addends(planes, left, right));
    let factors = multipliers(norm_inverse(norm));
    let right_products = products(factors, right);
    let left_products = products(factors, left);
    let shared = shared_sums(right_products, left_products);
    let four = four_planes(right_products, left_products, shared);
    all_planes(right_products, left_products, shared, four)
}

/// The left factors of the nine products: sums of bits of the byte.
#[inline(always)]
fn left_factors(planes: [Plane; 8]) -> [Plane; 9]
    ensures { (r c j : ℕ) → bits result 9 r c j ≡ left_factors (bits planes 8 r c j) }
{
    let [u7, u6, _, u4, u3, _, u1, u0] = planes;
    let t23 = u0 ^ u3;
    let t22 = u1 ^ u3;
    let t2 = u0 ^ u1;
    let t1 = u3 ^ u4;
    let t24 = u4 ^ u7;
    let r5 = u6 ^ u7;
    let t8 = u1 ^ t23;
    let t19 = t22 ^ r5;
    let t13 = t2 ^ r5;
    let t3 = t1 ^ r5;
    let r13 = u1 ^ u6;
    let t20 = t24 ^ r13;
    let t4 = u4 ^ t8;
    [t13, t23, t19, t3, t22, t20, t1, t4, t2]
}

/// The right factors.
#[inline(always)]
fn right_factors(planes: [Plane; 8], left: [Plane; 9]) -> [Plane; 9]
    ensures { (r c j : ℕ) → bits result 9 r c j
        ≡ right_factors (bits planes 8 r c j) (bits left 9 r c j) }
{
    let [u7, u6, u5, u4, _, u2, u1, u0] = planes;
    let [_, t23, t19, _, t22, _, t1, _, t2] = left;
    let t24 = u4 ^ u7;
    let t8 = u1 ^ t23;
    let t9 = u7 ^ t1;
    let t10 = t2 ^ t24;
    let r13 = u1 ^ u6;
    let t17 = u2 ^ t19;
    let r17 = u2 ^ u5;
    let r18 = u5 ^ u6;
    let r19 = u2 ^ u4;
    let y5 = u0 ^ r17;
    let t6 = t22 ^ r17;
    let t16 = r13 ^ r19;
    let t27 = t1 ^ r18;
    let t15 = t10 ^ t27;
    [t6, t8, y5, t16, t9, t17, t15, t27, t10]
}

/// What the norm adds to the nine products.
#[inline(always)]
fn addends(planes: [Plane; 8], left: [Plane; 9], right: [Plane; 9]) -> [Plane; 4]
    ensures { (r c j : ℕ) → bits result 4 r c j
        ≡ addends (bits planes 8 r c j) (bits left 9 r c j) (bits right 9 r c j) }
{
    let [u7, u6, u5, u4, _, u2, _, _] = planes;
    let [_, _, _, t3, _, _, t1, _, _] = left;
    let [_, _, _, t16, _, _, _, _, t10] = right;
    let t24 = u4 ^ u7;
    let t25 = u2 ^ t1;
    let r18 = u5 ^ u6;
    let t14 = t10 ^ r18;
    let t26 = t3 ^ t16;
    [t14, t24, t26, t25]
}

/// Nine products.
#[inline(always)]
fn products(left: [Plane; 9], right: [Plane; 9]) -> [Plane; 9]
    ensures { (r c j : ℕ) → bits result 9 r c j
        ≡ products (bits left 9 r c j) (bits right 9 r c j) }
{
    let [a0, a1, a2, a3, a4, a5, a6, a7, a8] = left;
    let [b0, b1, b2, b3, b4, b5, b6, b7, b8] = right;
    [
        a0 & b0,
        a1 & b1,
        a2 & b2,
        a3 & b3,
        a4 & b4,
        a5 & b5,
        a6 & b6,
        a7 & b7,
        a8 & b8,
    ]
}

/// The norm of the byte in the field of 16 elements, by the nine products of its factors.
#[inline(always)]
fn norm(products: [Plane; 9], addends: [Plane; 4]) -> [Plane; 4]
    ensures { (r c j : ℕ) → bits result 4 r c j
        ≡ norm (bits products 9 r c j) (bits addends 4 r c j) }
{
    let [m1, m2, m4, m6, m7, m9, m11, m12, m14] = products;
    let [t14, t24, t26, t25] = addends;
    let m3 = t14 ^ m1;
    let m5 = m4 ^ m1;
    let m8 = t26 ^ m6;
    let m10 = m9 ^ m6;
    let m13 = m12 ^ m11;
    let m15 = m14 ^ m11;
    let m16 = m3 ^ m2;
    let m17 = m5 ^ t24;
    let m18 = m8 ^ m7;
    let m19 = m10 ^ m15;
    let m20 = m16 ^ m13;
    let m21 = m17 ^ m15;
    let m22 = m18 ^ m13;
    let m23 = m19 ^ t25;
    [m20, m21, m22, m23]
}

/// The inverse in that field, and 0 of 0.
#[inline(always)]
fn norm_inverse(norm: [Plane; 4]) -> [Plane; 4]
    ensures { (r c j : ℕ) → bits result 4 r c j ≡ norm_inverse (bits norm 4 r c j) }
{
    let [m20, m21, m22, m23] = norm;
    let m24 = m22 ^ m23;
    let m25 = m22 & m20;
    let m26 = m21 ^ m25;
    let m27 = m20 ^ m21;
    let m28 = m23 ^ m25;
    let m29 = m28 & m27;
    let m30 = m26 & m24;
    let m31 = m20 & m23;
    let m32 = m27 & m31;
    let m33 = m27 ^ m25;
    let m34 = m21 & m22;
    let m35 = m24 & m34;
    let m36 = m24 ^ m25;
    let m37 = m21 ^ m29;
    let m38 = m32 ^ m33;
    let m39 = m23 ^ m30;
    let m40 = m35 ^ m36;
    [m37, m38, m39, m40]
}

/// What the factors are multiplied by at last.
#[inline(always)]
fn multipliers(inverse: [Plane; 4]) -> [Plane; 9]
    ensures { (r c j : ℕ) → bits result 9 r c j ≡ multipliers (bits inverse 4 r c j) }
{
    let [m37, m38, m39, m40] = inverse;
    let m41 = m38 ^ m40;
    let m42 = m37 ^ m39;
    let m43 = m37 ^ m38;
    let m44 = m39 ^ m40;
    let m45 = m42 ^ m41;
    [m44, m40, m39, m43, m38, m37, m42, m45, m41]
}

/// Sums of the last products that several planes of the result share.
#[inline(always)]
fn shared_sums(right: [Plane; 9], left: [Plane; 9]) -> [Plane; 9]
    ensures { (r c j : ℕ) → bits result 9 r c j
        ≡ shared_sums (bits right 9 r c j) (bits left 9 r c j) }
{
    let [m46, m47, m48, m49, m50, m51, m52, _, m54] = right;
    let [_, m56, m57, m58, m59, m60, m61, m62, _] = left;
    let p0 = m52 ^ m61;
    let p1 = m58 ^ m59;
    let p2 = m54 ^ m62;
    let p3 = m47 ^ m50;
    let p4 = m48 ^ m56;
    let p5 = m46 ^ m51;
    let p6 = m49 ^ m60;
    let p7 = p0 ^ p1;
    let p10 = m57 ^ p4;
    let p11 = p0 ^ p3;
    [p0, p2, p3, p4, p5, p6, p7, p10, p11]
}

/// Planes 1, 2, 4 and 7 of the result.
#[inline(always)]
fn four_planes(right: [Plane; 9], left: [Plane; 9], shared: [Plane; 9]) -> [Plane; 4]
    ensures { (r c j : ℕ) → bits result 4 r c j
        ≡ four_planes (bits right 9 r c j) (bits left 9 r c j) (bits shared 9 r c j) }
{
    let [m46, _, m48, m49, m50, m51, _, m53, _] = right;
    let [_, _, _, _, _, _, _, m62, _] = left;
    let [_, p2, p3, _, p5, _, p7, _, _] = shared;
    let p8 = m50 ^ m53;
    let p12 = m46 ^ m48;
    let p13 = m49 ^ m51;
    let p14 = m49 ^ m62;
    let p19 = p2 ^ p3;
    let p22 = p2 ^ p7;
    let p23 = p7 ^ p8;
    let p24 = p5 ^ p7;
    let w0 = p13 ^ p22;
    let w3 = p12 ^ p22;
    let w5 = p19 ^ p24;
    let w6 = p14 ^ p23;
    [w6, w5, w3, w0]
}

/// All planes of the result, four of which are given.
#[inline(always)]
fn all_planes(
    right: [Plane; 9],
    left: [Plane; 9],
    shared: [Plane; 9],
    four: [Plane; 4],
) -> [Plane; 8]
    ensures { (r c j : ℕ) → bits result 8 r c j
        ≡ all_planes (bits right 9 r c j) (bits left 9 r c j) (bits shared 9 r c j)
        (bits four 4 r c j) }
{
    let [_, _, _, _, m50, _, _, m53, m54] = right;
    let [m55, _, m57, m58, m59, _, m61, _, m63] = left;
    let [_, p2, _, p4, p5, p6, p7, p10, p11] = shared;
    let [w6, w5, w3, w0] = four;
    let p8 = m50 ^ m53;
    let p9 = m55 ^ m63;
    let p15 = m54 ^ m59;
    let p16 = m57 ^ m61;
    let p17 = m58 ^ p2;
    let p18 = m63 ^ p5;
    let p20 = p4 ^ p6;
    let p23 = p7 ^ p8;
    let p25 = p6 ^ p10;
    let p26 = p9 ^ p11;
    let p27 = p10 ^ p18;
    let p28 = p11 ^ p25;
    let p29 = p15 ^ p20;
    let w1 = p26 ^ p29;
    let w2 = p17 ^ p28;
    let w4 = p23 ^ p27;
    let w7 = p9 ^ p16;
    [w7, w6, w5, w4, w3, w2, w1, w0]
}
