// InvSubBytes on planes of bits, by the circuit of Boyar and Peralta for the inverse of the S-box (as
// in src/circuit.rt, with whose stage in the middle it is one). Each name below is theirs, but for the
// inverse in GF(2^4), which has the names of that stage.

ghost use Rattle.std.specs.Prelude.{◌≡◌, ℕ, ◌<◌, ◌++◌, length};
ghost use Rattle.aes_core.specs.Cipher.{inv_sub_bytes};
ghost use Rattle.aes_core.specs.Circuit.{planes_of, INV_SUMS_IN, INV_TO_INVERT, INV_PRODUCTS, INV_SUMS_OUT};
ghost use Rattle.aes_core.specs.Planes.{ArePlanes, block_in};

use crate::circuit::inverted;
use std::simd::prelude::*;

// The sums that the products take: t1 to t27 in their places, and y5 in place 0. Theirs has no t5, t7,
// t11, t12, t18 and t21, and y5 stands there too.
#[inline(always)]
fn inv_sums_in(u: [u8x16; 8]) -> [u8x16; 28]
    ensures { result ≡ planes_of INV_SUMS_IN u }
{
    let [u7, u6, u5, u4, u3, u2, u1, u0] = u;
    let ones = u8x16::splat(0xff);
    let t23 = u0 ^ u3;
    let t22 = u1 ^ u3 ^ ones;
    let t2 = u0 ^ u1 ^ ones;
    let t1 = u3 ^ u4;
    let t24 = u4 ^ u7 ^ ones;
    let r5 = u6 ^ u7;
    let t8 = u1 ^ t23 ^ ones;
    let t19 = t22 ^ r5;
    let t9 = u7 ^ t1 ^ ones;
    let t10 = t2 ^ t24;
    let t13 = t2 ^ r5;
    let t3 = t1 ^ r5;
    let t25 = u2 ^ t1 ^ ones;
    let r13 = u1 ^ u6;
    let t17 = u2 ^ t19 ^ ones;
    let t20 = t24 ^ r13;
    let t4 = u4 ^ t8;
    let r17 = u2 ^ u5 ^ ones;
    let r18 = u5 ^ u6 ^ ones;
    let r19 = u2 ^ u4 ^ ones;
    let y5 = u0 ^ r17;
    let t6 = t22 ^ r17;
    let t16 = r13 ^ r19;
    let t27 = t1 ^ r18;
    let t15 = t10 ^ t27;
    let t14 = t10 ^ r18;
    let t26 = t3 ^ t16;
    [
        y5, t1, t2, t3, t4, y5, t6, y5, t8, t9, t10, y5, y5, t13, t14, t15, t16, t17, y5, t19, t20,
        y5, t22, t23, t24, t25, t26, t27,
    ]
}

// m20 to m23: the element of GF(2^4) whose inverse is taken.
#[inline(always)]
fn inv_to_invert(t: [u8x16; 28]) -> [u8x16; 4]
    ensures { result ≡ planes_of INV_TO_INVERT t }
{
    let m1 = t[13] & t[6];
    let m2 = t[23] & t[8];
    let m3 = t[14] ^ m1;
    let m4 = t[19] & t[0];
    let m5 = m4 ^ m1;
    let m6 = t[3] & t[16];
    let m7 = t[22] & t[9];
    let m8 = t[26] ^ m6;
    let m9 = t[20] & t[17];
    let m10 = m9 ^ m6;
    let m11 = t[1] & t[15];
    let m12 = t[4] & t[27];
    let m13 = m12 ^ m11;
    let m14 = t[2] & t[10];
    let m15 = m14 ^ m11;
    let m16 = m3 ^ m2;
    let m17 = m5 ^ t[24];
    let m18 = m8 ^ m7;
    let m19 = m10 ^ m15;
    [m16 ^ m13, m17 ^ m15, m18 ^ m13, m19 ^ t[25]]
}

// m46 to m63, in places 0 to 17: the products with the inverse.
#[inline(always)]
fn inv_products(t: [u8x16; 28], inverse: [u8x16; 9]) -> [u8x16; 18]
    requires { length t ≡ 28 }
    ensures { result ≡ planes_of INV_PRODUCTS (t ++ inverse) }
{
    let [t29, t33, t37, t40, t41, t42, t43, t44, t45] = inverse;
    [
        t44 & t[6],
        t37 & t[8],
        t33 & t[0],
        t43 & t[16],
        t40 & t[9],
        t29 & t[17],
        t42 & t[15],
        t45 & t[27],
        t41 & t[10],
        t44 & t[13],
        t37 & t[23],
        t33 & t[19],
        t43 & t[3],
        t40 & t[22],
        t29 & t[20],
        t42 & t[1],
        t45 & t[4],
        t41 & t[2],
    ]
}

// w7 to w0, the lowest bit first: the sums of the products.
#[inline(always)]
fn inv_sums_out(m: [u8x16; 18]) -> [u8x16; 8]
    ensures { result ≡ planes_of INV_SUMS_OUT m }
{
    let p0 = m[6] ^ m[15];
    let p1 = m[12] ^ m[13];
    let p2 = m[8] ^ m[16];
    let p3 = m[1] ^ m[4];
    let p4 = m[2] ^ m[10];
    let p5 = m[0] ^ m[5];
    let p6 = m[3] ^ m[14];
    let p7 = p0 ^ p1;
    let p8 = m[4] ^ m[7];
    let p9 = m[9] ^ m[17];
    let p10 = m[11] ^ p4;
    let p11 = p0 ^ p3;
    let p15 = m[8] ^ m[13];
    let p17 = m[12] ^ p2;
    let p18 = m[17] ^ p5;
    let p19 = p2 ^ p3;
    let p20 = p4 ^ p6;
    let p22 = p2 ^ p7;
    let p23 = p7 ^ p8;
    let p24 = p5 ^ p7;
    let p25 = p6 ^ p10;
    let p26 = p9 ^ p11;
    let p27 = p10 ^ p18;
    let p28 = p11 ^ p25;
    let p29 = p15 ^ p20;
    [
        m[11] ^ m[15] ^ p9,
        m[3] ^ m[16] ^ p23,
        p19 ^ p24,
        p23 ^ p27,
        m[0] ^ m[2] ^ p22,
        p17 ^ p28,
        p26 ^ p29,
        m[3] ^ m[5] ^ p22,
    ]
}

// InvSubBytes of each byte of each block.
#[inline(always)]
pub(crate) fn inv_sub_planes(planes: [u8x16; 8]) -> [u8x16; 8]
    requires { ArePlanes planes }
    ensures planes { ArePlanes result }
    ensures blocks { (b : ℕ) → b < 8 → block_in result b ≡ inv_sub_bytes (block_in planes b) }
{
    let t = inv_sums_in(planes);
    let inverse = inverted(inv_to_invert(t));
    inv_sums_out(inv_products(t, inverse))
}
