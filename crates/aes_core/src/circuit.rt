// SubBytes on planes of bits, by the circuit of Boyar and Peralta ("A depth-16 circuit for the AES
// S-box", 2011): sums of the input, the inverse in GF(2^8) by way of GF(2^4), and sums again. Each
// name below is theirs.

ghost use Rattle.std.specs.Prelude.{◌≡◌, ℕ, ◌<◌, ◌++◌, length};
ghost use Rattle.aes_core.specs.Cipher.{sub_bytes};
ghost use Rattle.aes_core.specs.Circuit.{planes_of, SUMS_IN, TO_INVERT, INVERTED, PRODUCTS, SUMS_OUT};
ghost use Rattle.aes_core.specs.Planes.{ArePlanes, block_in};

use std::simd::prelude::*;

// The lowest bit, u7, and y1 to y21: the sums that the products take.
#[inline(always)]
fn sums_in(u: [u8x16; 8]) -> [u8x16; 22]
    ensures { result ≡ planes_of SUMS_IN u }
{
    let [u7, u6, u5, u4, u3, u2, u1, u0] = u;
    let y14 = u3 ^ u5;
    let y13 = u0 ^ u6;
    let y9 = u0 ^ u3;
    let y8 = u0 ^ u5;
    let t0 = u1 ^ u2;
    let y1 = t0 ^ u7;
    let y4 = y1 ^ u3;
    let y12 = y13 ^ y14;
    let y2 = y1 ^ u0;
    let y5 = y1 ^ u6;
    let y3 = y5 ^ y8;
    let t1 = u4 ^ y12;
    let y15 = t1 ^ u5;
    let y20 = t1 ^ u1;
    let y6 = y15 ^ u7;
    let y10 = y15 ^ t0;
    let y11 = y20 ^ y9;
    let y7 = u7 ^ y11;
    let y17 = y10 ^ y11;
    let y19 = y10 ^ y8;
    let y16 = t0 ^ y11;
    let y21 = y13 ^ y16;
    let y18 = u0 ^ y16;
    [
        u7, y1, y2, y3, y4, y5, y6, y7, y8, y9, y10, y11, y12, y13, y14, y15, y16, y17, y18, y19,
        y20, y21,
    ]
}

// t21 to t24: the element of GF(2^4) whose inverse is taken.
#[inline(always)]
fn to_invert(y: [u8x16; 22]) -> [u8x16; 4]
    ensures { result ≡ planes_of TO_INVERT y }
{
    let u7 = y[0];
    let t2 = y[12] & y[15];
    let t4 = (y[3] & y[6]) ^ t2;
    let t6 = (y[4] & u7) ^ t2;
    let t7 = y[13] & y[16];
    let t9 = (y[5] & y[1]) ^ t7;
    let t11 = (y[2] & y[7]) ^ t7;
    let t12 = y[9] & y[11];
    let t14 = (y[14] & y[17]) ^ t12;
    let t16 = (y[8] & y[10]) ^ t12;
    [
        t4 ^ t14 ^ y[20],
        t6 ^ t16 ^ y[19],
        t9 ^ t14 ^ y[21],
        t11 ^ t16 ^ y[18],
    ]
}

// t29, t33, t37, t40, t41, t42, t43, t44, t45: its inverse, and sums of it.
#[inline(always)]
pub(crate) fn inverted(t: [u8x16; 4]) -> [u8x16; 9]
    ensures { result ≡ planes_of INVERTED t }
{
    let [t21, t22, t23, t24] = t;
    let t25 = t21 ^ t22;
    let t26 = t21 & t23;
    let t27 = t24 ^ t26;
    let t28 = t25 & t27;
    let t29 = t28 ^ t22;
    let t30 = t23 ^ t24;
    let t31 = t22 ^ t26;
    let t32 = t31 & t30;
    let t33 = t32 ^ t24;
    let t34 = t23 ^ t33;
    let t35 = t27 ^ t33;
    let t36 = t24 & t35;
    let t37 = t36 ^ t34;
    let t38 = t27 ^ t36;
    let t39 = t29 & t38;
    let t40 = t25 ^ t39;
    let t41 = t40 ^ t37;
    let t42 = t29 ^ t33;
    let t43 = t29 ^ t40;
    let t44 = t33 ^ t37;
    let t45 = t42 ^ t41;
    [t29, t33, t37, t40, t41, t42, t43, t44, t45]
}

// z0 to z17: the products with the inverse.
#[inline(always)]
fn products(y: [u8x16; 22], t: [u8x16; 9]) -> [u8x16; 18]
    requires { length y ≡ 22 }
    ensures { result ≡ planes_of PRODUCTS (y ++ t) }
{
    let u7 = y[0];
    let [t29, t33, t37, t40, t41, t42, t43, t44, t45] = t;
    [
        t44 & y[15],
        t37 & y[6],
        t33 & u7,
        t43 & y[16],
        t40 & y[1],
        t29 & y[7],
        t42 & y[11],
        t45 & y[17],
        t41 & y[10],
        t44 & y[12],
        t37 & y[3],
        t33 & y[4],
        t43 & y[13],
        t40 & y[5],
        t29 & y[2],
        t42 & y[9],
        t45 & y[14],
        t41 & y[8],
    ]
}

// s0 to s7, the lowest bit first as everywhere here: the sums of the products, with 63 in hex added.
#[inline(always)]
fn sums_out(z: [u8x16; 18]) -> [u8x16; 8]
    ensures { result ≡ planes_of SUMS_OUT z }
{
    let ones = u8x16::splat(0xff);
    let t46 = z[15] ^ z[16];
    let t47 = z[10] ^ z[11];
    let t48 = z[5] ^ z[13];
    let t49 = z[9] ^ z[10];
    let t50 = z[2] ^ z[12];
    let t51 = z[2] ^ z[5];
    let t52 = z[7] ^ z[8];
    let t53 = z[0] ^ z[3];
    let t54 = z[6] ^ z[7];
    let t55 = z[16] ^ z[17];
    let t56 = z[12] ^ t48;
    let t57 = t50 ^ t53;
    let t58 = z[4] ^ t46;
    let t59 = z[3] ^ t54;
    let t60 = t46 ^ t57;
    let t61 = z[14] ^ t57;
    let t62 = t52 ^ t58;
    let t63 = t49 ^ t58;
    let t64 = z[4] ^ t59;
    let t65 = t61 ^ t62;
    let t66 = z[1] ^ t63;
    let t67 = t64 ^ t65;
    let s3 = t53 ^ t66;
    [
        t48 ^ t60 ^ ones,
        t56 ^ t62 ^ ones,
        t47 ^ t65,
        t51 ^ t66,
        s3,
        t55 ^ t67 ^ ones,
        t64 ^ s3 ^ ones,
        t59 ^ t63,
    ]
}

// SubBytes of each byte of each block.
#[inline(always)]
pub(crate) fn sub_planes(planes: [u8x16; 8]) -> [u8x16; 8]
    requires { ArePlanes planes }
    ensures planes { ArePlanes result }
    ensures blocks { (b : ℕ) → b < 8 → block_in result b ≡ sub_bytes (block_in planes b) }
{
    let y = sums_in(planes);
    let t = inverted(to_invert(y));
    sums_out(products(y, t))
}
