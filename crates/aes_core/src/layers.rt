// ShiftRows, MixColumns and AddRoundKey on planes of bits, and the first two on the way back. Where a byte of a block moves, a lane of each
// plane moves, and where bytes are added, planes are.

ghost use Rattle.std.specs.Prelude.{◌≡◌, ℕ, ◌+◌, ◌*◌, ◌/◌, ◌%◌, ◌<◌, map, slice_index};
ghost use Rattle.std.specs.List.{range_with_len};
ghost use Rattle.aes_core.specs.Cipher.{IsCipherBlock, inv_mix_columns, inv_shift_rows, mix_columns, shift_rows, xored};
ghost use Rattle.aes_core.specs.Field.{times};
ghost use Rattle.aes_core.specs.Planes.{ArePlanes, block_in};

use std::simd::prelude::*;

// ShiftRows in one plane.
#[inline(always)]
fn shifted(plane: u8x16) -> u8x16
    requires { IsCipherBlock plane }
    ensures { result ≡ shift_rows plane }
{
    plane.swizzle([0, 5, 10, 15, 4, 9, 14, 3, 8, 13, 2, 7, 12, 1, 6, 11])
}

// Each column of one plane with its rows one up.
#[inline(always)]
fn up_one(plane: u8x16) -> u8x16
    requires { IsCipherBlock plane }
    ensures { result ≡ map (λ k. slice_index plane (4 * (k / 4) + (k + 1) % 4)) (range_with_len 0 16) }
{
    plane.swizzle([1, 2, 3, 0, 5, 6, 7, 4, 9, 10, 11, 8, 13, 14, 15, 12])
}

// And two up.
#[inline(always)]
fn up_two(plane: u8x16) -> u8x16
    requires { IsCipherBlock plane }
    ensures { result ≡ map (λ k. slice_index plane (4 * (k / 4) + (k + 2) % 4)) (range_with_len 0 16) }
{
    plane.swizzle([2, 3, 0, 1, 6, 7, 4, 5, 10, 11, 8, 9, 14, 15, 12, 13])
}

// ShiftRows of each block.
#[inline(always)]
pub(crate) fn shift_planes(planes: [u8x16; 8]) -> [u8x16; 8]
    requires { ArePlanes planes }
    ensures planes { ArePlanes result }
    ensures blocks { (b : ℕ) → b < 8 → block_in result b ≡ shift_rows (block_in planes b) }
{
    let [a, b, c, d, e, f, g, h] = planes;
    [
        shifted(a),
        shifted(b),
        shifted(c),
        shifted(d),
        shifted(e),
        shifted(f),
        shifted(g),
        shifted(h),
    ]
}

// Each column of each block with its rows one up.
#[inline(always)]
fn planes_up_one(planes: [u8x16; 8]) -> [u8x16; 8]
    requires { ArePlanes planes }
    ensures planes { ArePlanes result }
    ensures blocks { (b : ℕ) → b < 8 → block_in result b ≡ map (λ k. slice_index (block_in planes b) (4 * (k / 4) + (k + 1) % 4)) (range_with_len 0 16) }
{
    let [a, b, c, d, e, f, g, h] = planes;
    [
        up_one(a),
        up_one(b),
        up_one(c),
        up_one(d),
        up_one(e),
        up_one(f),
        up_one(g),
        up_one(h),
    ]
}

// And two up.
#[inline(always)]
fn planes_up_two(planes: [u8x16; 8]) -> [u8x16; 8]
    requires { ArePlanes planes }
    ensures planes { ArePlanes result }
    ensures blocks { (b : ℕ) → b < 8 → block_in result b ≡ map (λ k. slice_index (block_in planes b) (4 * (k / 4) + (k + 2) % 4)) (range_with_len 0 16) }
{
    let [a, b, c, d, e, f, g, h] = planes;
    [
        up_two(a),
        up_two(b),
        up_two(c),
        up_two(d),
        up_two(e),
        up_two(f),
        up_two(g),
        up_two(h),
    ]
}

// Each byte of each block times x: each plane becomes the next, and the highest is also added where
// x ^ 8 comes back in.
#[inline(always)]
fn double_planes(planes: [u8x16; 8]) -> [u8x16; 8]
    requires { ArePlanes planes }
    ensures planes { ArePlanes result }
    ensures blocks { (b : ℕ) → b < 8 → block_in result b ≡ map (times 2) (block_in planes b) }
{
    let [a, b, c, d, e, f, g, h] = planes;
    [h, a ^ h, b, c ^ h, d ^ h, e, f, g]
}

// MixColumns of each block. A row becomes twice its sum with the next, the next, and the sum of the
// two after.
#[inline(always)]
pub(crate) fn mix_planes(planes: [u8x16; 8]) -> [u8x16; 8]
    requires { ArePlanes planes }
    ensures planes { ArePlanes result }
    ensures blocks { (b : ℕ) → b < 8 → block_in result b ≡ mix_columns (block_in planes b) }
{
    let next = planes_up_one(planes);
    let sums = add_planes(planes, next);
    add_planes(add_planes(double_planes(sums), next), planes_up_two(sums))
}

// XOR of each block with that of `other`.
#[inline(always)]
pub(crate) fn add_planes(planes: [u8x16; 8], other: [u8x16; 8]) -> [u8x16; 8]
    requires { ArePlanes planes × ArePlanes other }
    ensures planes { ArePlanes result }
    ensures blocks { (b : ℕ) → b < 8 → block_in result b ≡ xored (block_in planes b) (block_in other b) }
{
    let [a, b, c, d, e, f, g, h] = planes;
    let [ka, kb, kc, kd, ke, kf, kg, kh] = other;
    [
        a ^ ka,
        b ^ kb,
        c ^ kc,
        d ^ kd,
        e ^ ke,
        f ^ kf,
        g ^ kg,
        h ^ kh,
    ]
}

// ---- the way back

// InvShiftRows in one plane.
#[inline(always)]
fn inv_shifted(plane: u8x16) -> u8x16
    requires { IsCipherBlock plane }
    ensures { result ≡ inv_shift_rows plane }
{
    plane.swizzle([0, 13, 10, 7, 4, 1, 14, 11, 8, 5, 2, 15, 12, 9, 6, 3])
}

// InvShiftRows of each block.
#[inline(always)]
pub(crate) fn inv_shift_planes(planes: [u8x16; 8]) -> [u8x16; 8]
    requires { ArePlanes planes }
    ensures planes { ArePlanes result }
    ensures blocks { (b : ℕ) → b < 8 → block_in result b ≡ inv_shift_rows (block_in planes b) }
{
    let [a, b, c, d, e, f, g, h] = planes;
    [
        inv_shifted(a),
        inv_shifted(b),
        inv_shifted(c),
        inv_shifted(d),
        inv_shifted(e),
        inv_shifted(f),
        inv_shifted(g),
        inv_shifted(h),
    ]
}

// InvMixColumns of each block: MixColumns, after each row has taken four times its sum with the row
// two on.
#[inline(always)]
pub(crate) fn inv_mix_planes(planes: [u8x16; 8]) -> [u8x16; 8]
    requires { ArePlanes planes }
    ensures planes { ArePlanes result }
    ensures blocks { (b : ℕ) → b < 8 → block_in result b ≡ inv_mix_columns (block_in planes b) }
{
    let sums = add_planes(planes, planes_up_two(planes));
    mix_planes(add_planes(planes, double_planes(double_planes(sums))))
}
