// From eight blocks to their planes of bits, and back: in each byte place, the eight bytes' bits are
// transposed as a matrix of eight by eight.

ghost use Rattle.std.specs.Prelude.{◌≡◌, ℕ, ◌<◌, [], get_or};
ghost use Rattle.aes_core.specs.Planes.{ArePlanes, AreExchanged, block_in};

use std::simd::prelude::*;

// In each byte, the bits of `b` under the low mask change places with the bits of `a` one place above them.
#[inline(always)]
fn exchange_ones(a: u8x16, b: u8x16) -> (u8x16, u8x16)
    ensures { AreExchanged 1 a b result.0 result.1 }
{
    let low = u8x16::splat(0x55);
    let high = u8x16::splat(0xaa);
    (
        (a & low) ^ ((b & low) << u8x16::splat(1)),
        ((a >> u8x16::splat(1)) & low) ^ (b & high),
    )
}

#[inline(always)]
fn exchange_twos(a: u8x16, b: u8x16) -> (u8x16, u8x16)
    ensures { AreExchanged 2 a b result.0 result.1 }
{
    let low = u8x16::splat(0x33);
    let high = u8x16::splat(0xcc);
    (
        (a & low) ^ ((b & low) << u8x16::splat(2)),
        ((a >> u8x16::splat(2)) & low) ^ (b & high),
    )
}

#[inline(always)]
fn exchange_fours(a: u8x16, b: u8x16) -> (u8x16, u8x16)
    ensures { AreExchanged 4 a b result.0 result.1 }
{
    let low = u8x16::splat(0x0f);
    let high = u8x16::splat(0xf0);
    (
        (a & low) ^ ((b & low) << u8x16::splat(4)),
        ((a >> u8x16::splat(4)) & low) ^ (b & high),
    )
}

// The blocks of planes, and the planes of blocks.
#[inline(always)]
pub(crate) fn transpose(rows: [u8x16; 8]) -> [u8x16; 8]
    requires { ArePlanes rows }
    ensures planes { ArePlanes result }
    ensures unpacks { (b : ℕ) → b < 8 → get_or result b [] ≡ block_in rows b }
    ensures packs { (b : ℕ) → b < 8 → block_in result b ≡ get_or rows b [] }
{
    let [a, b, c, d, e, f, g, h] = rows;
    let (a, b) = exchange_ones(a, b);
    let (c, d) = exchange_ones(c, d);
    let (e, f) = exchange_ones(e, f);
    let (g, h) = exchange_ones(g, h);
    let (a, c) = exchange_twos(a, c);
    let (b, d) = exchange_twos(b, d);
    let (e, g) = exchange_twos(e, g);
    let (f, h) = exchange_twos(f, h);
    let (a, e) = exchange_fours(a, e);
    let (b, f) = exchange_fours(b, f);
    let (c, g) = exchange_fours(c, g);
    let (d, h) = exchange_fours(d, h);
    [a, b, c, d, e, f, g, h]
}
