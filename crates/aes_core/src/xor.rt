// XOR of one text into another: byte by byte, and sixteen bytes at once by lanes.

ghost use Rattle.std.specs.Prelude.{◌≡◌, ◌<◌, ◌≤◌, length};
ghost use Rattle.aes_core.specs.Cipher.{xored};

use std::simd::prelude::*;

// XOR of `with` into `to`.
#[inline(always)]
pub(crate) fn xor_with(to: &mut [u8], with: &[u8])
    requires { length to.old ≡ length with.now }
    ensures { to.new ≡ xored to.old with.now }
{
    for i in 0..with.len() {
        to[i] ^= with[i];
    }
}

// The same by lanes.
#[inline(always)]
pub(crate) fn xor_sixteen(to: &mut [u8], with: &[u8])
    requires { (length to.old ≡ 16) × (length with.now ≡ 16) }
    ensures { to.new ≡ xored to.old with.now }
{
    let lanes = u8x16::from_slice(to) ^ u8x16::from_slice(with);
    lanes.copy_to_slice(to);
}

#[inline(always)]
pub(crate) fn xor_lanes(to: &mut [u8], with: u8x16)
    requires { (length to.old ≡ 16) × (length with ≡ 16) }
    ensures { to.new ≡ xored to.old with }
{
    let lanes = u8x16::from_slice(to) ^ with;
    lanes.copy_to_slice(to);
}
