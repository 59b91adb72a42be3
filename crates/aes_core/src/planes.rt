// Eight blocks enciphered or deciphered at once, as planes of bits: a round is XORs, ANDs and moves of bytes in eight
// vectors, the same for all eight blocks.

ghost use Rattle.std.specs.Prelude.{◌≡◌, ℕ, List, ◌+◌, ◌*◌, ◌<◌, ◌≤◌, [], length, get_or, take, drop};
ghost use Rattle.aes_core.specs.Cipher.{bytes_of, decrypted_by, encrypted_by, round_key};
ghost use Rattle.aes_core.specs.Planes.{AreKeyPlanes, ArePlanes, block_in, round_planes};

use crate::circuit::sub_planes;
use crate::inv_circuit::inv_sub_planes;
use crate::layers::{add_planes, inv_mix_planes, inv_shift_planes, mix_planes, shift_planes};
use crate::transpose::transpose;
use crate::words::store;
use std::simd::prelude::*;

/// The keys of up to fifteen rounds, each as eight planes that hold it in all eight blocks.
pub(crate) type KeyPlanes = [u8x16; 120];

// The planes of round r.
#[inline(always)]
fn planes_at(keys: &KeyPlanes, r: usize) -> [u8x16; 8]
    requires { r < 15 }
    ensures { result ≡ round_planes keys.now r }
{
    let at = 8 * r;
    [
        keys[at],
        keys[at + 1],
        keys[at + 2],
        keys[at + 3],
        keys[at + 4],
        keys[at + 5],
        keys[at + 6],
        keys[at + 7],
    ]
}

// The words of round r.
#[inline(always)]
fn words_at(keys: &[u32], r: usize) -> [u32; 4]
    requires { 4 * r + 4 ≤ length keys.now }
    ensures { result ≡ take 4 (drop (4 * r) keys.now) }
{
    let at = 4 * r;
    [keys[at], keys[at + 1], keys[at + 2], keys[at + 3]]
}

// The planes of the key of round r, of keys as words.
#[inline(always)]
fn key_planes_at(keys: &[u32], r: usize) -> [u8x16; 8]
    requires { 4 * r + 4 ≤ length keys.now }
    ensures planes { ArePlanes result }
    ensures key { (b : ℕ) → b < 8 → block_in result b ≡ round_key (bytes_of keys.now) r }
{
    let key = store(words_at(keys, r));
    let block = u8x16::from_array(key);
    transpose([block, block, block, block, block, block, block, block])
}

/// The keys of the rounds as planes, from the keys as words.
pub(crate) fn key_planes(keys: &[u32], rounds: usize) -> KeyPlanes
    requires most { rounds ≤ 14 }
    requires room { 4 * (rounds + 1) ≤ length keys.now }
    ensures { AreKeyPlanes result (bytes_of keys.now) rounds }
{
    let mut out = [u8x16::splat(0); 120];
    for r in 0..rounds + 1 {
        let planes = key_planes_at(keys, r);
        out[8 * r..8 * r + 8].copy_from_slice(&planes);
    }
    out
}

/// Enciphers eight blocks (FIPS 197, 5.1), the keys of the rounds being those of `keys`.
#[inline(never)]
pub(crate) fn encrypt_eight(keys: &KeyPlanes, rounds: usize, blocks: [u8x16; 8]) -> [u8x16; 8]
    requires some { 1 ≤ rounds }
    requires most { rounds ≤ 14 }
    requires blocks { ArePlanes blocks }
    requires keys { (r : ℕ) → r ≤ rounds → ArePlanes (round_planes keys.now r) }
    ensures planes { ArePlanes result }
    ensures value { (w : List ℕ) → AreKeyPlanes keys.now w rounds → (b : ℕ) → b < 8 → get_or result b [] ≡ encrypted_by w rounds (get_or blocks b []) }
{
    let mut state = add_planes(transpose(blocks), planes_at(keys, 0));
    for r in 1..rounds {
        let mixed = mix_planes(shift_planes(sub_planes(state)));
        let next = add_planes(mixed, planes_at(keys, r));
        state = next;
    }
    let last = shift_planes(sub_planes(state));
    transpose(add_planes(last, planes_at(keys, rounds)))
}

/// Deciphers eight blocks (FIPS 197, 5.3), the keys of the rounds being those of `keys`.
#[inline(never)]
pub(crate) fn decrypt_eight(keys: &KeyPlanes, rounds: usize, blocks: [u8x16; 8]) -> [u8x16; 8]
    requires some { 1 ≤ rounds }
    requires most { rounds ≤ 14 }
    requires blocks { ArePlanes blocks }
    requires keys { (r : ℕ) → r ≤ rounds → ArePlanes (round_planes keys.now r) }
    ensures planes { ArePlanes result }
    ensures value { (w : List ℕ) → AreKeyPlanes keys.now w rounds → (b : ℕ) → b < 8 → get_or result b [] ≡ decrypted_by w rounds (get_or blocks b []) }
{
    let mut state = add_planes(transpose(blocks), planes_at(keys, rounds));
    for n in 1..rounds {
        let back = inv_sub_planes(inv_shift_planes(state));
        let next = inv_mix_planes(add_planes(back, planes_at(keys, rounds - n)));
        state = next;
    }
    let first = inv_sub_planes(inv_shift_planes(state));
    transpose(add_planes(first, planes_at(keys, 0)))
}
