// CBC with tail, and CTR. What can go block beside block goes eight at a time as planes of bits, then
// four at a time.

ghost use Rattle.std.specs.Prelude.{◌≡◌, ℕ, List, [], ◌∷◌, ◌++◌, ◌+◌, ◌*◌, ◌/◌, ◌%◌, ◌^◌, ◌<◌, ◌≤◌, length, drop, get_or};
ghost use Rattle.std.specs.Int.{to_be_bytes, w128};
ghost use Rattle.aes_core.specs.Cipher.{AreBytes, IsCipherBlock, decrypted, encrypted, round_count, schedule, xored};
ghost use Rattle.aes_core.specs.Modes.{text_block, block_before, cbc_tail, ctr, joined, uncbc_tail};
ghost use Rattle.aes_core.specs.Planes.{AreKeyPlanes, ArePlanes};

use crate::key::BlockKey;
use crate::planes::KeyPlanes;
use crate::words::{number_of, store};
use crate::xor::{xor_lanes, xor_sixteen, xor_with};
use std::simd::prelude::*;

/// Enciphers bytes of any number in place, in CBC with tail (this project's own): the whole blocks
/// in CBC (SP 800-38A, 6.2), a last partial block by XOR with the first bytes of what the IV
/// enciphers to.
// Kept apart from its callers: the rounds, which are inlined in it, fill the registers.
#[inline(never)]
pub fn cbc_tail_encrypt(key: &BlockKey, iv: &[u8; 16], bytes: &mut [u8])
    ensures { bytes.new ≡ cbc_tail key.now iv.now bytes.old }
{
    let mut chain = number_of(iv);
    let count = bytes.len() / 16;
    for i in 0..count {
        let mixed = number_of(&bytes[16 * i..16 * i + 16]) ^ chain;
        chain = key.encrypt_number(mixed);
        let block = chain.to_le_bytes();
        bytes[16 * i..16 * i + 16].copy_from_slice(&block);
    }
    mask_tail(key, iv, &mut bytes[16 * count..]);
}

// XOR with the first bytes of what the IV enciphers to.
fn mask_tail(key: &BlockKey, iv: &[u8; 16], tail: &mut [u8])
    requires { length tail.old < 16 }
    ensures { tail.new ≡ xored tail.old (encrypted key.now iv.now) }
{
    let mut mask = *iv;
    key.encrypt_block(&mut mask);
    xor_with(tail, &mask[0..tail.len()]);
}

// Block i of the bytes.
#[inline(always)]
fn block_of(bytes: &[u8], i: usize) -> [u8; 16]
    requires { 16 * i + 16 ≤ length bytes.now }
    ensures { result ≡ text_block bytes.now i }
{
    let mut block = [0u8; 16];
    block.copy_from_slice(&bytes[16 * i..16 * i + 16]);
    block
}

// The plain block of a cipher block in CBC, `before` being the cipher block before it.
#[inline(always)]
fn plain_block(key: &BlockKey, cipher: [u8; 16], before: &[u8; 16]) -> [u8; 16]
    ensures { result ≡ xored (decrypted key.now cipher) before.now }
{
    let mut block = cipher;
    key.decrypt_block(&mut block);
    xor_sixteen(&mut block, before);
    block
}

// Block i of the bytes, in a vector.
#[inline(always)]
fn lanes_of(bytes: &[u8], i: usize) -> u8x16
    requires { 16 * i + 16 ≤ length bytes.now }
    ensures { result ≡ text_block bytes.now i }
{
    u8x16::from_array(block_of(bytes, i))
}

// Eight blocks, from block i on.
#[inline(always)]
fn eight_of(bytes: &[u8], i: usize) -> [u8x16; 8]
    requires { 16 * i + 128 ≤ length bytes.now }
    ensures planes { ArePlanes result }
    ensures value { (k : ℕ) → k < 8 → get_or result k [] ≡ text_block bytes.now (i + k) }
{
    [
        lanes_of(bytes, i),
        lanes_of(bytes, i + 1),
        lanes_of(bytes, i + 2),
        lanes_of(bytes, i + 3),
        lanes_of(bytes, i + 4),
        lanes_of(bytes, i + 5),
        lanes_of(bytes, i + 6),
        lanes_of(bytes, i + 7),
    ]
}

// Eight blocks in place of 128 bytes.
#[inline(always)]
fn put_eight(to: &mut [u8], blocks: &[u8x16; 8])
    requires room { length to.old ≡ 128 }
    requires blocks { ArePlanes blocks.now }
    ensures { to.new ≡ joined (λ k. get_or blocks.now k []) 8 }
{
    for k in 0..8 {
        blocks[k].copy_to_slice(&mut to[16 * k..16 * k + 16]);
    }
}

// The plain blocks of eight cipher blocks in CBC, `before` being the cipher block before them.
#[inline(always)]
fn plain_eight(key: &BlockKey, planes: &KeyPlanes, cipher: [u8x16; 8], before: u8x16) -> [u8x16; 8]
    requires key { AreKeyPlanes planes.now (schedule key.now) (round_count key.now) }
    requires cipher { ArePlanes cipher }
    requires before { IsCipherBlock before }
    ensures planes { ArePlanes result }
    ensures value { (k : ℕ) → k < 8 → get_or result k [] ≡ xored (decrypted key.now (get_or cipher k [])) (get_or (before ∷ cipher) k []) }
{
    let text = key.decrypt_eight(planes, cipher);
    [
        text[0] ^ before,
        text[1] ^ cipher[0],
        text[2] ^ cipher[1],
        text[3] ^ cipher[2],
        text[4] ^ cipher[3],
        text[5] ^ cipher[4],
        text[6] ^ cipher[5],
        text[7] ^ cipher[6],
    ]
}

// CBC deciphered on as many groups of eight blocks as there are. The value is the cipher block before
// the rest, or the IV. `known` is for the caller, which cannot tell of bytes that are gone.
fn decrypt_eights(key: &BlockKey, iv: &[u8; 16], bytes: &mut [u8]) -> [u8; 16]
    ensures value { bytes.new ≡ joined (λ j. xored (decrypted key.now (text_block bytes.old j)) (block_before iv.now bytes.old j)) (8 * (length bytes.old / 128)) ++ drop (128 * (length bytes.old / 128)) bytes.old }
    ensures before { result ≡ block_before iv.now bytes.old (8 * (length bytes.old / 128)) }
    ensures known { AreBytes bytes.old }
{
    if bytes.len() < 128 {
        return *iv;
    }
    let planes = key.planes();
    let mut before = u8x16::from_array(*iv);
    for i in 0..bytes.len() / 128 {
        let cipher = eight_of(bytes, 8 * i);
        let text = plain_eight(key, &planes, cipher, before);
        put_eight(&mut bytes[128 * i..128 * i + 128], &text);
        before = cipher[7];
    }
    before.to_array()
}

/// Deciphers bytes of any number in place, in CBC with tail: what it leaves there enciphers to what
/// was there, and what [`cbc_tail_encrypt`] enciphered under this key and IV comes back.
pub fn cbc_tail_decrypt(key: &BlockKey, iv: &[u8; 16], bytes: &mut [u8])
    ensures value { bytes.new ≡ uncbc_tail key.now iv.now bytes.old }
    ensures inverse { cbc_tail key.now iv.now bytes.new ≡ bytes.old }
    ensures undoes { (p : List ℕ) → AreBytes p → bytes.old ≡ cbc_tail key.now iv.now p → bytes.new ≡ p }
{
    key.known();
    let eights = bytes.len() / 128;
    let fours = bytes.len() / 64;
    let count = bytes.len() / 16;
    let left = bytes.len() - 16 * count;
    let mut before = decrypt_eights(key, iv, bytes);
    'fours: for i in 2 * eights..fours {
        let a_at = 4 * i;
        let b_at = 4 * i + 1;
        let c_at = 4 * i + 2;
        let d_at = 4 * i + 3;
        let a = block_of(bytes, a_at);
        let b = block_of(bytes, b_at);
        let c = block_of(bytes, c_at);
        let d = block_of(bytes, d_at);
        let ta = plain_block(key, a, &before);
        let tb = plain_block(key, b, &a);
        let tc = plain_block(key, c, &b);
        let td = plain_block(key, d, &c);
        bytes[16 * a_at..16 * a_at + 16].copy_from_slice(&ta);
        bytes[16 * b_at..16 * b_at + 16].copy_from_slice(&tb);
        bytes[16 * c_at..16 * c_at + 16].copy_from_slice(&tc);
        bytes[16 * d_at..16 * d_at + 16].copy_from_slice(&td);
        before = d;
    }
    'rest: for k in 4 * fours..count {
        let cipher = block_of(bytes, k);
        let text = plain_block(key, cipher, &before);
        bytes[16 * k..16 * k + 16].copy_from_slice(&text);
        before = cipher;
    }
    let mut mask = *iv;
    key.encrypt_block(&mut mask);
    xor_with(&mut bytes[16 * count..], &mask[0..left]);
}

// The bytes of a number, highest first: four words, each with its bytes turned round.
#[inline(always)]
fn big_endian(n: u128) -> [u8; 16]
    ensures { result ≡ to_be_bytes w128 n }
{
    let a = ((n >> 96) as u32).swap_bytes();
    let b = (((n >> 64) & 0xffff_ffff) as u32).swap_bytes();
    let c = (((n >> 32) & 0xffff_ffff) as u32).swap_bytes();
    let d = ((n & 0xffff_ffff) as u32).swap_bytes();
    store([a, b, c, d])
}

// Block i of the key stream: the counter plus i, modulo 2^128, enciphered.
#[inline(always)]
fn stream_block(key: &BlockKey, start: u128, i: usize) -> [u8; 16]
    ensures { result ≡ encrypted key.now (to_be_bytes w128 ((start + i) % 2 ^ 128)) }
{
    let mut block = big_endian(start.wrapping_add(i as u128));
    key.encrypt_block(&mut block);
    block
}

// XOR of eight blocks into 128 bytes, by lanes.
#[inline(always)]
fn xor_eight(to: &mut [u8], with: &[u8x16; 8])
    requires room { length to.old ≡ 128 }
    requires blocks { ArePlanes with.now }
    ensures { to.new ≡ joined (λ k. xored (text_block to.old k) (get_or with.now k [])) 8 }
{
    for k in 0..8 {
        xor_lanes(&mut to[16 * k..16 * k + 16], with[k]);
    }
}

// A number of sixteen bytes in a vector, the highest first: its halves as lanes, with their bytes
// turned round. Made of an array the vector is put together byte by byte.
#[inline(always)]
fn big_endian_lanes(n: u128) -> u8x16
    ensures { result ≡ to_be_bytes w128 n }
{
    let halves = u64x2::from_array([(n & 0xffff_ffff_ffff_ffff) as u64, (n >> 64) as u64]);
    halves.to_le_bytes().reverse()
}

// Counter block i, in a vector.
#[inline(always)]
fn counter_lanes(start: u128, i: usize) -> u8x16
    ensures { result ≡ to_be_bytes w128 ((start + i) % 2 ^ 128) }
{
    big_endian_lanes(start.wrapping_add(i as u128))
}

// Eight blocks of the key stream, from block i on.
#[inline(always)]
fn stream_eight(key: &BlockKey, planes: &KeyPlanes, start: u128, i: usize) -> [u8x16; 8]
    requires key { AreKeyPlanes planes.now (schedule key.now) (round_count key.now) }
    requires room { i + 8 < 2 ^ 64 }
    ensures planes { ArePlanes result }
    ensures value { (k : ℕ) → k < 8 → get_or result k [] ≡ encrypted key.now (to_be_bytes w128 ((start + (i + k)) % 2 ^ 128)) }
{
    let counters = [
        counter_lanes(start, i),
        counter_lanes(start, i + 1),
        counter_lanes(start, i + 2),
        counter_lanes(start, i + 3),
        counter_lanes(start, i + 4),
        counter_lanes(start, i + 5),
        counter_lanes(start, i + 6),
        counter_lanes(start, i + 7),
    ];
    key.encrypt_eight(planes, counters)
}

// CTR on as many groups of eight blocks as there are.
fn apply_eights(key: &BlockKey, start: u128, bytes: &mut [u8])
    ensures { bytes.new ≡ joined (λ j. xored (text_block bytes.old j) (encrypted key.now (to_be_bytes w128 ((start + j) % 2 ^ 128)))) (8 * (length bytes.old / 128)) ++ drop (128 * (length bytes.old / 128)) bytes.old }
{
    if bytes.len() < 128 {
        return;
    }
    let planes = key.planes();
    for i in 0..bytes.len() / 128 {
        let stream = stream_eight(key, &planes, start, 8 * i);
        xor_eight(&mut bytes[128 * i..128 * i + 128], &stream);
    }
}

/// Enciphers or deciphers bytes of any number in place, in CTR (SP 800-38A, 6.5): XOR with the key
/// stream. The counter is the whole block as a big-endian number, plus one for each block, modulo
/// 2^128. A second call with the same key and counter gives the bytes back.
pub fn ctr_apply(key: &BlockKey, counter: &[u8; 16], bytes: &mut [u8])
    ensures value { bytes.new ≡ ctr key.now counter.now bytes.old }
    ensures inverse { ctr key.now counter.now bytes.new ≡ bytes.old }
    ensures undoes { (p : List ℕ) → bytes.old ≡ ctr key.now counter.now p → bytes.new ≡ p }
{
    key.known();
    let start = u128::from_be_bytes(*counter);
    let eights = bytes.len() / 128;
    let fours = bytes.len() / 64;
    let count = bytes.len() / 16;
    let left = bytes.len() - 16 * count;
    apply_eights(key, start, bytes);
    'fours: for i in 2 * eights..fours {
        let a_at = 4 * i;
        let b_at = 4 * i + 1;
        let c_at = 4 * i + 2;
        let d_at = 4 * i + 3;
        let a = stream_block(key, start, a_at);
        let b = stream_block(key, start, b_at);
        let c = stream_block(key, start, c_at);
        let d = stream_block(key, start, d_at);
        xor_sixteen(&mut bytes[16 * a_at..16 * a_at + 16], &a);
        xor_sixteen(&mut bytes[16 * b_at..16 * b_at + 16], &b);
        xor_sixteen(&mut bytes[16 * c_at..16 * c_at + 16], &c);
        xor_sixteen(&mut bytes[16 * d_at..16 * d_at + 16], &d);
    }
    'rest: for k in 4 * fours..count {
        let block = stream_block(key, start, k);
        xor_sixteen(&mut bytes[16 * k..16 * k + 16], &block);
    }
    let last = stream_block(key, start, count);
    xor_with(&mut bytes[16 * count..], &last[0..left]);
}
