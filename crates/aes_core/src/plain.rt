//! AES as FIPS 197 writes it, each step a function over the 16 bytes of the state. It is slow, and
//! here for tests and measurement only: they compare [`crate::BlockKey`], which works by tables, with
//! [`PlainKey`]. Both have the same contracts.

ghost use Rattle.std.specs.Prelude.{◌≡◌, ⊤, ℕ, ◌+◌, ◌-◌, ◌*◌, ◌/◌, ◌^◌, ◌<◌, ◌≤◌, ◌%◌, ◌==◌, List, length, take, slice_set, if◌then◌else◌, MatchOption};
ghost use Rattle.aes_core.specs.Field.{inv_sub_byte, sub_byte, times, times_x};
ghost use Rattle.aes_core.specs.Cipher.{IsCipherBlock, IsKeyLength, IsKeySchedule, after_rounds, before_rounds, circulant_times, decrypted, decrypted_by, encrypted, encrypted_by, inv_mix_columns, inv_shift_rows, inv_sub_bytes, mix_columns, schedule, shift_rows, sub_bytes, xored};

use crate::expansion::{expand, is_key_length};
use crate::tables::{INV_SUB, SUB};
use crate::xor::xor_with;
use std::marker::Model;

/// An AES key of 16, 24 or 32 bytes whose blocks go through the plain steps. Contracts see the key's
/// bytes.
#[derive(Drop)]
pub struct PlainKey {
    // The keys of the rounds, the key itself first.
    keys: [u8; 240],
    key_len: usize,
}

impl Model for PlainKey {
    ghost Value = { List ℕ };

    ghost view = { λ k. take k.key_len k.keys };

    ghost invariant = { λ k. IsKeySchedule k.keys k.key_len };
}

impl PlainKey {
    /// The key of these bytes. There is none exactly where their number is not 16, 24 or 32.
    pub fn new(key: &[u8]) -> Option<PlainKey>
        ensures { MatchOption result (IsKeyLength (length key.now) → ⊥) (λ k. (k ≡ key.now) × IsKeyLength (length key.now)) }
    {
        let n = key.len();
        if !is_key_length(n) {
            return None;
        }
        let mut keys = [0u8; 240];
        expand(&mut keys, key);
        Some(PlainKey { keys, key_len: n })
    }

    /// Enciphers the block in place (FIPS 197, 5.1).
    pub fn encrypt_block(&self, block: &mut [u8; 16])
        ensures { block.new ≡ encrypted self.now block.old }
    {
        let rounds = self.key_len / 4 + 6;
        encrypt(&self.keys[0..16 * (rounds + 1)], rounds, block);
    }

    /// Deciphers the block in place (FIPS 197, 5.3): what it leaves there enciphers to what was there, and what was
    /// enciphered comes back.
    pub fn decrypt_block(&self, block: &mut [u8; 16])
        ensures value { block.new ≡ decrypted self.now block.old }
        ensures inverse { encrypted self.now block.new ≡ block.old }
        ensures undoes { (s : List ℕ) → IsCipherBlock s → block.old ≡ encrypted self.now s → block.new ≡ s }
    {
        let rounds = self.key_len / 4 + 6;
        decrypt(&self.keys[0..16 * (rounds + 1)], rounds, block);
    }
}

#[inline(always)]
pub(crate) fn sub_byte(a: u8) -> u8
    ensures { result ≡ sub_byte a }
{
    SUB[a as usize]
}

#[inline(always)]
pub(crate) fn inv_sub_byte(a: u8) -> u8
    ensures { result ≡ inv_sub_byte a }
{
    INV_SUB[a as usize]
}

#[inline(always)]
fn doubled(a: u8) -> u8
    ensures { result ≡ times_x a }
{
    (a << 1) ^ (if a / 128 == 1 { 0x1b } else { 0 })
}

fn sub_bytes(s: &mut [u8; 16])
    ensures { s.new ≡ sub_bytes s.old }
{
    for b in s.iter_mut() {
        *b = sub_byte(*b);
    }
}

fn inv_sub_bytes(s: &mut [u8; 16])
    ensures { s.new ≡ inv_sub_bytes s.old }
{
    for b in s.iter_mut() {
        *b = inv_sub_byte(*b);
    }
}

fn shift_rows(s: [u8; 16]) -> [u8; 16]
    ensures { result ≡ shift_rows s }
{
    [
        s[0], s[5], s[10], s[15], s[4], s[9], s[14], s[3], s[8], s[13], s[2], s[7], s[12], s[1],
        s[6], s[11],
    ]
}

fn inv_shift_rows(s: [u8; 16]) -> [u8; 16]
    ensures { result ≡ inv_shift_rows s }
{
    [
        s[0], s[13], s[10], s[7], s[4], s[1], s[14], s[11], s[8], s[5], s[2], s[15], s[12], s[9],
        s[6], s[3],
    ]
}

#[inline(always)]
fn mix_column(a: u8, b: u8, c: u8, d: u8) -> [u8; 4]
    ensures { result ≡ circulant_times 2 3 1 1 a b c d }
{
    let (a2, b2, c2, d2) = (doubled(a), doubled(b), doubled(c), doubled(d));
    [
        a2 ^ (b2 ^ b) ^ c ^ d,
        a ^ b2 ^ (c2 ^ c) ^ d,
        a ^ b ^ c2 ^ (d2 ^ d),
        (a2 ^ a) ^ b ^ c ^ d2,
    ]
}

fn mix_columns(s: [u8; 16]) -> [u8; 16]
    ensures { result ≡ mix_columns s }
{
    let w = mix_column(s[0], s[1], s[2], s[3]);
    let x = mix_column(s[4], s[5], s[6], s[7]);
    let y = mix_column(s[8], s[9], s[10], s[11]);
    let z = mix_column(s[12], s[13], s[14], s[15]);
    [
        w[0], w[1], w[2], w[3], x[0], x[1], x[2], x[3], y[0], y[1], y[2], y[3], z[0], z[1], z[2],
        z[3],
    ]
}

#[inline(always)]
fn inv_mix_column(a: u8, b: u8, c: u8, d: u8) -> [u8; 4]
    ensures { result ≡ circulant_times 14 11 13 9 a b c d }
{
    [
        times(14, a) ^ times(11, b) ^ times(13, c) ^ times(9, d),
        times(9, a) ^ times(14, b) ^ times(11, c) ^ times(13, d),
        times(13, a) ^ times(9, b) ^ times(14, c) ^ times(11, d),
        times(11, a) ^ times(13, b) ^ times(9, c) ^ times(14, d),
    ]
}

// m below 16
#[inline(always)]
fn times(m: u8, a: u8) -> u8
    requires { m < 16 }
    ensures { result ≡ times m a }
{
    let a2 = doubled(a);
    let a4 = doubled(a2);
    let a8 = doubled(a4);
    if_odd(m, a) ^ if_odd(m / 2, a2) ^ if_odd(m / 4, a4) ^ if_odd(m / 8, a8)
}

#[inline(always)]
fn if_odd(m: u8, a: u8) -> u8
    ensures { result ≡ (if m % 2 == 1 then a else 0) }
{
    if m % 2 == 1 { a } else { 0 }
}

pub(crate) fn inv_mix_columns(s: [u8; 16]) -> [u8; 16]
    ensures { result ≡ inv_mix_columns s }
{
    let w = inv_mix_column(s[0], s[1], s[2], s[3]);
    let x = inv_mix_column(s[4], s[5], s[6], s[7]);
    let y = inv_mix_column(s[8], s[9], s[10], s[11]);
    let z = inv_mix_column(s[12], s[13], s[14], s[15]);
    [
        w[0], w[1], w[2], w[3], x[0], x[1], x[2], x[3], y[0], y[1], y[2], y[3], z[0], z[1], z[2],
        z[3],
    ]
}

fn round(s: &mut [u8; 16], key: &[u8])
    requires { length key.now ≡ 16 }
    ensures { s.new ≡ xored (mix_columns (shift_rows (sub_bytes s.old))) key.now }
{
    sub_bytes(s);
    *s = mix_columns(shift_rows(*s));
    xor_with(s, key);
}

fn inv_round(s: &mut [u8; 16], key: &[u8])
    requires { length key.now ≡ 16 }
    ensures { s.new ≡ inv_mix_columns (xored (inv_sub_bytes (inv_shift_rows s.old)) key.now) }
{
    *s = inv_shift_rows(*s);
    inv_sub_bytes(s);
    xor_with(s, key);
    *s = inv_mix_columns(*s);
}

pub(crate) fn encrypt(keys: &[u8], rounds: usize, s: &mut [u8; 16])
    requires some { 1 ≤ rounds }
    requires room { 16 * (rounds + 1) ≤ length keys.now }
    ensures { s.new ≡ encrypted_by keys.now rounds s.old }
{
    xor_with(s, &keys[0..16]);
    for r in 1..rounds {
        round(s, &keys[16 * r..16 * r + 16]);
    }
    sub_bytes(s);
    *s = shift_rows(*s);
    xor_with(s, &keys[16 * rounds..16 * rounds + 16]);
}

pub(crate) fn decrypt(keys: &[u8], rounds: usize, s: &mut [u8; 16])
    requires some { 1 ≤ rounds }
    requires room { 16 * (rounds + 1) ≤ length keys.now }
    ensures { s.new ≡ decrypted_by keys.now rounds s.old }
{
    xor_with(s, &keys[16 * rounds..16 * rounds + 16]);
    for n in 1..rounds {
        let r = rounds - n;
        inv_round(s, &keys[16 * r..16 * r + 16]);
    }
    *s = inv_shift_rows(*s);
    inv_sub_bytes(s);
    xor_with(s, &keys[0..16]);
}
