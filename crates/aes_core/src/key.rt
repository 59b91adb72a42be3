// A key for the bodies by tables: the keys of the rounds as words, for both directions.

ghost use Rattle.std.specs.Prelude.{◌≡◌, ℕ, ◌+◌, ◌*◌, ◌/◌, ◌<◌, ◌≤◌, List, [], length, take, drop, get_or, MatchOption};
ghost use Rattle.std.specs.Int.{to_le_bytes, w128};
ghost use Rattle.aes_core.specs.Cipher.{IsCipherBlock, IsKey, IsKeyLength, IsWordSchedule, bytes_of, decrypted, encrypted, round_count, round_key, schedule, state_of, inv_mix_columns};
ghost use Rattle.aes_core.specs.Planes.{AreKeyPlanes, ArePlanes};
ghost use Rattle.aes_core.specs.Modes.{joined};

use crate::expansion::{expand, is_key_length};
use crate::planes::{KeyPlanes, decrypt_eight, encrypt_eight, key_planes};
use crate::{plain, words};
use std::marker::Model;
use std::simd::prelude::*;

/// An AES key of 16, 24 or 32 bytes, with the keys of its rounds ready for the tables, both ways.
/// Contracts see the key's bytes.
#[derive(Drop)]
pub struct BlockKey {
    words: [u32; 60],
    // Each round's key through the inverse of MixColumns.
    back: [u32; 60],
    key_len: usize,
}

impl Model for BlockKey {
    ghost Value = { List ℕ };

    ghost view = { λ k. take k.key_len (bytes_of k.words) };

    ghost invariant = { λ k. IsWordSchedule k.words k.back k.key_len };
}

fn words_of(keys: &[u8]) -> [u32; 60]
    requires { length keys.now ≡ 240 }
    ensures { bytes_of result ≡ keys.now }
{
    let mut out = [0u32; 60];
    for i in 0..60 {
        let word = u32::from_le_bytes([
            keys[4 * i],
            keys[4 * i + 1],
            keys[4 * i + 2],
            keys[4 * i + 3],
        ]);
        out[i] = word;
    }
    out
}

fn back_of(keys: &[u8]) -> [u32; 60]
    requires { length keys.now ≡ 240 }
    ensures { bytes_of result ≡ joined (λ j. inv_mix_columns (round_key keys.now j)) 15 }
{
    let mut out = [0u32; 60];
    for r in 0..15 {
        let mut block = [0u8; 16];
        block.copy_from_slice(&keys[16 * r..16 * r + 16]);
        let turned = plain::inv_mix_columns(block);
        let four = words::four_words(&turned);
        out[4 * r..4 * r + 4].copy_from_slice(&four);
    }
    out
}

impl BlockKey {
    /// The key of these bytes. There is none exactly where their number is not 16, 24 or 32.
    pub fn new(key: &[u8]) -> Option<BlockKey>
        ensures { MatchOption result (IsKeyLength (length key.now) → ⊥) (λ k. (k ≡ key.now) × IsKeyLength (length key.now)) }
    {
        let n = key.len();
        if !is_key_length(n) {
            return None;
        }
        let mut keys = [0u8; 240];
        expand(&mut keys, key);
        let words = words_of(&keys);
        let back = back_of(&keys);
        Some(BlockKey {
            words,
            back,
            key_len: n,
        })
    }

    /// Does nothing. A caller whose contract rests on the form of a key calls it, to know that the
    /// key's bytes are bytes, and whole words.
    #[inline(always)]
    pub fn known(&self)
        ensures { IsKey self.now }
    {
        let _ = &self.key_len;
    }

    /// Enciphers the block in place (FIPS 197, 5.1).
    pub fn encrypt_block(&self, block: &mut [u8; 16])
        ensures { block.new ≡ encrypted self.now block.old }
    {
        let rounds = self.key_len / 4 + 6;
        words::encrypt(&self.words[0..4 * (rounds + 1)], rounds, block);
    }

    // Enciphers a block that is one number, its first byte the lowest.
    #[inline(always)]
    pub(crate) fn encrypt_number(&self, n: u128) -> u128
        ensures { to_le_bytes w128 result ≡ encrypted self.now (to_le_bytes w128 n) }
    {
        let rounds = self.key_len / 4 + 6;
        words::encrypt_number(&self.words[0..4 * (rounds + 1)], rounds, n)
    }

    // The keys of the rounds as planes of bits, for `encrypt_eight` and `decrypt_eight`.
    pub(crate) fn planes(&self) -> KeyPlanes
        ensures { AreKeyPlanes result (schedule self.now) (round_count self.now) }
    {
        let rounds = self.key_len / 4 + 6;
        key_planes(&self.words[0..4 * (rounds + 1)], rounds)
    }

    // Enciphers eight blocks, `planes` being those of this key.
    #[inline(always)]
    pub(crate) fn encrypt_eight(&self, planes: &KeyPlanes, blocks: [u8x16; 8]) -> [u8x16; 8]
        requires key { AreKeyPlanes planes.now (schedule self.now) (round_count self.now) }
        requires blocks { ArePlanes blocks }
        ensures planes { ArePlanes result }
        ensures value { (b : ℕ) → b < 8 → get_or result b [] ≡ encrypted self.now (get_or blocks b []) }
    {
        let rounds = self.key_len / 4 + 6;
        encrypt_eight(planes, rounds, blocks)
    }

    // Deciphers eight blocks, `planes` being those of this key.
    #[inline(always)]
    pub(crate) fn decrypt_eight(&self, planes: &KeyPlanes, blocks: [u8x16; 8]) -> [u8x16; 8]
        requires key { AreKeyPlanes planes.now (schedule self.now) (round_count self.now) }
        requires blocks { ArePlanes blocks }
        ensures planes { ArePlanes result }
        ensures value { (b : ℕ) → b < 8 → get_or result b [] ≡ decrypted self.now (get_or blocks b []) }
    {
        let rounds = self.key_len / 4 + 6;
        decrypt_eight(planes, rounds, blocks)
    }

    /// Deciphers the block in place (FIPS 197, 5.3): what it leaves there enciphers to what was there, and what was
    /// enciphered comes back.
    pub fn decrypt_block(&self, block: &mut [u8; 16])
        ensures value { block.new ≡ decrypted self.now block.old }
        ensures inverse { encrypted self.now block.new ≡ block.old }
        ensures undoes { (s : List ℕ) → IsCipherBlock s → block.old ≡ encrypted self.now s → block.new ≡ s }
    {
        let rounds = self.key_len / 4 + 6;
        words::decrypt(
            &self.words[0..4 * (rounds + 1)],
            &self.back[0..4 * (rounds + 1)],
            rounds,
            block,
        );
    }
}
