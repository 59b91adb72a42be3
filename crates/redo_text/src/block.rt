// Ring blocks, written over zero bytes and deciphered in place.
ghost use Rattle.std.specs.Prelude.{◌≡◌, ℕ, ◌+◌, ◌*◌, ◌++◌, ◌<◌, ◌≤◌, ◌^◌, Bool, List, length, take};
ghost use Rattle.std.specs.Int.{to_be_bytes, w32};
ghost use Rattle.aes_core.specs.Algorithm.{ciphered};
ghost use Rattle.aes_core.specs.Modes.{joined};
ghost use Rattle.byte_list.specs.Bytes.{AreBytes, put, range, zeros};
ghost use Rattle.bytes_core.specs.Crc.{crc32c};
ghost use Rattle.redo_text.specs.Block.{AreOf, block_count, blocks, filled, flags, head, log_iv, nth_block, ring_block, ring_block_size, ring_body_at, ring_body_size, ring_sum_at, text_part};
ghost use Rattle.redo_text.specs.Reading.{block_body, block_in_clear, number_of};

use crate::RedoKey;
use crate::key::log_iv;
use crate::layout::{BODY_AT, BODY_BYTES, RING_BLOCK_BYTES, SUM_AT};
use aes_core::BlockKey;
use byte_list::fields::{be64_at, put, put_be32};
use bytes_core::crc32c;

fn flags(first: bool, last: bool) -> u16
    ensures { result ≡ flags first last }
{
    (if first { 1 } else { 0 }) + (if last { 2 } else { 0 })
}

// The first 16 bytes of a block.
#[tactic(auto, unfolding(crate::specs::Block::head))]
fn head(number: u64, version: u32, used: u16, flags: u16) -> [u8; 16]
    ensures { result ≡ head number version used flags }
{
    let n = number.to_be_bytes();
    let v = version.to_be_bytes();
    let u = used.to_be_bytes();
    let f = flags.to_be_bytes();
    [
        n[0], n[1], n[2], n[3], n[4], n[5], n[6], n[7], v[0], v[1], v[2], v[3], u[0], u[1], f[0],
        f[1],
    ]
}

// Enciphers the body of a block.
fn encipher_body(block: &mut [u8], number: u64, key: &RedoKey, block_key: &BlockKey)
    requires size { length block.old ≡ ring_block_size }
    requires keyed { block_key.now ≡ key.now.local }
    ensures value { block.new ≡ put ring_body_at (ciphered key.now.algorithm key.now.local (log_iv number) (block_body block.old)) block.old }
    ensures long { length (ciphered key.now.algorithm key.now.local (log_iv number) (block_body block.old)) ≡ ring_body_size }
{
    key.algorithm
        .encrypt(block_key, &log_iv(number), &mut block[BODY_AT..SUM_AT]);
}

// Writes the checksum of all bytes before the last four into these.
pub(crate) fn write_sum(block: &mut [u8])
    requires { length block.old ≡ ring_block_size }
    ensures { block.new ≡ put ring_sum_at (to_be_bytes w32 (crc32c (range 0 ring_sum_at block.old))) block.old }
{
    let sum = crc32c(&block[..SUM_AT]);
    put_be32(block, SUM_AT, sum);
}

// Writes a block over zero bytes.
fn write_block(
    block: &mut [u8],
    number: u64,
    first: bool,
    last: bool,
    text: &[u8],
    key: &RedoKey,
    block_key: &BlockKey,
)
    requires clear { block.old ≡ zeros ring_block_size }
    requires most { length text.now ≤ ring_body_size }
    requires keyed { block_key.now ≡ key.now.local }
    ensures { block.new ≡ ring_block key.now number first last text.now }
{
    let head = head(number, key.version, text.len() as u16, flags(first, last));
    put(block, 0, &head);
    put(block, 16, text);
    encipher_body(block, number, key, block_key);
    write_sum(block);
}

// The part of a text that its block k holds.
fn text_part(text: &[u8], k: usize) -> &[u8]
    requires { k < block_count text.now }
    ensures value { result.now ≡ text_part text.now k }
    ensures most { length result.now ≤ ring_body_size }
{
    let behind = &text[BODY_BYTES * k..];
    &behind[..4076usize.min(behind.len())]
}

// Writes block k of a text over zero bytes.
fn write_nth(
    block: &mut [u8],
    k: usize,
    first: u64,
    text: &[u8],
    key: &RedoKey,
    block_key: &BlockKey,
)
    requires clear { block.old ≡ zeros ring_block_size }
    requires within { k < block_count text.now }
    requires number { first + k < 2 ^ 64 }
    requires keyed { block_key.now ≡ key.now.local }
    ensures { block.new ≡ nth_block key.now first text.now k }
{
    let count = text.len().div_ceil(BODY_BYTES);
    let part = text_part(text, k);
    write_block(
        block,
        first + k as u64,
        k == 0,
        k + 1 == count,
        part,
        key,
        block_key,
    );
}

fn write_under(out: &mut [u8], first: u64, text: &[u8], key: &RedoKey, block_key: &BlockKey)
    requires clear { out.old ≡ zeros (ring_block_size * block_count text.now) }
    requires number { first + block_count text.now < 2 ^ 64 }
    requires keyed { block_key.now ≡ key.now.local }
    ensures value { out.new ≡ blocks key.now first text.now }
    ensures each { AreOf ring_block_size (nth_block key.now first text.now) (block_count text.now) }
{
    let count = text.len().div_ceil(BODY_BYTES);
    for k in 0..count {
        write_nth(
            &mut out[RING_BLOCK_BYTES * k..RING_BLOCK_BYTES * k + RING_BLOCK_BYTES],
            k,
            first,
            text,
            key,
            block_key,
        );
    }
}

// Writes the blocks of a text over zero bytes, the first block of this number.
pub(crate) fn write_blocks(out: &mut [u8], first: u64, text: &[u8], key: &RedoKey)
    requires clear { out.old ≡ zeros (ring_block_size * block_count text.now) }
    requires number { first + block_count text.now < 2 ^ 64 }
    ensures value { out.new ≡ blocks key.now first text.now }
    ensures each { AreOf ring_block_size (nth_block key.now first text.now) (block_count text.now) }
{
    if let Some(block_key) = BlockKey::new(&key.local) {
        write_under(out, first, text, key, &block_key);
    } else {
        unreachable!()
    }
}

fn decipher_under(bytes: &mut [u8], key: &RedoKey, block_key: &BlockKey)
    requires size { length bytes.old ≡ ring_block_size }
    requires keyed { block_key.now ≡ key.now.local }
    ensures value { bytes.new ≡ block_in_clear key.now bytes.old }
    ensures inverse { ciphered key.now.algorithm key.now.local (log_iv (number_of bytes.old)) (block_body bytes.new) ≡ block_body bytes.old }
    ensures undoes { (p : List ℕ) → AreBytes p → block_body bytes.old ≡ ciphered key.now.algorithm key.now.local (log_iv (number_of bytes.old)) p → block_body bytes.new ≡ p }
    ensures text { (number : ℕ) (first last : Bool) (text : List ℕ) → number < 2 ^ 64 → AreBytes text → length text ≤ ring_body_size → bytes.old ≡ ring_block key.now number first last text → range ring_body_at (length text) bytes.new ≡ text }
{
    let number = be64_at(bytes, 0);
    key.algorithm
        .decrypt(block_key, &log_iv(number), &mut bytes[BODY_AT..SUM_AT]);
}

/// Deciphers the body of a ring block in place; its other bytes stay. The text of a block is the
/// first bytes of its body then, as many as its used length says. What stands after them may be
/// anything.
pub fn decipher_block(bytes: &mut [u8], key: &RedoKey)
    requires size { length bytes.old ≡ ring_block_size }
    ensures value { bytes.new ≡ block_in_clear key.now bytes.old }
    // The body that is left enciphers to the one that was there, and a body that was enciphered comes back.
    ensures inverse { ciphered key.now.algorithm key.now.local (log_iv (number_of bytes.old)) (block_body bytes.new) ≡ block_body bytes.old }
    ensures undoes { (p : List ℕ) → AreBytes p → block_body bytes.old ≡ ciphered key.now.algorithm key.now.local (log_iv (number_of bytes.old)) p → block_body bytes.new ≡ p }
    // So the text of a block comes back.
    ensures text { (number : ℕ) (first last : Bool) (text : List ℕ) → number < 2 ^ 64 → AreBytes text → length text ≤ ring_body_size → bytes.old ≡ ring_block key.now number first last text → range ring_body_at (length text) bytes.new ≡ text }
{
    if let Some(block_key) = BlockKey::new(&key.local) {
        decipher_under(bytes, key, &block_key);
    } else {
        unreachable!()
    }
}
