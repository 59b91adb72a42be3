// The bytes of a checkpoint.
ghost use Rattle.std.specs.Prelude.{◌≡◌, ◌+◌, ◌≤◌, length, take, drop};
ghost use Rattle.byte_list.specs.Bytes.{put, zeros};
ghost use Rattle.redo_log.specs.Check.{check_words, check_bytes};
ghost use Rattle.store_image.specs.View.{block_bytes};

use crate::layout::{SUM_AT, WORDS_END};
use bytes_core::crc32c;

fn write_part(bytes: &mut [u8], at: usize, part: &[u8])
    requires { at + length part.now ≤ length bytes.old }
    ensures { bytes.new ≡ put at part.now bytes.old }
{
    bytes[at..at + part.len()].copy_from_slice(part);
}

#[tactic(auto, unfolding(byte_list::specs::Bytes::zeros))]
fn clear_part(bytes: &mut [u8], at: usize, n: usize)
    requires { at + n ≤ length bytes.old }
    ensures { bytes.new ≡ put at (zeros n) bytes.old }
{
    bytes[at..at + n].fill(0);
}

fn part(bytes: &[u8], at: usize, n: usize) -> &[u8]
    requires { at + n ≤ length bytes.now }
    ensures { result.now ≡ take n (drop at bytes.now) }
{
    &bytes[at..at + n]
}

#[tactic(auto, unfolding(crate::specs::Check::check_words))]
fn words(sequence: u64, from: u64) -> [u8; 24]
    ensures { result ≡ check_words sequence from }
{
    let [a, b, c, d, e, f, g, h] = sequence.to_be_bytes();
    let [i, j, k, l, m, n, o, p] = from.to_be_bytes();
    [
        b'K', b'E', b'Y', b'C', b'H', b'K', b'0', b'1', a, b, c, d, e, f, g, h, i, j, k, l, m, n,
        o, p,
    ]
}

/// Makes of 4096 bytes the checkpoint of this sequence, from which the run begins at this block.
pub(crate) fn fill_check(block: &mut [u8], sequence: u64, from: u64)
    requires size { length block.old ≡ block_bytes }
    ensures { block.new ≡ check_bytes sequence from }
{
    write_part(block, 0, &words(sequence, from));
    clear_part(block, WORDS_END, SUM_AT - WORDS_END);
    let sum = crc32c(part(block, 0, SUM_AT));
    write_part(block, SUM_AT, &sum.to_be_bytes());
}
