// Checkpoints are read.
ghost use Rattle.std.specs.Prelude.{◌≡◌, ◌≤◌, IfSome, IfNone, Some, None, length, take, codes, true};
ghost use Rattle.page_places.specs.Texts.{ends_in_sum};
ghost use Rattle.store_files.specs.Checkpoint.{checkpoint_in};
ghost use Rattle.store_image.specs.View.{block_bytes};

use crate::layout::SUM_AT;
use byte_list::fields::{be32_at, be64_at};
use bytes_core::crc32c;
use store_files::{CHECKPOINT_FROM_AT, CHECKPOINT_SEQUENCE_AT};

/// What a checkpoint says: how many were written up to it, and the block from which the run begins.
#[derive(Clone, Copy, Debug, PartialEq, Eq)]
pub struct Checkpoint {
    pub sequence: u64,
    pub from: u64,
}

fn front(bytes: &[u8], n: usize) -> &[u8]
    requires { n ≤ length bytes.now }
    ensures { result.now ≡ take n bytes.now }
{
    &bytes[0..n]
}

// Whether the checksum of a file block is right.
fn ends_in_sum(block: &[u8]) -> bool
    requires { length block.now ≡ block_bytes }
    ensures { result ≡ ends_in_sum block.now }
{
    be32_at(block, SUM_AT) == crc32c(front(block, SUM_AT))
}

fn has_magic(block: &[u8]) -> bool
    requires { length block.now ≡ block_bytes }
    ensures yes { result ≡ true → take 8 block.now ≡ codes "KEYCHK01" }
    ensures no { take 8 block.now ≡ codes "KEYCHK01" → result ≡ true }
{
    let (magic, _rest) = block.split_at(8);
    let wanted: &[u8] = b"KEYCHK01";
    magic == wanted
}

/// The valid checkpoint in this block of the file, of 4096 bytes. There is none exactly where the
/// block isn't valid there. It takes no memory.
pub fn read_checkpoint(block: &[u8], place: u64) -> Option<Checkpoint>
    requires { length block.now ≡ block_bytes }
    ensures some { IfSome result (λ c. checkpoint_in place block.now ≡ Some (record { sequence = c.sequence; from = c.from })) }
    ensures none { IfNone result (checkpoint_in place block.now ≡ None) }
{
    if !ends_in_sum(block) {
        return None;
    }
    if !has_magic(block) {
        return None;
    }
    let sequence = be64_at(block, CHECKPOINT_SEQUENCE_AT);
    let from = be64_at(block, CHECKPOINT_FROM_AT);
    if place != 1 + sequence % 2 {
        return None;
    }
    if sequence < 1 {
        return None;
    }
    if sequence >= from {
        return None;
    }
    if from > 1 << 50 {
        return None;
    }
    Some(Checkpoint { sequence, from })
}
