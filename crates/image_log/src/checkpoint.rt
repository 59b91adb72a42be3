// The checkpoints of a log, blocks 1 and 2 of its file.
ghost use Rattle.std.specs.Prelude.{◌≡◌, ◌≤◌, ◌*◌, length, option_map, IfSome, IfNone};
ghost use Rattle.store_image.specs.Checkpoint.{HeldCheckpoint, front_blocks};
ghost use Rattle.store_files.specs.Checkpoint.{checkpoint_in, IsNewestCheckpoint};
ghost use Rattle.image_log.specs.Logs.{checkpoint_of};
ghost use Rattle.store_image.specs.View.{block_bytes};

use crate::blocks::place;
use redo_log::read_checkpoint;
use store_files::BLOCK_BYTES;

/// What a checkpoint says: how many were written up to it, and the number of the block that the run
/// begins with.
#[derive(Clone, Copy, Debug, PartialEq, Eq)]
pub struct RunStart {
    pub sequence: u64,
    pub from: u64,
}

// The checkpoint in this block of the file, where it is valid.
fn checkpoint_in(side: u64, block: &[u8]) -> Option<RunStart>
    requires { length block.now ≡ block_bytes }
    ensures { option_map checkpoint_of result ≡ checkpoint_in side block.now }
{
    match read_checkpoint(block, side) {
        Some(c) => Some(RunStart {
            sequence: c.sequence,
            from: c.from,
        }),
        None => None,
    }
}

/// The newest valid checkpoint of a log's file: that of greatest sequence.
pub fn newest_checkpoint(log: &[u8]) -> Option<RunStart>
    requires { front_blocks * block_bytes ≤ length log.now }
    ensures some { IfSome result (λ c. IsNewestCheckpoint log.now (checkpoint_of c)) }
    ensures none { IfNone result ((c : HeldCheckpoint) → IsNewestCheckpoint log.now c → ⊥) }
{
    let first = checkpoint_in(1, place(log, BLOCK_BYTES, 1));
    let second = checkpoint_in(2, place(log, BLOCK_BYTES, 2));
    match (first, second) {
        (Some(even), Some(odd)) => Some(if even.sequence < odd.sequence {
            odd
        } else {
            even
        }),
        (Some(even), None) => Some(even),
        (None, odd) => odd,
    }
}
