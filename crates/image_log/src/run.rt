// The run: whole mini-transactions from the newest checkpoint on.
ghost use Rattle.std.specs.Prelude.{◌≡◌, ℕ, ◌≤◌, ◌<◌, ◌+◌, ◌*◌, ◌^◌, length, IfOk, IfSome, IfNone};
ghost use Rattle.store_files.specs.Run.{MakeWholeMtr, MakeWholeMtrs, NoWholeMtr};
ghost use Rattle.store_image.specs.View.{block_bytes, most_mtr_blocks};
ghost use Rattle.store_image.specs.Checkpoint.{front_blocks};
ghost use Rattle.store_files.specs.Header.{most_ring_blocks};

use crate::blocks::{block_at, valid_block};
use cause_core::OutOfMemory;
use std::alloc::Global;

// The most blocks of a mini-transaction.
const MOST_BLOCKS: u64 = store_files::MOST_MTR_BLOCKS;

// How many blocks the whole mini-transaction has that begins with the block of this number, where
// there is one.
fn whole_mtr(log: &[u8], blocks: u32, number: u64) -> Option<u64>
    requires long { length log.now ≡ (front_blocks + blocks) * block_bytes }
    requires some { 0 < blocks }
    requires small { number + most_mtr_blocks < 2 ^ 64 }
    ensures some { IfSome result (λ k. MakeWholeMtr blocks log.now number k) }
    ensures none { IfNone result (NoWholeMtr blocks log.now number) }
{
    for i in 0..MOST_BLOCKS {
        let block = valid_block(number + i, block_at(log, blocks, number + i))?;
        if block.first() != (i == 0) {
            return None;
        }
        if block.last() {
            return Some(i + 1);
        }
    }
    None
}

// The sizes in blocks of the whole mini-transactions of a run, and the number behind its last block.
#[derive(Drop)]
pub(crate) struct RunSizes {
    pub sizes: Vec<u64>,
    pub end: u64,
}

// The longest run from the block of this number on.
pub(crate) fn run_from(
    alloc: Global,
    log: &[u8],
    blocks: u32,
    from: u64,
) -> Result<RunSizes, OutOfMemory>
    requires long { length log.now ≡ (front_blocks + blocks) * block_bytes }
    requires some { 0 < blocks }
    requires most { blocks ≤ most_ring_blocks }
    requires small { from ≤ 2 ^ 50 }
    ensures run { IfOk result (λ run. MakeWholeMtrs blocks log.now from run.sizes.items run.end) }
    ensures longest { IfOk result (λ run. NoWholeMtr blocks log.now run.end) }
    ensures least { IfOk result (λ run. from ≤ run.end) }
    ensures small { IfOk result (λ run. run.end ≤ 2 ^ 51) }
{
    let mut sizes = Vec::new(alloc);
    let mut end = from;
    for _round in 0..blocks + 1 {
        let Some(size) = whole_mtr(log, blocks, end) else {
            return Ok(RunSizes { sizes, end });
        };
        sizes.push(size)?;
        end += size;
    }
    unreachable!()
}
