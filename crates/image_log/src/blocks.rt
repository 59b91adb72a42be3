// Ring blocks at their places.
ghost use Rattle.std.specs.Prelude.{◌≡◌, ℕ, ◌≤◌, ◌<◌, ◌+◌, ◌*◌, ◌^◌, length, true, false, IfSome, IfNone};
ghost use Rattle.byte_list.specs.Bytes.{AreBytes};
ghost use Rattle.places.specs.Places.{place};
ghost use Rattle.store_files.specs.RingBlock.{is_ring_block};
ghost use Rattle.store_files.specs.Run.{block_at, IsClear};
ghost use Rattle.image_log.specs.Late.{IsLateBlock};
ghost use Rattle.store_image.specs.View.{block_bytes};
ghost use Rattle.store_image.specs.Checkpoint.{front_blocks};

use byte_list::fields::be64_at;
use redo_text::{BlockView, read_block};
use store_files::{BLOCK_BYTES, FRONT_BLOCKS};

/// The bytes of a place, in places of this size.
#[tactic(auto, unfolding(places::specs::Places::place))]
pub fn place(file: &[u8], size: usize, index: usize) -> &[u8]
    requires { index * size + size ≤ length file.now }
    ensures bytes { result.now ≡ place size index file.now }
    ensures long { length result.now ≡ size }
{
    let at = index * size;
    &file[at..at + size]
}

/// The block at the place of this number, in a ring of so many blocks.
pub fn block_at(log: &[u8], blocks: u32, number: u64) -> &[u8]
    requires long { length log.now ≡ (front_blocks + blocks) * block_bytes }
    requires some { 0 < blocks }
    ensures bytes { result.now ≡ block_at blocks log.now number }
    ensures long { length result.now ≡ block_bytes }
{
    place(
        log,
        BLOCK_BYTES,
        FRONT_BLOCKS + (number % u64::from(blocks)) as usize,
    )
}

// Each element of a block is a byte.
#[inline(always)]
fn known_bytes(block: &[u8])
    ensures { AreBytes block.now }
{
    let _ = block.len();
}

// The block, where it is a valid one of this number.
pub(crate) fn valid_block<'a>(number: u64, block: &'a [u8]) -> Option<BlockView<'a>>
    requires { length block.now ≡ block_bytes }
    ensures some { IfSome result (λ view. (view ≡ block.now) × (is_ring_block number block.now ≡ true)) }
    ensures none { IfNone result (is_ring_block number block.now ≡ false) }
{
    known_bytes(block);
    match read_block(block, number) {
        Ok(view) => Some(view),
        Err(_fault) => None,
    }
}

// Whether it is one.
fn is_ring_block(number: u64, block: &[u8]) -> bool
    requires { length block.now ≡ block_bytes }
    ensures { result ≡ is_ring_block number block.now }
{
    match valid_block(number, block) {
        Some(_block) => true,
        None => false,
    }
}

/// A valid block of the ring: its place among the ring's blocks, counted from 0, and its number.
#[derive(Clone, Copy, Debug, PartialEq, Eq)]
pub struct LateBlock {
    /// From 0 on; in the file three blocks stand before them.
    pub place: u32,
    /// The number that it names, whose place this needn't be.
    pub number: u64,
}

/// The first place of the ring that has a valid block of this number or a later one, and that block.
pub fn late_block(log: &[u8], blocks: u32, number: u64) -> Option<LateBlock>
    requires long { length log.now ≡ (front_blocks + blocks) * block_bytes }
    ensures some { IfSome result (IsLateBlock blocks log.now number) }
    ensures none { IfNone result (IsClear blocks log.now number) }
{
    for i in 0..blocks {
        let block = place(log, BLOCK_BYTES, FRONT_BLOCKS + i as usize);
        let found = be64_at(block, 0);
        if number <= found && is_ring_block(found, block) {
            return Some(LateBlock {
                place: i,
                number: found,
            });
        }
    }
    None
}
