// The bytes of a ring block.
ghost use Rattle.std.specs.Prelude.{◌≡◌, ◌+◌, ◌<◌, ◌≤◌, length, IfOk};
ghost use Rattle.plain_engine.specs.Block.{block_head, IsLogBlock, plain_sealed};

use byte_list::zero_bytes;
use bytes_core::crc32c;
use std::alloc::{AllocError, Global};
use std::marker::Model;

/// The 4096 bytes of a block.
#[derive(Debug, Drop)]
pub struct Block {
    bytes: Vec<u8>,
}

impl Model for Block {
    ghost use Rattle.std.specs.Prelude.{List, ℕ};

    ghost Value = { List ℕ };

    ghost view = { λ b. b.bytes.items };
}

impl Block {
    /// The bytes.
    pub fn bytes(&self) -> &[u8]
        ensures { result.now ≡ self.now }
    {
        &self.bytes
    }
}

// Adds the checksum of what is there.
#[tactic(auto, unfolding(crate::specs::Block::plain_sealed))]
pub fn seal(text: Vec<u8>) -> Result<Block, AllocError>
    ensures { IfOk result (λ b. b ≡ plain_sealed text.items) }
{
    let mut block = text;
    let sum = crc32c(&block);
    block.extend_from_slice(&sum.to_be_bytes())?;
    Ok(Block { bytes: block })
}

// The first sixteen bytes of a ring block.
#[tactic(auto, unfolding(crate::specs::Block::block_head))]
pub(crate) fn block_head(number: u64, used: u16) -> [u8; 16]
    ensures { result ≡ block_head number used }
{
    let [a, b, c, d, e, f, g, h] = number.to_be_bytes();
    let [u, v] = used.to_be_bytes();
    [a, b, c, d, e, f, g, h, 0, 0, 0, 0, u, v, 0, 3]
}

// The same in memory, for the block to grow from.
fn head_bytes(alloc: Global, number: u64, used: u16) -> Result<Vec<u8>, AllocError>
    ensures { IfOk result (λ v. v.items ≡ block_head number used) }
{
    block_head(number, used).to_vec(alloc)
}

/// The ring block of this number that holds a text of 1 to 4076 bytes.
pub fn ring_block(alloc: Global, number: u64, text: &[u8]) -> Result<Block, AllocError>
    requires some { 0 < length text.now }
    requires most { length text.now ≤ 4076 }
    ensures { IfOk result (λ b. IsLogBlock number text.now b) }
{
    let mut block = head_bytes(alloc, number, text.len() as u16)?;
    block.extend_from_slice(text)?;
    block.extend_from_slice(&zero_bytes(alloc, 4076 - text.len())?)?;
    let block = seal(block)?;
    Ok(block)
}
