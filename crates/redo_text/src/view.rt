// A ring block that is read in place.
ghost use Rattle.std.specs.Prelude.{◌≡◌, ◌≢◌, ℕ, ◌+◌, ◌<◌, ◌≤◌, ◌^◌, Bool, true, false, not, List, Result, Ok, Err, length, IfOk, IfErr, IsErrAnd};
ghost use Rattle.byte_list.specs.Bytes.{AreBytes};
ghost use Rattle.bytes_core.specs.LastByte.{EndsInCrc32c, last_inverted};
ghost use Rattle.redo_text.specs.Block.{ring_block, ring_block_size, ring_body_size};
ghost use Rattle.redo_text.specs.Reading.{block_body, computed_block_sum, fits_used, block_flags, is_first, is_last, reading, stored_block_sum, used_of, block_version};
ghost use Rattle.redo_text.specs.declared.fault.BlockFault.{BlockFault};
ghost use Rattle.redo_text.specs.declared.key.RedoKey.{RedoKey};

use crate::BlockFault;
use crate::changes::known_bytes;
use crate::layout::{BODY_AT, MOST_USED, SUM_AT};
use byte_list::fields::{be16_at, be32_at, be64_at};
use bytes_core::crc32c;
use std::marker::Model;

/// A ring block of 4096 bytes that is read in place. In contracts it is the list of its bytes.
#[derive(Drop)]
pub struct BlockView<'a> {
    bytes: &'a [u8],
}

impl<'a> Model for BlockView<'a> {
    ghost Value = { List ℕ };

    ghost view = { λ block. block.bytes.now };

    ghost invariant = { λ block. length block.bytes.now ≡ ring_block_size };
}

impl<'a> BlockView<'a> {
    /// The key version, from 1 on.
    pub fn version(&self) -> u32
        ensures { result ≡ block_version self.now }
    {
        be32_at(self.bytes, 8)
    }

    /// How many bytes of the body are text, from 1 to 4076.
    pub fn used(&self) -> u16
        ensures { result ≡ used_of self.now }
    {
        be16_at(self.bytes, 12)
    }

    /// Whether the block is the first of its mini-transaction.
    pub fn first(&self) -> bool
        ensures { result ≡ is_first (block_flags self.now) }
    {
        be16_at(self.bytes, 14) % 2 == 1
    }

    /// Whether the block is the last of its mini-transaction.
    pub fn last(&self) -> bool
        ensures { result ≡ is_last (block_flags self.now) }
    {
        be16_at(self.bytes, 14) / 2 % 2 == 1
    }

    /// The body, as it was ciphered: 4076 bytes.
    pub fn body(&self) -> &'a [u8]
        ensures { result.now ≡ block_body self.now }
    {
        &self.bytes[BODY_AT..SUM_AT]
    }
}

#[tactic(auto, unfolding(crate::specs::Reading::fits_used))]
fn fits_used(used: u16, flags: u16) -> bool
    ensures { result ≡ fits_used used flags }
{
    1 <= used && used <= MOST_USED && (flags / 2 % 2 == 1 || used == MOST_USED)
}

#[tactic(auto, unfolding(crate::specs::Reading::reading))]
fn check_block(bytes: &[u8], number: u64) -> Result<(), BlockFault>
    requires { length bytes.now ≡ ring_block_size }
    ensures { result ≡ reading number bytes.now }
{
    let stored = be32_at(bytes, SUM_AT);
    let computed = crc32c(&bytes[..SUM_AT]);
    if stored != computed {
        return Err(BlockFault::BadBlock { stored, computed });
    }
    let found = be64_at(bytes, 0);
    if found != number {
        return Err(BlockFault::WrongNumber {
            wanted: number,
            found,
        });
    }
    let flags = be16_at(bytes, 14);
    if be32_at(bytes, 8) == 0 {
        return Err(BlockFault::BadHead { at: 8 });
    }
    if !fits_used(be16_at(bytes, 12), flags) {
        return Err(BlockFault::BadHead { at: 12 });
    }
    if flags > 3 {
        return Err(BlockFault::BadHead { at: 14 });
    }
    Ok(())
}

/// The ring block of this number in 4096 bytes.
///
/// # Errors
/// The first of these, in this order: [`BlockFault::BadBlock`], [`BlockFault::WrongNumber`],
/// [`BlockFault::BadHead`].
pub fn read_block<'a>(bytes: &'a [u8], number: u64) -> Result<BlockView<'a>, BlockFault>
    requires { length bytes.now ≡ ring_block_size }
    // The first fault in order, or none, and the view is of these bytes.
    ensures view { IfOk result (λ view. (view ≡ bytes.now) × (reading number bytes.now ≡ Ok tt)) }
    ensures fault { IfErr result (λ fault. reading number bytes.now ≡ Err fault) }
    // Each block of a mini-transaction is taken, under its own number, version, flags and used length.
    ensures taken { (key : RedoKey) (first last : Bool) (text : List ℕ) → bytes.now ≡ ring_block key number first last text → 1 ≤ key.version → key.version < 2 ^ 32 → 1 ≤ length text → length text ≤ ring_body_size → (last ≡ false → length text ≡ ring_body_size)
        → (reading number bytes.now ≡ Ok tt) × (block_version bytes.now ≡ key.version) × (used_of bytes.now ≡ length text) × (is_first (block_flags bytes.now) ≡ first) × (is_last (block_flags bytes.now) ≡ last) }
    // A block whose last byte was inverted isn't.
    ensures inverted { (whole : List ℕ) → AreBytes whole → reading number whole ≡ Ok tt → bytes.now ≡ last_inverted whole → IsErrAnd result (λ fault. fault ≡ BlockFault.BadBlock (stored_block_sum bytes.now) (computed_block_sum bytes.now)) }
{
    known_bytes(bytes);
    check_block(bytes, number)?;
    Ok(BlockView { bytes })
}
