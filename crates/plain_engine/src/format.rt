// The log of a store that was just made.
ghost use Rattle.std.specs.Prelude.{◌≡◌, [], ◌+◌, ◌<◌, ◌≤◌, ◌^◌, ◌++◌, length, Err, IfOk, OnOk};
ghost use Rattle.cause_core.specs.Counts.{Rose};
ghost use Rattle.disk_model.specs.Event.{zeros};
ghost use Rattle.disk_model.specs.Past.{At, HasDiskCause, HasDiskMemoryCause};
ghost use Rattle.plain_engine.specs.Block.{log_bytes, IsCheckpoint, IsHeader, checkpoint_head, header_head, space_fields, spaces_fields};
ghost use Rattle.plain_engine.specs.Layer.{IsEmpty, LogReady};
ghost use Rattle.plain_engine.specs.Made.{IsNow, IsHeaded, HasCheckpoint};

use crate::StartFault;
use crate::block::{Block, seal};
use byte_list::zero_bytes;
use disk_model::{Disk, DiskError, FileName};
use space_head::SpaceInfo;
use std::alloc::{AllocError, Global};

// Log bytes: a header, two checkpoints and 256 ring blocks of 4096 bytes.
const LOG_BYTES: u64 = 1_060_864;

#[tactic(auto, unfolding(crate::specs::Block::checkpoint_head))]
fn checkpoint_text(alloc: Global, sequence: u64, from: u64) -> Result<Vec<u8>, AllocError>
    ensures { IfOk result (λ v. v.items ≡ checkpoint_head sequence from) }
{
    let mut text = b"KEYCHK01".to_vec(alloc)?;
    text.extend_from_slice(&sequence.to_be_bytes())?;
    text.extend_from_slice(&from.to_be_bytes())?;
    Ok(text)
}

// The checkpoint of this sequence, from whose block on the run begins.
fn checkpoint_block(alloc: Global, sequence: u64, from: u64) -> Result<Block, AllocError>
    requires first { 0 < sequence }
    requires order { sequence < from }
    requires most { from ≤ 2 ^ 50 }
    ensures { IfOk result (λ b. IsCheckpoint sequence from b) }
{
    let mut text = checkpoint_text(alloc, sequence, from)?;
    text.extend_from_slice(&zero_bytes(alloc, 4068)?)?;
    let block = seal(text)?;
    Ok(block)
}

#[tactic(auto, unfolding(crate::specs::Block::space_fields))]
fn push_space(text: &mut Vec<u8>, space: &SpaceInfo) -> Result<(), AllocError>
    ensures { OnOk result (text.new.items ≡ text.old.items ++ space_fields space.now) }
{
    text.extend_from_slice(&space.space.to_be_bytes())?;
    text.extend_from_slice(&space.pages.to_be_bytes())?;
    text.extend_from_slice(&space.key_id.to_be_bytes())?;
    Ok(())
}

fn push_spaces(text: &mut Vec<u8>, spaces: &[SpaceInfo]) -> Result<(), AllocError>
    ensures { OnOk result (text.new.items ≡ text.old.items ++ spaces_fields spaces.now) }
{
    for space in spaces {
        push_space(text, space)?;
    }
    Ok(())
}

#[tactic(auto, unfolding(crate::specs::Block::header_head))]
fn header_text(alloc: Global, spaces: &[SpaceInfo]) -> Result<Vec<u8>, AllocError>
    requires { length spaces.now ≤ 16 }
    ensures { IfOk result (λ v. v.items ≡ header_head spaces.now) }
{
    let mut text = b"KEYSTOR1".to_vec(alloc)?;
    text.extend_from_slice(&1u32.to_be_bytes())?;
    text.extend_from_slice(&16384u32.to_be_bytes())?;
    text.extend_from_slice(&256u32.to_be_bytes())?;
    text.extend_from_slice(&(spaces.len() as u32).to_be_bytes())?;
    text.extend_from_slice(&[0; 16])?;
    push_spaces(&mut text, spaces)?;
    Ok(text)
}

// The header of a store with these spaces.
fn header_block(alloc: Global, spaces: &[SpaceInfo]) -> Result<Block, AllocError>
    requires { length spaces.now ≤ 16 }
    ensures { IfOk result (λ b. IsHeader spaces.now b) }
{
    let mut text = header_text(alloc, spaces)?;
    let rest = 4092 - text.len();
    text.extend_from_slice(&zero_bytes(alloc, rest)?)?;
    let block = seal(text)?;
    Ok(block)
}

fn make_log<D: Disk>(disk: &mut D) -> Result<(), DiskError>
    requires { At IsEmpty (D.past disk.old) }
    ensures ok { OnOk result (At (IsNow (zeros log_bytes)) (D.past disk.new)) }
    ensures cause { HasDiskCause (D.faults disk.old) (D.faults disk.new) result }
    ensures memory { HasDiskMemoryCause (D.memory_refusals disk.old) (D.memory_refusals disk.new) result }
    ensures later { D.is_later disk.old disk.new }
{
    disk.make(FileName::Log, LOG_BYTES)
}

// Writes the first checkpoint and syncs it.
fn write_checkpoint<D: Disk>(disk: &mut D, block: &Block) -> Result<(), DiskError>
    requires now { At (IsNow (zeros log_bytes)) (D.past disk.old) }
    requires checkpoint { IsCheckpoint 1 2 block.now }
    ensures ok { OnOk result (At HasCheckpoint (D.past disk.new)) }
    ensures cause { HasDiskCause (D.faults disk.old) (D.faults disk.new) result }
    ensures memory { HasDiskMemoryCause (D.memory_refusals disk.old) (D.memory_refusals disk.new) result }
    ensures later { D.is_later disk.old disk.new }
{
    disk.write(FileName::Log, 8192, block.bytes())?;
    disk.sync(FileName::Log)
}

// Writes the header and syncs it.
fn write_header<D: Disk>(disk: &mut D, block: &Block, spaces: &[SpaceInfo]) -> Result<(), DiskError>
    requires now { At HasCheckpoint (D.past disk.old) }
    requires header { IsHeader spaces.now block.now }
    ensures ok { OnOk result (At (LogReady [] 0 0 0) (D.past disk.new)) }
    ensures header { OnOk result (At (IsHeaded spaces.now) (D.past disk.new)) }
    ensures cause { HasDiskCause (D.faults disk.old) (D.faults disk.new) result }
    ensures memory { HasDiskMemoryCause (D.memory_refusals disk.old) (D.memory_refusals disk.new) result }
    ensures later { D.is_later disk.old disk.new }
{
    let _ = spaces;
    disk.write(FileName::Log, 0, block.bytes())?;
    disk.sync(FileName::Log)
}

/// Makes the log of a store with at most 16 spaces, in which no mini-transaction stands: the file,
/// checkpoint 1, and the header, each synced. It needs a disk with no log.
pub fn create<D: Disk>(alloc: Global, disk: &mut D, spaces: &[SpaceInfo]) -> Result<(), StartFault>
    requires empty { At IsEmpty (D.past disk.old) }
    requires few { length spaces.now ≤ 16 }
    ensures ok { OnOk result (At (LogReady [] 0 0 0) (D.past disk.new)) }
    ensures header { OnOk result (At (IsHeaded spaces.now) (D.past disk.new)) }
    ensures cause { result ≡ Err StartFault.DiskFault → Rose (D.faults disk.old) (D.faults disk.new) }
    ensures later { D.is_later disk.old disk.new }
{
    let checkpoint = checkpoint_block(alloc, 1, 2)?;
    let header = header_block(alloc, spaces)?;
    make_log(disk)?;
    write_checkpoint(disk, &checkpoint)?;
    write_header(disk, &header, spaces)?;
    Ok(())
}
