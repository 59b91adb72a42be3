// The log is read back. Reading adds no event.
ghost use Rattle.std.specs.Prelude.{◌≡◌, ◌≢◌, ◌+◌, ◌*◌, ◌<◌, ◌≤◌, true, false, ℕ, List, Err, length, IfOk, IfSome, IfNone, OnOk};
ghost use Rattle.cause_core.specs.Counts.{Rose};
ghost use Rattle.disk_model.specs.Event.{reads};
ghost use Rattle.disk_model.specs.Image.{InFile};
ghost use Rattle.disk_model.specs.Past.{At, HasDiskCause, HasDiskMemoryCause};
ghost use Rattle.disk_model.specs.declared.names.FileName.TheVariants.{Log};
ghost use Rattle.std.specs.Int.{to_be_bytes, w32};
ghost use Rattle.bytes_core.specs.Crc.{crc32c};
ghost use Rattle.plain_engine.specs.Block.{log_bytes, IsLogBlock, block_head};
ghost use Rattle.plain_engine.specs.Log.{IsRunFrom, log_block, ring_place};

use crate::StartFault;
use crate::block::block_head;
use crate::log::ring_place;
use bytes_core::crc32c;
use disk_model::{Disk, DiskError, FileName};
use std::alloc::{AllocError, Global};
use store_model::Piece;

fn has_head(head: &[u8], number: u64, used: u16) -> bool
    ensures yes { result ≡ true → head.now ≡ block_head number used }
    ensures no { result ≡ false → head.now ≢ block_head number used }
{
    let wanted = block_head(number, used);
    let wanted: &[u8] = &wanted;
    head == wanted
}

fn has_sum(front: &[u8], sum: &[u8]) -> bool
    ensures yes { result ≡ true → sum.now ≡ to_be_bytes w32 (crc32c front.now) }
    ensures no { result ≡ false → sum.now ≢ to_be_bytes w32 (crc32c front.now) }
{
    let wanted = crc32c(front).to_be_bytes();
    let wanted: &[u8] = &wanted;
    sum == wanted
}

/// The text of a ring block of 4096 bytes, if it is a valid block of this number.
pub fn read_block(block: &[u8], number: u64) -> Option<&[u8]>
    requires { length block.now ≡ 4096 }
    ensures found { IfSome result (λ text. IsLogBlock number text.now block.now) }
    ensures none { IfNone result ((text : List ℕ) → IsLogBlock number text block.now → ⊥) }
{
    let (front, sum) = block.split_at(4092);
    let (head, body) = front.split_at(16);
    let used = u16::from_be_bytes([head[12], head[13]]);
    if used == 0 || used > 4076 {
        return None;
    }
    if !has_head(head, number, used) {
        return None;
    }
    if !has_sum(front, sum) {
        return None;
    }
    let (text, _rest) = body.split_at(used as usize);
    Some(text)
}

// Reads the ring block at the place of this number.
fn read_ring_block<D: Disk>(disk: &mut D, number: u64, buffer: &mut [u8]) -> Result<(), DiskError>
    requires inside { At (InFile Log 0 log_bytes) (D.past disk.old) }
    requires size { length buffer.old ≡ 4096 }
    ensures block { OnOk result (At (λ es. buffer.new ≡ log_block (ring_place number) (reads Log es)) (D.past disk.old)) }
    ensures same { D.past disk.new ≡ D.past disk.old }
    ensures cause { HasDiskCause (D.faults disk.old) (D.faults disk.new) result }
    ensures memory { HasDiskMemoryCause (D.memory_refusals disk.old) (D.memory_refusals disk.new) result }
    ensures later { D.is_later disk.old disk.new }
{
    disk.read(FileName::Log, ring_place(number) * 4096, buffer)
}

fn copied(alloc: Global, text: &[u8]) -> Result<Piece, AllocError>
    ensures { IfOk result (λ piece. piece ≡ text.now) }
{
    Ok(Piece::of(text.to_vec(alloc)?))
}

fn scan_into<D: Disk>(
    alloc: Global,
    disk: &mut D,
    buffer: &mut [u8],
) -> Result<Vec<Piece>, StartFault>
    requires inside { At (InFile Log 0 log_bytes) (D.past disk.old) }
    requires size { length buffer.old ≡ 4096 }
    ensures run { IfOk result (λ texts. At (λ es. IsRunFrom 2 (reads Log es) texts.items) (D.past disk.old)) }
    ensures same { D.past disk.new ≡ D.past disk.old }
    ensures cause { result ≡ Err StartFault.DiskFault → Rose (D.faults disk.old) (D.faults disk.new) }
    ensures later { D.is_later disk.old disk.new }
{
    let mut texts = Vec::new(alloc);
    for i in 0..256u64 {
        read_ring_block(disk, i + 2, buffer)?;
        let Some(text) = read_block(buffer, i + 2) else {
            return Ok(texts);
        };
        let piece = copied(alloc, text)?;
        let Ok(()) = texts.push(piece) else {
            return Err(StartFault::OutOfMemory);
        };
    }
    Ok(texts)
}

/// The texts of the longest run of valid ring blocks from block 2 on, as the disk reads: the
/// recovered run, one text to a mini-transaction. Where the disk tells its bytes its log must have
/// the bytes of a log.
pub fn scan<D: Disk>(alloc: Global, disk: &mut D) -> Result<Vec<Piece>, StartFault>
    requires inside { At (InFile Log 0 log_bytes) (D.past disk.old) }
    ensures run { IfOk result (λ texts. At (λ es. IsRunFrom 2 (reads Log es) texts.items) (D.past disk.old)) }
    ensures same { D.past disk.new ≡ D.past disk.old }
    ensures cause { result ≡ Err StartFault.DiskFault → Rose (D.faults disk.old) (D.faults disk.new) }
    ensures later { D.is_later disk.old disk.new }
{
    let mut buffer = [0u8; 4096];
    scan_into(alloc, disk, &mut buffer)
}
