// What a log's file says once the disk has crashed.
ghost use Rattle.std.specs.Prelude.{◌≡◌, ℕ, ◌+◌, ◌*◌, ◌<◌, ◌≤◌, length, IfSome, IfOk};
ghost use Rattle.places.specs.Places.{HasPlaces};
ghost use Rattle.disk_model.specs.Past.{At};
ghost use Rattle.disk_model.specs.declared.names.FileName.TheVariants.{Log as LogFile};
ghost use Rattle.store_image.specs.View.{block_bytes};
ghost use Rattle.crash_image.specs.LogForm.{log_places};

use crate::RING_BLOCKS;
use disk_model::{Disk, DiskError, FileName};
use redo_log::{BLOCK, BLOCK_BYTES, Checkpoint, Run, read_checkpoint, scan};
use std::alloc::Global;
use store_files::FRONT_BLOCKS;

/// The newest checkpoint of a log's file, and the run from it.
#[derive(Drop)]
pub struct RunHeld {
    pub checkpoint: Checkpoint,
    pub run: Run,
}

// Reads a block of the file.
fn read_place<D: Disk>(disk: &mut D, place: u64, buffer: &mut [u8]) -> Result<(), DiskError>
    requires place { place < 35 }
    requires size { length buffer.old ≡ block_bytes }
    requires inside { At (HasPlaces LogFile (log_places 32)) (D.past disk.old) }
    ensures same { D.past disk.new ≡ D.past disk.old }
    ensures size { length buffer.new ≡ block_bytes }
{
    disk.read(FileName::Log, place * BLOCK_BYTES, buffer)
}

fn newer(even: Option<Checkpoint>, odd: Option<Checkpoint>) -> Option<Checkpoint> {
    let Some(one) = even else {
        return odd;
    };
    let Some(other) = odd else {
        return even;
    };
    if one.sequence < other.sequence {
        Some(other)
    } else {
        Some(one)
    }
}

/// The valid checkpoint of greatest sequence.
///
/// # Errors
/// As the disk gives them.
pub fn newest_checkpoint<D: Disk>(disk: &mut D) -> Result<Option<Checkpoint>, DiskError>
    requires { At (HasPlaces LogFile (log_places 32)) (D.past disk.old) }
    ensures { D.past disk.new ≡ D.past disk.old }
{
    let mut block = [0; BLOCK];
    read_place(disk, 1, &mut block)?;
    let even = read_checkpoint(&block, 1);
    read_place(disk, 2, &mut block)?;
    Ok(newer(even, read_checkpoint(&block, 2)))
}

/// The newest checkpoint and the run from it, where there is one within the numbers of a short session.
///
/// # Errors
/// As the disk gives them, and `NoMemory` also where the versions find no room.
pub fn read_run<D: Disk>(alloc: Global, disk: &mut D) -> Result<Option<RunHeld>, DiskError>
    requires { At (HasPlaces LogFile (log_places 32)) (D.past disk.old) }
    ensures { D.past disk.new ≡ D.past disk.old }
{
    let Some(checkpoint) = newest_checkpoint(disk)? else {
        return Ok(None);
    };
    if checkpoint.from < 2 || checkpoint.from > 1000 {
        return Ok(None);
    }
    let run = scan(alloc, disk, RING_BLOCKS, checkpoint.from)?;
    Ok(Some(RunHeld { checkpoint, run }))
}

// Whether the file has these blocks, the first of which is number 2, from one number up to another.
pub(crate) fn has_blocks<D: Disk>(
    disk: &mut D,
    blocks: &[u8],
    from: u64,
    end: u64,
) -> Result<bool, DiskError>
    requires from { 2 ≤ from }
    requires end { end ≤ 1000 }
    requires inside { At (HasPlaces LogFile (log_places 32)) (D.past disk.old) }
    ensures { D.past disk.new ≡ D.past disk.old }
{
    let mut buffer = [0; BLOCK];
    for n in from..end {
        read_place(disk, FRONT_BLOCKS as u64 + n % RING_BLOCKS, &mut buffer)?;
        if !is_block_of(blocks, (n - 2) as usize, &buffer) {
            return Ok(false);
        }
    }
    Ok(true)
}

// Whether block i of these is this one.
fn is_block_of(blocks: &[u8], i: usize, block: &[u8]) -> bool
    requires { i ≤ 1000 }
{
    let at = i * BLOCK;
    if blocks.len() < at + BLOCK {
        return false;
    }
    &blocks[at..at + BLOCK] == block
}
