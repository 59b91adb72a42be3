// The newest checkpoint of a log is found.
ghost use Rattle.std.specs.Prelude.{◌≡◌, ◌+◌, ◌≤◌, length, take, IfOk, IfErr, IsErrOf, OnOk};
ghost use Rattle.bytes_core.specs.Crc.{crc32c};
ghost use Rattle.byte_list.specs.Fields.{be32_at};
ghost use Rattle.cause_core.specs.Cause.{HasCauseOf};
ghost use Rattle.disk_model.specs.Event.{reads};
ghost use Rattle.disk_model.specs.Past.{At};
ghost use Rattle.disk_model.specs.declared.names.FileName.TheVariants.{Log};
ghost use Rattle.doublewrite.specs.Refuse.{IsDiskRefuse};
ghost use Rattle.doublewrite.specs.declared.refuse.OpenRefuse.TheVariants.{Damaged, DiskFault, OutOfMemory};
ghost use Rattle.places.specs.Places.{shown};
ghost use Rattle.store_files.specs.Checkpoint.{IsNewestCheckpoint, IsWritableCheckpoint};
ghost use Rattle.recovery.specs.Stages.{HasCheckpoints, IsCheckpointRefusal, checkpoint_said, newer_of};
ghost use Rattle.store_image.specs.View.{block_bytes};
ghost use Rattle.redo_text.specs.Block.{ring_sum_at};

use crate::layout::{BLOCK, BLOCK_BYTES};
use crate::reading::read;
use byte_list::fields::be32_at;
use bytes_core::crc32c;
use disk_model::{Disk, FileName};
use doublewrite::OpenRefuse;
use redo_log::{Checkpoint, read_checkpoint};
use store_files::BLOCK_SUM_AT;

// Reads the file block of a checkpoint, 1 or 2.
fn read_block<D: Disk>(disk: &mut D, place: u64, block: &mut [u8]) -> Result<(), OpenRefuse>
    requires place { place ≤ 2 }
    requires long { length block.old ≡ block_bytes }
    requires inside { At HasCheckpoints (D.past disk.old) }
    ensures bytes { OnOk result (At (λ es. block.new ≡ shown Log block_bytes place es) (D.past disk.old)) }
    ensures refused { IfErr result IsDiskRefuse }
    ensures same { D.past disk.new ≡ D.past disk.old }
    ensures later { D.is_later disk.old disk.new }
    ensures calls { D.clock disk.new ≤ D.clock disk.old + 1 }
    ensures cause { HasCauseOf DiskFault (D.faults disk.old) (D.faults disk.new) result }
    ensures memory { HasCauseOf OutOfMemory (D.memory_refusals disk.old) (D.memory_refusals disk.new) result }
    ensures no_fault { (IsErrOf result DiskFault → ⊥) → D.faults disk.new ≡ D.faults disk.old }
    ensures no_refusal { OnOk result (D.memory_refusals disk.new ≡ D.memory_refusals disk.old) }
{
    read(disk, FileName::Log, place * BLOCK_BYTES, block)
}

// Of the checkpoints in blocks 1 and 2 the newer one.
fn newer(first: Option<Checkpoint>, second: Option<Checkpoint>) -> Option<Checkpoint>
    ensures { result ≡ newer_of first second }
{
    match (first, second) {
        (Some(a), Some(b)) if a.sequence < b.sequence => second,
        (Some(_), _) => first,
        (None, _) => second,
    }
}

fn front(bytes: &[u8], n: usize) -> &[u8]
    requires { n ≤ length bytes.now }
    ensures { result.now ≡ take n bytes.now }
{
    &bytes[..n]
}

// The refusal of a log that has no checkpoint, by block 1 of its file.
fn no_checkpoint(block: &[u8]) -> OpenRefuse
    requires { length block.now ≡ block_bytes }
    ensures { result ≡ Damaged Log block_bytes (be32_at block.now ring_sum_at) (crc32c (take ring_sum_at block.now)) }
{
    OpenRefuse::Damaged {
        file: FileName::Log,
        at: BLOCK_BYTES,
        stored: be32_at(block, BLOCK_SUM_AT),
        computed: crc32c(front(block, BLOCK_SUM_AT)),
    }
}

/// Finds the newest valid checkpoint of a log, blocks 1 and 2 of its file. It takes no memory of its
/// own.
///
/// # Errors
/// [`OpenRefuse::Damaged`] at byte 4096 of the log exactly where neither is valid, with the checksum
/// that block 1 stores and the one that its bytes have, which are the same where something else of it
/// is wrong; [`OpenRefuse::DiskFault`] only where the disk's count of faults rose,
/// [`OpenRefuse::OutOfMemory`] only where its count of refused memory rose.
pub fn find_checkpoint<D: Disk>(disk: &mut D) -> Result<Checkpoint, OpenRefuse>
    requires { At HasCheckpoints (D.past disk.old) }
    ensures found { IfOk result (λ c. At (λ es. IsNewestCheckpoint (reads Log es) (checkpoint_said c)) (D.past disk.old)) }
    ensures numbers { IfOk result (λ c. IsWritableCheckpoint (checkpoint_said c)) }
    ensures refused { IfErr result (IsCheckpointRefusal (D.past disk.old)) }
    ensures same { D.past disk.new ≡ D.past disk.old }
    ensures later { D.is_later disk.old disk.new }
    ensures calls { D.clock disk.new ≤ D.clock disk.old + 2 }
    ensures cause { HasCauseOf DiskFault (D.faults disk.old) (D.faults disk.new) result }
    ensures memory { HasCauseOf OutOfMemory (D.memory_refusals disk.old) (D.memory_refusals disk.new) result }
    ensures no_fault { (IsErrOf result DiskFault → ⊥) → D.faults disk.new ≡ D.faults disk.old }
    ensures no_refusal { OnOk result (D.memory_refusals disk.new ≡ D.memory_refusals disk.old) }
{
    let mut first = [0; BLOCK];
    read_block(disk, 1, &mut first)?;
    let mut second = [0; BLOCK];
    read_block(disk, 2, &mut second)?;
    match newer(read_checkpoint(&first, 1), read_checkpoint(&second, 2)) {
        Some(newest) => Ok(newest),
        None => Err(no_checkpoint(&first)),
    }
}
