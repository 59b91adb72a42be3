// The header of a store is found in its log.
ghost use Rattle.std.specs.Prelude.{◌≡◌, ◌+◌, ◌≤◌, true, IfOk, IfErr, IsErrOf, OnOk};
ghost use Rattle.cause_core.specs.Cause.{HasCauseOf};
ghost use Rattle.disk_model.specs.Past.{At};
ghost use Rattle.doublewrite.specs.declared.refuse.OpenRefuse.TheVariants.{DiskFault, OutOfMemory};
ghost use Rattle.store_files.specs.Header.{are_allowed, most_spaces};
ghost use Rattle.store_form.specs.Said.{header_said};
ghost use Rattle.recovery.specs.Files.{IsFormatted};
ghost use Rattle.recovery.specs.Stages.{IsHeaderRefusal};

use crate::layout::BLOCK;
use crate::reading::{file_length, read};
use disk_model::{Disk, FileName};
use doublewrite::OpenRefuse;
use store_form::{Header, read_header};

// The bytes of a header and two checkpoints.
const LEAST_LOG: u64 = (store_files::FRONT_BLOCKS * store_files::BLOCK_BYTES) as u64;

/// Finds the header of a store, block 0 of its log. It takes no memory of its own.
///
/// # Errors
/// [`OpenRefuse::NotFormatted`] exactly where the log isn't there, has less than 12288 bytes, or its
/// block 0 isn't a valid header; [`OpenRefuse::DiskFault`] only where the disk's count of faults rose,
/// [`OpenRefuse::OutOfMemory`] only where its count of refused memory rose.
pub fn find_header<D: Disk>(disk: &mut D) -> Result<Header, OpenRefuse>
    ensures found { IfOk result (λ header. At (IsFormatted (header_said header)) (D.past disk.old)) }
    ensures allowed { IfOk result (λ header. are_allowed (header_said header) ≡ true) }
    ensures count { IfOk result (λ header. header.count ≤ most_spaces) }
    ensures format { IfOk result (λ header. header.format ≡ 2) }
    ensures refused { IfErr result (IsHeaderRefusal (D.past disk.old)) }
    ensures same { D.past disk.new ≡ D.past disk.old }
    ensures later { D.is_later disk.old disk.new }
    ensures calls { D.clock disk.new ≤ D.clock disk.old + 2 }
    ensures cause { HasCauseOf DiskFault (D.faults disk.old) (D.faults disk.new) result }
    ensures memory { HasCauseOf OutOfMemory (D.memory_refusals disk.old) (D.memory_refusals disk.new) result }
    ensures no_fault { (IsErrOf result DiskFault → ⊥) → D.faults disk.new ≡ D.faults disk.old }
    ensures no_refusal { OnOk result (D.memory_refusals disk.new ≡ D.memory_refusals disk.old) }
{
    if file_length(disk, FileName::Log)? < LEAST_LOG {
        return Err(OpenRefuse::NotFormatted);
    }
    let mut block = [0; BLOCK];
    read(disk, FileName::Log, 0, &mut block)?;
    match read_header(&block) {
        Some(header) => Ok(header),
        None => Err(OpenRefuse::NotFormatted),
    }
}
