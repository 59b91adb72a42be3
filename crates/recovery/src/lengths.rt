// The files of a store have the lengths that its header says.
ghost use Rattle.std.specs.Prelude.{◌≡◌, ◌+◌, ◌<◌, ◌≤◌, true, length, map, IfErr, IsErrOf, OnOk};
ghost use Rattle.cause_core.specs.Cause.{HasCauseOf};
ghost use Rattle.disk_model.specs.Event.{is_there, reads};
ghost use Rattle.disk_model.specs.Past.{At};
ghost use Rattle.doublewrite.specs.declared.refuse.OpenRefuse.TheVariants.{DiskFault, OutOfMemory};
ghost use Rattle.store_files.specs.Header.{are_allowed, most_spaces};
ghost use Rattle.store_form.specs.Said.{header_said, space_said};
ghost use Rattle.recovery.specs.Files.{HaveStoreFiles, space_file, store_files_of};
ghost use Rattle.recovery.specs.Stages.{IsLengthRefusal, IsOtherLength};
ghost use Rattle.recovery.specs.Walks.{AllHave};

use crate::layout::{BLOCK_BYTES, FRONT_BLOCKS, PAGE_BYTES};
use crate::reading::file_length;
use disk_model::{Disk, FileName};
use doublewrite::OpenRefuse;
use store_form::{Header, HeaderSpace};

// The bytes of the doublewrite file.
const DOUBLE_BYTES: u64 = (page_places::SLOTS * page_places::SLOT_BYTES) as u64;

// Refuses a file that hasn't this length.
fn check_length<D: Disk>(disk: &mut D, file: FileName, wanted: u64) -> Result<(), OpenRefuse>
    requires { 0 < wanted }
    ensures has { OnOk result (At (λ es. (is_there file es ≡ true) × (length (reads file es) ≡ wanted)) (D.past disk.old)) }
    ensures refused { IfErr result (IsOtherLength file wanted (D.past disk.old)) }
    ensures same { D.past disk.new ≡ D.past disk.old }
    ensures later { D.is_later disk.old disk.new }
    ensures calls { D.clock disk.new ≤ D.clock disk.old + 1 }
    ensures cause { HasCauseOf DiskFault (D.faults disk.old) (D.faults disk.new) result }
    ensures memory { HasCauseOf OutOfMemory (D.memory_refusals disk.old) (D.memory_refusals disk.new) result }
    ensures no_fault { (IsErrOf result DiskFault → ⊥) → D.faults disk.new ≡ D.faults disk.old }
    ensures no_refusal { OnOk result (D.memory_refusals disk.new ≡ D.memory_refusals disk.old) }
{
    let found = file_length(disk, file)?;
    if found != wanted {
        return Err(OpenRefuse::Mixed {
            file,
            at: 0,
            wanted,
            found,
        });
    }
    Ok(())
}

// Refuses the first of these spaces whose file hasn't the length of its pages.
fn check_spaces<D: Disk>(disk: &mut D, spaces: &[HeaderSpace]) -> Result<(), OpenRefuse>
    requires { AllHave (λ space. 0 < space.pages) spaces.now }
    ensures have { OnOk result (At (HaveStoreFiles (map space_file (map space_said spaces.now))) (D.past disk.old)) }
    ensures refused { IfErr result (IsLengthRefusal (map space_file (map space_said spaces.now)) (D.past disk.old)) }
    ensures same { D.past disk.new ≡ D.past disk.old }
    ensures later { D.is_later disk.old disk.new }
    ensures calls { D.clock disk.new ≤ D.clock disk.old + length spaces.now }
    ensures cause { HasCauseOf DiskFault (D.faults disk.old) (D.faults disk.new) result }
    ensures memory { HasCauseOf OutOfMemory (D.memory_refusals disk.old) (D.memory_refusals disk.new) result }
    ensures no_fault { (IsErrOf result DiskFault → ⊥) → D.faults disk.new ≡ D.faults disk.old }
    ensures no_refusal { OnOk result (D.memory_refusals disk.new ≡ D.memory_refusals disk.old) }
{
    for i in 0..spaces.len() {
        let space = &spaces[i];
        let wanted = u64::from(space.pages) * PAGE_BYTES;
        check_length(disk, FileName::Space(space.space), wanted)?;
    }
    Ok(())
}

/// Refuses a store of which a file hasn't the length that its header says. Log, the doublewrite file
/// and the spaces are asked for in this order, one call each. It takes no memory of its own.
///
/// # Errors
/// [`OpenRefuse::Mixed`] at byte 0 of the first file that isn't there or has another length, with the
/// length that is wanted and the one that was found, 0 where it isn't there;
/// [`OpenRefuse::DiskFault`] only where the disk's count of faults rose, [`OpenRefuse::OutOfMemory`]
/// only where its count of refused memory rose.
pub fn check_lengths<D: Disk>(disk: &mut D, header: &Header) -> Result<(), OpenRefuse>
    requires allowed { are_allowed (header_said header.now) ≡ true }
    requires count { header.now.count ≤ most_spaces }
    ensures have { OnOk result (At (HaveStoreFiles (store_files_of (header_said header.now))) (D.past disk.old)) }
    ensures refused { IfErr result (IsLengthRefusal (store_files_of (header_said header.now)) (D.past disk.old)) }
    ensures same { D.past disk.new ≡ D.past disk.old }
    ensures later { D.is_later disk.old disk.new }
    ensures calls { D.clock disk.new ≤ D.clock disk.old + (2 + header.now.count) }
    ensures cause { HasCauseOf DiskFault (D.faults disk.old) (D.faults disk.new) result }
    ensures memory { HasCauseOf OutOfMemory (D.memory_refusals disk.old) (D.memory_refusals disk.new) result }
    ensures no_fault { (IsErrOf result DiskFault → ⊥) → D.faults disk.new ≡ D.faults disk.old }
    ensures no_refusal { OnOk result (D.memory_refusals disk.new ≡ D.memory_refusals disk.old) }
{
    check_length(
        disk,
        FileName::Log,
        (FRONT_BLOCKS + header.blocks) * BLOCK_BYTES,
    )?;
    check_length(disk, FileName::Double, DOUBLE_BYTES)?;
    check_spaces(disk, &header.spaces[..header.count])
}
