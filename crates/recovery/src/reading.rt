// The calls of a disk that only read, with the refusals of an opening.
ghost use Rattle.std.specs.Prelude.{◌≡◌, ◌+◌, ◌≤◌, length, take, drop, IfOk, IfErr, IsErrOf, OnOk};
ghost use Rattle.cause_core.specs.Cause.{HasCauseOf};
ghost use Rattle.disk_model.specs.Event.{reads};
ghost use Rattle.disk_model.specs.Image.{InFile};
ghost use Rattle.disk_model.specs.Past.{At};
ghost use Rattle.doublewrite.specs.Refuse.{IsDiskRefuse};
ghost use Rattle.doublewrite.specs.declared.refuse.OpenRefuse.TheVariants.{DiskFault, OutOfMemory};
ghost use Rattle.recovery.specs.Files.{found_length};

use disk_model::{Disk, DiskError, FileName};
use doublewrite::OpenRefuse;

// The length of a file, 0 where it isn't there.
pub(crate) fn file_length<D: Disk>(disk: &mut D, file: FileName) -> Result<u64, OpenRefuse>
    ensures length { IfOk result (λ n. At (λ es. n ≡ found_length file es) (D.past disk.old)) }
    ensures refused { IfErr result IsDiskRefuse }
    ensures same { D.past disk.new ≡ D.past disk.old }
    ensures later { D.is_later disk.old disk.new }
    ensures calls { D.clock disk.new ≤ D.clock disk.old + 1 }
    ensures cause { HasCauseOf DiskFault (D.faults disk.old) (D.faults disk.new) result }
    ensures memory { HasCauseOf OutOfMemory (D.memory_refusals disk.old) (D.memory_refusals disk.new) result }
    ensures no_fault { (IsErrOf result DiskFault → ⊥) → D.faults disk.new ≡ D.faults disk.old }
    ensures no_refusal { OnOk result (D.memory_refusals disk.new ≡ D.memory_refusals disk.old) }
{
    match disk.size(file) {
        Ok(Some(length)) => Ok(length),
        Ok(None) => Ok(0),
        Err(DiskError::Failed) => Err(OpenRefuse::DiskFault),
        Err(DiskError::NoMemory) => Err(OpenRefuse::OutOfMemory),
    }
}

// The bytes of a file from a place on.
pub(crate) fn read<D: Disk>(
    disk: &mut D,
    file: FileName,
    at: u64,
    into: &mut [u8],
) -> Result<(), OpenRefuse>
    requires inside { At (InFile file at (length into.old)) (D.past disk.old) }
    ensures bytes { OnOk result (At (λ es. into.new ≡ take (length into.old) (drop at (reads file es))) (D.past disk.old)) }
    ensures refused { IfErr result IsDiskRefuse }
    ensures same { D.past disk.new ≡ D.past disk.old }
    ensures later { D.is_later disk.old disk.new }
    ensures calls { D.clock disk.new ≤ D.clock disk.old + 1 }
    ensures cause { HasCauseOf DiskFault (D.faults disk.old) (D.faults disk.new) result }
    ensures memory { HasCauseOf OutOfMemory (D.memory_refusals disk.old) (D.memory_refusals disk.new) result }
    ensures no_fault { (IsErrOf result DiskFault → ⊥) → D.faults disk.new ≡ D.faults disk.old }
    ensures no_refusal { OnOk result (D.memory_refusals disk.new ≡ D.memory_refusals disk.old) }
{
    match disk.read(file, at, into) {
        Ok(()) => Ok(()),
        Err(DiskError::Failed) => Err(OpenRefuse::DiskFault),
        Err(DiskError::NoMemory) => Err(OpenRefuse::OutOfMemory),
    }
}
