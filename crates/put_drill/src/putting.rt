// Storing and writing home, one after the other.
ghost use Rattle.std.specs.Prelude.{◌≡◌, ◌+◌, ◌*◌, ◌≤◌, ℕ, length, OnOk, IsErrOf};
ghost use Rattle.disk_model.specs.Does.{Does};
ghost use Rattle.disk_model.specs.Past.{At, HasDiskCause, HasDiskMemoryCause};
ghost use Rattle.disk_model.specs.declared.names.DiskError.TheVariants.{NoMemory};
ghost use Rattle.disk_model.specs.declared.names.FileName.TheVariants.{Double};
ghost use Rattle.places.specs.Batches.{From};
ghost use Rattle.places.specs.Places.{HasPlaces};
ghost use Rattle.page_places.specs.Texts.{slots};
ghost use Rattle.doublewrite.specs.Layer.{ArePagesDistinct, IsInside};
ghost use Rattle.put_drill.specs.Put.{IsPut, IsPutEvent, Putting};
ghost use Rattle.store_image.specs.View.{slot_count};

use disk_model::{Disk, DiskError};
use doublewrite::{Texts, home, store};

/// Stores a batch and writes it home.
///
/// # Errors
/// [`DiskError::Failed`] only where the disk's count of faults rose, [`DiskError::NoMemory`] only
/// where its count of refused memory rose, and then it met no fault.
pub fn put<D: Disk>(disk: &mut D, batch: &Texts) -> Result<(), DiskError>
    requires most { length batch.now.pages ≤ slot_count }
    requires distinct { ArePagesDistinct batch.now }
    requires places { At (HasPlaces Double slots) (D.past disk.old) }
    requires inside { At (λ es. (count : ℕ) × IsInside batch.now count es) (D.past disk.old) }
    ensures does { Does (From (Putting batch.now) (D.past disk.old)) (IsPutEvent batch.now) (From (IsPut batch.now) (D.past disk.old)) (D.past disk.old) (D.past disk.new) result }
    ensures later { D.is_later disk.old disk.new }
    ensures calls { D.clock disk.new ≤ D.clock disk.old + (length batch.now.pages + 1) * 2 }
    ensures cause { HasDiskCause (D.faults disk.old) (D.faults disk.new) result }
    ensures memory { HasDiskMemoryCause (D.memory_refusals disk.old) (D.memory_refusals disk.new) result }
    ensures no_fault { OnOk result (D.faults disk.new ≡ D.faults disk.old) }
    ensures no_fault_at_want { IsErrOf result NoMemory → D.faults disk.new ≡ D.faults disk.old }
    ensures no_refusal { OnOk result (D.memory_refusals disk.new ≡ D.memory_refusals disk.old) }
{
    store(disk, batch)?;
    home(disk, batch)
}
