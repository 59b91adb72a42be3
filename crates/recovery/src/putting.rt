// A group of pages is stored and written home.
ghost use Rattle.std.specs.Prelude.{◌≡◌, ◌+◌, ◌*◌, ◌≤◌, ℕ, List, length, OnOk, OnErr, IsErrOf};
ghost use Rattle.disk_model.specs.Does.{Does};
ghost use Rattle.disk_model.specs.Event.{Event};
ghost use Rattle.disk_model.specs.Past.{At, Throughout, HasDiskCause, HasDiskMemoryCause};
ghost use Rattle.disk_model.specs.declared.names.DiskError.TheVariants.{NoMemory};
ghost use Rattle.disk_model.specs.declared.names.FileName.TheVariants.{Double, Log, Space};
ghost use Rattle.places.specs.Batches.{From};
ghost use Rattle.places.specs.Places.{HasFile};
ghost use Rattle.places.specs.Writes.{grows};
ghost use Rattle.page_places.specs.Texts.{pages, slots};
ghost use Rattle.store_image.specs.View.{slot_count};
ghost use Rattle.doublewrite.specs.Batch.{home_events, slot_events};
ghost use Rattle.doublewrite.specs.Layer.{ArePagesDistinct, FitsSpace};
ghost use Rattle.crash_image.specs.LogForm.{log_places};
ghost use Rattle.crash_image.specs.Opened.{StoreOpened, IsOpenedAt};
ghost use Rattle.recovery.specs.Putting.{BetweenGroups, ImagesRecover, IsGroupApplied, IsGroupEvent, IsGroupPart, IsSealedBatch, MayApplyGroups};
ghost use Rattle.recovery.specs.Recorded.{HasRecord, KeepsOpeningRecord};

use disk_model::{Disk, DiskError};
use doublewrite::{Texts, home, store};

/// Stores a batch and writes it home, each with one sync behind its writes. Where a store is opened
/// and the batch is a group of its sealed pages, each lucky image of each moment recovers to what was
/// opened, and at Ok the homes of these pages have their sealed texts.
///
/// # Errors
/// [`DiskError::Failed`] only where the disk's count of faults rose, [`DiskError::NoMemory`] only
/// where its count of refused memory rose, and then it met no fault. Some of the slots, or all of
/// them and some of the homes, were then written in order, and of the write behind them an attempt
/// may be there.
pub fn put_group<D: Disk>(disk: &mut D, batch: &Texts) -> Result<(), DiskError>
    requires most { length batch.now.pages ≤ slot_count }
    requires distinct { ArePagesDistinct batch.now }
    requires places { At (HasFile Double slots) (D.past disk.old) }
    requires inside { At (λ es. (count : ℕ) × FitsSpace batch.now count es) (D.past disk.old) }
    // With s the opening's entry: what holds at each moment, and at Ok the group's pages are done, and those that were.
    ensures applies { (o : StoreOpened) (s : List Event) → At (BetweenGroups o s) (D.past disk.old) → IsSealedBatch o batch.now → Does (MayApplyGroups o s) (IsGroupEvent batch.now) (From (λ b m. BetweenGroups o s m × IsGroupApplied o batch.now b m) (D.past disk.old)) (D.past disk.old) (D.past disk.new) result }
    ensures recovers { (o : StoreOpened) (last : ℕ) (s : List Event) → IsOpenedAt o last s → At (BetweenGroups o s) (D.past disk.old) → IsSealedBatch o batch.now → Throughout (ImagesRecover o last) (D.past disk.old) (D.past disk.new) }
    // And of what was written no number serves two texts, and each lucky image agrees with it.
    ensures recorded { (o : StoreOpened) (last : ℕ) (s : List Event) → IsOpenedAt o last s → At (BetweenGroups o s) (D.past disk.old) → At (HasRecord o) (D.past disk.old) → IsSealedBatch o batch.now → Does (KeepsOpeningRecord o) (IsGroupEvent batch.now) (HasRecord o) (D.past disk.old) (D.past disk.new) result }
    ensures exact { OnOk result (D.past disk.new ≡ grows (home_events batch.now) (grows (slot_events batch.now) (D.past disk.old))) }
    ensures part { OnErr result (IsGroupPart batch.now (D.past disk.old) (D.past disk.new)) }
    ensures double { OnOk result (At (HasFile Double slots) (D.past disk.new)) }
    ensures spaces { OnOk result ((z count : ℕ) → At (HasFile (Space z) (pages count)) (D.past disk.old) → At (HasFile (Space z) (pages count)) (D.past disk.new)) }
    ensures log { OnOk result ((n : ℕ) → At (HasFile Log (log_places n)) (D.past disk.old) → At (HasFile Log (log_places n)) (D.past disk.new)) }
    ensures later { D.is_later disk.old disk.new }
    ensures calls { D.clock disk.new ≤ D.clock disk.old + (length batch.now.pages + 1) * 2 }
    ensures cause { HasDiskCause (D.faults disk.old) (D.faults disk.new) result }
    ensures memory { HasDiskMemoryCause (D.memory_refusals disk.old) (D.memory_refusals disk.new) result }
    ensures no_fault { OnOk result (D.faults disk.new ≡ D.faults disk.old) }
    ensures no_fault_at_want { IsErrOf result NoMemory → D.faults disk.new ≡ D.faults disk.old }
    ensures no_refusal { OnOk result (D.memory_refusals disk.new ≡ D.memory_refusals disk.old) }
{
    batch.pages.are_texts();
    let _space = batch.space;
    store(disk, batch)?;
    home(disk, batch)
}
