// The homes of a store that is opened are restored.
ghost use Rattle.std.specs.Prelude.{◌≡◌, ◌+◌, ◌≤◌, ◌++◌, ℕ, Some, None, length, OnOk, OnErr, IfErr, IsErrOf};
ghost use Rattle.cause_core.specs.Cause.{HasCauseOf};
ghost use Rattle.disk_model.specs.Does.{Does};
ghost use Rattle.disk_model.specs.Past.{At};
ghost use Rattle.disk_model.specs.declared.names.FileName.TheVariants.{Double, Log};
ghost use Rattle.places.specs.Batches.{From};
ghost use Rattle.places.specs.Places.{HasFile};
ghost use Rattle.page_places.specs.Texts.{slots};
ghost use Rattle.page_places.specs.Views.{IsReadAs};
ghost use Rattle.store_image.specs.Places.{log_of};
ghost use Rattle.store_image.specs.View.{View, slot_count};
ghost use Rattle.doublewrite.specs.Chosen.{ChosenHold, ChosenMay};
ghost use Rattle.doublewrite.specs.Events.{AreFirstEvents, calls_to, restore_calls, restore_events};
ghost use Rattle.doublewrite.specs.Refuse.{IsDiskRefuse};
ghost use Rattle.doublewrite.specs.Restore.{AreSpacesApart, HaveAll, HaveFiles, HomesRestored, HomesRestoring, IsRestoreEvent};
ghost use Rattle.doublewrite.specs.declared.refuse.OpenRefuse.TheVariants.{DiskFault, OutOfMemory};
ghost use Rattle.crash_image.specs.LogForm.{log_places};
ghost use Rattle.crash_image.specs.Opened.{StoreOpened, IsOpenedAt};
ghost use Rattle.recovery.specs.Putting.{AreAsChosen, BetweenGroups, ImagesRecover};
ghost use Rattle.recovery.specs.Restoring.{AreAllListed};

use disk_model::Disk;
use doublewrite::{OpenRefuse, restore};
use space_head::SpaceInfo;
use std::alloc::Global;

/// Restores the homes of a store that is opened, as [`restore`] does. Where the disk is one that an
/// opening begins with, each lucky image of each moment recovers to what was opened, and at Ok groups
/// may be applied, and each home is as its page's chosen text says.
///
/// # Errors
/// Those of [`restore`].
pub fn restore_homes<D: Disk>(
    alloc: Global,
    disk: &mut D,
    spaces: &[SpaceInfo],
) -> Result<(), OpenRefuse>
    requires apart { AreSpacesApart spaces.now }
    requires double { At (HasFile Double slots) (D.past disk.old) }
    requires places { At (HaveFiles spaces.now) (D.past disk.old) }
    ensures restores { (o : StoreOpened) (last : ℕ) → At (IsOpenedAt o last) (D.past disk.old) → AreAllListed o.header.spaces spaces.now → Does (ImagesRecover o last) (IsRestoreEvent spaces.now) (From (λ s m. BetweenGroups o s m × AreAsChosen o m) (D.past disk.old)) (D.past disk.old) (D.past disk.new) result }
    ensures does { At (HaveAll spaces.now) (D.past disk.old) → Does (From (HomesRestoring spaces.now) (D.past disk.old)) (IsRestoreEvent spaces.now) (From (HomesRestored spaces.now) (D.past disk.old)) (D.past disk.old) (D.past disk.new) result }
    ensures chosen { At (HaveAll spaces.now) (D.past disk.old) → (v : View (Unit {0})) → At (IsReadAs (λ l. l ≡ log_of v) v) (D.past disk.old) → Does (ChosenMay v) (IsRestoreEvent spaces.now) (ChosenHold v spaces.now) (D.past disk.old) (D.past disk.new) result }
    ensures refuses { IfErr result IsDiskRefuse }
    ensures exact { OnOk result (At (λ s. D.past disk.new ≡ Some (restore_events spaces.now s ++ s)) (D.past disk.old)) }
    ensures part { OnErr result (At (λ s. AreFirstEvents (restore_events spaces.now s) s (D.past disk.new)) (D.past disk.old)) }
    ensures double { OnOk result (At (HasFile Double slots) (D.past disk.new)) }
    ensures files { OnOk result (At (HaveFiles spaces.now) (D.past disk.new)) }
    ensures log { OnOk result ((n : ℕ) → At (HasFile Log (log_places n)) (D.past disk.old) → At (HasFile Log (log_places n)) (D.past disk.new)) }
    ensures untold { D.past disk.old ≡ None → D.past disk.new ≡ None }
    ensures later { D.is_later disk.old disk.new }
    ensures calls { D.clock disk.new ≤ D.clock disk.old + (slot_count + calls_to spaces.now (length spaces.now)) }
    ensures told_calls { At (λ s. D.clock disk.new ≤ D.clock disk.old + restore_calls spaces.now s) (D.past disk.old) }
    ensures cause { HasCauseOf DiskFault (D.faults disk.old) (D.faults disk.new) result }
    ensures memory { D.memory_refusals disk.old ≤ D.memory_refusals disk.new }
    ensures no_fault { OnOk result (D.faults disk.new ≡ D.faults disk.old) }
    ensures no_fault_at_want { IsErrOf result OutOfMemory → D.faults disk.new ≡ D.faults disk.old }
    ensures no_refusal { OnOk result (D.memory_refusals disk.new ≡ D.memory_refusals disk.old) }
{
    restore(alloc, disk, spaces)
}
