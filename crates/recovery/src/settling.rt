// The homes of a store are brought to what its log says.
ghost use Rattle.std.specs.Prelude.{◌≡◌, ◌+◌, ◌≤◌, ◌++◌, ℕ, List, length, Some, OnOk, IfErr};
ghost use Rattle.cause_core.specs.Cause.{HasCauseOf};
ghost use Rattle.crash_image.specs.LogForm.{log_places};
ghost use Rattle.crash_image.specs.Opened.{IsOpenedAt, StoreOpened};
ghost use Rattle.disk_model.specs.Does.{Does};
ghost use Rattle.disk_model.specs.Event.{Event};
ghost use Rattle.disk_model.specs.Past.{At};
ghost use Rattle.disk_model.specs.declared.names.FileName.TheVariants.{Double, Log};
ghost use Rattle.doublewrite.specs.Events.{restore_events};
ghost use Rattle.doublewrite.specs.Restore.{HaveFiles};
ghost use Rattle.doublewrite.specs.declared.refuse.OpenRefuse.TheVariants.{DiskFault};
ghost use Rattle.page_places.specs.Texts.{slots};
ghost use Rattle.places.specs.Places.{HasFile};
ghost use Rattle.store_form.specs.Said.{header_said};
ghost use Rattle.recovery.specs.Applying.{SaysRun};
ghost use Rattle.recovery.specs.Due.{IsByPage, IsOpenedWith};
ghost use Rattle.recovery.specs.Looking.{FitsTogether};
ghost use Rattle.recovery.specs.Putting.{ImagesRecover};
ghost use Rattle.recovery.specs.Spaces.{HasRefusedSpace, IsFoundOf, IsSpacesEvent, IsStoreApplied};

use crate::looking::Analysis;
use crate::restoring::restore_homes;
use crate::spaces::apply_spaces;
use disk_model::Disk;
use doublewrite::OpenRefuse;
use key_ring::Ring;
use std::alloc::Global;

/// Restores the homes of a store of which this was found, as [`restore_homes`] does, and applies the run's later
/// changes to the pages of all its spaces, as [`apply_spaces`] does. Where the store is opened at the moment at
/// which it begins, each lucky image of each moment recovers to what was opened, and at Ok each page with later
/// changes has its sealed text in its home, and nothing is pending.
///
/// # Errors
/// Those of [`restore_homes`], and then those of [`apply_spaces`], by the homes as restoring leaves them.
pub fn settle_homes<D: Disk>(
    alloc: Global,
    disk: &mut D,
    ring: &Ring,
    active: u32,
    found: &Analysis,
) -> Result<(), OpenRefuse>
    requires fits { FitsTogether active found.now }
    requires double { At (HasFile Double slots) (D.past disk.old) }
    requires files { At (HaveFiles found.now.changes.spaces) (D.past disk.old) }
    requires log { At (HasFile Log (log_places found.now.header.blocks)) (D.past disk.old) }
    requires says { At (SaysRun (header_said found.now.header) ring.now found.now.checkpoint.from (found.now.run.last + 1)) (D.past disk.old) }
    // With number the last block of the opening's run, and s the moment at which it began.
    ensures settles { (o : StoreOpened) (number : ℕ) (s : List Event) → D.past disk.old ≡ Some s → IsOpenedAt o number s → IsOpenedWith o (header_said found.now.header) ring.now found.now.checkpoint.from (found.now.run.last + 1) → IsFoundOf o active s found.now → Does (ImagesRecover o number) (IsSpacesEvent found.now.changes.spaces) (IsStoreApplied o s) (D.past disk.old) (D.past disk.new) result }
    ensures refused { IfErr result (IsByPage (λ why s. HasRefusedSpace ring.now active found.now why (restore_events found.now.changes.spaces s ++ s)) (D.past disk.old)) }
    ensures double { OnOk result (At (HasFile Double slots) (D.past disk.new)) }
    ensures files { OnOk result (At (HaveFiles found.now.changes.spaces) (D.past disk.new)) }
    ensures log { OnOk result ((n : ℕ) → At (HasFile Log (log_places n)) (D.past disk.old) → At (HasFile Log (log_places n)) (D.past disk.new)) }
    ensures later { D.is_later disk.old disk.new }
    ensures cause { HasCauseOf DiskFault (D.faults disk.old) (D.faults disk.new) result }
    ensures memory { D.memory_refusals disk.old ≤ D.memory_refusals disk.new }
    ensures no_fault { OnOk result (D.faults disk.new ≡ D.faults disk.old) }
    ensures no_refusal { OnOk result (D.memory_refusals disk.new ≡ D.memory_refusals disk.old) }
{
    let spaces = found.changes.spaces.as_slice();
    restore_homes(alloc, disk, spaces)?;
    apply_spaces(alloc, disk, ring, active, found)
}
