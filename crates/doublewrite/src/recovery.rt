// The homes of all spaces are restored from the doublewrite file.
ghost use Rattle.std.specs.Prelude.{◌≡◌, ◌+◌, ◌*◌, ◌<◌, ◌≤◌, ◌++◌, Some, None, length, OnOk, OnErr, IfErr, IsErrOf};
ghost use Rattle.cause_core.specs.Cause.{HasCauseOf};
ghost use Rattle.disk_model.specs.Does.{Does};
ghost use Rattle.disk_model.specs.Past.{Past, At, HasDiskCause, HasDiskMemoryCause};
ghost use Rattle.disk_model.specs.declared.names.DiskError.TheVariants.{NoMemory};
ghost use Rattle.disk_model.specs.declared.names.FileName.TheVariants.{Double};
ghost use Rattle.places.specs.Batches.{From};
ghost use Rattle.places.specs.Places.{HasFile};
ghost use Rattle.page_places.specs.Texts.{slots, page_bytes};
ghost use Rattle.doublewrite.specs.Events.{space_events, spaces_events, restore_calls, restore_events, calls_to, homes_to, AreFirstEvents};
ghost use Rattle.doublewrite.specs.Restore.{AreSpacesApart, AreRestored, HasSpaceFile, HaveAll, HaveFiles, IsRestoreEvent, HomesRestored, HomesRestoring, SpacesFilling, SpacesRestored, space_at};
ghost use Rattle.store_image.specs.Places.{log_of};
ghost use Rattle.store_image.specs.View.{View, slot_count};
ghost use Rattle.page_places.specs.Views.{IsReadAs};
ghost use Rattle.doublewrite.specs.Chosen.{ChosenHold, ChosenMay};
ghost use Rattle.doublewrite.specs.Refuse.{IsDiskRefuse};
ghost use Rattle.doublewrite.specs.declared.refuse.OpenRefuse.TheVariants.{DiskFault, OutOfMemory};

use crate::reading::copies;
use crate::restoring::restore_space;
use crate::texts::PAGE;
use crate::{Copies, OpenRefuse};
use disk_model::{Disk, DiskError};
use space_head::SpaceInfo;
use std::alloc::Global;

// Restores one of the spaces.
fn restore_next<D: Disk>(
    disk: &mut D,
    spaces: &[SpaceInfo],
    i: usize,
    copies: &Copies,
    page: &mut [u8],
) -> Result<(), DiskError>
    requires more { i < length spaces.now }
    requires apart { AreSpacesApart spaces.now }
    requires size { length page.old ≡ page_bytes }
    requires places { At (HasSpaceFile (space_at spaces.now i)) (D.past disk.old) }
    ensures does { At (HaveAll spaces.now) (D.past disk.old) → (first : Past) → At (From (AreRestored copies.now spaces.now i) first) (D.past disk.old) → Does (From (SpacesFilling copies.now spaces.now) first) (IsRestoreEvent spaces.now) (From (AreRestored copies.now spaces.now (i + 1)) first) (D.past disk.old) (D.past disk.new) result }
    ensures size { length page.new ≡ page_bytes }
    ensures exact { OnOk result (At (λ s. D.past disk.new ≡ Some (space_events copies.now s (space_at spaces.now i) ++ s)) (D.past disk.old)) }
    ensures part { OnErr result (At (λ s. AreFirstEvents (space_events copies.now s (space_at spaces.now i)) s (D.past disk.new)) (D.past disk.old)) }
    ensures untold { D.past disk.old ≡ None → D.past disk.new ≡ None }
    ensures later { D.is_later disk.old disk.new }
    ensures calls { D.clock disk.new ≤ D.clock disk.old + ((space_at spaces.now i).pages * 2 + 1) }
    ensures told_calls { At (λ s. D.clock disk.new ≤ D.clock disk.old + ((space_at spaces.now i).pages + length (space_events copies.now s (space_at spaces.now i)))) (D.past disk.old) }
    ensures cause { HasDiskCause (D.faults disk.old) (D.faults disk.new) result }
    ensures memory { HasDiskMemoryCause (D.memory_refusals disk.old) (D.memory_refusals disk.new) result }
    ensures no_fault { OnOk result (D.faults disk.new ≡ D.faults disk.old) }
    ensures no_fault_at_want { IsErrOf result NoMemory → D.faults disk.new ≡ D.faults disk.old }
    ensures no_refusal { OnOk result (D.memory_refusals disk.new ≡ D.memory_refusals disk.old) }
{
    restore_space(disk, &spaces[i], copies, page)
}

fn restore_spaces<D: Disk>(
    disk: &mut D,
    spaces: &[SpaceInfo],
    copies: &Copies,
    page: &mut [u8],
) -> Result<(), DiskError>
    requires apart { AreSpacesApart spaces.now }
    requires size { length page.old ≡ page_bytes }
    requires places { At (HaveFiles spaces.now) (D.past disk.old) }
    ensures does { At (HaveAll spaces.now) (D.past disk.old) → Does (From (SpacesFilling copies.now spaces.now) (D.past disk.old)) (IsRestoreEvent spaces.now) (From (SpacesRestored copies.now spaces.now) (D.past disk.old)) (D.past disk.old) (D.past disk.new) result }
    ensures exact { OnOk result (At (λ s. D.past disk.new ≡ Some (spaces_events copies.now s spaces.now (length spaces.now) ++ s)) (D.past disk.old)) }
    ensures part { OnErr result (At (λ s. AreFirstEvents (spaces_events copies.now s spaces.now (length spaces.now)) s (D.past disk.new)) (D.past disk.old)) }
    ensures untold { D.past disk.old ≡ None → D.past disk.new ≡ None }
    ensures later { D.is_later disk.old disk.new }
    ensures calls { D.clock disk.new ≤ D.clock disk.old + calls_to spaces.now (length spaces.now) }
    ensures told_calls { At (λ s. D.clock disk.new ≤ D.clock disk.old + (homes_to spaces.now (length spaces.now) + length (spaces_events copies.now s spaces.now (length spaces.now)))) (D.past disk.old) }
    ensures cause { HasDiskCause (D.faults disk.old) (D.faults disk.new) result }
    ensures memory { HasDiskMemoryCause (D.memory_refusals disk.old) (D.memory_refusals disk.new) result }
    ensures no_fault { OnOk result (D.faults disk.new ≡ D.faults disk.old) }
    ensures no_fault_at_want { IsErrOf result NoMemory → D.faults disk.new ≡ D.faults disk.old }
    ensures no_refusal { OnOk result (D.memory_refusals disk.new ≡ D.memory_refusals disk.old) }
{
    for i in 0..spaces.len() {
        restore_next(disk, spaces, i, copies, page)?;
    }
    Ok(())
}

// Reads the copies, and restores each space from them.
fn restore_from_copies<D: Disk>(
    alloc: Global,
    disk: &mut D,
    spaces: &[SpaceInfo],
) -> Result<(), DiskError>
    requires apart { AreSpacesApart spaces.now }
    requires double { At (HasFile Double slots) (D.past disk.old) }
    requires places { At (HaveFiles spaces.now) (D.past disk.old) }
    ensures does { At (HaveAll spaces.now) (D.past disk.old) → Does (From (HomesRestoring spaces.now) (D.past disk.old)) (IsRestoreEvent spaces.now) (From (HomesRestored spaces.now) (D.past disk.old)) (D.past disk.old) (D.past disk.new) result }
    ensures exact { OnOk result (At (λ s. D.past disk.new ≡ Some (restore_events spaces.now s ++ s)) (D.past disk.old)) }
    ensures part { OnErr result (At (λ s. AreFirstEvents (restore_events spaces.now s) s (D.past disk.new)) (D.past disk.old)) }
    ensures untold { D.past disk.old ≡ None → D.past disk.new ≡ None }
    ensures later { D.is_later disk.old disk.new }
    ensures calls { D.clock disk.new ≤ D.clock disk.old + (slot_count + calls_to spaces.now (length spaces.now)) }
    ensures told_calls { At (λ s. D.clock disk.new ≤ D.clock disk.old + restore_calls spaces.now s) (D.past disk.old) }
    ensures cause { HasDiskCause (D.faults disk.old) (D.faults disk.new) result }
    ensures memory { D.memory_refusals disk.old ≤ D.memory_refusals disk.new }
    ensures no_fault { OnOk result (D.faults disk.new ≡ D.faults disk.old) }
    ensures no_fault_at_want { IsErrOf result NoMemory → D.faults disk.new ≡ D.faults disk.old }
    ensures no_refusal { OnOk result (D.memory_refusals disk.new ≡ D.memory_refusals disk.old) }
{
    let copies = copies(alloc, disk)?;
    let mut page = [0; PAGE];
    restore_spaces(disk, spaces, &copies, &mut page)
}

// Restores, and names the refusal.
fn restore_or_refuse<D: Disk>(
    alloc: Global,
    disk: &mut D,
    spaces: &[SpaceInfo],
) -> Result<(), OpenRefuse>
    requires apart { AreSpacesApart spaces.now }
    requires double { At (HasFile Double slots) (D.past disk.old) }
    requires places { At (HaveFiles spaces.now) (D.past disk.old) }
    ensures does { At (HaveAll spaces.now) (D.past disk.old) → Does (From (HomesRestoring spaces.now) (D.past disk.old)) (IsRestoreEvent spaces.now) (From (HomesRestored spaces.now) (D.past disk.old)) (D.past disk.old) (D.past disk.new) result }
    ensures refuses { IfErr result IsDiskRefuse }
    ensures exact { OnOk result (At (λ s. D.past disk.new ≡ Some (restore_events spaces.now s ++ s)) (D.past disk.old)) }
    ensures part { OnErr result (At (λ s. AreFirstEvents (restore_events spaces.now s) s (D.past disk.new)) (D.past disk.old)) }
    ensures untold { D.past disk.old ≡ None → D.past disk.new ≡ None }
    ensures later { D.is_later disk.old disk.new }
    ensures calls { D.clock disk.new ≤ D.clock disk.old + (slot_count + calls_to spaces.now (length spaces.now)) }
    ensures told_calls { At (λ s. D.clock disk.new ≤ D.clock disk.old + restore_calls spaces.now s) (D.past disk.old) }
    ensures cause { HasCauseOf DiskFault (D.faults disk.old) (D.faults disk.new) result }
    ensures memory { D.memory_refusals disk.old ≤ D.memory_refusals disk.new }
    ensures no_fault { OnOk result (D.faults disk.new ≡ D.faults disk.old) }
    ensures no_fault_at_want { IsErrOf result OutOfMemory → D.faults disk.new ≡ D.faults disk.old }
    ensures no_refusal { OnOk result (D.memory_refusals disk.new ≡ D.memory_refusals disk.old) }
{
    match restore_from_copies(alloc, disk, spaces) {
        Ok(()) => Ok(()),
        Err(DiskError::Failed) => Err(OpenRefuse::DiskFault),
        Err(DiskError::NoMemory) => Err(OpenRefuse::OutOfMemory),
    }
}

/// Writes each home that holds no text of its page from the newest copy of the page in the
/// doublewrite file, where there is one: the spaces in order, the pages of each in order, and one
/// sync of each space that was written, before the next one is. Each slot and each home is read once
/// at most; a disk that tells what was done on it is called for these reads, the writes and the syncs
/// alone.
///
/// # Errors
/// [`OpenRefuse::DiskFault`] only where the disk's count of faults rose, [`OpenRefuse::OutOfMemory`]
/// where there was no memory, and then no call met a fault. Some of these writes and syncs were then
/// done in order, and of the write behind them an attempt may be there: a home that was to be
/// written holds what it held, its copy's text, or is torn.
pub fn restore<D: Disk>(alloc: Global, disk: &mut D, spaces: &[SpaceInfo]) -> Result<(), OpenRefuse>
    requires apart { AreSpacesApart spaces.now }
    requires double { At (HasFile Double slots) (D.past disk.old) }
    requires places { At (HaveFiles spaces.now) (D.past disk.old) }
    ensures does { At (HaveAll spaces.now) (D.past disk.old) → Does (From (HomesRestoring spaces.now) (D.past disk.old)) (IsRestoreEvent spaces.now) (From (HomesRestored spaces.now) (D.past disk.old)) (D.past disk.old) (D.past disk.new) result }
    ensures chosen { At (HaveAll spaces.now) (D.past disk.old) → (v : View (Unit {0})) → At (IsReadAs (λ l. l ≡ log_of v) v) (D.past disk.old) → Does (ChosenMay v) (IsRestoreEvent spaces.now) (ChosenHold v spaces.now) (D.past disk.old) (D.past disk.new) result }
    ensures refuses { IfErr result IsDiskRefuse }
    ensures exact { OnOk result (At (λ s. D.past disk.new ≡ Some (restore_events spaces.now s ++ s)) (D.past disk.old)) }
    ensures part { OnErr result (At (λ s. AreFirstEvents (restore_events spaces.now s) s (D.past disk.new)) (D.past disk.old)) }
    ensures untold { D.past disk.old ≡ None → D.past disk.new ≡ None }
    ensures later { D.is_later disk.old disk.new }
    ensures calls { D.clock disk.new ≤ D.clock disk.old + (slot_count + calls_to spaces.now (length spaces.now)) }
    ensures told_calls { At (λ s. D.clock disk.new ≤ D.clock disk.old + restore_calls spaces.now s) (D.past disk.old) }
    ensures cause { HasCauseOf DiskFault (D.faults disk.old) (D.faults disk.new) result }
    ensures memory { D.memory_refusals disk.old ≤ D.memory_refusals disk.new }
    ensures no_fault { OnOk result (D.faults disk.new ≡ D.faults disk.old) }
    ensures no_fault_at_want { IsErrOf result OutOfMemory → D.faults disk.new ≡ D.faults disk.old }
    ensures no_refusal { OnOk result (D.memory_refusals disk.new ≡ D.memory_refusals disk.old) }
{
    restore_or_refuse(alloc, disk, spaces)
}
