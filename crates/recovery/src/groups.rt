// A group of pages is sealed, stored and written home.
ghost use Rattle.std.specs.Prelude.{◌≡◌, ◌≢◌, ◌↔◌, ◌+◌, ◌*◌, ◌-◌, ◌≤◌, ℕ, List, [], length, IsSome, OnOk, IfErr, IsErrOf};
ghost use Rattle.cause_core.specs.Cause.{HasCauseOf};
ghost use Rattle.crash_image.specs.LogForm.{log_places};
ghost use Rattle.crash_image.specs.Opened.{StoreOpened, IsOpenedAt};
ghost use Rattle.disk_model.specs.Does.{Does};
ghost use Rattle.disk_model.specs.Event.{Event};
ghost use Rattle.disk_model.specs.Past.{At, Throughout};
ghost use Rattle.disk_model.specs.declared.names.FileName.TheVariants.{Double, Log, Space};
ghost use Rattle.doublewrite.specs.Refuse.{IsDiskRefuse};
ghost use Rattle.doublewrite.specs.declared.refuse.OpenRefuse.TheVariants.{DiskFault, OutOfMemory};
ghost use Rattle.page_places.specs.Texts.{pages, slots};
ghost use Rattle.places.specs.Batches.{From};
ghost use Rattle.places.specs.Places.{HasFile};
ghost use Rattle.recovery.specs.Groups.{AreSealable, IsApplyEvent, IsRangeApplied, IsSealedUnder, LeavesSince};
ghost use Rattle.recovery.specs.Loading.{AreDirty};
ghost use Rattle.recovery.specs.Putting.{BetweenGroups, ImagesRecover, MayApplyGroups};
ghost use Rattle.recovery.specs.Recorded.{HasRecord, KeepsOpeningRecord};
ghost use Rattle.recovery.specs.Rounds.{count_in, has_later};

use crate::notes::SpaceNotes;
use crate::putting::put_group;
use crate::rounds::Round;
use crate::sealing::{SealKey, seal_range};
use disk_model::{Disk, DiskError};
use doublewrite::{OpenRefuse, Texts};
use page_pool::Pool;
use std::alloc::Global;

/// Seals those pages of a range that have later changes, at most 64, from a pool in which they are
/// dirty, and puts them as the batch of this number. Where a store is opened and these pages are due as
/// they are held, each lucky image of each moment recovers to what was opened, and at Ok they are done.
///
/// # Errors
/// [`OpenRefuse::DiskFault`] only where the disk's count of faults rose, [`OpenRefuse::OutOfMemory`]
/// where there was no memory.
pub fn write_group<D: Disk>(
    alloc: Global,
    disk: &mut D,
    pool: &mut Pool,
    group: &Round,
    notes: &SpaceNotes,
    last: &[u64],
    under: &SealKey,
    batch: u64,
) -> Result<(), OpenRefuse>
    requires keyed { IsSome under.now.key ↔ (under.now.version ≢ 0) }
    requires noted { group.now.end ≤ length notes.now }
    requires listed { group.now.end ≤ length last.now }
    requires order { group.now.from ≤ group.now.end }
    requires few { count_in (has_later notes.now last.now) group.now.from (group.now.end - group.now.from) ≤ 64 }
    requires alone { pool.old.clean ≡ [] }
    requires pages { AreDirty (has_later notes.now last.now) group.now.info.space group.now.from group.now.end pool.old }
    requires double { At (HasFile Double slots) (D.past disk.old) }
    requires file { At (HasFile (Space group.now.info.space) (pages (length notes.now))) (D.past disk.old) }
    // With s the opening's entry: what holds at each moment, and at Ok the pages of the range are done, and those that were.
    ensures applies { (o : StoreOpened) (s : List Event) → At (BetweenGroups o s) (D.past disk.old) → IsSealedUnder o group.now.info.space under.now.version under.now.key → AreSealable o (has_later notes.now last.now) group.now.info.space last.now group.now.from group.now.end pool.old → Does (MayApplyGroups o s) (IsApplyEvent group.now.info.space) (From (IsRangeApplied o s (has_later notes.now last.now) group.now.info.space group.now.from group.now.end) (D.past disk.old)) (D.past disk.old) (D.past disk.new) result }
    ensures recovers { (o : StoreOpened) (end : ℕ) (s : List Event) → IsOpenedAt o end s → At (BetweenGroups o s) (D.past disk.old) → IsSealedUnder o group.now.info.space under.now.version under.now.key → AreSealable o (has_later notes.now last.now) group.now.info.space last.now group.now.from group.now.end pool.old → Throughout (ImagesRecover o end) (D.past disk.old) (D.past disk.new) }
    // And of what was written no number serves two texts, and each lucky image agrees with it.
    ensures recorded { (o : StoreOpened) (end : ℕ) (s : List Event) → IsOpenedAt o end s → At (BetweenGroups o s) (D.past disk.old) → At (HasRecord o) (D.past disk.old) → IsSealedUnder o group.now.info.space under.now.version under.now.key → AreSealable o (has_later notes.now last.now) group.now.info.space last.now group.now.from group.now.end pool.old → Does (KeepsOpeningRecord o) (IsApplyEvent group.now.info.space) (HasRecord o) (D.past disk.old) (D.past disk.new) result }
    // No home is written but those of these pages, nor is the log.
    ensures beside { OnOk result (LeavesSince group.now.info.space group.now.from group.now.end (D.past disk.old) (D.past disk.new)) }
    ensures same { pool.new ≡ pool.old }
    ensures double { OnOk result (At (HasFile Double slots) (D.past disk.new)) }
    ensures spaces { OnOk result ((z count : ℕ) → At (HasFile (Space z) (pages count)) (D.past disk.old) → At (HasFile (Space z) (pages count)) (D.past disk.new)) }
    ensures log { OnOk result ((n : ℕ) → At (HasFile Log (log_places n)) (D.past disk.old) → At (HasFile Log (log_places n)) (D.past disk.new)) }
    ensures refused { IfErr result IsDiskRefuse }
    ensures later { D.is_later disk.old disk.new }
    ensures calls { D.clock disk.new ≤ D.clock disk.old + (count_in (has_later notes.now last.now) group.now.from (group.now.end - group.now.from) + 1) * 2 }
    ensures cause { HasCauseOf DiskFault (D.faults disk.old) (D.faults disk.new) result }
    ensures memory { D.memory_refusals disk.old ≤ D.memory_refusals disk.new }
    ensures no_fault { (IsErrOf result DiskFault → ⊥) → D.faults disk.new ≡ D.faults disk.old }
    ensures no_refusal { OnOk result (D.memory_refusals disk.new ≡ D.memory_refusals disk.old) }
{
    let Ok(pages) = seal_range(alloc, pool, group, notes, last, under) else {
        return Err(OpenRefuse::OutOfMemory);
    };
    pages.are_texts();
    let texts = Texts {
        space: group.info.space,
        batch,
        pages,
    };
    match put_group(disk, &texts) {
        Ok(()) => Ok(()),
        Err(DiskError::Failed) => Err(OpenRefuse::DiskFault),
        Err(DiskError::NoMemory) => Err(OpenRefuse::OutOfMemory),
    }
}
