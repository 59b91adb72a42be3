// The groups of a range are written, one after another.
ghost use Rattle.std.specs.Prelude.{◌≡◌, ◌≢◌, ◌↔◌, ◌+◌, ◌*◌, ◌-◌, ◌≤◌, ℕ, List, [], length, IsSome, OnOk, IfErr, IsErrOf};
ghost use Rattle.cause_core.specs.Cause.{HasCauseOf};
ghost use Rattle.crash_image.specs.LogForm.{log_places};
ghost use Rattle.crash_image.specs.Opened.{StoreOpened, IsOpenedAt};
ghost use Rattle.disk_model.specs.Does.{Does};
ghost use Rattle.disk_model.specs.Event.{Event};
ghost use Rattle.disk_model.specs.Past.{At, Throughout};
ghost use Rattle.disk_model.specs.declared.names.FileName.TheVariants.{Double, Log, Space};
ghost use Rattle.doublewrite.specs.Refuse.{IsDiskRefuse};
ghost use Rattle.doublewrite.specs.declared.refuse.OpenRefuse.TheVariants.{DiskFault};
ghost use Rattle.page_places.specs.Texts.{pages, slots};
ghost use Rattle.places.specs.Batches.{From};
ghost use Rattle.places.specs.Places.{HasFile};
ghost use Rattle.recovery.specs.Groups.{AreSealable, IsApplyEvent, IsRangeApplied, IsSealedUnder, LeavesSince};
ghost use Rattle.recovery.specs.Loading.{AreDirty};
ghost use Rattle.recovery.specs.Putting.{BetweenGroups, ImagesRecover, MayApplyGroups};
ghost use Rattle.recovery.specs.Recorded.{HasRecord, KeepsOpeningRecord};
ghost use Rattle.recovery.specs.Rounds.{count_in, has_later};

use crate::groups::write_group;
use crate::notes::SpaceNotes;
use crate::rounds::{Round, next_range};
use crate::sealing::SealKey;
use disk_model::Disk;
use doublewrite::OpenRefuse;
use page_pool::Pool;
use std::alloc::Global;

// The most pages of a group.
pub(crate) const GROUP_PAGES: usize = 64;

/// Writes those pages of a range that have later changes, from a pool in which they are dirty, in
/// groups of 64 of them, as [`write_group`] does, and numbers their batches from this number on. It
/// tells the number behind the last.
///
/// # Errors
/// Those of [`write_group`], by the group that met them; those before it are whole.
pub fn write_groups<D: Disk>(
    alloc: Global,
    disk: &mut D,
    pool: &mut Pool,
    range: &Round,
    notes: &SpaceNotes,
    last: &[u64],
    under: &SealKey,
    batch: u64,
) -> Result<u64, OpenRefuse>
    requires keyed { IsSome under.now.key ↔ (under.now.version ≢ 0) }
    requires noted { range.now.end ≤ length notes.now }
    requires listed { range.now.end ≤ length last.now }
    requires order { range.now.from ≤ range.now.end }
    requires alone { pool.old.clean ≡ [] }
    requires pages { AreDirty (has_later notes.now last.now) range.now.info.space range.now.from range.now.end pool.old }
    requires double { At (HasFile Double slots) (D.past disk.old) }
    requires file { At (HasFile (Space range.now.info.space) (pages (length notes.now))) (D.past disk.old) }
    // With s the opening's entry: what holds at each moment, and at Ok the pages of the range are done, and those that were.
    ensures applies { (o : StoreOpened) (s : List Event) → At (BetweenGroups o s) (D.past disk.old) → IsSealedUnder o range.now.info.space under.now.version under.now.key → AreSealable o (has_later notes.now last.now) range.now.info.space last.now range.now.from range.now.end pool.old → Does (MayApplyGroups o s) (IsApplyEvent range.now.info.space) (From (IsRangeApplied o s (has_later notes.now last.now) range.now.info.space range.now.from range.now.end) (D.past disk.old)) (D.past disk.old) (D.past disk.new) result }
    ensures recovers { (o : StoreOpened) (end : ℕ) (s : List Event) → IsOpenedAt o end s → At (BetweenGroups o s) (D.past disk.old) → IsSealedUnder o range.now.info.space under.now.version under.now.key → AreSealable o (has_later notes.now last.now) range.now.info.space last.now range.now.from range.now.end pool.old → Throughout (ImagesRecover o end) (D.past disk.old) (D.past disk.new) }
    // And of what was written no number serves two texts, and each lucky image agrees with it.
    ensures recorded { (o : StoreOpened) (end : ℕ) (s : List Event) → IsOpenedAt o end s → At (BetweenGroups o s) (D.past disk.old) → At (HasRecord o) (D.past disk.old) → IsSealedUnder o range.now.info.space under.now.version under.now.key → AreSealable o (has_later notes.now last.now) range.now.info.space last.now range.now.from range.now.end pool.old → Does (KeepsOpeningRecord o) (IsApplyEvent range.now.info.space) (HasRecord o) (D.past disk.old) (D.past disk.new) result }
    ensures beside { OnOk result (LeavesSince range.now.info.space range.now.from range.now.end (D.past disk.old) (D.past disk.new)) }
    ensures same { pool.new ≡ pool.old }
    ensures double { OnOk result (At (HasFile Double slots) (D.past disk.new)) }
    ensures spaces { OnOk result ((z count : ℕ) → At (HasFile (Space z) (pages count)) (D.past disk.old) → At (HasFile (Space z) (pages count)) (D.past disk.new)) }
    ensures log { OnOk result ((n : ℕ) → At (HasFile Log (log_places n)) (D.past disk.old) → At (HasFile Log (log_places n)) (D.past disk.new)) }
    ensures refused { IfErr result IsDiskRefuse }
    ensures later { D.is_later disk.old disk.new }
    ensures calls { D.clock disk.new ≤ D.clock disk.old + count_in (has_later notes.now last.now) range.now.from (range.now.end - range.now.from) * 4 + 2 }
    ensures cause { HasCauseOf DiskFault (D.faults disk.old) (D.faults disk.new) result }
    ensures memory { D.memory_refusals disk.old ≤ D.memory_refusals disk.new }
    ensures no_fault { (IsErrOf result DiskFault → ⊥) → D.faults disk.new ≡ D.faults disk.old }
    ensures no_refusal { OnOk result (D.memory_refusals disk.new ≡ D.memory_refusals disk.old) }
{
    let mut number = batch;
    let mut at = range.from;
    while at < range.end {
        let end = next_range(notes, last, at, range.end, GROUP_PAGES);
        let group = Round {
            info: range.info,
            from: at,
            end,
        };
        write_group(alloc, disk, pool, &group, notes, last, under, number)?;
        number = number.saturating_add(1);
        at = end;
    }
    Ok(number)
}
