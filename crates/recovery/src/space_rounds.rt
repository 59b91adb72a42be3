// The rounds of a space, one after another.
ghost use Rattle.std.specs.Prelude.{◌≡◌, ◌≢◌, ◌↔◌, ◌-◌, ◌+◌, ◌<◌, ◌≤◌, ◌^◌, ℕ, List, true, length, Some, IsSome, OnOk, IfErr, IsErrOf};
ghost use Rattle.cause_core.specs.Cause.{HasCauseOf};
ghost use Rattle.crash_image.specs.LogForm.{log_places};
ghost use Rattle.crash_image.specs.Opened.{StoreOpened};
ghost use Rattle.disk_model.specs.Does.{Does};
ghost use Rattle.disk_model.specs.Event.{Event};
ghost use Rattle.disk_model.specs.Past.{At, Throughout};
ghost use Rattle.disk_model.specs.declared.names.FileName.TheVariants.{Double, Log, Space};
ghost use Rattle.doublewrite.specs.declared.refuse.OpenRefuse.TheVariants.{DiskFault};
ghost use Rattle.page_places.specs.Texts.{pages, slots};
ghost use Rattle.places.specs.Batches.{From};
ghost use Rattle.places.specs.Places.{HasFile};
ghost use Rattle.store_files.specs.Header.{are_allowed};
ghost use Rattle.store_form.specs.Said.{header_said};
ghost use Rattle.recovery.specs.Applying.{SaysRun};
ghost use Rattle.recovery.specs.Due.{HasRefusedPage, IsByPage, IsOpenedWith, IsRoundDue, IsSpaceOf};
ghost use Rattle.recovery.specs.Groups.{IsApplyEvent, IsRangeApplied, IsSealedUnder, LeavesSince};
ghost use Rattle.recovery.specs.Loading.{HaveTexts};
ghost use Rattle.recovery.specs.Putting.{ImagesRecover, MayApplyGroups};
ghost use Rattle.recovery.specs.Recorded.{HasRecord, KeepsOpeningRecord};
ghost use Rattle.recovery.specs.Rounds.{count_in, has_later};

use crate::notes::SpaceNotes;
use crate::round::apply_round;
use crate::rounds::{Round, next_range};
use crate::sealing::SealKey;
use disk_model::Disk;
use doublewrite::OpenRefuse;
use key_ring::Ring;
use redo_log::Run;
use space_head::SpaceInfo;
use std::alloc::Global;
use store_form::Header;

// The most pages with later changes of a round.
const ROUND_PAGES: usize = 256;

// The first page from this one on, and before `end`, that has later changes.
fn next_later(notes: &SpaceNotes, last: &[u64], from: u32, end: u32) -> u32
    requires noted { end ≤ length notes.now }
    requires listed { end ≤ length last.now }
    requires order { from ≤ end }
    ensures begins { from ≤ result }
    ensures ends { result ≤ end }
    ensures none { (p : ℕ) → from ≤ p → p < result → has_later notes.now last.now p ≡ true → ⊥ }
{
    next_range(notes, last, from, end, 0)
}

/// Applies the run's later changes to the pages of a space, round by round, as [`apply_round`] does, of
/// at most 256 pages with later changes each.
///
/// # Errors
/// Those of [`apply_round`], by the first page of the space whose home can't be taken apart.
pub fn apply_space<D: Disk>(
    alloc: Global,
    disk: &mut D,
    ring: &Ring,
    header: &Header,
    from: u64,
    run: &Run,
    info: &SpaceInfo,
    count: u32,
    notes: &SpaceNotes,
    last: &[u64],
    under: &SealKey,
    batch: u64,
) -> Result<u64, OpenRefuse>
    requires allowed { are_allowed (header_said header.now) ≡ true }
    requires keyed { IsSome under.now.key ↔ (under.now.version ≢ 0) }
    requires count { count ≡ length notes.now }
    requires listed { count ≤ length last.now }
    requires most { run.now.last < 2 ^ 51 }
    requires double { At (HasFile Double slots) (D.past disk.old) }
    requires file { At (HasFile (Space info.now.space) (pages (length notes.now))) (D.past disk.old) }
    requires log { At (HasFile Log (log_places header.now.blocks)) (D.past disk.old) }
    requires says { At (SaysRun (header_said header.now) ring.now from (run.now.last + 1)) (D.past disk.old) }
    // With number the last block of the opening's run, s the moment at which it began, and b this one.
    ensures applies { (o : StoreOpened) (number : ℕ) (s b : List Event) → D.past disk.old ≡ Some b → IsOpenedWith o (header_said header.now) ring.now from (run.now.last + 1) → IsSpaceOf o s info.now notes.now last.now → IsSealedUnder o info.now.space under.now.version under.now.key → IsRoundDue o number s (has_later notes.now last.now) info.now.space 0 count b → Does (MayApplyGroups o s) (IsApplyEvent info.now.space) (From (IsRangeApplied o s (has_later notes.now last.now) info.now.space 0 count) (D.past disk.old)) (D.past disk.old) (D.past disk.new) result }
    ensures recovers { (o : StoreOpened) (number : ℕ) (s b : List Event) → D.past disk.old ≡ Some b → IsOpenedWith o (header_said header.now) ring.now from (run.now.last + 1) → IsSpaceOf o s info.now notes.now last.now → IsSealedUnder o info.now.space under.now.version under.now.key → IsRoundDue o number s (has_later notes.now last.now) info.now.space 0 count b → Throughout (ImagesRecover o number) (D.past disk.old) (D.past disk.new) }
    // And of what was written no number serves two texts, and each lucky image agrees with it.
    ensures recorded { (o : StoreOpened) (number : ℕ) (s b : List Event) → D.past disk.old ≡ Some b → IsOpenedWith o (header_said header.now) ring.now from (run.now.last + 1) → IsSpaceOf o s info.now notes.now last.now → IsSealedUnder o info.now.space under.now.version under.now.key → IsRoundDue o number s (has_later notes.now last.now) info.now.space 0 count b → At (HasRecord o) (D.past disk.old) → Does (KeepsOpeningRecord o) (IsApplyEvent info.now.space) (HasRecord o) (D.past disk.old) (D.past disk.new) result }
    ensures texts { OnOk result (At (HaveTexts ring.now header.now.algorithm info.now notes.now (has_later notes.now last.now) 0 count) (D.past disk.old)) }
    ensures beside { OnOk result (LeavesSince info.now.space 0 count (D.past disk.old) (D.past disk.new)) }
    ensures double { OnOk result (At (HasFile Double slots) (D.past disk.new)) }
    ensures spaces { OnOk result ((z n : ℕ) → At (HasFile (Space z) (pages n)) (D.past disk.old) → At (HasFile (Space z) (pages n)) (D.past disk.new)) }
    ensures log { OnOk result ((n : ℕ) → At (HasFile Log (log_places n)) (D.past disk.old) → At (HasFile Log (log_places n)) (D.past disk.new)) }
    ensures refused { IfErr result (IsByPage (HasRefusedPage ring.now header.now.algorithm info.now notes.now (has_later notes.now last.now) 0 count) (D.past disk.old)) }
    ensures later { D.is_later disk.old disk.new }
    ensures cause { HasCauseOf DiskFault (D.faults disk.old) (D.faults disk.new) result }
    ensures memory { D.memory_refusals disk.old ≤ D.memory_refusals disk.new }
    ensures no_fault { (IsErrOf result DiskFault → ⊥) → D.faults disk.new ≡ D.faults disk.old }
    ensures no_refusal { OnOk result (D.memory_refusals disk.new ≡ D.memory_refusals disk.old) }
{
    let mut next = batch;
    let first = next_later(notes, last, 0, count);
    let mut start = first;
    while start < count {
        let end = next_range(notes, last, start, count, ROUND_PAGES);
        let round = Round {
            info: *info,
            from: start,
            end,
        };
        let number = apply_round(
            alloc, disk, ring, header, from, run, &round, notes, last, under, next,
        )?;
        next = number;
        let behind = next_later(notes, last, end, count);
        start = behind;
    }
    Ok(next)
}
