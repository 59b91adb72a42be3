// A round of pages is loaded, changed and written.
ghost use Rattle.std.specs.Prelude.{◌≡◌, ◌≢◌, ◌↔◌, ◌+◌, ◌*◌, ◌-◌, ◌<◌, ◌≤◌, ◌^◌, ℕ, List, true, length, Some, IsSome, OnOk, IfErr, IfNone, IfSome, IsErrOf};
ghost use Rattle.cause_core.specs.Cause.{HasCauseOf};
ghost use Rattle.crash_image.specs.LogForm.{log_places};
ghost use Rattle.crash_image.specs.Opened.{StoreOpened};
ghost use Rattle.disk_model.specs.Does.{Does};
ghost use Rattle.disk_model.specs.Event.{Event};
ghost use Rattle.disk_model.specs.Past.{At, Throughout};
ghost use Rattle.disk_model.specs.declared.names.FileName.TheVariants.{Double, Log, Space};
ghost use Rattle.doublewrite.specs.declared.refuse.OpenRefuse.TheVariants.{DiskFault};
ghost use Rattle.page_places.specs.Texts.{pages, slots};
ghost use Rattle.places.specs.Batches.{From};
ghost use Rattle.places.specs.Places.{HasFile};
ghost use Rattle.store_files.specs.Header.{are_allowed};
ghost use Rattle.store_form.specs.Said.{header_said};
ghost use Rattle.recovery.specs.Applying.{SaysRun};
ghost use Rattle.recovery.specs.Due.{HasRefusedPage, IsByPage, IsOpenedWith, IsRoundDue, IsSpaceOf};
ghost use Rattle.recovery.specs.Groups.{IsApplyEvent, IsRangeApplied, IsSealedUnder, LeavesSince};
ghost use Rattle.recovery.specs.Loading.{HaveTexts};
ghost use Rattle.recovery.specs.Putting.{ImagesRecover, MayApplyGroups};
ghost use Rattle.recovery.specs.Recorded.{HasRecord, KeepsOpeningRecord};
ghost use Rattle.recovery.specs.Rounds.{count_in, has_later};

use crate::group_writing::{GROUP_PAGES, write_groups};
use crate::loading::Loaded;
use crate::notes::SpaceNotes;
use crate::round_loading::load_round;
use crate::rounds::{Round, next_range};
use crate::sealing::SealKey;
use disk_model::Disk;
use doublewrite::OpenRefuse;
use key_ring::Ring;
use page_pool::Pool;
use redo_log::Run;
use std::alloc::Global;
use store_form::Header;

// The end of the whole groups from this page on, up to `stop`, that end before a page `end` with later changes.
fn whole_groups(notes: &SpaceNotes, last: &[u64], from: u32, end: u32, stop: u32) -> u32
    requires noted { stop ≤ length notes.now }
    requires listed { stop ≤ length last.now }
    requires within { end < stop }
    requires order { from ≤ end }
    requires later { has_later notes.now last.now end ≡ true }
    ensures begins { from ≤ result }
    ensures ends { result ≤ end }
    ensures few { count_in (has_later notes.now last.now) result (end - result) < 64 }
{
    let mut at = from;
    while at < end {
        let next = next_range(notes, last, at, end + 1, GROUP_PAGES);
        if next > end {
            return at;
        }
        at = next;
    }
    at
}

// The end of the groups of a round that are written: its end, or where the loading met a fault that of the
// whole groups before it.
fn groups_end(notes: &SpaceNotes, last: &[u64], round: &Round, loaded: &Loaded) -> u32
    requires noted { round.now.end ≤ length notes.now }
    requires listed { round.now.end ≤ length last.now }
    requires order { round.now.from ≤ loaded.now.end }
    requires fault { IfSome loaded.now.fault (λ why. (loaded.now.end < round.now.end) × (has_later notes.now last.now loaded.now.end ≡ true)) }
    ensures begins { round.now.from ≤ result }
    ensures ends { result ≤ loaded.now.end }
    ensures whole { IfNone loaded.now.fault (result ≡ loaded.now.end) }
    ensures few { count_in (has_later notes.now last.now) result (loaded.now.end - result) < 64 }
{
    match loaded.fault {
        None => loaded.end,
        Some(_why) => whole_groups(notes, last, round.from, loaded.end, round.end),
    }
}

/// Loads the pages of a round that have later changes, makes the run's changes there, and writes them
/// in groups, whose batches are numbered from this number on. It tells the number behind the last.
/// Where a store is opened, each lucky image of each moment recovers to what was opened, and at Ok these
/// pages are done. Where the home of a page can't be taken apart, the groups that end before it are
/// written.
///
/// # Errors
/// [`OpenRefuse::Mixed`], [`OpenRefuse::Damaged`] or [`OpenRefuse::MissingKey`] for the first of these
/// pages, in order, whose home can't be taken apart: its place in the file and both values, or its key.
/// [`OpenRefuse::DiskFault`] only where the disk's count of faults rose, [`OpenRefuse::OutOfMemory`]
/// where there was no memory.
pub fn apply_round<D: Disk>(
    alloc: Global,
    disk: &mut D,
    ring: &Ring,
    header: &Header,
    from: u64,
    run: &Run,
    round: &Round,
    notes: &SpaceNotes,
    last: &[u64],
    under: &SealKey,
    batch: u64,
) -> Result<u64, OpenRefuse>
    requires allowed { are_allowed (header_said header.now) ≡ true }
    requires keyed { IsSome under.now.key ↔ (under.now.version ≢ 0) }
    requires noted { round.now.end ≤ length notes.now }
    requires listed { round.now.end ≤ length last.now }
    requires order { round.now.from ≤ round.now.end }
    requires few { count_in (has_later notes.now last.now) round.now.from (round.now.end - round.now.from) ≤ 256 }
    requires most { run.now.last < 2 ^ 51 }
    requires double { At (HasFile Double slots) (D.past disk.old) }
    requires file { At (HasFile (Space round.now.info.space) (pages (length notes.now))) (D.past disk.old) }
    requires log { At (HasFile Log (log_places header.now.blocks)) (D.past disk.old) }
    requires says { At (SaysRun (header_said header.now) ring.now from (run.now.last + 1)) (D.past disk.old) }
    // With number the last block of the opening's run, s the moment at which it began, and b this one.
    ensures applies { (o : StoreOpened) (number : ℕ) (s b : List Event) → D.past disk.old ≡ Some b → IsOpenedWith o (header_said header.now) ring.now from (run.now.last + 1) → IsSpaceOf o s round.now.info notes.now last.now → IsSealedUnder o round.now.info.space under.now.version under.now.key → IsRoundDue o number s (has_later notes.now last.now) round.now.info.space round.now.from round.now.end b → Does (MayApplyGroups o s) (IsApplyEvent round.now.info.space) (From (IsRangeApplied o s (has_later notes.now last.now) round.now.info.space round.now.from round.now.end) (D.past disk.old)) (D.past disk.old) (D.past disk.new) result }
    ensures recovers { (o : StoreOpened) (number : ℕ) (s b : List Event) → D.past disk.old ≡ Some b → IsOpenedWith o (header_said header.now) ring.now from (run.now.last + 1) → IsSpaceOf o s round.now.info notes.now last.now → IsSealedUnder o round.now.info.space under.now.version under.now.key → IsRoundDue o number s (has_later notes.now last.now) round.now.info.space round.now.from round.now.end b → Throughout (ImagesRecover o number) (D.past disk.old) (D.past disk.new) }
    // And of what was written no number serves two texts, and each lucky image agrees with it.
    ensures recorded { (o : StoreOpened) (number : ℕ) (s b : List Event) → D.past disk.old ≡ Some b → IsOpenedWith o (header_said header.now) ring.now from (run.now.last + 1) → IsSpaceOf o s round.now.info notes.now last.now → IsSealedUnder o round.now.info.space under.now.version under.now.key → IsRoundDue o number s (has_later notes.now last.now) round.now.info.space round.now.from round.now.end b → At (HasRecord o) (D.past disk.old) → Does (KeepsOpeningRecord o) (IsApplyEvent round.now.info.space) (HasRecord o) (D.past disk.old) (D.past disk.new) result }
    ensures texts { OnOk result (At (HaveTexts ring.now header.now.algorithm round.now.info notes.now (has_later notes.now last.now) round.now.from round.now.end) (D.past disk.old)) }
    ensures beside { OnOk result (LeavesSince round.now.info.space round.now.from round.now.end (D.past disk.old) (D.past disk.new)) }
    ensures double { OnOk result (At (HasFile Double slots) (D.past disk.new)) }
    ensures spaces { OnOk result ((z count : ℕ) → At (HasFile (Space z) (pages count)) (D.past disk.old) → At (HasFile (Space z) (pages count)) (D.past disk.new)) }
    ensures log { OnOk result ((n : ℕ) → At (HasFile Log (log_places n)) (D.past disk.old) → At (HasFile Log (log_places n)) (D.past disk.new)) }
    ensures refused { IfErr result (IsByPage (HasRefusedPage ring.now header.now.algorithm round.now.info notes.now (has_later notes.now last.now) round.now.from round.now.end) (D.past disk.old)) }
    ensures later { D.is_later disk.old disk.new }
    ensures cause { HasCauseOf DiskFault (D.faults disk.old) (D.faults disk.new) result }
    ensures memory { D.memory_refusals disk.old ≤ D.memory_refusals disk.new }
    ensures no_fault { (IsErrOf result DiskFault → ⊥) → D.faults disk.new ≡ D.faults disk.old }
    ensures no_refusal { OnOk result (D.memory_refusals disk.new ≡ D.memory_refusals disk.old) }
{
    let Ok(mut pool) = Pool::new(alloc) else {
        return Err(OpenRefuse::OutOfMemory);
    };
    let loaded = load_round(
        alloc, disk, ring, header, from, run, round, notes, last, &mut pool,
    )?;
    let part = Round {
        info: round.info,
        from: round.from,
        end: groups_end(notes, last, round, &loaded),
    };
    let next = write_groups(alloc, disk, &mut pool, &part, notes, last, under, batch)?;
    match loaded.fault {
        None => Ok(next),
        Some(why) => Err(why),
    }
}
