// The pages of a round are loaded, and the run's changes made there.
ghost use Rattle.std.specs.Prelude.{◌≡◌, ◌+◌, ◌-◌, ◌<◌, ◌≤◌, ◌^◌, ℕ, List, true, [], length, Some, OnOk, IfOk, IfErr, IfSome, IfNone, IsErrOf};
ghost use Rattle.cause_core.specs.Cause.{HasCauseOf};
ghost use Rattle.crash_image.specs.LogForm.{log_places};
ghost use Rattle.crash_image.specs.Opened.{StoreOpened};
ghost use Rattle.disk_model.specs.Event.{Event};
ghost use Rattle.disk_model.specs.Past.{At};
ghost use Rattle.disk_model.specs.declared.names.FileName.TheVariants.{Log, Space};
ghost use Rattle.doublewrite.specs.declared.refuse.OpenRefuse.TheVariants.{DiskFault};
ghost use Rattle.page_places.specs.Texts.{page_bytes, pages};
ghost use Rattle.places.specs.Places.{HasFile, shown};
ghost use Rattle.store_files.specs.Header.{are_allowed};
ghost use Rattle.store_form.specs.Said.{header_said};
ghost use Rattle.recovery.specs.Applying.{IsRunRefusal, SaysRun};
ghost use Rattle.recovery.specs.Due.{IsOpenedWith, IsRoundDue, IsSpaceOf};
ghost use Rattle.recovery.specs.Groups.{AreSealable};
ghost use Rattle.recovery.specs.Loading.{HasNoText, HaveTexts, HoldsRange, IsHomeFaultKind};
ghost use Rattle.recovery.specs.Rounds.{count_in, has_later};

use crate::applying::apply_run;
use crate::layout::PAGE;
use crate::loading::{Loaded, load_pages};
use crate::notes::SpaceNotes;
use crate::rounds::Round;
use disk_model::Disk;
use doublewrite::OpenRefuse;
use key_ring::Ring;
use page_pool::Pool;
use redo_log::Run;
use std::alloc::Global;
use store_form::Header;

/// Loads the pages of a round that have later changes into an empty pool, as [`load_pages`] does, and
/// makes the run's changes there, as [`apply_run`] does. Where a store is opened, nothing is pending and
/// the homes of these pages are as their chosen texts say, each page is then due as the pool holds it.
///
/// # Errors
/// Those of [`load_pages`] and of [`apply_run`].
pub fn load_round<D: Disk>(
    alloc: Global,
    disk: &mut D,
    ring: &Ring,
    header: &Header,
    from: u64,
    run: &Run,
    round: &Round,
    notes: &SpaceNotes,
    last: &[u64],
    pool: &mut Pool,
) -> Result<Loaded, OpenRefuse>
    requires allowed { are_allowed (header_said header.now) ≡ true }
    requires noted { round.now.end ≤ length notes.now }
    requires listed { round.now.end ≤ length last.now }
    requires order { round.now.from ≤ round.now.end }
    requires file { At (HasFile (Space round.now.info.space) (pages (length notes.now))) (D.past disk.old) }
    requires few { count_in (has_later notes.now last.now) round.now.from (round.now.end - round.now.from) ≤ 256 }
    requires empty { pool.old ≡ record { dirty = record { entries = []; pages = [] }; clean = [] } }
    requires most { run.now.last < 2 ^ 51 }
    requires log { At (HasFile Log (log_places header.now.blocks)) (D.past disk.old) }
    requires says { At (SaysRun (header_said header.now) ring.now from (run.now.last + 1)) (D.past disk.old) }
    ensures begins { IfOk result (λ loaded. round.now.from ≤ loaded.end) }
    ensures ends { IfOk result (λ loaded. loaded.end ≤ round.now.end) }
    ensures holds { IfOk result (λ loaded. HoldsRange (has_later notes.now last.now) round.now.info.space round.now.from loaded.end pool.new) }
    ensures texts { IfOk result (λ loaded. At (HaveTexts ring.now header.now.algorithm round.now.info notes.now (has_later notes.now last.now) round.now.from loaded.end) (D.past disk.old)) }
    ensures whole { IfOk result (λ loaded. IfNone loaded.fault (loaded.end ≡ round.now.end)) }
    ensures fault { IfOk result (λ loaded. IfSome loaded.fault (λ why. (loaded.end < round.now.end) × (has_later notes.now last.now loaded.end ≡ true) × At (λ es. HasNoText ring.now header.now.algorithm round.now.info loaded.end (shown (Space round.now.info.space) page_bytes loaded.end es) why) (D.past disk.old))) }
    ensures kind { IfOk result (λ loaded. IfSome loaded.fault IsHomeFaultKind) }
    // With number the last block of the opening's run, entry the moment at which it began, and m this one.
    ensures due { IfOk result (λ loaded. (o : StoreOpened) (number : ℕ) (entry m : List Event) → D.past disk.old ≡ Some m → IsOpenedWith o (header_said header.now) ring.now from (run.now.last + 1) → IsSpaceOf o entry round.now.info notes.now last.now → IsRoundDue o number entry (has_later notes.now last.now) round.now.info.space round.now.from loaded.end m → AreSealable o (has_later notes.now last.now) round.now.info.space last.now round.now.from loaded.end pool.new) }
    ensures refused { IfErr result (IsRunRefusal (D.past disk.old)) }
    ensures same { D.past disk.new ≡ D.past disk.old }
    ensures later { D.is_later disk.old disk.new }
    ensures calls { D.clock disk.new ≤ D.clock disk.old + count_in (has_later notes.now last.now) round.now.from (round.now.end - round.now.from) + (run.now.last + 1 - from) }
    ensures cause { HasCauseOf DiskFault (D.faults disk.old) (D.faults disk.new) result }
    ensures memory { D.memory_refusals disk.old ≤ D.memory_refusals disk.new }
    ensures no_fault { (IsErrOf result DiskFault → ⊥) → D.faults disk.new ≡ D.faults disk.old }
    ensures no_refusal { OnOk result (D.memory_refusals disk.new ≡ D.memory_refusals disk.old) }
{
    let mut home = [0; PAGE];
    let algorithm = header.algorithm;
    let loaded = load_pages(disk, ring, algorithm, round, notes, last, pool, &mut home)?;
    let part = Round {
        info: round.info,
        from: round.from,
        end: loaded.end,
    };
    apply_run(
        alloc, disk, ring, header, from, run, &part, notes, last, pool,
    )?;
    Ok(loaded)
}
