// The steps of an opening that only read, one after another.
ghost use Rattle.std.specs.Prelude.{◌≡◌, ◌+◌, ◌≤◌, ◌^◌, ℕ, List, true, IfOk, IfErr, IsErrOf, OnOk};
ghost use Rattle.cause_core.specs.Cause.{HasCauseOf};
ghost use Rattle.crash_image.specs.LogForm.{log_places};
ghost use Rattle.disk_model.specs.Event.{reads};
ghost use Rattle.disk_model.specs.Past.{At};
ghost use Rattle.disk_model.specs.declared.names.FileName.TheVariants.{Double, Log};
ghost use Rattle.doublewrite.specs.Copies.{copies_to};
ghost use Rattle.doublewrite.specs.Refuse.{IsDiskRefuse};
ghost use Rattle.doublewrite.specs.declared.refuse.OpenRefuse.TheVariants.{DiskFault, OutOfMemory};
ghost use Rattle.key_ring.specs.Ring.{RingEntry};
ghost use Rattle.page_places.specs.Texts.{slots};
ghost use Rattle.places.specs.Places.{HasFile};
ghost use Rattle.redo_log.specs.Blocks.{Keys, redo_form};
ghost use Rattle.redo_log.specs.Runs.{AreVersions};
ghost use Rattle.ring_log.specs.Scans.{IsRingRun};
ghost use Rattle.store_files.specs.Checkpoint.{IsWritableCheckpoint};
ghost use Rattle.store_files.specs.Header.{HeldHeader, are_allowed, most_spaces};
ghost use Rattle.store_files.specs.Run.{block_at};
ghost use Rattle.store_form.specs.Said.{header_said};
ghost use Rattle.store_image.specs.View.{slot_count};
ghost use Rattle.store_model.specs.declared.contents.SpaceContents.{SpaceContents};
ghost use Rattle.recovery.specs.Changes.{FitLast};
ghost use Rattle.recovery.specs.Entry.{BeginsWith, IsSettledStore, MayOpen};
ghost use Rattle.recovery.specs.Files.{IsFormatted};
ghost use Rattle.recovery.specs.Heads.{AreInfosFor};
ghost use Rattle.recovery.specs.Looking.{FitsTogether, FoundChanges, FoundKeys, FoundRun, IsAnalysis, IsOpenRefusal, log_calls, look_calls, page_calls};
ghost use Rattle.recovery.specs.Notes.{FitNotes};
ghost use Rattle.recovery.specs.Stages.{AreFloorsBelow, checkpoint_said};

use crate::changes::{RunChanges, find_changes};
use crate::checkpoint::find_checkpoint;
use crate::floors::{check_floors, check_numbers};
use crate::header::find_header;
use crate::heads::find_heads;
use crate::keys::check_keys;
use crate::lengths::check_lengths;
use crate::notes::PageNotes;
use crate::pages::find_pages;
use disk_model::{Disk, DiskError};
use doublewrite::{Copies, OpenRefuse, copies};
use key_ring::Ring;
use redo_log::{Checkpoint, Run, scan};
use std::alloc::Global;
use store_form::{Header, Spaces};

/// What an opening finds of a store before it writes anything.
#[derive(Drop)]
pub struct Analysis {
    /// The header.
    pub header: Header,
    /// The newest checkpoint.
    pub checkpoint: Checkpoint,
    /// The run of the log from the checkpoint on.
    pub run: Run,
    /// What each page is read from.
    pub notes: PageNotes,
    /// What the run changes: the LSN of each page's last change, and the spaces behind the run.
    pub changes: RunChanges,
}

// The header of a store and the run of its log.
#[derive(Drop)]
struct LogFound {
    header: Header,
    checkpoint: Checkpoint,
    run: Run,
}

// What the pages are read from, and what page 0 of each space says.
#[derive(Drop)]
struct PagesFound {
    notes: PageNotes,
    heads: Spaces,
}

// The run of a log, with the refusals of an opening.
fn find_run<D: Disk>(
    alloc: Global,
    disk: &mut D,
    header: &Header,
    from: u64,
) -> Result<Run, OpenRefuse>
    requires allowed { are_allowed (header_said header.now) ≡ true }
    requires low { 2 ≤ from }
    requires high { from ≤ 2 ^ 50 }
    requires log { At (HasFile Log (log_places header.now.blocks)) (D.past disk.old) }
    ensures low { IfOk result (λ run. from ≤ run.last + 1) }
    ensures run { IfOk result (λ run. At (λ es. (keys : Keys) → IsRingRun header.now.blocks (redo_form keys) (block_at header.now.blocks (reads Log es)) from (run.last + 1)) (D.past disk.old)) }
    ensures versions { IfOk result (λ run. At (λ es. AreVersions (block_at header.now.blocks (reads Log es)) from (run.last + 1) run.versions) (D.past disk.old)) }
    ensures refused { IfErr result IsDiskRefuse }
    ensures same { D.past disk.new ≡ D.past disk.old }
    ensures later { D.is_later disk.old disk.new }
    ensures calls { D.clock disk.new ≤ D.clock disk.old + header.now.blocks }
    ensures cause { HasCauseOf DiskFault (D.faults disk.old) (D.faults disk.new) result }
    ensures memory { D.memory_refusals disk.old ≤ D.memory_refusals disk.new }
    ensures no_fault { (IsErrOf result DiskFault → ⊥) → D.faults disk.new ≡ D.faults disk.old }
    ensures no_refusal { OnOk result (D.memory_refusals disk.new ≡ D.memory_refusals disk.old) }
{
    match scan(alloc, disk, header.blocks, from) {
        Ok(run) => Ok(run),
        Err(DiskError::Failed) => Err(OpenRefuse::DiskFault),
        Err(DiskError::NoMemory) => Err(OpenRefuse::OutOfMemory),
    }
}

// The valid slots of the doublewrite file, with the refusals of an opening.
fn find_copies<D: Disk>(alloc: Global, disk: &mut D) -> Result<Copies, OpenRefuse>
    requires { At (HasFile Double slots) (D.past disk.old) }
    ensures copies { IfOk result (λ copies. At (λ es. copies ≡ copies_to slot_count es) (D.past disk.old)) }
    ensures refused { IfErr result IsDiskRefuse }
    ensures same { D.past disk.new ≡ D.past disk.old }
    ensures later { D.is_later disk.old disk.new }
    ensures calls { D.clock disk.new ≤ D.clock disk.old + slot_count }
    ensures cause { HasCauseOf DiskFault (D.faults disk.old) (D.faults disk.new) result }
    ensures memory { D.memory_refusals disk.old ≤ D.memory_refusals disk.new }
    ensures no_fault { (IsErrOf result DiskFault → ⊥) → D.faults disk.new ≡ D.faults disk.old }
    ensures no_refusal { OnOk result (D.memory_refusals disk.new ≡ D.memory_refusals disk.old) }
{
    match copies(alloc, disk) {
        Ok(listed) => Ok(listed),
        Err(DiskError::Failed) => Err(OpenRefuse::DiskFault),
        Err(DiskError::NoMemory) => Err(OpenRefuse::OutOfMemory),
    }
}

// Finds the header, looks at the lengths, and finds the run from the newest checkpoint on.
fn find_log<D: Disk>(alloc: Global, disk: &mut D) -> Result<LogFound, OpenRefuse>
    ensures found { IfOk result (λ log. At (FoundRun (header_said log.header) (checkpoint_said log.checkpoint) log.run.last) (D.past disk.old)) }
    ensures versions { IfOk result (λ log. At (λ es. AreVersions (block_at log.header.blocks (reads Log es)) log.checkpoint.from (log.run.last + 1) log.run.versions) (D.past disk.old)) }
    ensures allowed { IfOk result (λ log. are_allowed (header_said log.header) ≡ true) }
    ensures count { IfOk result (λ log. log.header.count ≤ most_spaces) }
    ensures format { IfOk result (λ log. log.header.format ≡ 2) }
    ensures numbers { IfOk result (λ log. IsWritableCheckpoint (checkpoint_said log.checkpoint)) }
    ensures low { IfOk result (λ log. log.checkpoint.from ≤ log.run.last + 1) }
    ensures refused { IfErr result (λ why. (keys : List RingEntry) (active : ℕ) → IsOpenRefusal keys active (D.past disk.old) why) }
    ensures same { D.past disk.new ≡ D.past disk.old }
    ensures later { D.is_later disk.old disk.new }
    ensures calls { At (λ es. (h : HeldHeader) → IsFormatted h es → D.clock disk.new ≤ D.clock disk.old + log_calls h) (D.past disk.old) }
    ensures unformatted { At (λ es. ((h : HeldHeader) → IsFormatted h es → ⊥) → D.clock disk.new ≤ D.clock disk.old + 2) (D.past disk.old) }
    ensures cause { HasCauseOf DiskFault (D.faults disk.old) (D.faults disk.new) result }
    ensures memory { D.memory_refusals disk.old ≤ D.memory_refusals disk.new }
    ensures no_fault { (IsErrOf result DiskFault → ⊥) → D.faults disk.new ≡ D.faults disk.old }
    ensures no_refusal { OnOk result (D.memory_refusals disk.new ≡ D.memory_refusals disk.old) }
{
    let header = find_header(disk)?;
    check_lengths(disk, &header)?;
    let checkpoint = find_checkpoint(disk)?;
    let run = find_run(alloc, disk, &header, checkpoint.from)?;
    Ok(LogFound {
        header,
        checkpoint,
        run,
    })
}

// Finds what each page is read from and what page 0 of each space says, and looks for the keys.
fn find_contents<D: Disk>(
    alloc: Global,
    disk: &mut D,
    ring: &Ring,
    active: u32,
    log: &LogFound,
) -> Result<PagesFound, OpenRefuse>
    requires allowed { are_allowed (header_said log.now.header) ≡ true }
    requires count { log.now.header.count ≤ most_spaces }
    requires found { At (FoundRun (header_said log.now.header) (checkpoint_said log.now.checkpoint) log.now.run.last) (D.past disk.old) }
    requires versions { At (λ es. AreVersions (block_at log.now.header.blocks (reads Log es)) log.now.checkpoint.from (log.now.run.last + 1) log.now.run.versions) (D.past disk.old) }
    ensures found { IfOk result (λ pages. At (FoundKeys ring.now active (header_said log.now.header) (checkpoint_said log.now.checkpoint) log.now.run.last pages.notes pages.heads) (D.past disk.old)) }
    ensures fit { IfOk result (λ pages. FitNotes (header_said log.now.header).spaces pages.notes) }
    ensures infos { IfOk result (λ pages. AreInfosFor (header_said log.now.header).spaces pages.heads) }
    ensures refused { IfErr result (IsOpenRefusal ring.now active (D.past disk.old)) }
    ensures same { D.past disk.new ≡ D.past disk.old }
    ensures later { D.is_later disk.old disk.new }
    ensures calls { D.clock disk.new ≤ D.clock disk.old + page_calls (header_said log.now.header) }
    ensures cause { HasCauseOf DiskFault (D.faults disk.old) (D.faults disk.new) result }
    ensures memory { D.memory_refusals disk.old ≤ D.memory_refusals disk.new }
    ensures no_fault { (IsErrOf result DiskFault → ⊥) → D.faults disk.new ≡ D.faults disk.old }
    ensures no_refusal { OnOk result (D.memory_refusals disk.new ≡ D.memory_refusals disk.old) }
{
    let copies = find_copies(alloc, disk)?;
    let notes = find_pages(alloc, disk, &log.header, &copies)?;
    let heads = find_heads(alloc, disk, &log.header, &copies, &notes)?;
    check_keys(ring, active, &log.header, &log.run, &notes, &copies)?;
    Ok(PagesFound { notes, heads })
}

// Finds what the run changes, and looks at the least versions and the numbers that are left.
fn find_later<D: Disk>(
    alloc: Global,
    disk: &mut D,
    ring: &Ring,
    active: u32,
    log: &LogFound,
    pages: &PagesFound,
) -> Result<RunChanges, OpenRefuse>
    requires allowed { are_allowed (header_said log.now.header) ≡ true }
    requires count { log.now.header.count ≤ most_spaces }
    requires numbers { IsWritableCheckpoint (checkpoint_said log.now.checkpoint) }
    requires fit { FitNotes (header_said log.now.header).spaces pages.now.notes }
    requires infos { AreInfosFor (header_said log.now.header).spaces pages.now.heads }
    requires found { At (FoundKeys ring.now active (header_said log.now.header) (checkpoint_said log.now.checkpoint) log.now.run.last pages.now.notes pages.now.heads) (D.past disk.old) }
    ensures found { IfOk result (λ changes. At (FoundChanges ring.now active (header_said log.now.header) (checkpoint_said log.now.checkpoint) log.now.run.last pages.now.notes pages.now.heads changes) (D.past disk.old)) }
    ensures last { IfOk result (λ changes. FitLast (header_said log.now.header).spaces changes.last) }
    ensures infos { IfOk result (λ changes. AreInfosFor (header_said log.now.header).spaces changes.spaces) }
    ensures floors { IfOk result (λ changes. AreFloorsBelow active changes.spaces) }
    ensures numbers { OnOk result (log.now.run.last + 1 + log.now.header.blocks ≤ 2 ^ 35) }
    ensures refused { IfErr result (IsOpenRefusal ring.now active (D.past disk.old)) }
    ensures same { D.past disk.new ≡ D.past disk.old }
    ensures later { D.is_later disk.old disk.new }
    ensures calls { At (λ es. D.clock disk.new ≤ D.clock disk.old + log.now.header.blocks) (D.past disk.old) }
    ensures cause { HasCauseOf DiskFault (D.faults disk.old) (D.faults disk.new) result }
    ensures memory { D.memory_refusals disk.old ≤ D.memory_refusals disk.new }
    ensures no_fault { (IsErrOf result DiskFault → ⊥) → D.faults disk.new ≡ D.faults disk.old }
    ensures no_refusal { OnOk result (D.memory_refusals disk.new ≡ D.memory_refusals disk.old) }
{
    let from = log.checkpoint.from;
    let changes = find_changes(
        alloc,
        disk,
        ring,
        &log.header,
        from,
        &log.run,
        &pages.notes,
        &pages.heads,
    )?;
    check_floors(changes.spaces.as_slice(), active)?;
    check_numbers(log.run.last, log.header.blocks)?;
    Ok(changes)
}

/// Looks at a store before anything of it is written: finds its header, the run of its log, what each
/// page is read from, what its spaces are and what the run changes, and looks at its files' lengths, the
/// keys of the ring, the least versions of the spaces and the numbers that are left. It only reads.
///
/// A store that recovers as it reads is refused nothing but a fault or want of memory, where its files
/// are there, the ring has each key that it needs, `active` is below no least version and numbers are
/// left.
///
/// # Errors
/// That of the first step, in this order, which doesn't find what it looks for: those of
/// [`find_header`], [`check_lengths`], [`find_checkpoint`], [`find_pages`], [`find_heads`],
/// [`check_keys`], [`find_changes`], [`check_floors`] and [`check_numbers`].
/// [`OpenRefuse::DiskFault`] only where the disk's count of faults rose, [`OpenRefuse::OutOfMemory`]
/// where there was no memory, both at the call that met them.
pub fn look<D: Disk>(
    alloc: Global,
    disk: &mut D,
    ring: &Ring,
    active: u32,
) -> Result<Analysis, OpenRefuse>
    ensures found { IfOk result (λ found. At (IsAnalysis ring.now active found) (D.past disk.old)) }
    ensures fits { IfOk result (FitsTogether active) }
    ensures refused { IfErr result (IsOpenRefusal ring.now active (D.past disk.old)) }
    ensures clear { IfErr result (λ why. At (λ es. (c : List SpaceContents) (last : ℕ) → MayOpen ring.now active c last es → IsDiskRefuse why) (D.past disk.old)) }
    ensures begins { IfOk result (λ found. At (λ es. (c : List SpaceContents) (last : ℕ) → IsSettledStore ring.now c last es → BeginsWith ring.now active found c es) (D.past disk.old)) }
    ensures same { D.past disk.new ≡ D.past disk.old }
    ensures later { D.is_later disk.old disk.new }
    ensures calls { At (λ es. (h : HeldHeader) → IsFormatted h es → D.clock disk.new ≤ D.clock disk.old + look_calls h) (D.past disk.old) }
    ensures unformatted { At (λ es. ((h : HeldHeader) → IsFormatted h es → ⊥) → D.clock disk.new ≤ D.clock disk.old + 2) (D.past disk.old) }
    ensures cause { HasCauseOf DiskFault (D.faults disk.old) (D.faults disk.new) result }
    ensures memory { D.memory_refusals disk.old ≤ D.memory_refusals disk.new }
    ensures no_fault { (IsErrOf result DiskFault → ⊥) → D.faults disk.new ≡ D.faults disk.old }
    ensures no_refusal { OnOk result (D.memory_refusals disk.new ≡ D.memory_refusals disk.old) }
{
    let log = find_log(alloc, disk)?;
    let pages = find_contents(alloc, disk, ring, active, &log)?;
    let changes = find_later(alloc, disk, ring, active, &log, &pages)?;
    Ok(Analysis {
        header: log.header,
        checkpoint: log.checkpoint,
        run: log.run,
        notes: pages.notes,
        changes,
    })
}
