// What the run of a log changes.
ghost use Rattle.std.specs.Prelude.{◌≡◌, ◌+◌, ◌-◌, ◌<◌, ◌≤◌, ◌^◌, ℕ, List, true, length, map, replicate, slice_index_or, slice_set, [], IfOk, IfErr, IsErrOf, OnOk};
ghost use Rattle.cause_core.specs.Cause.{HasCauseOf};
ghost use Rattle.crash_image.specs.LogForm.{log_places};
ghost use Rattle.crash_image.specs.Recovers.{AreOfStore};
ghost use Rattle.disk_model.specs.Event.{Event, reads};
ghost use Rattle.disk_model.specs.Past.{At};
ghost use Rattle.disk_model.specs.declared.names.FileName.TheVariants.{Log};
ghost use Rattle.doublewrite.specs.Restore.{space_at};
ghost use Rattle.doublewrite.specs.declared.refuse.OpenRefuse.TheVariants.{DiskFault};
ghost use Rattle.places.specs.Places.{HasFile};
ghost use Rattle.redo_log.specs.Blocks.{Keys, redo_form};
ghost use Rattle.redo_text.specs.Changes.{change_of};
ghost use Rattle.redo_text.specs.Text.{change_text};
ghost use Rattle.redo_text.specs.declared.change.Change.{Change};
ghost use Rattle.ring_log.specs.Scans.{IsRingRun};
ghost use Rattle.space_head.specs.declared.space.SpaceInfo.{SpaceInfo};
ghost use Rattle.store_files.specs.Header.{are_allowed, are_in_order};
ghost use Rattle.store_files.specs.RingBlock.{IsMtrText};
ghost use Rattle.store_files.specs.Run.{block_at};
ghost use Rattle.store_form.specs.Said.{header_said, space_said};
ghost use Rattle.store_image.specs.View.{block_bytes};
ghost use Rattle.store_model.specs.Fold.{space_of};
ghost use Rattle.recovery.specs.Changes.{AreBlocksKeyed, AreRunChanges, FitLast, IsByRecord, IsTextRefusal, IsUnchanged, IsWholeRun, NotesMtr, info_after, page_named};
ghost use Rattle.recovery.specs.Heads.{AreInfosFor};
ghost use Rattle.recovery.specs.Notes.{FitNotes};
ghost use Rattle.recovery.specs.Passed.{IsAtBlock, IsPassRefusal, IsRecordKind, Passed};

use crate::layout::BLOCK;
use crate::notes::PageNotes;
use crate::run_text::{add_text, lsn_of, read_number};
use crate::space_list::place_of;
use cause_core::OutOfMemory;
use disk_model::Disk;
use doublewrite::OpenRefuse;
use key_ring::Ring;
use redo_log::Run;
use redo_text::{ChangeView, Changes as ChangeReader};
use space_head::SpaceInfo;
use std::alloc::Global;
use std::marker::Model;
use store_form::{Header, HeaderSpace, Spaces};

/// For each page of a space, from page 0 on, the LSN of its last change in a run, 0 without one. In
/// contracts it is the list of these.
#[derive(Drop)]
pub struct SpaceLsns {
    items: Vec<u64>,
}

impl Model for SpaceLsns {
    ghost use Rattle.std.specs.Prelude.{List, ℕ};

    ghost Value = { List ℕ };

    ghost view = { λ lsns. lsns.items.items };
}

impl SpaceLsns {
    ghost use Rattle.std.specs.Prelude.{◌≡◌, ◌<◌, length, slice_index_or, slice_set};

    /// The list of these.
    pub fn of(items: Vec<u64>) -> SpaceLsns
        ensures { result ≡ items.items }
    {
        SpaceLsns { items }
    }

    /// How many there are.
    pub fn len(&self) -> usize
        ensures { result ≡ length self.now }
    {
        self.items.len()
    }

    /// That of a page.
    pub fn get(&self, page: usize) -> u64
        requires { page < length self.now }
        ensures { result ≡ slice_index_or self.now page 0 }
    {
        self.items[page]
    }

    /// All of them.
    pub fn as_slice(&self) -> &[u64]
        ensures { result.now ≡ self.now }
    {
        &self.items
    }

    // Puts another one at this page.
    fn set(&mut self, page: usize, lsn: u64)
        requires { page < length self.old }
        ensures { self.new ≡ slice_set self.old page lsn }
    {
        self.items[page] = lsn;
    }
}

/// For the pages of each space the LSNs of their last changes, in the order of the spaces. In
/// contracts it is the list of their lists.
#[derive(Drop)]
pub struct PageLsns {
    items: Vec<SpaceLsns>,
}

impl Model for PageLsns {
    ghost use Rattle.std.specs.Prelude.{List, ℕ};

    ghost Value = { List (List ℕ) };

    ghost view = { λ lsns. lsns.items.items };
}

impl PageLsns {
    ghost use Rattle.std.specs.Prelude.{◌≡◌, ◌<◌, length, slice_index_or, slice_set, []};

    /// The list of these.
    pub fn of(items: Vec<SpaceLsns>) -> PageLsns
        ensures { result ≡ items.items }
    {
        PageLsns { items }
    }

    /// Of how many spaces they are.
    pub fn len(&self) -> usize
        ensures { result ≡ length self.now }
    {
        self.items.len()
    }

    /// Those of the space at this place, from 0.
    pub fn get(&self, i: usize) -> &SpaceLsns
        requires { i < length self.now }
        ensures { result.now ≡ slice_index_or self.now i [] }
    {
        &self.items[i]
    }

    // Puts another one at a page of the space at this place.
    fn set(&mut self, i: usize, page: usize, lsn: u64)
        requires space { i < length self.old }
        requires place { page < length (slice_index_or self.old i []) }
        ensures { self.new ≡ slice_set self.old i (slice_set (slice_index_or self.old i []) page lsn) }
    {
        self.items[i].set(page, lsn);
    }
}

/// What a run changes, beside the notes of the pages.
#[derive(Drop)]
pub struct RunChanges {
    /// The LSN of each page's last change.
    pub last: PageLsns,
    /// The spaces behind the run: what page 0 of each says by its chosen text, with the changes of the
    /// run whose LSN is above that text's.
    pub spaces: Spaces,
}

// The page that a change names.
#[derive(Clone, Copy)]
struct ChangedPage {
    space: u32,
    page: u32,
}

// Page 0 is named by a change of the space itself.
fn page_of(view: ChangeView) -> ChangedPage
    ensures space { result.space ≡ space_of (change_of view.entry) }
    ensures page { result.page ≡ page_named (change_of view.entry) }
{
    match view {
        ChangeView::Put { space, page, .. } => ChangedPage { space, page },
        ChangeView::Kind { space, page, .. } => ChangedPage { space, page },
        ChangeView::Touch { space, page } => ChangedPage { space, page },
        ChangeView::Floor { space, .. } => ChangedPage { space, page: 0 },
        ChangeView::Encrypt { space } => ChangedPage { space, page: 0 },
    }
}

// The bytes of a change's text.
fn text_bytes(view: ChangeView) -> usize
    ensures { result ≡ length (change_text (change_of view.entry)) }
{
    match view {
        ChangeView::Put { bytes, .. } => 17 + bytes.len(),
        ChangeView::Kind { .. } => 11,
        ChangeView::Touch { .. } => 9,
        ChangeView::Floor { .. } => 9,
        ChangeView::Encrypt { .. } => 5,
    }
}

// A space as a change of it leaves it.
fn info_after(info: SpaceInfo, view: ChangeView) -> SpaceInfo
    ensures { result ≡ info_after (change_of view.entry) info }
{
    match view {
        ChangeView::Put { .. } => info,
        ChangeView::Kind { .. } => info,
        ChangeView::Touch { .. } => info,
        ChangeView::Floor { version, .. } => SpaceInfo {
            floor: version,
            ..info
        },
        ChangeView::Encrypt { .. } => SpaceInfo {
            ciphered: true,
            ..info
        },
    }
}

// Notes a change of this page of the space at a place, by a mini-transaction of this LSN; head is that
// of page 0's chosen text.
fn note_change(
    changes: &mut RunChanges,
    place: usize,
    page: usize,
    view: ChangeView,
    lsn: u64,
    head: u64,
)
    requires place { place < length changes.old.last }
    requires page { page < length (slice_index_or changes.old.last place []) }
    requires space { place < length changes.old.spaces }
    ensures last { changes.new.last ≡ slice_set changes.old.last place (slice_set (slice_index_or changes.old.last place []) page lsn) }
    ensures later { head < lsn → changes.new.spaces ≡ slice_set changes.old.spaces place (info_after (change_of view.entry) (space_at changes.old.spaces place)) }
    ensures earlier { lsn ≤ head → changes.new.spaces ≡ changes.old.spaces }
{
    changes.last.set(place, page, lsn);
    if head < lsn {
        let info = info_after(*changes.spaces.get(place), view);
        changes.spaces.set(place, info);
    }
}

// Notes the changes of a mini-transaction, by its text, the number of its first block and its LSN.
fn take_text(
    spaces: &[HeaderSpace],
    notes: &PageNotes,
    text: &[u8],
    first: u64,
    lsn: u64,
    changes: &mut RunChanges,
) -> Result<(), OpenRefuse>
    requires order { are_in_order 0 (map space_said spaces.now) ≡ true }
    requires noted { FitNotes (map space_said spaces.now) notes.now }
    requires last { FitLast (map space_said spaces.now) changes.old.last }
    requires infos { AreInfosFor (map space_said spaces.now) changes.old.spaces }
    ensures takes { OnOk result ((cs : List Change) × IsMtrText text.now cs × AreOfStore (map space_said spaces.now) cs × NotesMtr (map space_said spaces.now) notes.now lsn cs changes.old changes.new) }
    ensures refused { IfErr result (IsTextRefusal (map space_said spaces.now) text.now first) }
    ensures last { FitLast (map space_said spaces.now) changes.new.last }
    ensures infos { AreInfosFor (map space_said spaces.now) changes.new.spaces }
{
    let mut reader = ChangeReader::new(text);
    let mut at = 0;
    'reading: loop {
        match reader.next() {
            Ok(None) => return Ok(()),
            Err(bad) => {
                return Err(OpenRefuse::BadRecord {
                    number: first,
                    at: bad.at,
                });
            }
            Ok(Some(view)) => {
                let named = page_of(view);
                let Some(place) = place_of(spaces, named.space, named.page) else {
                    return Err(OpenRefuse::BadRecord { number: first, at });
                };
                let head = notes.get(place).get(0).lsn;
                note_change(changes, place, named.page as usize, view, lsn, head);
                at += text_bytes(view);
            }
        }
    }
}

// No change of so many pages.
fn unchanged(alloc: Global, pages: usize) -> Result<SpaceLsns, OutOfMemory>
    ensures { IfOk result (λ lsns. lsns ≡ replicate pages 0) }
{
    Ok(SpaceLsns::of(vec![in alloc; 0u64; pages]?))
}

// No change of these pages.
fn all_unchanged(alloc: Global, notes: &PageNotes) -> Result<PageLsns, OutOfMemory>
    ensures { IfOk result (λ last. last ≡ map (λ pages. replicate (length pages) 0) notes.now) }
{
    let mut last = Vec::new(alloc);
    for i in 0..notes.len() {
        last.push(unchanged(alloc, notes.get(i).len())?)?;
    }
    Ok(PageLsns::of(last))
}

// The spaces of the heads, and no change.
fn begin(alloc: Global, notes: &PageNotes, heads: &Spaces) -> Result<RunChanges, OutOfMemory>
    ensures last { IfOk result (λ changes. changes.last ≡ map (λ pages. replicate (length pages) 0) notes.now) }
    ensures spaces { IfOk result (λ changes. changes.spaces ≡ heads.now) }
{
    Ok(RunChanges {
        last: all_unchanged(alloc, notes)?,
        spaces: Spaces::of(heads.as_slice().to_vec(alloc)?),
    })
}

// NotesMtr the block of a number: its text is appended to that of the blocks from the first of its
// mini-transaction on, and where it is the last of them, their changes are noted. It tells the first
// block of what is behind.
fn pass_block(
    ring: &Ring,
    header: &Header,
    notes: &PageNotes,
    first: u64,
    number: u64,
    block: &mut [u8],
    text: &mut Vec<u8>,
    changes: &mut RunChanges,
) -> Result<u64, OpenRefuse>
    requires allowed { are_allowed (header_said header.now) ≡ true }
    requires count { header.now.count ≤ 16 }
    requires noted { FitNotes (header_said header.now).spaces notes.now }
    requires last { FitLast (header_said header.now).spaces changes.old.last }
    requires infos { AreInfosFor (header_said header.now).spaces changes.old.spaces }
    requires long { length block.old ≡ block_bytes }
    requires number { number + 1 < 2 ^ 64 }
    ensures passes { IfOk result (λ next. (from end : ℕ) (infos : List SpaceInfo) (es : List Event) → IsAtBlock (header_said header.now) ring.now from end notes.now infos first number block.old text.old.items changes.old es → Passed (header_said header.now) ring.now from end notes.now infos next (number + 1) text.new.items changes.new es) }
    ensures refused { IfErr result (λ why. (from end : ℕ) (infos : List SpaceInfo) (es : List Event) → IsAtBlock (header_said header.now) ring.now from end notes.now infos first number block.old text.old.items changes.old es → IsPassRefusal (header_said header.now) ring.now from end why es) }
    ensures kind { IfErr result IsRecordKind }
    ensures last { FitLast (header_said header.now).spaces changes.new.last }
    ensures infos { AreInfosFor (header_said header.now).spaces changes.new.spaces }
    ensures long { length block.new ≡ block_bytes }
{
    if !add_text(ring, header, number, block, text)? {
        return Ok(first);
    }
    let spaces = &header.spaces[..header.count];
    take_text(spaces, notes, text, first, lsn_of(number), changes)?;
    text.clear();
    Ok(number + 1)
}

// Notes the changes of the run from one number up to another, block by block.
fn pass_run<D: Disk>(
    alloc: Global,
    disk: &mut D,
    ring: &Ring,
    header: &Header,
    from: u64,
    end: u64,
    notes: &PageNotes,
    block: &mut [u8],
    changes: &mut RunChanges,
) -> Result<(), OpenRefuse>
    requires allowed { are_allowed (header_said header.now) ≡ true }
    requires count { header.now.count ≤ 16 }
    requires noted { FitNotes (header_said header.now).spaces notes.now }
    requires last { FitLast (header_said header.now).spaces changes.old.last }
    requires infos { AreInfosFor (header_said header.now).spaces changes.old.spaces }
    requires none { IsUnchanged (header_said header.now).spaces changes.old.last }
    requires long { length block.old ≡ block_bytes }
    requires log { At (HasFile Log (log_places header.now.blocks)) (D.past disk.old) }
    requires run { At (IsWholeRun header.now.blocks from end) (D.past disk.old) }
    requires keyed { At (AreBlocksKeyed (header_said header.now) ring.now from end) (D.past disk.old) }
    ensures changes { OnOk result (At (AreRunChanges (header_said header.now) ring.now from end notes.now changes.old.spaces changes.new) (D.past disk.old)) }
    ensures last { FitLast (header_said header.now).spaces changes.new.last }
    ensures infos { AreInfosFor (header_said header.now).spaces changes.new.spaces }
    ensures refused { IfErr result (IsByRecord (header_said header.now) ring.now from end (D.past disk.old)) }
    ensures same { D.past disk.new ≡ D.past disk.old }
    ensures later { D.is_later disk.old disk.new }
    ensures calls { D.clock disk.new ≤ D.clock disk.old + (end - from) }
    ensures cause { HasCauseOf DiskFault (D.faults disk.old) (D.faults disk.new) result }
    ensures memory { D.memory_refusals disk.old ≤ D.memory_refusals disk.new }
    ensures no_fault { (IsErrOf result DiskFault → ⊥) → D.faults disk.new ≡ D.faults disk.old }
    ensures no_refusal { OnOk result (D.memory_refusals disk.new ≡ D.memory_refusals disk.old) }
{
    let mut text = Vec::new(alloc);
    let mut first = from;
    for number in from..end {
        read_number(disk, header.blocks, number, block)?;
        first = pass_block(
            ring, header, notes, first, number, block, &mut text, changes,
        )?;
    }
    Ok(())
}

/// Reads the run of a log once, block by block from the one of number `from` on, under the keys of the
/// ring, and finds what it changes: for each page the LSN of its last change, and each space as page 0
/// of it is behind the run. Heads are the spaces as the chosen texts of page 0 say them, and the notes
/// tell these texts' LSNs.
///
/// # Errors
/// [`OpenRefuse::BadRecord`] exactly where a mini-transaction of the run doesn't say changes of the
/// store's pages, by the first: the number of its first block, and the byte of its text from which on
/// no such change begins. [`OpenRefuse::DiskFault`] only where the disk's count of faults rose,
/// [`OpenRefuse::OutOfMemory`] where there was no memory. Over a disk that doesn't tell its past a
/// block may have become another than it was: then [`OpenRefuse::Damaged`] at its place in the log, or
/// [`OpenRefuse::MissingKey`].
pub fn find_changes<D: Disk>(
    alloc: Global,
    disk: &mut D,
    ring: &Ring,
    header: &Header,
    from: u64,
    run: &Run,
    notes: &PageNotes,
    heads: &Spaces,
) -> Result<RunChanges, OpenRefuse>
    requires allowed { are_allowed (header_said header.now) ≡ true }
    requires count { header.now.count ≤ 16 }
    requires from { from ≤ 2 ^ 50 }
    requires noted { FitNotes (header_said header.now).spaces notes.now }
    requires infos { AreInfosFor (header_said header.now).spaces heads.now }
    requires log { At (HasFile Log (log_places header.now.blocks)) (D.past disk.old) }
    requires run { At (λ es. (keys : Keys) → IsRingRun header.now.blocks (redo_form keys) (block_at header.now.blocks (reads Log es)) from (run.now.last + 1)) (D.past disk.old) }
    requires keyed { At (AreBlocksKeyed (header_said header.now) ring.now from (run.now.last + 1)) (D.past disk.old) }
    ensures changes { IfOk result (λ changes. At (AreRunChanges (header_said header.now) ring.now from (run.now.last + 1) notes.now heads.now changes) (D.past disk.old)) }
    ensures last { IfOk result (λ changes. FitLast (header_said header.now).spaces changes.last) }
    ensures infos { IfOk result (λ changes. AreInfosFor (header_said header.now).spaces changes.spaces) }
    ensures refused { IfErr result (IsByRecord (header_said header.now) ring.now from (run.now.last + 1) (D.past disk.old)) }
    ensures same { D.past disk.new ≡ D.past disk.old }
    ensures later { D.is_later disk.old disk.new }
    ensures calls { D.clock disk.new ≤ D.clock disk.old + (run.now.last + 1 - from) }
    ensures cause { HasCauseOf DiskFault (D.faults disk.old) (D.faults disk.new) result }
    ensures memory { D.memory_refusals disk.old ≤ D.memory_refusals disk.new }
    ensures no_fault { (IsErrOf result DiskFault → ⊥) → D.faults disk.new ≡ D.faults disk.old }
    ensures no_refusal { OnOk result (D.memory_refusals disk.new ≡ D.memory_refusals disk.old) }
{
    let Ok(mut changes) = begin(alloc, notes, heads) else {
        return Err(OpenRefuse::OutOfMemory);
    };
    let mut block = [0; BLOCK];
    let end = run.last.saturating_add(1);
    pass_run(
        alloc,
        disk,
        ring,
        header,
        from,
        end,
        notes,
        &mut block,
        &mut changes,
    )?;
    Ok(changes)
}
