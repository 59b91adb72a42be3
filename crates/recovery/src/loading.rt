// The pages of a round are loaded from their homes into a pool.
ghost use Rattle.std.specs.Prelude.{◌≡◌, ◌≢◌, ℕ, ◌+◌, ◌-◌, ◌*◌, ◌≤◌, ◌<◌, true, false, MatchBool, if◌then◌else◌, [], length, slice_index_or, IsSome, Ok, OnOk, IfOk, IfErr, IfSome, IfNone, IsErrOf};
ghost use Rattle.std.specs.Map.{remove_entry};
ghost use Rattle.byte_list.specs.Bytes.{AreBytes};
ghost use Rattle.byte_list.specs.Fields.{be32_at, be64_at};
ghost use Rattle.cause_core.specs.Cause.{HasCauseOf};
ghost use Rattle.disk_model.specs.Image.{InFile};
ghost use Rattle.disk_model.specs.Past.{At};
ghost use Rattle.disk_model.specs.declared.names.FileName.TheVariants.{Space};
ghost use Rattle.doublewrite.specs.Refuse.{IsDiskRefuse};
ghost use Rattle.doublewrite.specs.declared.refuse.OpenRefuse.TheVariants.{Mixed, DiskFault, OutOfMemory};
ghost use Rattle.page_places.specs.Texts.{page_bytes, pages};
ghost use Rattle.page_pool.specs.Pages.{held_page, is_dirty, is_name, plain_page};
ghost use Rattle.page_text.specs.Opening.{opening};
ghost use Rattle.page_text.specs.Text.{IsText, Plain, key_lent, plain_of};
ghost use Rattle.places.specs.Places.{shown, HasFile};
ghost use Rattle.store_files.specs.Pages.{HasKeyBytes};
ghost use Rattle.store_model.specs.Fold.{used};
ghost use Rattle.store_model.specs.declared.contents.PlainPage.{PlainPage};
ghost use Rattle.recovery.specs.Notes.{no_note};
ghost use Rattle.recovery.specs.Loading.{HoldsHomes, HoldsMore, HoldsRange, HasNoText, HasPlace, IsHomeText, IsHomeFaultKind, IsPageLoaded, MayHaveType, fault_refusal, is_unread, page_key_in, name_in};
ghost use Rattle.recovery.specs.Rounds.{count_in, has_later};

use crate::layout::{PAGE_BYTES, PAGE_CIPHERED, PAGE_END, PAGE_NUMBER, PAGE_SPACE, PAGE_TYPE};
use crate::notes::{NoteSource, PageNote, SpaceNotes};
use crate::pages::read_home;
use crate::rounds::{Round, has_later};
use aes_core::Algorithm;
use byte_list::fields::be32_at;
use cause_core::OutOfMemory;
use disk_model::{Disk, FileName};
use doublewrite::OpenRefuse;
use key_ring::Ring;
use page_pool::{Pool, PoolFault};
use page_text::{OpenFault, PageKey, PageMut, unseal};
use redo_text::ChangeView;
use space_head::SpaceInfo;

/// Where the loading of a range of pages came to: its end, or the first page that can't be taken apart,
/// and why.
#[derive(Clone, Copy, Debug, PartialEq, Eq)]
pub struct Loaded {
    /// The page behind the last that was loaded.
    pub end: u32,
    /// Why that page can't be taken apart, where it isn't the end of the range.
    pub fault: Option<OpenRefuse>,
}

// A number at a byte of a page isn't the wanted one.
fn mixed(space: u32, page: u32, at: u64, wanted: u64, found: u64) -> OpenRefuse
    requires { at < page_bytes }
    ensures value { result ≡ Mixed (Space space) (page * page_bytes + at) wanted found }
    ensures kind { IsHomeFaultKind result }
{
    OpenRefuse::Mixed {
        file: FileName::Space(space),
        at: u64::from(page) * PAGE_BYTES + at,
        wanted,
        found,
    }
}

// The refusal of the store for a fault of a page's text.
fn fault_refusal(space: u32, page: u32, fault: OpenFault) -> OpenRefuse
    requires { HasPlace fault }
    ensures value { result ≡ fault_refusal space page fault }
    ensures kind { IsHomeFaultKind result }
{
    match fault {
        OpenFault::Checksum { stored, computed } => OpenRefuse::Damaged {
            file: FileName::Space(space),
            at: u64::from(page) * PAGE_BYTES,
            stored,
            computed,
        },
        OpenFault::WrongPage { wanted, found } => {
            mixed(
                space,
                page,
                PAGE_NUMBER,
                u64::from(wanted),
                u64::from(found),
            )
        }
        OpenFault::WrongKind { found, version: _ } => mixed(
            space,
            page,
            PAGE_TYPE,
            0,
            u64::from(found),
        ),
        OpenFault::WrongSpace { wanted, found } => {
            mixed(space, page, PAGE_SPACE, u64::from(wanted), u64::from(found))
        }
        OpenFault::WrongEnd { wanted, found } => {
            mixed(space, page, PAGE_END, u64::from(wanted), u64::from(found))
        }
        OpenFault::WrongFill { at, found } => {
            let wanted = if at == PAGE_CIPHERED { 0 } else { 0xffff_ffff };
            mixed(space, page, at as u64, wanted, found)
        }
    }
}

// A local key has 16 bytes.
#[inline(always)]
fn known_long(local: &[u8; 16])
    ensures { length local.now ≡ 16 }
{
    let _local = *local;
}

// Each of them is a byte.
#[inline(always)]
fn known_bytes(local: &[u8])
    ensures { AreBytes local.now }
{
    let _ = local.len();
}

// The key of a space's pages at a version, where the ring has it.
pub(crate) fn key_of(
    ring: &Ring,
    algorithm: Algorithm,
    info: &SpaceInfo,
    version: u32,
) -> Option<PageKey>
    ensures value { result ≡ page_key_in ring.now algorithm info.now version }
    ensures known { IfSome result HasKeyBytes }
{
    let local = ring.local(info.key_id, version, &info.salt)?;
    known_long(&local);
    known_bytes(&local);
    Some(PageKey { local, algorithm })
}

// Takes a page text apart in place.
fn take_apart(
    home: &mut [u8],
    space: u32,
    page: u32,
    key: Option<&PageKey>,
) -> Result<(), OpenFault>
    requires long { length home.old ≡ page_bytes }
    requires keyed { be32_at home.old 0 ≢ 0 → IsSome key }
    ensures value { result ≡ opening space page (key_lent key.entry) home.old }
    ensures accepted { result ≡ Ok tt → IsText page_bytes space page (be64_at home.old 16) (be32_at home.old 0) (key_lent key.entry) (plain_of home.new) home.old }
    ensures taken { (lsn : ℕ) (plain : Plain) → IsText page_bytes space page lsn (be32_at home.old 0) (key_lent key.entry) plain home.old → result ≡ Ok tt }
    ensures place { IfErr result HasPlace }
    ensures long { length home.new ≡ page_bytes }
{
    let mut text = PageMut::of(home);
    unseal(&mut text, space, page, key)
}

// Takes the home of a page apart in place, with the key of the version that it names.
fn open_home(
    ring: &Ring,
    algorithm: Algorithm,
    info: &SpaceInfo,
    page: u32,
    home: &mut [u8],
) -> Result<(), OpenRefuse>
    requires { length home.old ≡ page_bytes }
    ensures opened { OnOk result (IsHomeText ring.now algorithm info.now page home.old (plain_page home.new)) }
    ensures typed { OnOk result (MayHaveType page (plain_page home.new).kind) }
    ensures refused { IfErr result (HasNoText ring.now algorithm info.now page home.old) }
    ensures kind { IfErr result IsHomeFaultKind }
    ensures long { length home.new ≡ page_bytes }
{
    let version = be32_at(home, 0);
    let key = key_of(ring, algorithm, info, version);
    if version != 0 && key.is_none() {
        return Err(OpenRefuse::MissingKey {
            id: info.key_id,
            version,
        });
    }
    match take_apart(home, info.space, page, key.as_ref()) {
        Ok(()) => Ok(()),
        Err(fault) => Err(fault_refusal(info.space, page, fault)),
    }
}

// Makes a page dirty that isn't; one that isn't held is then of type 0 and zero bytes.
fn touch_page(pool: &mut Pool, space: u32, page: u32) -> Result<(), OutOfMemory>
    requires few { length pool.old.dirty.entries < 256 }
    requires fresh { is_dirty (name_in space page) pool.old.dirty ≡ false }
    requires alone { remove_entry (is_name (name_in space page)) pool.old.clean ≡ [] }
    ensures { OnOk result (HoldsMore (name_in space page) (used (held_page (name_in space page) pool.old)) pool.old pool.new) }
{
    match pool.apply(&ChangeView::Touch { space, page }, 0, 0) {
        Ok(()) => Ok(()),
        Err(PoolFault::OutOfMemory) => Err(OutOfMemory),
        Err(PoolFault::Full { .. }) => unreachable!(),
    }
}

// Holds a page that isn't held, of these bytes, and makes it dirty.
fn hold_page(pool: &mut Pool, space: u32, page: u32, plain: &[u8]) -> Result<(), OutOfMemory>
    requires whole { length plain.now ≡ page_bytes }
    requires few { length pool.old.dirty.entries < 256 }
    requires fresh { is_dirty (name_in space page) pool.old.dirty ≡ false }
    requires alone { pool.old.clean ≡ [] }
    ensures { OnOk result (HoldsMore (name_in space page) (plain_page plain.now) pool.old pool.new) }
{
    pool.admit(space, page, plain)?;
    touch_page(pool, space, page)
}

// Loads a page from its home, or tells why its home can't be taken apart.
fn load_page<D: Disk>(
    disk: &mut D,
    ring: &Ring,
    algorithm: Algorithm,
    info: &SpaceInfo,
    page: u32,
    pool: &mut Pool,
    home: &mut [u8],
) -> Result<Option<OpenRefuse>, OpenRefuse>
    requires long { length home.old ≡ page_bytes }
    requires inside { At (InFile (Space info.now.space) (page * page_bytes) page_bytes) (D.past disk.old) }
    requires few { length pool.old.dirty.entries < 256 }
    requires fresh { is_dirty (name_in info.now.space page) pool.old.dirty ≡ false }
    requires alone { pool.old.clean ≡ [] }
    ensures held { IfOk result (λ why. IfNone why ((plain : PlainPage) × HoldsMore (name_in info.now.space page) plain pool.old pool.new × MayHaveType page plain.kind × At (λ es. IsHomeText ring.now algorithm info.now page (shown (Space info.now.space) page_bytes page es) plain) (D.past disk.old))) }
    ensures fault { IfOk result (λ why. IfSome why (λ e. (pool.new ≡ pool.old) × At (λ es. HasNoText ring.now algorithm info.now page (shown (Space info.now.space) page_bytes page es) e) (D.past disk.old))) }
    ensures kind { IfOk result (λ why. IfSome why IsHomeFaultKind) }
    ensures refused { IfErr result IsDiskRefuse }
    ensures long { length home.new ≡ page_bytes }
    ensures same { D.past disk.new ≡ D.past disk.old }
    ensures later { D.is_later disk.old disk.new }
    ensures calls { D.clock disk.new ≤ D.clock disk.old + 1 }
    ensures cause { HasCauseOf DiskFault (D.faults disk.old) (D.faults disk.new) result }
    ensures memory { D.memory_refusals disk.old ≤ D.memory_refusals disk.new }
    ensures no_fault { (IsErrOf result DiskFault → ⊥) → D.faults disk.new ≡ D.faults disk.old }
    ensures no_refusal { OnOk result (D.memory_refusals disk.new ≡ D.memory_refusals disk.old) }
{
    read_home(disk, info.space, page, home)?;
    match open_home(ring, algorithm, info, page, home) {
        Ok(()) => match hold_page(pool, info.space, page, home) {
            Ok(()) => Ok(None),
            Err(OutOfMemory) => Err(OpenRefuse::OutOfMemory),
        },
        Err(why) => Ok(Some(why)),
    }
}

// Whether a page isn't read, since it is an unused one. Page 0 is read.
fn is_unread(note: &PageNote, page: u32) -> bool
    ensures { result ≡ is_unread note.now page }
{
    page != 0 && matches!(note.source, NoteSource::Unused)
}

// Loads a page that has later changes.
fn load_noted<D: Disk>(
    disk: &mut D,
    ring: &Ring,
    algorithm: Algorithm,
    info: &SpaceInfo,
    note: &PageNote,
    page: u32,
    pool: &mut Pool,
    home: &mut [u8],
) -> Result<Option<OpenRefuse>, OpenRefuse>
    requires long { length home.old ≡ page_bytes }
    requires inside { At (InFile (Space info.now.space) (page * page_bytes) page_bytes) (D.past disk.old) }
    requires few { length pool.old.dirty.entries < 256 }
    requires fresh { is_dirty (name_in info.now.space page) pool.old.dirty ≡ false }
    requires alone { pool.old.clean ≡ [] }
    ensures held { IfOk result (λ why. IfNone why (IsPageLoaded ring.now algorithm info.now note.now page pool.old pool.new (D.past disk.old))) }
    ensures fault { IfOk result (λ why. IfSome why (λ e. (pool.new ≡ pool.old) × At (λ es. HasNoText ring.now algorithm info.now page (shown (Space info.now.space) page_bytes page es) e) (D.past disk.old))) }
    ensures kind { IfOk result (λ why. IfSome why IsHomeFaultKind) }
    ensures refused { IfErr result IsDiskRefuse }
    ensures long { length home.new ≡ page_bytes }
    ensures same { D.past disk.new ≡ D.past disk.old }
    ensures later { D.is_later disk.old disk.new }
    ensures calls { D.clock disk.new ≤ D.clock disk.old + 1 }
    ensures cause { HasCauseOf DiskFault (D.faults disk.old) (D.faults disk.new) result }
    ensures memory { D.memory_refusals disk.old ≤ D.memory_refusals disk.new }
    ensures no_fault { (IsErrOf result DiskFault → ⊥) → D.faults disk.new ≡ D.faults disk.old }
    ensures no_refusal { OnOk result (D.memory_refusals disk.new ≡ D.memory_refusals disk.old) }
{
    if !is_unread(note, page) {
        return load_page(disk, ring, algorithm, info, page, pool, home);
    }
    match touch_page(pool, info.space, page) {
        Ok(()) => Ok(None),
        Err(OutOfMemory) => Err(OpenRefuse::OutOfMemory),
    }
}

// Loads a page, where it has later changes.
fn load_later<D: Disk>(
    disk: &mut D,
    ring: &Ring,
    algorithm: Algorithm,
    info: &SpaceInfo,
    notes: &SpaceNotes,
    last: &[u64],
    page: u32,
    pool: &mut Pool,
    home: &mut [u8],
) -> Result<Option<OpenRefuse>, OpenRefuse>
    requires long { length home.old ≡ page_bytes }
    requires noted { page < length notes.now }
    requires listed { page < length last.now }
    requires inside { At (InFile (Space info.now.space) (page * page_bytes) page_bytes) (D.past disk.old) }
    requires few { has_later notes.now last.now page ≡ true → length pool.old.dirty.entries < 256 }
    requires fresh { is_dirty (name_in info.now.space page) pool.old.dirty ≡ false }
    requires alone { pool.old.clean ≡ [] }
    ensures held { IfOk result (λ why. IfNone why (MatchBool (has_later notes.now last.now page) (IsPageLoaded ring.now algorithm info.now (slice_index_or notes.now page no_note) page pool.old pool.new (D.past disk.old)) (pool.new ≡ pool.old))) }
    ensures fault { IfOk result (λ why. IfSome why (λ e. (has_later notes.now last.now page ≡ true) × (pool.new ≡ pool.old) × At (λ es. HasNoText ring.now algorithm info.now page (shown (Space info.now.space) page_bytes page es) e) (D.past disk.old))) }
    ensures kind { IfOk result (λ why. IfSome why IsHomeFaultKind) }
    ensures refused { IfErr result IsDiskRefuse }
    ensures long { length home.new ≡ page_bytes }
    ensures same { D.past disk.new ≡ D.past disk.old }
    ensures later { D.is_later disk.old disk.new }
    ensures calls { D.clock disk.new ≤ D.clock disk.old + (if has_later notes.now last.now page then 1 else 0) }
    ensures cause { HasCauseOf DiskFault (D.faults disk.old) (D.faults disk.new) result }
    ensures memory { D.memory_refusals disk.old ≤ D.memory_refusals disk.new }
    ensures no_fault { (IsErrOf result DiskFault → ⊥) → D.faults disk.new ≡ D.faults disk.old }
    ensures no_refusal { OnOk result (D.memory_refusals disk.new ≡ D.memory_refusals disk.old) }
{
    if !has_later(notes, last, page) {
        return Ok(None);
    }
    let note = notes.get(page as usize);
    load_noted(disk, ring, algorithm, info, note, page, pool, home)
}

/// Loads the pages of a round that have later changes, in order, into an empty pool, in which they are
/// dirty from then on, up to the first whose home can't be taken apart. An unused page isn't read.
///
/// # Errors
/// [`OpenRefuse::DiskFault`] only where the disk's count of faults rose, [`OpenRefuse::OutOfMemory`]
/// where there was no memory.
pub fn load_pages<D: Disk>(
    disk: &mut D,
    ring: &Ring,
    algorithm: Algorithm,
    round: &Round,
    notes: &SpaceNotes,
    last: &[u64],
    pool: &mut Pool,
    home: &mut [u8],
) -> Result<Loaded, OpenRefuse>
    requires long { length home.old ≡ page_bytes }
    requires noted { round.now.end ≤ length notes.now }
    requires listed { round.now.end ≤ length last.now }
    requires order { round.now.from ≤ round.now.end }
    requires file { At (HasFile (Space round.now.info.space) (pages (length notes.now))) (D.past disk.old) }
    requires few { count_in (has_later notes.now last.now) round.now.from (round.now.end - round.now.from) ≤ 256 }
    requires empty { pool.old ≡ record { dirty = record { entries = []; pages = [] }; clean = [] } }
    ensures begins { IfOk result (λ loaded. round.now.from ≤ loaded.end) }
    ensures ends { IfOk result (λ loaded. loaded.end ≤ round.now.end) }
    ensures holds { IfOk result (λ loaded. HoldsRange (has_later notes.now last.now) round.now.info.space round.now.from loaded.end pool.new) }
    ensures homes { IfOk result (λ loaded. At (HoldsHomes ring.now algorithm round.now.info notes.now (has_later notes.now last.now) round.now.from loaded.end pool.new) (D.past disk.old)) }
    ensures whole { IfOk result (λ loaded. IfNone loaded.fault (loaded.end ≡ round.now.end)) }
    // The page at which it ended has later changes, and its home can't be taken apart.
    ensures fault { IfOk result (λ loaded. IfSome loaded.fault (λ why. (loaded.end < round.now.end) × (has_later notes.now last.now loaded.end ≡ true) × At (λ es. HasNoText ring.now algorithm round.now.info loaded.end (shown (Space round.now.info.space) page_bytes loaded.end es) why) (D.past disk.old))) }
    ensures kind { IfOk result (λ loaded. IfSome loaded.fault IsHomeFaultKind) }
    ensures refused { IfErr result IsDiskRefuse }
    ensures long { length home.new ≡ page_bytes }
    ensures same { D.past disk.new ≡ D.past disk.old }
    ensures later { D.is_later disk.old disk.new }
    ensures calls { D.clock disk.new ≤ D.clock disk.old + count_in (has_later notes.now last.now) round.now.from (round.now.end - round.now.from) }
    ensures cause { HasCauseOf DiskFault (D.faults disk.old) (D.faults disk.new) result }
    ensures memory { D.memory_refusals disk.old ≤ D.memory_refusals disk.new }
    ensures no_fault { (IsErrOf result DiskFault → ⊥) → D.faults disk.new ≡ D.faults disk.old }
    ensures no_refusal { OnOk result (D.memory_refusals disk.new ≡ D.memory_refusals disk.old) }
{
    for page in round.from..round.end {
        let info = &round.info;
        let fault = load_later(disk, ring, algorithm, info, notes, last, page, pool, home)?;
        if let Some(why) = fault {
            return Ok(Loaded {
                end: page,
                fault: Some(why),
            });
        }
    }
    Ok(Loaded {
        end: round.end,
        fault: None,
    })
}
