// What each page of a store is read from is found.
ghost use Rattle.std.specs.Prelude.{◌≡◌, ◌+◌, ◌*◌, ◌≤◌, List, true, length, take, map, All, IfOk, IfErr, IsErrOf, OnOk};
ghost use Rattle.bytes_core.specs.Crc.{crc32c};
ghost use Rattle.byte_list.specs.Fields.{be32_at};
ghost use Rattle.cause_core.specs.Cause.{HasCauseOf};
ghost use Rattle.disk_model.specs.Event.{Event};
ghost use Rattle.disk_model.specs.Image.{InFile};
ghost use Rattle.disk_model.specs.Past.{At};
ghost use Rattle.disk_model.specs.declared.names.FileName.TheVariants.{Space};
ghost use Rattle.doublewrite.specs.Copies.{copies_to};
ghost use Rattle.doublewrite.specs.Refuse.{IsDiskRefuse};
ghost use Rattle.doublewrite.specs.declared.refuse.OpenRefuse.TheVariants.{Damaged, DiskFault, OutOfMemory};
ghost use Rattle.page_places.specs.Texts.{page_bytes, pages, is_page_text, page_sum_at};
ghost use Rattle.places.specs.Places.{shown, HasFile};
ghost use Rattle.store_files.specs.Header.{pages_together, most_spaces};
ghost use Rattle.store_form.specs.Said.{header_said, space_said};
ghost use Rattle.recovery.specs.Files.{HaveStoreFiles, space_file};
ghost use Rattle.recovery.specs.Notes.{AreNotesOf, FitNotes, HasRefusedHome, HaveNotes, HaveRefusedHome, IsByHome, IsHomeKind, IsHomeRefusal, IsNoteOf};
ghost use Rattle.store_image.specs.View.{slot_count};

use crate::layout::{PAGE, PAGE_BYTES};
use crate::notes::{NoteSource, PageNote, PageNotes, SpaceNotes};
use crate::reading::read;
use byte_list::fields::{be32_at, be64_at};
use bytes_core::{crc32c, ends_in_crc32c};
use disk_model::{Disk, FileName};
use doublewrite::{Copies, OpenRefuse, newest_copy};
use page_places::{PAGE_LSN_AT, PAGE_NUMBER_AT, PAGE_VERSION_AT};
use std::alloc::Global;
use store_form::{Header, HeaderSpace};

// Reads the home of a page.
pub(crate) fn read_home<D: Disk>(
    disk: &mut D,
    space: u32,
    page: u32,
    home: &mut [u8],
) -> Result<(), OpenRefuse>
    requires long { length home.old ≡ page_bytes }
    requires inside { At (InFile (Space space) (page * page_bytes) page_bytes) (D.past disk.old) }
    ensures bytes { OnOk result (At (λ es. home.new ≡ shown (Space space) page_bytes page es) (D.past disk.old)) }
    ensures long { length home.new ≡ page_bytes }
    ensures refused { IfErr result IsDiskRefuse }
    ensures same { D.past disk.new ≡ D.past disk.old }
    ensures later { D.is_later disk.old disk.new }
    ensures calls { D.clock disk.new ≤ D.clock disk.old + 1 }
    ensures cause { HasCauseOf DiskFault (D.faults disk.old) (D.faults disk.new) result }
    ensures memory { HasCauseOf OutOfMemory (D.memory_refusals disk.old) (D.memory_refusals disk.new) result }
    ensures no_fault { (IsErrOf result DiskFault → ⊥) → D.faults disk.new ≡ D.faults disk.old }
    ensures no_refusal { OnOk result (D.memory_refusals disk.new ≡ D.memory_refusals disk.old) }
{
    read(
        disk,
        FileName::Space(space),
        u64::from(page) * PAGE_BYTES,
        home,
    )
}

// Whether the text's checksum and its page number are right.
fn is_page_text(text: &[u8], page: u32) -> bool
    requires { 8 ≤ length text.now }
    ensures { result ≡ is_page_text page text.now }
{
    ends_in_crc32c(text) && be32_at(text, PAGE_NUMBER_AT) == page
}

fn are_zero(bytes: &[u8]) -> bool
    ensures yes { result ≡ true → All (λ byte. byte ≡ 0) bytes.now }
    ensures no { All (λ byte. byte ≡ 0) bytes.now → result ≡ true }
{
    bytes.iter().all(|byte| *byte == 0)
}

fn front(bytes: &[u8], n: usize) -> &[u8]
    requires { n ≤ length bytes.now }
    ensures { result.now ≡ take n bytes.now }
{
    &bytes[..n]
}

// The refusal of a page that can't be read, by its home.
fn damaged(home: &[u8], space: u32, page: u32) -> OpenRefuse
    requires { length home.now ≡ page_bytes }
    ensures { result ≡ Damaged (Space space) (page * page_bytes) (be32_at home.now page_sum_at) (crc32c (take page_sum_at home.now)) }
{
    let end = home.len() - 4;
    OpenRefuse::Damaged {
        file: FileName::Space(space),
        at: u64::from(page) * PAGE_BYTES,
        stored: be32_at(home, end),
        computed: crc32c(front(home, end)),
    }
}

// What a page is read from, by its home and the copies.
fn note_of(home: &[u8], space: u32, page: u32, copies: &Copies) -> Result<PageNote, OpenRefuse>
    requires long { length home.now ≡ page_bytes }
    ensures note { IfOk result (λ note. (es : List Event) → home.now ≡ shown (Space space) page_bytes page es → copies.now ≡ copies_to slot_count es → IsNoteOf space page note es) }
    ensures refused { IfErr result (λ why. (es : List Event) → home.now ≡ shown (Space space) page_bytes page es → copies.now ≡ copies_to slot_count es → IsHomeRefusal space page why es) }
    ensures kind { IfErr result IsHomeKind }
{
    if is_page_text(home, page) {
        return Ok(PageNote {
            source: NoteSource::Home(be32_at(home, PAGE_VERSION_AT)),
            lsn: be64_at(home, PAGE_LSN_AT),
        });
    }
    let zero = are_zero(home);
    if !zero && ends_in_crc32c(home) {
        return Err(OpenRefuse::Mixed {
            file: FileName::Space(space),
            at: u64::from(page) * PAGE_BYTES + PAGE_NUMBER_AT as u64,
            wanted: u64::from(page),
            found: u64::from(be32_at(home, PAGE_NUMBER_AT)),
        });
    }
    if let Some(copied) = newest_copy(copies, space, page) {
        return Ok(PageNote {
            source: NoteSource::Copy(be32_at(copied.text.bytes(), PAGE_VERSION_AT)),
            lsn: copied.lsn,
        });
    }
    if zero && page != 0 {
        return Ok(PageNote {
            source: NoteSource::Unused,
            lsn: 0,
        });
    }
    Err(damaged(home, space, page))
}

// What the pages of a space are read from.
fn note_space<D: Disk>(
    alloc: Global,
    disk: &mut D,
    space: &HeaderSpace,
    copies: &Copies,
    home: &mut [u8],
) -> Result<SpaceNotes, OpenRefuse>
    requires long { length home.old ≡ page_bytes }
    requires file { At (HasFile (Space space.now.space) (pages space.now.pages)) (D.past disk.old) }
    requires copies { At (λ es. copies.now ≡ copies_to slot_count es) (D.past disk.old) }
    ensures count { IfOk result (λ notes. length notes ≡ space.now.pages) }
    ensures notes { IfOk result (λ notes. At (AreNotesOf space.now.space notes) (D.past disk.old)) }
    ensures refused { IfErr result (IsByHome (HasRefusedHome (space_said space.now)) (D.past disk.old)) }
    ensures long { length home.new ≡ page_bytes }
    ensures same { D.past disk.new ≡ D.past disk.old }
    ensures later { D.is_later disk.old disk.new }
    ensures calls { D.clock disk.new ≤ D.clock disk.old + space.now.pages }
    ensures cause { HasCauseOf DiskFault (D.faults disk.old) (D.faults disk.new) result }
    ensures memory { D.memory_refusals disk.old ≤ D.memory_refusals disk.new }
    ensures no_fault { (IsErrOf result DiskFault → ⊥) → D.faults disk.new ≡ D.faults disk.old }
    ensures no_refusal { OnOk result (D.memory_refusals disk.new ≡ D.memory_refusals disk.old) }
{
    let mut notes = Vec::new(alloc);
    for page in 0..space.pages {
        read_home(disk, space.space, page, home)?;
        let note = note_of(home, space.space, page, copies)?;
        let Ok(()) = notes.push(note) else {
            return Err(OpenRefuse::OutOfMemory);
        };
    }
    Ok(SpaceNotes::of(notes))
}

fn note_spaces<D: Disk>(
    alloc: Global,
    disk: &mut D,
    spaces: &[HeaderSpace],
    copies: &Copies,
    home: &mut [u8],
) -> Result<PageNotes, OpenRefuse>
    requires long { length home.old ≡ page_bytes }
    requires files { At (HaveStoreFiles (map space_file (map space_said spaces.now))) (D.past disk.old) }
    requires copies { At (λ es. copies.now ≡ copies_to slot_count es) (D.past disk.old) }
    ensures fit { IfOk result (λ notes. FitNotes (map space_said spaces.now) notes) }
    ensures notes { IfOk result (λ notes. At (HaveNotes (map space_said spaces.now) notes) (D.past disk.old)) }
    ensures refused { IfErr result (IsByHome (HaveRefusedHome (map space_said spaces.now)) (D.past disk.old)) }
    ensures same { D.past disk.new ≡ D.past disk.old }
    ensures later { D.is_later disk.old disk.new }
    ensures calls { D.clock disk.new ≤ D.clock disk.old + pages_together (map space_said spaces.now) }
    ensures cause { HasCauseOf DiskFault (D.faults disk.old) (D.faults disk.new) result }
    ensures memory { D.memory_refusals disk.old ≤ D.memory_refusals disk.new }
    ensures no_fault { (IsErrOf result DiskFault → ⊥) → D.faults disk.new ≡ D.faults disk.old }
    ensures no_refusal { OnOk result (D.memory_refusals disk.new ≡ D.memory_refusals disk.old) }
{
    let mut notes = Vec::new(alloc);
    for i in 0..spaces.len() {
        let noted = note_space(alloc, disk, &spaces[i], copies, home)?;
        let Ok(()) = notes.push(noted) else {
            return Err(OpenRefuse::OutOfMemory);
        };
    }
    Ok(PageNotes::of(notes))
}

/// Finds what each page of a store is read from: spaces in order, pages in order, each home once, with
/// the valid slots of the doublewrite file as `copies` lists them.
///
/// # Errors
/// By the first page that isn't taken: [`OpenRefuse::Mixed`] at byte 4 of its home, with its number and
/// the one that stands there, exactly where the home's checksum matches and it has another page's
/// number; [`OpenRefuse::Damaged`] at its home, with the checksum that it stores and the one that its
/// bytes have, exactly where the home isn't such a one, and neither it nor a copy is the page's text,
/// nor is it zero bytes, of a page from page 1 on. [`OpenRefuse::DiskFault`] only where the disk's
/// count of faults rose, [`OpenRefuse::OutOfMemory`] where there was no memory.
pub fn find_pages<D: Disk>(
    alloc: Global,
    disk: &mut D,
    header: &Header,
    copies: &Copies,
) -> Result<PageNotes, OpenRefuse>
    requires count { header.now.count ≤ most_spaces }
    requires files { At (HaveStoreFiles (map space_file (header_said header.now).spaces)) (D.past disk.old) }
    requires copies { At (λ es. copies.now ≡ copies_to slot_count es) (D.past disk.old) }
    ensures fit { IfOk result (λ notes. FitNotes (header_said header.now).spaces notes) }
    ensures notes { IfOk result (λ notes. At (HaveNotes (header_said header.now).spaces notes) (D.past disk.old)) }
    ensures refused { IfErr result (IsByHome (HaveRefusedHome (header_said header.now).spaces) (D.past disk.old)) }
    ensures same { D.past disk.new ≡ D.past disk.old }
    ensures later { D.is_later disk.old disk.new }
    ensures calls { D.clock disk.new ≤ D.clock disk.old + pages_together (header_said header.now).spaces }
    ensures cause { HasCauseOf DiskFault (D.faults disk.old) (D.faults disk.new) result }
    ensures memory { D.memory_refusals disk.old ≤ D.memory_refusals disk.new }
    ensures no_fault { (IsErrOf result DiskFault → ⊥) → D.faults disk.new ≡ D.faults disk.old }
    ensures no_refusal { OnOk result (D.memory_refusals disk.new ≡ D.memory_refusals disk.old) }
{
    let mut home = [0; PAGE];
    note_spaces(
        alloc,
        disk,
        &header.spaces[..header.count],
        copies,
        &mut home,
    )
}
