// What the spaces of a store are is read from their page 0.
ghost use Rattle.std.specs.Prelude.{◌≡◌, ◌+◌, ◌*◌, ◌≤◌, ℕ, ◌<◌, true, false, length, map, List, Some, IfOk, IfErr, IfSome, IfNone, IsErrOf, OnOk};
ghost use Rattle.byte_list.specs.Bytes.{range};
ghost use Rattle.cause_core.specs.Cause.{HasCauseOf};
ghost use Rattle.disk_model.specs.Image.{InFile};
ghost use Rattle.disk_model.specs.Past.{At};
ghost use Rattle.disk_model.specs.declared.names.FileName.TheVariants.{Space};
ghost use Rattle.doublewrite.specs.Copies.{copies_to};
ghost use Rattle.doublewrite.specs.Refuse.{IsDiskRefuse};
ghost use Rattle.doublewrite.specs.Restore.{newest};
ghost use Rattle.doublewrite.specs.declared.refuse.OpenRefuse.TheVariants.{DiskFault, OutOfMemory};
ghost use Rattle.page_places.specs.Texts.{page_bytes, pages};
ghost use Rattle.places.specs.Places.{HasFile};
ghost use Rattle.space_head.specs.Record.{salt_size};
ghost use Rattle.store_files.specs.Header.{are_allowed};
ghost use Rattle.store_form.specs.Said.{header_said, space_said};
ghost use Rattle.store_image.specs.View.{Text, IsChosen};
ghost use Rattle.recovery.specs.Files.{HaveStoreFiles, space_file};
ghost use Rattle.recovery.specs.Heads.{AreRight, AreInfosFor, IsInfoFor, HasWrongHead, HaveHeads, HaveWrongHead, IsByHead, IsFirstWrong, IsHeadInfo, IsFieldRefusal, IsRight, head_fields, info_in, number_at};
ghost use Rattle.recovery.specs.Notes.{FitNotes, HaveNotes, IsNoteOf, disk_view};
ghost use Rattle.recovery.specs.Walks.{AllHave};

use crate::layout::PAGE;
use crate::notes::{NoteSource, PageNote, PageNotes};
use crate::pages::read_home;
use byte_list::fields::{be16_at, be32_at};
use disk_model::{Disk, FileName};
use doublewrite::{Copies, OpenRefuse, newest_copy};
use space_head::SpaceInfo;
use std::alloc::Global;
use store_form::{Header, HeaderSpace, Spaces};

// Where the fields of a page 0 stand, in bytes: the key version, the page's type, the space's id, its
// size and its flags.
const VERSION: usize = 0;

const TYPE: usize = 24;

const SPACE: usize = 38;

const PAGES: usize = 46;

const FLAGS: usize = 54;

// And its crypt record, with the record's type, the salt's length, the salt, the floor, the key id and
// the mode.
const RECORD: usize = 10428;

const RECORD_TYPE: usize = 10434;

const SALT_LENGTH: usize = 10435;

const SALT: usize = 10436;

const FLOOR: usize = 10452;

const KEY_ID: usize = 10456;

const MODE: usize = 10460;

/// How many bytes a number has.
#[derive(Clone, Copy, Debug, PartialEq, Eq)]
pub(crate) enum Width {
    One,
    Two,
    Four,
    Six,
}

/// A field of page 0, and what it is to be.
#[derive(Clone, Copy, Debug, PartialEq, Eq)]
pub(crate) struct HeadField {
    /// Its place in the page, in bytes.
    pub at: usize,
    /// Its size.
    pub width: Width,
    /// The number that is wanted.
    pub wanted: u64,
    /// Whether a smaller one will do.
    pub is_most: bool,
}

// The number of a field.
fn number_at(width: Width, at: usize, text: &[u8]) -> u64
    requires { at + 6 ≤ length text.now }
    ensures { result ≡ number_at width at text.now }
{
    match width {
        Width::One => u64::from(text[at]),
        Width::Two => u64::from(be16_at(text, at)),
        Width::Four => u64::from(be32_at(text, at)),
        Width::Six => u64::from(be32_at(text, at)) * 65536 + u64::from(be16_at(text, at + 4)),
    }
}

// A field that is to be this number.
fn exactly(at: usize, width: Width, wanted: u64) -> HeadField
    ensures { result ≡ record { at = at; width = width; wanted = wanted; is_most = false } }
{
    HeadField {
        at,
        width,
        wanted,
        is_most: false,
    }
}

// A field that is to be at most this number.
fn at_most(at: usize, width: Width, wanted: u64) -> HeadField
    ensures { result ≡ record { at = at; width = width; wanted = wanted; is_most = true } }
{
    HeadField {
        at,
        width,
        wanted,
        is_most: true,
    }
}

// The fields of page 0, in the order in which they are looked at.
fn head_fields(space: &HeaderSpace) -> [HeadField; 10]
    ensures { result ≡ head_fields (space_said space.now) }
{
    [
        exactly(VERSION, Width::Four, 0),
        exactly(TYPE, Width::Two, 8),
        exactly(SPACE, Width::Four, u64::from(space.space)),
        exactly(PAGES, Width::Four, u64::from(space.pages)),
        exactly(FLAGS, Width::Four, 21),
        exactly(RECORD, Width::Six, 0x730e_0c52_4574),
        at_most(RECORD_TYPE, Width::One, 1),
        exactly(SALT_LENGTH, Width::One, 16),
        exactly(KEY_ID, Width::Four, u64::from(space.key_id)),
        at_most(MODE, Width::One, 2),
    ]
}

// Whether the number of a field is right.
fn is_right(field: &HeadField, text: &[u8]) -> bool
    requires { field.now.at + 6 ≤ length text.now }
    ensures yes { result ≡ true → IsRight field.now text.now }
    ensures no { result ≡ false → IsRight field.now text.now → ⊥ }
{
    let found = number_at(field.width, field.at, text);
    if field.is_most {
        found <= field.wanted
    } else {
        found == field.wanted
    }
}

// The first of these fields that isn't right.
fn first_wrong(fields: &[HeadField], text: &[u8]) -> Option<HeadField>
    requires { AllHave (λ field. field.at + 6 ≤ length text.now) fields.now }
    ensures some { IfSome result (λ field. IsFirstWrong fields.now field text.now) }
    ensures none { IfNone result (AreRight fields.now text.now) }
    ensures inside { IfSome result (λ field. field.at + 6 ≤ length text.now) }
{
    for field in fields {
        if !is_right(field, text) {
            return Some(*field);
        }
    }
    None
}

fn salt_in(text: &[u8]) -> [u8; 16]
    requires { length text.now ≡ page_bytes }
    ensures { result ≡ range SALT salt_size text.now }
{
    let mut salt = [0; 16];
    salt.copy_from_slice(&text[SALT..FLOOR]);
    salt
}

// What page 0 says of a space.
fn info_in(space: &HeaderSpace, text: &[u8]) -> SpaceInfo
    requires { length text.now ≡ page_bytes }
    ensures { result ≡ info_in (space_said space.now) text.now }
{
    SpaceInfo {
        space: space.space,
        pages: space.pages,
        key_id: space.key_id,
        salt: salt_in(text),
        ciphered: text[RECORD_TYPE] == 1,
        floor: be32_at(text, FLOOR),
    }
}

// Reads page 0 of a space.
fn read_head(space: &HeaderSpace, text: &[u8]) -> Result<SpaceInfo, OpenRefuse>
    requires { length text.now ≡ page_bytes }
    ensures info { IfOk result (λ info. info ≡ info_in (space_said space.now) text.now) }
    ensures right { OnOk result (AreRight (head_fields (space_said space.now)) text.now) }
    ensures refused { IfErr result (IsFieldRefusal (space_said space.now) text.now) }
{
    let fields = head_fields(space);
    match first_wrong(&fields, text) {
        None => Ok(info_in(space, text)),
        Some(field) => Err(OpenRefuse::Mixed {
            file: FileName::Space(space.space),
            at: field.at as u64,
            wanted: field.wanted,
            found: number_at(field.width, field.at, text),
        }),
    }
}

// The newest copy of page 0 of a space; zero bytes where there is none.
#[tactic(auto, unfolding(byte_list::specs::Bytes::zeros))]
fn copy_newest(copies: &Copies, space: u32, text: &mut [u8])
    requires { length text.old ≡ page_bytes }
    ensures copied { IfSome (newest copies.now space 0) (λ c. text.new ≡ c.text) }
    ensures long { length text.new ≡ page_bytes }
{
    match newest_copy(copies, space, 0) {
        Some(copied) => text.copy_from_slice(copied.text.bytes()),
        None => text.fill(0),
    }
}

// The chosen text of page 0 of a space.
fn read_chosen<D: Disk>(
    disk: &mut D,
    space: u32,
    note: &PageNote,
    copies: &Copies,
    text: &mut [u8],
) -> Result<(), OpenRefuse>
    requires long { length text.old ≡ page_bytes }
    requires inside { At (InFile (Space space) 0 page_bytes) (D.past disk.old) }
    requires copies { At (λ es. copies.now ≡ copies_to 64 es) (D.past disk.old) }
    ensures chosen { OnOk result (At (λ es. IsNoteOf space 0 note.now es → (t : Text) × IsChosen (disk_view es) space 0 (Some t) × (text.new ≡ t.bytes)) (D.past disk.old)) }
    ensures long { length text.new ≡ page_bytes }
    ensures refused { IfErr result IsDiskRefuse }
    ensures same { D.past disk.new ≡ D.past disk.old }
    ensures later { D.is_later disk.old disk.new }
    ensures calls { D.clock disk.new ≤ D.clock disk.old + 1 }
    ensures cause { HasCauseOf DiskFault (D.faults disk.old) (D.faults disk.new) result }
    ensures memory { HasCauseOf OutOfMemory (D.memory_refusals disk.old) (D.memory_refusals disk.new) result }
    ensures no_fault { (IsErrOf result DiskFault → ⊥) → D.faults disk.new ≡ D.faults disk.old }
    ensures no_refusal { OnOk result (D.memory_refusals disk.new ≡ D.memory_refusals disk.old) }
{
    if let NoteSource::Home(_) = note.source {
        return read_home(disk, space, 0, text);
    }
    copy_newest(copies, space, text);
    Ok(())
}

// What the chosen text of page 0 says of a space.
fn find_head<D: Disk>(
    disk: &mut D,
    space: &HeaderSpace,
    note: &PageNote,
    copies: &Copies,
    text: &mut [u8],
) -> Result<SpaceInfo, OpenRefuse>
    requires long { length text.old ≡ page_bytes }
    requires inside { At (InFile (Space space.now.space) 0 page_bytes) (D.past disk.old) }
    requires copies { At (λ es. copies.now ≡ copies_to 64 es) (D.past disk.old) }
    requires noted { At (IsNoteOf space.now.space 0 note.now) (D.past disk.old) }
    ensures info { IfOk result (λ info. At (IsHeadInfo (space_said space.now) info) (D.past disk.old)) }
    ensures fits { IfOk result (λ info. IsInfoFor (space_said space.now) info) }
    ensures refused { IfErr result (IsByHead (HasWrongHead (space_said space.now)) (D.past disk.old)) }
    ensures long { length text.new ≡ page_bytes }
    ensures same { D.past disk.new ≡ D.past disk.old }
    ensures later { D.is_later disk.old disk.new }
    ensures calls { D.clock disk.new ≤ D.clock disk.old + 1 }
    ensures cause { HasCauseOf DiskFault (D.faults disk.old) (D.faults disk.new) result }
    ensures memory { HasCauseOf OutOfMemory (D.memory_refusals disk.old) (D.memory_refusals disk.new) result }
    ensures no_fault { (IsErrOf result DiskFault → ⊥) → D.faults disk.new ≡ D.faults disk.old }
    ensures no_refusal { OnOk result (D.memory_refusals disk.new ≡ D.memory_refusals disk.old) }
{
    read_chosen(disk, space.space, note, copies, text)?;
    read_head(space, text)
}

fn find_each<D: Disk>(
    alloc: Global,
    disk: &mut D,
    spaces: &[HeaderSpace],
    copies: &Copies,
    notes: &PageNotes,
    text: &mut [u8],
) -> Result<Spaces, OpenRefuse>
    requires long { length text.old ≡ page_bytes }
    requires some { AllHave (λ space. 0 < space.pages) spaces.now }
    requires fit { FitNotes (map space_said spaces.now) notes.now }
    requires files { At (HaveStoreFiles (map space_file (map space_said spaces.now))) (D.past disk.old) }
    requires copies { At (λ es. copies.now ≡ copies_to 64 es) (D.past disk.old) }
    requires noted { At (HaveNotes (map space_said spaces.now) notes.now) (D.past disk.old) }
    ensures heads { IfOk result (λ infos. At (HaveHeads (map space_said spaces.now) infos) (D.past disk.old)) }
    ensures fit { IfOk result (λ infos. AreInfosFor (map space_said spaces.now) infos) }
    ensures refused { IfErr result (IsByHead (HaveWrongHead (map space_said spaces.now)) (D.past disk.old)) }
    ensures same { D.past disk.new ≡ D.past disk.old }
    ensures later { D.is_later disk.old disk.new }
    ensures calls { D.clock disk.new ≤ D.clock disk.old + length spaces.now }
    ensures cause { HasCauseOf DiskFault (D.faults disk.old) (D.faults disk.new) result }
    ensures memory { D.memory_refusals disk.old ≤ D.memory_refusals disk.new }
    ensures no_fault { (IsErrOf result DiskFault → ⊥) → D.faults disk.new ≡ D.faults disk.old }
    ensures no_refusal { OnOk result (D.memory_refusals disk.new ≡ D.memory_refusals disk.old) }
{
    let mut infos = Vec::new(alloc);
    for i in 0..spaces.len() {
        let note = notes.get(i).get(0);
        let info = find_head(disk, &spaces[i], note, copies, text)?;
        let Ok(()) = infos.push(info) else {
            return Err(OpenRefuse::OutOfMemory);
        };
    }
    Ok(Spaces::of(infos))
}

/// Reads what the spaces of a store are from the chosen text of each page 0, spaces in order: its home,
/// read once, or its newest copy.
///
/// # Errors
/// By the first space whose page 0 says something else than the header, [`OpenRefuse::Mixed`] at the
/// first field that isn't right, with the number that is wanted, or the greatest that is allowed, and
/// the one that stands there: the key version at byte 0 (0 is wanted), the page type at 24 (8), the
/// space's id at 38 and its size at 46, the flags at 54 (21), and of the crypt record its magic at
/// 10428, read as a number, its type at 10434 (at most 1), the length of its salt at 10435 (16), the
/// id of the key at 10456 and the mode at 10460 (at most 2). [`OpenRefuse::DiskFault`] only where the
/// disk's count of faults rose, [`OpenRefuse::OutOfMemory`] where there was no memory.
pub fn find_heads<D: Disk>(
    alloc: Global,
    disk: &mut D,
    header: &Header,
    copies: &Copies,
    notes: &PageNotes,
) -> Result<Spaces, OpenRefuse>
    requires allowed { are_allowed (header_said header.now) ≡ true }
    requires count { header.now.count ≤ 16 }
    requires fit { FitNotes (header_said header.now).spaces notes.now }
    requires files { At (HaveStoreFiles (map space_file (header_said header.now).spaces)) (D.past disk.old) }
    requires copies { At (λ es. copies.now ≡ copies_to 64 es) (D.past disk.old) }
    requires noted { At (HaveNotes (header_said header.now).spaces notes.now) (D.past disk.old) }
    ensures heads { IfOk result (λ infos. At (HaveHeads (header_said header.now).spaces infos) (D.past disk.old)) }
    ensures fit { IfOk result (λ infos. AreInfosFor (header_said header.now).spaces infos) }
    ensures refused { IfErr result (IsByHead (HaveWrongHead (header_said header.now).spaces) (D.past disk.old)) }
    ensures same { D.past disk.new ≡ D.past disk.old }
    ensures later { D.is_later disk.old disk.new }
    ensures calls { D.clock disk.new ≤ D.clock disk.old + header.now.count }
    ensures cause { HasCauseOf DiskFault (D.faults disk.old) (D.faults disk.new) result }
    ensures memory { D.memory_refusals disk.old ≤ D.memory_refusals disk.new }
    ensures no_fault { (IsErrOf result DiskFault → ⊥) → D.faults disk.new ≡ D.faults disk.old }
    ensures no_refusal { OnOk result (D.memory_refusals disk.new ≡ D.memory_refusals disk.old) }
{
    let mut text = [0; PAGE];
    let spaces = &header.spaces[..header.count];
    find_each(alloc, disk, spaces, copies, notes, &mut text)
}
