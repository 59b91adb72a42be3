// What is looked at before any page is read: lengths, the pages of changes, homes.
ghost use Rattle.std.specs.Prelude.{◌≡◌, ◌≤◌, ◌<◌, ◌+◌, ◌*◌, true, false, length, IfSome, IfNone, OnOk, IfErr};
ghost use Rattle.store_files.specs.Pages.{has_page};
ghost use Rattle.crash_image.specs.Recovers.{AreLong, AreOfStore, IsOfStore, RunIsOfStore, SpacesLong};
ghost use Rattle.image_reader.specs.Files.{image_of, space_bytes};
ghost use Rattle.image_reader.specs.Homes.{AreHomesRight, AreRightBelow, HasHomeFault, IsFirstMixed};
ghost use Rattle.image_reader.specs.Lengths.{IsFirstForeign, IsFirstOther, IsLengthFault};
ghost use Rattle.page_places.specs.Texts.{page_bytes, slot_size};
ghost use Rattle.store_image.specs.View.{slot_count};

use crate::files::StoreFiles;
use crate::refusal::Refusal;
use disk_model::FileName;
use image_log::{LogText, StoreHeader, StoreSpace, place};
use image_pages::is_placed;
use page_places::{PAGE_BYTES, SLOT_BYTES, SLOTS};
use redo_text::{Change, Mtr};
use store_files::{BLOCK_BYTES, FRONT_BLOCKS};

// Whether the file of a space is as long as its pages.
fn has_length(files: &StoreFiles, space: &StoreSpace) -> bool
    ensures yes { result ≡ true → length (space_bytes files.now.spaces space.now.space) ≡ space.now.pages * page_bytes }
    ensures no { result ≡ false → length (space_bytes files.now.spaces space.now.space) ≡ space.now.pages * page_bytes → ⊥ }
{
    let bytes = files.space(space.space());
    bytes.len() as u64 == u64::from(space.pages()) * PAGE_BYTES as u64
}

// The first of these spaces whose file isn't as long as its pages.
fn other_length(files: &StoreFiles, spaces: &[StoreSpace]) -> Option<u32>
    ensures none { IfNone result (SpacesLong (image_of files.now) spaces.now) }
    ensures some { IfSome result (IsFirstOther (image_of files.now) spaces.now) }
{
    for space in spaces {
        if !has_length(files, space) {
            return Some(space.space());
        }
    }
    None
}

/// Whether each file is as long as the header says.
pub(crate) fn check_lengths(files: &StoreFiles, header: &StoreHeader) -> Result<(), Refusal>
    ensures ok { OnOk result (AreLong (image_of files.now) header.now) }
    ensures fault { IfErr result (IsLengthFault (image_of files.now) header.now) }
{
    if files.log().len() as u64
        != (FRONT_BLOCKS as u64 + u64::from(header.blocks())) * BLOCK_BYTES as u64
    {
        return Err(Refusal::Length(FileName::Log));
    }
    if files.double().len() != SLOTS * SLOT_BYTES {
        return Err(Refusal::Length(FileName::Double));
    }
    match other_length(files, header.spaces()) {
        Some(space) => Err(Refusal::Length(FileName::Space(space))),
        None => Ok(()),
    }
}

// Whether the store has this page.
fn has_page(spaces: &[StoreSpace], space: u32, page: u32) -> bool
    ensures { result ≡ has_page spaces.now space page }
{
    for candidate in spaces {
        if candidate.space() == space {
            return page < candidate.pages();
        }
    }
    false
}

fn is_of_store(spaces: &[StoreSpace], change: &Change) -> bool
    ensures yes { result ≡ true → IsOfStore spaces.now change.now }
    ensures no { result ≡ false → IsOfStore spaces.now change.now → ⊥ }
{
    match change {
        Change::Put { space, page, .. } => has_page(spaces, *space, *page),
        Change::Kind { space, page, .. } => has_page(spaces, *space, *page),
        Change::Touch { space, page } => has_page(spaces, *space, *page),
        Change::Floor { space, .. } => has_page(spaces, *space, 0),
        Change::Encrypt { space } => has_page(spaces, *space, 0),
    }
}

fn are_of_store(spaces: &[StoreSpace], mtr: &Mtr) -> bool
    ensures yes { result ≡ true → AreOfStore spaces.now mtr.now }
    ensures no { result ≡ false → AreOfStore spaces.now mtr.now → ⊥ }
{
    for change in mtr.changes() {
        if !is_of_store(spaces, change) {
            return false;
        }
    }
    true
}

/// The first mini-transaction of the run with a change of a page that the store doesn't have, by its
/// first block.
pub(crate) fn other_pages(header: &StoreHeader, log: &LogText) -> Option<u64>
    ensures none { IfNone result (RunIsOfStore header.now.spaces log.now.run) }
    ensures some { IfSome result (IsFirstForeign header.now.spaces log.now.run) }
{
    for entry in log.run() {
        if !are_of_store(header.spaces(), entry.mtr()) {
            return Some(entry.first());
        }
    }
    None
}

// Whether no home of a space has the text of another page.
fn check_space_homes(bytes: &[u8], space: u32, pages: u32) -> Result<(), Refusal>
    requires { length bytes.now ≡ pages * page_bytes }
    ensures ok { OnOk result (AreRightBelow bytes.now pages) }
    ensures fault { IfErr result (IsFirstMixed bytes.now space pages) }
{
    for page in 0..pages {
        if !is_placed(place(bytes, PAGE_BYTES, page as usize), page) {
            return Err(Refusal::Mixed { space, page });
        }
    }
    Ok(())
}

/// Whether no home has the text of another page: the first that has, by space and page.
pub(crate) fn check_homes(files: &StoreFiles, header: &StoreHeader) -> Result<(), Refusal>
    requires { AreLong (image_of files.now) header.now }
    ensures ok { OnOk result (AreHomesRight files.now header.now.spaces) }
    ensures fault { IfErr result (HasHomeFault files.now header.now.spaces) }
{
    for space in header.spaces() {
        check_space_homes(files.space(space.space()), space.space(), space.pages())?;
    }
    Ok(())
}
