// The keys that an image needs.
ghost use Rattle.std.specs.Prelude.{◌≡◌, List, ◌≤◌, ◌<◌, ◌+◌, ◌*◌, true, false, length, Contains, IfOk, OnOk};
ghost use Rattle.byte_list.specs.Fields.{be32_at};
ghost use Rattle.crash_image.specs.Recovers.{AreLong, HasHeader};
ghost use Rattle.image_reader.specs.Files.{image_of, space_bytes};
ghost use Rattle.image_reader.specs.Naming.{AddsNames, AreNamed, Below, IsBlockName, IsChosenName, IsNameAt, IsPageName, IsPageNameIn, IsSlotName, IsSpaceName, IsTextName};
ghost use Rattle.store_image.specs.View.{block_bytes, slot_count};
ghost use Rattle.store_image.specs.Checkpoint.{front_blocks};
ghost use Rattle.page_places.specs.Texts.{page_bytes, slot_size};
ghost use Rattle.key_ring.specs.Ring.{RingEntry};
ghost use Rattle.store_files.specs.Run.{IsLogOf};

use crate::files::StoreFiles;
use byte_list::fields::be32_at;
use cause_core::OutOfMemory;
use image_log::{LogText, StoreHeader, StoreSpace, block_at, place};
use image_pages::{chosen_bytes, live_text};
use page_places::{PAGE_BYTES, PAGE_VERSION_AT, SLOTS};
use std::alloc::Global;

fn has_name(names: &[(u32, u32)], id: u32, version: u32) -> bool
    ensures yes { result ≡ true → Contains names.now (id, version) }
    ensures no { result ≡ false → Contains names.now (id, version) → ⊥ }
{
    for name in names {
        if name.0 == id && name.1 == version {
            return true;
        }
    }
    false
}

fn add(names: &mut Vec<(u32, u32)>, id: u32, version: u32) -> Result<(), OutOfMemory>
    ensures { OnOk result (AddsNames (λ x. x ≡ (id, version)) names.old.items names.new.items) }
{
    if has_name(names, id, version) {
        return Ok(());
    }
    names.push((id, version))?;
    Ok(())
}

// Adds the key of a page text, where it isn't in clear.
fn add_text(names: &mut Vec<(u32, u32)>, id: u32, text: &[u8]) -> Result<(), OutOfMemory>
    requires { length text.now ≡ page_bytes }
    ensures { OnOk result (AddsNames (IsTextName id (be32_at text.now 0)) names.old.items names.new.items) }
{
    let version = be32_at(text, PAGE_VERSION_AT);
    if version == 0 {
        return Ok(());
    }
    add(names, id, version)
}

fn add_chosen(
    names: &mut Vec<(u32, u32)>,
    id: u32,
    home: &[u8],
    double: &[u8],
    space: u32,
    page: u32,
) -> Result<(), OutOfMemory>
    requires home { length home.now ≡ page_bytes }
    requires double { length double.now ≡ slot_count * slot_size }
    ensures { OnOk result (AddsNames (IsChosenName home.now double.now space page id) names.old.items names.new.items) }
{
    let Some(chosen) = chosen_bytes(home, double, space, page) else {
        return Ok(());
    };
    match chosen {
        Some(text) => add_text(names, id, text),
        None => Ok(()),
    }
}

fn add_slot(
    names: &mut Vec<(u32, u32)>,
    id: u32,
    home: &[u8],
    double: &[u8],
    space: u32,
    page: u32,
    index: usize,
) -> Result<(), OutOfMemory>
    requires home { length home.now ≡ page_bytes }
    requires double { length double.now ≡ slot_count * slot_size }
    requires index { index < slot_count }
    ensures { OnOk result (AddsNames (IsSlotName home.now double.now space page id index) names.old.items names.new.items) }
{
    match live_text(home, double, space, page, index) {
        Some(text) => add_text(names, id, text),
        None => Ok(()),
    }
}

fn add_slots(
    names: &mut Vec<(u32, u32)>,
    id: u32,
    home: &[u8],
    double: &[u8],
    space: u32,
    page: u32,
) -> Result<(), OutOfMemory>
    requires home { length home.now ≡ page_bytes }
    requires double { length double.now ≡ slot_count * slot_size }
    ensures { OnOk result (AddsNames (Below (IsSlotName home.now double.now space page id) slot_count) names.old.items names.new.items) }
{
    for index in 0..SLOTS {
        add_slot(names, id, home, double, space, page, index)?;
    }
    Ok(())
}

fn add_page(
    names: &mut Vec<(u32, u32)>,
    id: u32,
    home: &[u8],
    double: &[u8],
    space: u32,
    page: u32,
) -> Result<(), OutOfMemory>
    requires home { length home.now ≡ page_bytes }
    requires double { length double.now ≡ slot_count * slot_size }
    ensures { OnOk result (AddsNames (IsPageName home.now double.now space page id) names.old.items names.new.items) }
{
    add_chosen(names, id, home, double, space, page)?;
    add_slots(names, id, home, double, space, page)
}

fn add_pages(
    names: &mut Vec<(u32, u32)>,
    id: u32,
    bytes: &[u8],
    double: &[u8],
    space: u32,
    pages: u32,
) -> Result<(), OutOfMemory>
    requires bytes { length bytes.now ≡ pages * page_bytes }
    requires double { length double.now ≡ slot_count * slot_size }
    ensures { OnOk result (AddsNames (Below (IsPageNameIn bytes.now double.now space id) pages) names.old.items names.new.items) }
{
    for page in 0..pages {
        let home = place(bytes, PAGE_BYTES, page as usize);
        add_page(names, id, home, double, space, page)?;
    }
    Ok(())
}

fn add_space(
    names: &mut Vec<(u32, u32)>,
    files: &StoreFiles,
    space: &StoreSpace,
    active: u32,
) -> Result<(), OutOfMemory>
    requires bytes { length (space_bytes files.now.spaces space.now.space) ≡ space.now.pages * page_bytes }
    requires double { length files.now.double ≡ slot_count * slot_size }
    ensures { OnOk result (AddsNames (IsSpaceName files.now active space.now) names.old.items names.new.items) }
{
    let id = space.key_id();
    let number = space.space();
    let pages = space.pages();
    add(names, id, active)?;
    add_pages(
        names,
        id,
        files.space(number),
        files.double(),
        number,
        pages,
    )
}

fn add_spaces(
    names: &mut Vec<(u32, u32)>,
    files: &StoreFiles,
    header: &StoreHeader,
    active: u32,
) -> Result<(), OutOfMemory>
    requires { AreLong (image_of files.now) header.now }
    ensures { OnOk result (AddsNames (Below (IsNameAt files.now active header.now.spaces) (length header.now.spaces)) names.old.items names.new.items) }
{
    for space in header.spaces() {
        add_space(names, files, space, active)?;
    }
    Ok(())
}

// Adds the keys of the ring blocks from one number up to another.
fn add_blocks(
    names: &mut Vec<(u32, u32)>,
    log: &[u8],
    blocks: u32,
    from: u64,
    end: u64,
) -> Result<(), OutOfMemory>
    requires long { length log.now ≡ (front_blocks + blocks) * block_bytes }
    requires some { 0 < blocks }
    requires order { from ≤ end }
    ensures { OnOk result (AddsNames (Below (IsBlockName blocks log.now from) end) names.old.items names.new.items) }
{
    for number in from..end {
        add(names, 1, be32_at(block_at(log, blocks, number), 8))?;
    }
    Ok(())
}

/// The keys that files which recover need, by their ids and versions: those of each text that a page
/// is read from or could be, by its version in clear, those of the blocks of the run, and the active
/// version of the log and of each space. They are the pairs of `Named` of crash_image, each once.
///
/// Header and log are those of the files, as `recover` answers them.
pub fn named(
    alloc: Global,
    files: &StoreFiles,
    header: &StoreHeader,
    log: &LogText,
    active: u32,
) -> Result<Vec<(u32, u32)>, OutOfMemory>
    requires is_header { HasHeader (image_of files.now) header.now }
    requires long { AreLong (image_of files.now) header.now }
    requires is_log { (keys : List RingEntry) × IsLogOf header.now keys files.now.log log.now }
    ensures { IfOk result (λ names. AreNamed (image_of files.now) header.now log.now active names.items) }
{
    let mut names = Vec::new(alloc);
    add_blocks(
        &mut names,
        files.log(),
        header.blocks(),
        log.from(),
        log.end(),
    )?;
    add(&mut names, 1, active)?;
    add_spaces(&mut names, files, header, active)?;
    Ok(names)
}
