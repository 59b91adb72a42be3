// The contents, space by space.
ghost use Rattle.std.specs.Prelude.{◌≡◌, ◌≤◌, ◌<◌, ◌+◌, ◌*◌, true, false, length, IfOk, IfErr};
ghost use Rattle.store_files.specs.Pages.{key_id_of, page_held};
ghost use Rattle.image_reader.specs.HeaderSpaces.{IsHeaderInfo};
ghost use Rattle.image_reader.specs.PageRefusals.{IsHeadRefusal, IsPageRefusal, IsPagesRefusal, IsSpaceRefusal, IsSpacesRefusal, page_refusal};
ghost use Rattle.image_reader.specs.Spaces.{AllGive, SpaceHolds, HeadHolds, PageHolds, PagesHold};
ghost use Rattle.crash_image.specs.Recovers.{AreLong};
ghost use Rattle.store_files.specs.Header.{are_in_order};
ghost use Rattle.image_reader.specs.Files.{image_of};
ghost use Rattle.page_places.specs.Texts.{page_bytes, slot_size};
ghost use Rattle.store_image.specs.View.{slot_count};

use crate::files::StoreFiles;
use crate::refusal::Refusal;
use image_log::{LogText, StoreHeader, StoreSpace, place};
use image_pages::{
    PageFault, PageSource, SpaceKeys, other_head_slot, other_slot, recover_head, recover_page,
};
use key_ring::Ring;
use page_places::PAGE_BYTES;
use space_head::SpaceInfo;
use std::alloc::Global;
use store_model::{Contents, PageList, PlainPage, SpaceContents};

// The id of the key of a space.
fn key_id_of(spaces: &[StoreSpace], space: u32) -> u32
    ensures { result ≡ key_id_of spaces.now space }
{
    for candidate in spaces {
        if candidate.space() == space {
            return candidate.key_id();
        }
    }
    0
}

// A page's fault as a refusal.
fn refused(fault: PageFault, space: u32, page: u32) -> Refusal
    ensures { result ≡ page_refusal space page fault }
{
    match fault {
        PageFault::NotChosen => Refusal::NotChosen { space, page },
        PageFault::Text(fault) => Refusal::NoText { space, page, fault },
        PageFault::OutOfMemory => Refusal::OutOfMemory,
    }
}

// What the page 0 of a space recovers to, also by each live slot.
fn head_of(
    alloc: Global,
    log: &LogText,
    home: &[u8],
    double: &[u8],
    space: u32,
) -> Result<SpaceInfo, Refusal>
    requires home { length home.now ≡ page_bytes }
    requires double { length double.now ≡ slot_count * slot_size }
    ensures ok { IfOk result (HeadHolds log.now home.now double.now space) }
    ensures fault { IfErr result (IsHeadRefusal log.now home.now double.now space) }
{
    match recover_head(alloc, log, home, double, space) {
        Err(fault) => Err(refused(fault, space, 0)),
        Ok(info) => match other_head_slot(alloc, log, home, double, space, &info)? {
            None => Ok(info),
            Some(slot) => Err(Refusal::Slot {
                space,
                page: 0,
                slot,
            }),
        },
    }
}

// What a page from page 1 on recovers to, also by each live slot.
fn page_of(
    alloc: Global,
    keys: &SpaceKeys,
    log: &LogText,
    source: &PageSource,
) -> Result<Option<PlainPage>, Refusal>
    requires home { length source.now.home.now ≡ page_bytes }
    requires double { length source.now.double.now ≡ slot_count * slot_size }
    requires number { 0 < source.now.number }
    requires key_id { keys.now.key_id ≡ key_id_of keys.now.header.now.spaces source.now.space }
    ensures ok { IfOk result (λ page. PageHolds keys.now.header.now keys.now.ring.now log.now source.now.home.now source.now.double.now keys.now.salt.now source.now.space source.now.number (page_held page)) }
    ensures fault { IfErr result (IsPageRefusal keys.now.header.now keys.now.ring.now log.now source.now.home.now source.now.double.now keys.now.salt.now source.now.space source.now.number) }
{
    match recover_page(alloc, keys, log, source) {
        Err(fault) => Err(refused(fault, source.space, source.number)),
        Ok(page) => {
            let slot = other_slot(alloc, keys, log, source, &page)?;
            match slot {
                None => Ok(page),
                Some(slot) => Err(Refusal::Slot {
                    space: source.space,
                    page: source.number,
                    slot,
                }),
            }
        }
    }
}

// The pages of a space from page 1 on.
fn pages_of(
    alloc: Global,
    keys: &SpaceKeys,
    log: &LogText,
    bytes: &[u8],
    double: &[u8],
    space: u32,
    pages: u32,
) -> Result<PageList, Refusal>
    requires bytes { length bytes.now ≡ pages * page_bytes }
    requires some { 0 < pages }
    requires double { length double.now ≡ slot_count * slot_size }
    requires key_id { keys.now.key_id ≡ key_id_of keys.now.header.now.spaces space }
    ensures ok { IfOk result (PagesHold keys.now.header.now keys.now.ring.now log.now bytes.now double.now keys.now.salt.now space) }
    ensures long { IfOk result (λ list. length list + 1 ≡ pages) }
    ensures fault { IfErr result (IsPagesRefusal keys.now.header.now keys.now.ring.now log.now bytes.now double.now keys.now.salt.now space pages) }
{
    let mut list = Vec::new(alloc);
    for number in 1..pages {
        let home = place(bytes, PAGE_BYTES, number as usize);
        let source = PageSource {
            home,
            double,
            space,
            number,
        };
        let page = page_of(alloc, keys, log, &source)?;
        list.push(page)?;
    }
    Ok(PageList::of(list))
}

// Whether page 0 says what the header says of the space.
fn is_space(info: &SpaceInfo, space: &StoreSpace) -> bool
    ensures yes { result ≡ true → IsHeaderInfo space.now info.now }
    ensures no { result ≡ false → IsHeaderInfo space.now info.now → ⊥ }
{
    info.space == space.space() && info.pages == space.pages() && info.key_id == space.key_id()
}

fn space_of(
    alloc: Global,
    header: &StoreHeader,
    keys: &Ring,
    log: &LogText,
    bytes: &[u8],
    double: &[u8],
    space: &StoreSpace,
) -> Result<SpaceContents, Refusal>
    requires bytes { length bytes.now ≡ space.now.pages * page_bytes }
    requires some { 0 < space.now.pages }
    requires double { length double.now ≡ slot_count * slot_size }
    ensures ok { IfOk result (SpaceHolds header.now keys.now log.now bytes.now double.now space.now) }
    ensures fault { IfErr result (IsSpaceRefusal header.now keys.now log.now bytes.now double.now space.now) }
{
    let id = space.space();
    let info = head_of(alloc, log, place(bytes, PAGE_BYTES, 0), double, id)?;
    if !is_space(&info, space) {
        return Err(Refusal::Head { space: id });
    }
    let keys = SpaceKeys {
        header,
        ring: keys,
        key_id: key_id_of(header.spaces(), id),
        salt: &info.salt,
    };
    let pages = pages_of(alloc, &keys, log, bytes, double, id, space.pages())?;
    Ok(SpaceContents { info, pages })
}

/// The contents that the chosen texts give with the run's later changes, and that each live slot
/// gives too.
pub(crate) fn contents_of(
    alloc: Global,
    header: &StoreHeader,
    keys: &Ring,
    log: &LogText,
    files: &StoreFiles,
) -> Result<Contents, Refusal>
    requires long { AreLong (image_of files.now) header.now }
    requires order { are_in_order 0 header.now.spaces ≡ true }
    ensures ok { IfOk result (AllGive header.now keys.now log.now files.now header.now.spaces) }
    ensures fault { IfErr result (IsSpacesRefusal header.now keys.now log.now files.now header.now.spaces) }
{
    let mut list = Vec::new(alloc);
    for space in header.spaces() {
        let bytes = files.space(space.space());
        list.push(space_of(alloc, header, keys, log, bytes, files.double(), space)?)?;
    }
    Ok(Contents::of(list))
}
