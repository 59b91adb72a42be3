// What a page recovers to: its chosen text with the run's later changes.
ghost use Rattle.std.specs.Prelude.{◌≡◌, ℕ, List, ◌≤◌, ◌<◌, ◌*◌, length, IfOk, IfErr, IfSome, IfNone};
ghost use Rattle.key_ring.specs.Ring.{RingEntry};
ghost use Rattle.store_files.specs.Header.{HeldHeader};
ghost use Rattle.store_files.specs.Pages.{Head, key_id_of, page_held};
ghost use Rattle.key_ring.specs.Local.{local_key};
ghost use Rattle.byte_list.specs.Fields.{be32_at};
ghost use Rattle.image_pages.specs.Recovering.{IsChosenIn, IsMeaningFault, IsPageFaultUnder, IsRecovered};
ghost use Rattle.page_places.specs.Texts.{page_bytes, slot_size};
ghost use Rattle.store_image.specs.View.{slot_count};

use crate::acting::{later_head, later_page};
use crate::choosing::{Chosen, chosen_text};
use crate::copies::slot_text;
use crate::fault::{PageFault, TextFault};
use crate::head::head_of_text;
use crate::plain::used_page;
use crate::source::{PageSource, SpaceKeys};
use byte_list::fields::{be32_at, be64_at};
use image_log::LogText;
use page_places::{PAGE_LSN_AT, PAGE_VERSION_AT};
use space_head::SpaceInfo;
use std::alloc::Global;
use store_files::BLOCK_BYTES;
use store_model::PlainPage;

/// The text that a page is read from: the 16384 bytes of its home or of a copy; Some of None where it
/// is unused; None where it is read from nothing.
pub fn chosen_bytes<'a>(
    home: &'a [u8],
    double: &'a [u8],
    space: u32,
    number: u32,
) -> Option<Option<&'a [u8]>>
    requires home { length home.now ≡ page_bytes }
    requires double { length double.now ≡ slot_count * slot_size }
    ensures { IsChosenIn home.now double.now space number result }
{
    match chosen_text(home, double, space, number) {
        Chosen::Home => Some(Some(home)),
        Chosen::Copy(index) => Some(Some(slot_text(double, index))),
        Chosen::Unused => Some(None),
        Chosen::Nothing => None,
    }
}

// Why a text that is none of this page from page 1 on is none.
fn text_fault(keys: &SpaceKeys, text: &[u8]) -> TextFault
    requires { length text.now ≡ page_bytes }
    ensures { IsMeaningFault (local_key keys.now.ring.now keys.now.key_id (be32_at text.now 0) keys.now.salt.now) (be32_at text.now 0) result }
{
    let version = be32_at(text, PAGE_VERSION_AT);
    if version != 0 && keys.ring.local(keys.key_id, version, keys.salt).is_none() {
        return TextFault::NoKey { version };
    }
    TextFault::NotItsText
}

/// What a page from page 1 on recovers to, by the bytes of its home and of the doublewrite file: None
/// where it is unused.
///
/// # Errors
/// The [`PageFault`] for which it recovers to nothing; `OutOfMemory` where the machine has no memory.
pub fn recover_page(
    alloc: Global,
    keys: &SpaceKeys,
    log: &LogText,
    source: &PageSource,
) -> Result<Option<PlainPage>, PageFault>
    requires home { length source.now.home.now ≡ page_bytes }
    requires double { length source.now.double.now ≡ slot_count * slot_size }
    requires number { 0 < source.now.number }
    requires key_id { keys.now.key_id ≡ key_id_of keys.now.header.now.spaces source.now.space }
    ensures ok { IfOk result (λ found. IsRecovered keys.now.header.now keys.now.ring.now log.now source.now.home.now source.now.double.now source.now.space source.now.number keys.now.salt.now (page_held found)) }
    ensures fault { IfErr result (IsPageFaultUnder keys.now.header.now keys.now.ring.now log.now source.now.home.now source.now.double.now source.now.space source.now.number keys.now.salt.now) }
{
    let Some(chosen) = chosen_bytes(source.home, source.double, source.space, source.number) else {
        return Err(PageFault::NotChosen);
    };
    let Some(text) = chosen else {
        return Ok(later_page(alloc, log.run(), 0, source.space, source.number, None)?);
    };
    let lsn = be64_at(text, PAGE_LSN_AT);
    if log.end() * (BLOCK_BYTES as u64) < lsn {
        return Err(PageFault::Text(TextFault::BehindTheRun));
    }
    let Some(page) = used_page(alloc, keys, source.space, source.number, text)? else {
        let fault = text_fault(keys, text);
        return Err(PageFault::Text(fault));
    };
    Ok(later_page(
        alloc,
        log.run(),
        lsn,
        source.space,
        source.number,
        Some(page),
    )?)
}

/// What the page 0 of a space recovers to, by the bytes of its home and of the doublewrite file.
///
/// # Errors
/// The [`PageFault`] for which it recovers to nothing; `OutOfMemory` where the machine has no memory.
pub fn recover_head(
    alloc: Global,
    log: &LogText,
    home: &[u8],
    double: &[u8],
    space: u32,
) -> Result<SpaceInfo, PageFault>
    requires home { length home.now ≡ page_bytes }
    requires double { length double.now ≡ slot_count * slot_size }
    ensures ok { IfOk result (λ info. (header : HeldHeader) (keys : List RingEntry) (salt : List ℕ) → IsRecovered header keys log.now home.now double.now space 0 salt (Head info)) }
    ensures fault { IfErr result (λ fault. (header : HeldHeader) (keys : List RingEntry) (salt : List ℕ) → IsPageFaultUnder header keys log.now home.now double.now space 0 salt fault) }
{
    let Some(chosen) = chosen_bytes(home, double, space, 0) else {
        return Err(PageFault::NotChosen);
    };
    let Some(text) = chosen else {
        return Err(PageFault::Text(TextFault::UnusedHead));
    };
    let lsn = be64_at(text, PAGE_LSN_AT);
    if log.end() * (BLOCK_BYTES as u64) < lsn {
        return Err(PageFault::Text(TextFault::BehindTheRun));
    }
    let Some(info) = head_of_text(alloc, space, text)? else {
        return Err(PageFault::Text(TextFault::NotItsText));
    };
    Ok(later_head(log.run(), lsn, space, info))
}
