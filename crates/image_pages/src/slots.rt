// Live slots, and whether they give the same page.
ghost use Rattle.std.specs.Prelude.{◌≡◌, ℕ, List, ◌≤◌, ◌<◌, ◌*◌, length, true, false, IfOk, IfSome, IfNone};
ghost use Rattle.key_ring.specs.Ring.{RingEntry};
ghost use Rattle.store_files.specs.Header.{HeldHeader};
ghost use Rattle.store_files.specs.Pages.{Head, key_id_of, page_held};
ghost use Rattle.image_pages.specs.Recovering.{AgreeBelow, GivesPage, IsLiveIn, IsNewestLsn, SlotDiffers, bound_of};
ghost use Rattle.page_places.specs.Texts.{page_bytes, slot_size};
ghost use Rattle.store_image.specs.View.{slot_count};

use crate::acting::{is_named, later_head, later_page};
use crate::copies::{copy_in, newest_copy, slot_text};
use crate::head::head_of_text;
use crate::plain::used_page;
use crate::source::{PageSource, SpaceKeys};
use crate::texts::is_page_text;
use byte_list::fields::be64_at;
use cause_core::OutOfMemory;
use image_log::{LogText, place};
use page_places::{PAGE_LSN_AT, SLOT_BYTES, SLOTS};
use space_head::SpaceInfo;
use std::alloc::Global;
use store_model::PlainPage;

// Whether a copy of this LSN is above the home, or, where there is none, the newest.
fn is_newest(home: &[u8], double: &[u8], space: u32, number: u32, lsn: u64) -> bool
    requires home { length home.now ≡ page_bytes }
    requires double { length double.now ≡ slot_count * slot_size }
    ensures yes { result ≡ true → IsNewestLsn home.now double.now space number lsn }
    ensures no { result ≡ false → IsNewestLsn home.now double.now space number lsn → ⊥ }
{
    if is_page_text(home, number) {
        return be64_at(home, PAGE_LSN_AT) < lsn;
    }
    match newest_copy(double, space, number) {
        Some(newest) => newest.lsn <= lsn,
        None => true,
    }
}

/// The text in a slot, 0 to 63, where it is a copy of the page that can be read from.
pub fn live_text<'a>(
    home: &[u8],
    double: &'a [u8],
    space: u32,
    number: u32,
    index: usize,
) -> Option<&'a [u8]>
    requires home { length home.now ≡ page_bytes }
    requires double { length double.now ≡ slot_count * slot_size }
    requires index { index < slot_count }
    ensures { IsLiveIn home.now double.now space number index result }
{
    let lsn = copy_in(place(double, SLOT_BYTES, index), space, number)?;
    if !is_newest(home, double, space, number, lsn) {
        return None;
    }
    Some(slot_text(double, index))
}

fn is_same(a: &Option<PlainPage>, b: &Option<PlainPage>) -> bool
    ensures yes { result ≡ true → a.now ≡ b.now }
    ensures no { result ≡ false → a.now ≡ b.now → ⊥ }
{
    match (a, b) {
        (None, None) => true,
        (Some(a), Some(b)) => a.kind == b.kind && a.body.bytes() == b.body.bytes(),
        (_, _) => false,
    }
}

fn same_info(a: &SpaceInfo, b: &SpaceInfo) -> bool
    ensures yes { result ≡ true → a.now ≡ b.now }
    ensures no { result ≡ false → a.now ≡ b.now → ⊥ }
{
    *a == *b
}

// Whether a live text gives this page.
fn text_gives(
    alloc: Global,
    keys: &SpaceKeys,
    log: &LogText,
    space: u32,
    number: u32,
    text: &[u8],
    wanted: &Option<PlainPage>,
) -> Result<bool, OutOfMemory>
    requires long { length text.now ≡ page_bytes }
    requires number { 0 < number }
    requires key_id { keys.now.key_id ≡ key_id_of keys.now.header.now.spaces space }
    ensures { IfOk result (GivesPage keys.now.header.now keys.now.ring.now log.now space number keys.now.salt.now text.now (page_held wanted.now)) }
{
    let lsn = be64_at(text, PAGE_LSN_AT);
    if !is_named(log.run(), space, number, lsn) {
        return Ok(false);
    }
    let Some(page) = used_page(alloc, keys, space, number, text)? else {
        return Ok(false);
    };
    let page = later_page(alloc, log.run(), lsn, space, number, Some(page))?;
    Ok(is_same(&page, wanted))
}

// Whether a live text gives this page 0.
fn text_gives_head(
    alloc: Global,
    log: &LogText,
    space: u32,
    text: &[u8],
    wanted: &SpaceInfo,
) -> Result<bool, OutOfMemory>
    requires { length text.now ≡ page_bytes }
    ensures { IfOk result (λ gives. (header : HeldHeader) (keys : List RingEntry) (salt : List ℕ) → GivesPage header keys log.now space 0 salt text.now (Head wanted.now) gives) }
{
    let lsn = be64_at(text, PAGE_LSN_AT);
    if !is_named(log.run(), space, 0, lsn) {
        return Ok(false);
    }
    let Some(info) = head_of_text(alloc, space, text)? else {
        return Ok(false);
    };
    let info = later_head(log.run(), lsn, space, info);
    Ok(same_info(&info, wanted))
}

/// The first slot that is live for a page from page 1 on, and doesn't give this page.
pub fn other_slot(
    alloc: Global,
    keys: &SpaceKeys,
    log: &LogText,
    source: &PageSource,
    wanted: &Option<PlainPage>,
) -> Result<Option<usize>, OutOfMemory>
    requires home { length source.now.home.now ≡ page_bytes }
    requires double { length source.now.double.now ≡ slot_count * slot_size }
    requires number { 0 < source.now.number }
    requires key_id { keys.now.key_id ≡ key_id_of keys.now.header.now.spaces source.now.space }
    ensures agree { IfOk result (λ found. AgreeBelow keys.now.header.now keys.now.ring.now log.now source.now.home.now source.now.double.now source.now.space source.now.number keys.now.salt.now (page_held wanted.now) (bound_of found)) }
    ensures differs { IfOk result (λ found. IfSome found (SlotDiffers keys.now.header.now keys.now.ring.now log.now source.now.home.now source.now.double.now source.now.space source.now.number keys.now.salt.now (page_held wanted.now))) }
{
    for index in 0..SLOTS {
        if let Some(text) = live_text(
            source.home,
            source.double,
            source.space,
            source.number,
            index,
        ) {
            if !text_gives(alloc, keys, log, source.space, source.number, text, wanted)? {
                return Ok(Some(index));
            }
        }
    }
    Ok(None)
}

/// The first slot that is live for a page 0, and doesn't give this head.
pub fn other_head_slot(
    alloc: Global,
    log: &LogText,
    home: &[u8],
    double: &[u8],
    space: u32,
    wanted: &SpaceInfo,
) -> Result<Option<usize>, OutOfMemory>
    requires home { length home.now ≡ page_bytes }
    requires double { length double.now ≡ slot_count * slot_size }
    ensures agree { IfOk result (λ found. (header : HeldHeader) (keys : List RingEntry) (salt : List ℕ) → AgreeBelow header keys log.now home.now double.now space 0 salt (Head wanted.now) (bound_of found)) }
    ensures differs { IfOk result (λ found. IfSome found (λ index. (header : HeldHeader) (keys : List RingEntry) (salt : List ℕ) → SlotDiffers header keys log.now home.now double.now space 0 salt (Head wanted.now) index)) }
{
    for index in 0..SLOTS {
        if let Some(text) = live_text(home, double, space, 0, index) {
            if !text_gives_head(alloc, log, space, text, wanted)? {
                return Ok(Some(index));
            }
        }
    }
    Ok(None)
}
