// What the mini-transactions of a run do to a page.
ghost use Rattle.std.specs.Prelude.{◌≡◌, ◌≤◌, ◌<◌, true, false, None, Some, IfOk};
ghost use Rattle.redo_text.specs.declared.change.Change.{Change};
ghost use Rattle.store_model.specs.Fold.{used, written};
ghost use Rattle.store_files.specs.Pages.{Head, Used, change_names, mtr_acts, mtr_names, page_after, page_held};
ghost use Rattle.store_image.specs.Recovers.{later_by, IsNamedBy};

use byte_list::{copy_with, zero_bytes};
use cause_core::OutOfMemory;
use image_log::LogEntry;
use redo_text::{Change, Mtr, Piece};
use space_head::SpaceInfo;
use std::alloc::Global;
use store_model::{BODY_BYTES, BODY_PLACE, PlainPage};

// Whether a change names this page; a change of a space itself names page 0.
fn change_names(change: &Change, space: u32, number: u32) -> bool
    ensures { result ≡ change_names change.now space number }
{
    match change {
        Change::Put { space: s, page, .. } => *s == space && *page == number,
        Change::Kind { space: s, page, .. } => *s == space && *page == number,
        Change::Touch { space: s, page } => *s == space && *page == number,
        Change::Floor { space: s, .. } => *s == space && number == 0,
        Change::Encrypt { space: s } => *s == space && number == 0,
    }
}

// Whether a mini-transaction names this page.
fn mtr_names(mtr: &Mtr, space: u32, number: u32) -> bool
    ensures { result ≡ mtr_names mtr.now space number }
{
    for change in mtr.changes() {
        if change_names(change, space, number) {
            return true;
        }
    }
    false
}

// Whether the mini-transaction of this LSN is in the run, and names the page.
pub(crate) fn is_named(run: &[LogEntry], space: u32, number: u32, lsn: u64) -> bool
    ensures yes { result ≡ true → IsNamedBy mtr_names run.now space number lsn }
    ensures no { result ≡ false → IsNamedBy mtr_names run.now space number lsn → ⊥ }
{
    for entry in run {
        if entry.lsn() == lsn && mtr_names(entry.mtr(), space, number) {
            return true;
        }
    }
    false
}

// ---- page 0

// The head of a space after a change that names page 0.
fn head_after(change: &Change, info: SpaceInfo) -> SpaceInfo
    ensures { Head result ≡ page_after change.now (Head info) }
{
    let mut info = info;
    match change {
        Change::Put { .. } => {}
        Change::Kind { .. } => {}
        Change::Touch { .. } => {}
        Change::Floor { space: _, version } => info.floor = *version,
        Change::Encrypt { .. } => info.ciphered = true,
    }
    info
}

fn head_after_mtr(mtr: &Mtr, space: u32, info: SpaceInfo) -> SpaceInfo
    ensures { Head result ≡ mtr_acts mtr.now space 0 (Head info) }
{
    let mut info = info;
    for change in mtr.changes() {
        if change_names(change, space, 0) {
            info = head_after(change, info);
        }
    }
    info
}

// The head of a space with the changes of the run above this LSN.
pub(crate) fn later_head(run: &[LogEntry], lsn: u64, space: u32, info: SpaceInfo) -> SpaceInfo
    ensures { Head result ≡ later_by mtr_acts lsn run.now space 0 (Head info) }
{
    let mut info = info;
    for entry in run {
        if lsn < entry.lsn() {
            info = head_after_mtr(entry.mtr(), space, info);
        }
    }
    info
}

// ---- pages from page 1 on

fn used(alloc: Global, page: Option<PlainPage>) -> Result<PlainPage, OutOfMemory>
    ensures { IfOk result (λ p. p ≡ used page) }
{
    match page {
        Some(page) => Ok(page),
        None => Ok(PlainPage {
            kind: 0,
            body: Piece::of(zero_bytes(alloc, BODY_BYTES)?),
        }),
    }
}

// The body with these bytes written over it.
fn written(alloc: Global, at: u32, bytes: &[u8], body: &[u8]) -> Result<Piece, OutOfMemory>
    ensures { IfOk result (λ p. p ≡ written at bytes.now body.now) }
{
    let at = at.saturating_sub(BODY_PLACE) as usize;
    Ok(Piece::of(copy_with(alloc, body, at, bytes)?))
}

// The page after a change that names it.
fn page_after(
    alloc: Global,
    change: &Change,
    page: Option<PlainPage>,
) -> Result<PlainPage, OutOfMemory>
    ensures { IfOk result (λ new. Used new ≡ page_after change.now (page_held page)) }
{
    let found = used(alloc, page)?;
    match change {
        Change::Put {
            space: _,
            page: _,
            at,
            bytes,
        } => Ok(PlainPage {
            kind: found.kind,
            body: written(alloc, *at, bytes.bytes(), found.body.bytes())?,
        }),
        Change::Kind {
            space: _,
            page: _,
            kind,
        } => Ok(PlainPage {
            kind: *kind,
            body: found.body,
        }),
        Change::Touch { .. } => Ok(found),
        Change::Floor { .. } => Ok(found),
        Change::Encrypt { .. } => Ok(found),
    }
}

fn page_after_mtr(
    alloc: Global,
    mtr: &Mtr,
    space: u32,
    number: u32,
    page: Option<PlainPage>,
) -> Result<Option<PlainPage>, OutOfMemory>
    ensures { IfOk result (λ new. page_held new ≡ mtr_acts mtr.now space number (page_held page)) }
{
    let mut page = page;
    for change in mtr.changes() {
        if change_names(change, space, number) {
            page = Some(page_after(alloc, change, page)?);
        }
    }
    Ok(page)
}

// The page with the changes of the run above this LSN.
pub(crate) fn later_page(
    alloc: Global,
    run: &[LogEntry],
    lsn: u64,
    space: u32,
    number: u32,
    page: Option<PlainPage>,
) -> Result<Option<PlainPage>, OutOfMemory>
    ensures { IfOk result (λ new. page_held new ≡ later_by mtr_acts lsn run.now space number (page_held page)) }
{
    let mut page = page;
    for entry in run {
        if lsn < entry.lsn() {
            page = page_after_mtr(alloc, entry.mtr(), space, number, page)?;
        }
    }
    Ok(page)
}
