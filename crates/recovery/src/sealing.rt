// The pages of a range are sealed from a pool.
ghost use Rattle.std.specs.Prelude.{◌≡◌, ◌≢◌, ◌↔◌, ◌≤◌, ◌<◌, ◌^◌, true, [], length, slice_index_or, IsSome, IfOk};
ghost use Rattle.byte_list.specs.Fields.{be16_at};
ghost use Rattle.page_places.specs.Texts.{page_bytes};
ghost use Rattle.page_pool.specs.Pages.{held_page, is_dirty};
ghost use Rattle.page_text.specs.Text.{FitsPage, IsText, plain_of};
ghost use Rattle.store_model.specs.Fold.{used};
ghost use Rattle.recovery.specs.Loading.{AreDirty, name_in};
ghost use Rattle.recovery.specs.Rounds.{has_later};
ghost use Rattle.recovery.specs.Sealing.{AreTextsIn, plain_text, key_under, version_under};

use crate::notes::SpaceNotes;
use crate::rounds::{Round, has_later};
use cause_core::OutOfMemory;
use doublewrite::{PageText, PageTexts};
use page_pool::Pool;
use page_text::{PageKey, PageMut, Seal, seal};
use std::alloc::Global;

/// What the pages of a space are sealed under, but for page 0.
#[derive(Clone, Copy, PartialEq, Eq)]
pub struct SealKey {
    /// The version of the key, 0 in clear.
    pub version: u32,
    /// The key of that version, which is there exactly where the version isn't 0.
    pub key: Option<PageKey>,
}

// Writes the text of a page over its bytes.
fn write_text(bytes: &mut [u8], plan: &Seal)
    requires long { length bytes.old ≡ page_bytes }
    requires keyed { IsSome plan.now.local ↔ (plan.now.version ≢ 0) }
    requires fits { FitsPage plan.now.page (be16_at bytes.old 24) plan.now.version }
    ensures text { IsText page_bytes plan.now.space plan.now.page plan.now.lsn plan.now.version plan.now.local (plain_of bytes.old) bytes.new }
    ensures long { length bytes.new ≡ page_bytes }
{
    let mut text = PageMut::of(bytes);
    seal(&mut text, plan);
}

fn known_number(page: u32)
    ensures { page < 2 ^ 32 }
{
    let _ = page;
}

// The text of a page of these bytes.
fn seal_bytes(alloc: Global, plain: &[u8], plan: &Seal) -> Result<PageText, OutOfMemory>
    requires long { length plain.now ≡ page_bytes }
    requires keyed { IsSome plan.now.local ↔ (plan.now.version ≢ 0) }
    requires fits { FitsPage plan.now.page (be16_at plain.now 24) plan.now.version }
    ensures { IfOk result (λ text. IsText page_bytes plan.now.space plan.now.page plan.now.lsn plan.now.version plan.now.local (plain_of plain.now) text) }
{
    let mut bytes = plain.to_vec(alloc)?;
    known_number(plan.page);
    write_text(bytes.as_mut_slice(), plan);
    let Some(text) = PageText::of(bytes) else {
        unreachable!();
    };
    Ok(text)
}

// The text of a dirty page.
fn seal_held(alloc: Global, pool: &mut Pool, plan: &Seal) -> Result<PageText, OutOfMemory>
    requires keyed { IsSome plan.now.local ↔ (plan.now.version ≢ 0) }
    requires dirty { is_dirty (name_in plan.now.space plan.now.page) pool.old.dirty ≡ true }
    requires alone { pool.old.clean ≡ [] }
    requires fits { FitsPage plan.now.page (used (held_page (name_in plan.now.space plan.now.page) pool.old)).kind plan.now.version }
    ensures text { IfOk result (λ text. IsText page_bytes plan.now.space plan.now.page plan.now.lsn plan.now.version plan.now.local (plain_text (used (held_page (name_in plan.now.space plan.now.page) pool.old))) text) }
    ensures small { plan.now.page < 2 ^ 32 }
    ensures same { pool.new ≡ pool.old }
{
    known_number(plan.page);
    match pool.find(plan.space, plan.page) {
        Some(plain) => seal_bytes(alloc, plain, plan),
        None => unreachable!(),
    }
}

// What a page is sealed with: page 0 in clear.
fn plan_of(space: u32, page: u32, lsn: u64, under: &SealKey) -> Seal
    requires { IsSome under.now.key ↔ (under.now.version ≢ 0) }
    ensures value { result ≡ record { space = space; page = page; lsn = lsn; version = version_under page under.now.version; local = key_under page under.now.key } }
    ensures keyed { IsSome result.local ↔ (result.version ≢ 0) }
{
    let (version, local) = if page == 0 {
        (0, None)
    } else {
        (under.version, under.key)
    };
    Seal {
        space,
        page,
        lsn,
        version,
        local,
    }
}

/// The texts of those pages of a range that have later changes, each with the LSN of its last change,
/// under a version and its key, page 0 in clear.
pub fn seal_range(
    alloc: Global,
    pool: &mut Pool,
    range: &Round,
    notes: &SpaceNotes,
    last: &[u64],
    under: &SealKey,
) -> Result<PageTexts, OutOfMemory>
    requires keyed { IsSome under.now.key ↔ (under.now.version ≢ 0) }
    requires noted { range.now.end ≤ length notes.now }
    requires listed { range.now.end ≤ length last.now }
    requires order { range.now.from ≤ range.now.end }
    requires alone { pool.old.clean ≡ [] }
    requires pages { AreDirty (has_later notes.now last.now) range.now.info.space range.now.from range.now.end pool.old }
    ensures texts { IfOk result (λ texts. AreTextsIn (has_later notes.now last.now) range.now.info.space last.now under.now.version under.now.key pool.old range.now.from range.now.end texts) }
    ensures same { pool.new ≡ pool.old }
{
    let mut texts = Vec::new(alloc);
    for page in range.from..range.end {
        if has_later(notes, last, page) {
            let plan = plan_of(range.info.space, page, last[page as usize], under);
            texts.push(seal_held(alloc, pool, &plan)?)?;
        }
    }
    Ok(PageTexts::of(texts))
}
