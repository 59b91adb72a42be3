// Dirty pages are copied for a batch.
ghost use Rattle.std.specs.Prelude.{◌≡◌, ◌<◌, ◌++◌, ◌∷◌, [], true, length, map, take, OnErr, OnOk};
ghost use Rattle.page_batch.specs.Batch.{HasPageType};
ghost use Rattle.page_pool.specs.Pages.{IsPool, is_dirty, name_of_dirty};
ghost use Rattle.session_core.specs.Dirty.{AreTyped};
ghost use Rattle.session_core.specs.Taking.{copied_of, dirty_of, with_copy};

use crate::fetching::copy_held;
use cause_core::OutOfMemory;
use page_batch::PageBatch;
use page_places::PAGE_BYTES;
use page_pool::{DirtyPage, PageName, Pool};

// Adds a copy of a dirty page.
fn copy_one(pool: &mut Pool, batch: &mut PageBatch, entry: DirtyPage) -> Result<(), OutOfMemory>
    requires typed { AreTyped pool.old }
    requires dirty { is_dirty (name_of_dirty entry) pool.old.dirty ≡ true }
    requires room { length batch.old.pages < batch.old.room }
    ensures added { OnOk result (batch.new ≡ record batch.old { pages = batch.old.pages ++ copied_of pool.old entry ∷ [] }) }
    ensures unchanged { OnErr result (batch.new ≡ batch.old) }
    ensures pool { pool.new ≡ pool.old }
{
    let _kept = pool.dirty();
    let name = PageName {
        space: entry.space,
        page: entry.page,
    };
    let mut bytes = [0; PAGE_BYTES];
    let true = copy_held(pool, name, &mut bytes) else {
        unreachable!();
    };
    batch.push(entry.page, entry.lsn, &bytes)
}

// Adds a copy of a dirty page, where it is one of the batch's space and there is room.
fn copy_next(
    pool: &mut Pool,
    batch: &mut PageBatch,
    entry: DirtyPage,
    room: usize,
) -> Result<(), OutOfMemory>
    requires typed { AreTyped pool.old }
    requires dirty { is_dirty (name_of_dirty entry) pool.old.dirty ≡ true }
    requires room { room ≡ batch.old.room }
    ensures added { OnOk result (batch.new ≡ with_copy pool.old entry batch.old) }
    ensures pool { pool.new ≡ pool.old }
{
    if entry.space != batch.space() {
        return Ok(());
    }
    if room <= batch.len() {
        return Ok(());
    }
    copy_one(pool, batch, entry)
}

/// Adds copies of the dirty pages of a batch's space, in their order, as many as it has room for.
pub(crate) fn copy_dirty(
    pool: &mut Pool,
    batch: &mut PageBatch,
    room: usize,
) -> Result<(), OutOfMemory>
    requires typed { AreTyped pool.old }
    requires none { batch.old.pages ≡ [] }
    requires room { room ≡ batch.old.room }
    ensures copied { OnOk result (batch.new ≡ record batch.old { pages = map (copied_of pool.old) (take batch.old.room (dirty_of batch.old.space pool.old.dirty.entries)) }) }
    ensures pool { pool.new ≡ pool.old }
{
    for i in 0..pool.dirty().len() {
        let entry = pool.dirty()[i];
        copy_next(pool, batch, entry, room)?;
    }
    Ok(())
}
