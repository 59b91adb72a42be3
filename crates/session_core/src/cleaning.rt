// What is left behind the texts of a batch that were written: their pages are clean, in memory and at home.
ghost use Rattle.std.specs.Prelude.{◌≡◌, ◌≤◌, ◌^◌, true, false, Some, All};
ghost use Rattle.page_batch.specs.Batch.{sealed_version};
ghost use Rattle.page_pool.specs.Pages.{held_page, is_dirty};
ghost use Rattle.page_pool.specs.declared.names.PageName.{PageName};
ghost use Rattle.redo_log.specs.Log.{durable};
ghost use Rattle.redo_log.specs.State.{LogState};
ghost use Rattle.session_core.specs.Dirty.{AreMarked, AreTyped, HasPendingPage, IsInRun};
ghost use Rattle.session_core.specs.Putting.{AreOfDirty, NameWithin, cleaned_all, homes_after_put, lsn_of, need_log};
ghost use Rattle.session_core.specs.Spaces.{space_with_id};
ghost use Rattle.space_head.specs.declared.space.Home.TheVariants.{Clean};
ghost use Rattle.space_head.specs.declared.space.SpaceInfo.{SpaceInfo};
ghost use Rattle.store_model.specs.declared.contents.PlainPage.{PlainPage};

use crate::tablespaces::Tablespaces;
use byte_list::fields::be64_at;
use doublewrite::{PageText, PageTexts};
use page_places::PAGE_LSN_AT;
use page_pool::Pool;
use space_head::Home;

// How many bytes a block of the log has.
const BLOCK_BYTES: u64 = 4096;

// The LSN of the last change of a text's page.
fn lsn_of(text: &PageText) -> u64
    ensures { result ≡ lsn_of text.now }
{
    be64_at(text.bytes(), PAGE_LSN_AT)
}

/// Whether one of the texts has changes of blocks of the log from this one on.
pub(crate) fn need_log(texts: &PageTexts, number: u64) -> bool
    requires { number ≤ 2 ^ 50 }
    ensures { result ≡ need_log number texts.now }
{
    for i in 0..texts.len() {
        if number * BLOCK_BYTES < lsn_of(texts.get(i)) {
            return true;
        }
    }
    false
}

/// Marks the page of each text clean, where it is dirty at the text's LSN. It takes no memory.
pub(crate) fn clean_pages(pool: &mut Pool, space: u32, texts: &PageTexts)
    ensures cleaned { pool.new ≡ cleaned_all space texts.now pool.old }
    // What is held of a page was held of it, and each dirty page was dirty.
    ensures held { (name : PageName) → (page : PlainPage) → held_page name pool.new ≡ Some page → held_page name pool.old ≡ Some page }
    ensures dirty { (name : PageName) → is_dirty name pool.new.dirty ≡ true → is_dirty name pool.old.dirty ≡ true }
    ensures within { (log : LogState) → All (IsInRun log) pool.old.dirty.entries → All (IsInRun log) pool.new.dirty.entries }
{
    for i in 0..texts.len() {
        let _kept = pool.dirty();
        let text = texts.get(i);
        pool.clean(space, text.number(), lsn_of(text));
    }
}

// What is known of the home of a page that was written under a version: page 0 is in clear.
fn written_home(page: u32, version: u32) -> Home
    ensures { result ≡ Clean (sealed_version page version) }
{
    if page == 0 {
        Home::Clean(0)
    } else {
        Home::Clean(version)
    }
}

/// Notes of the page of each text that its home is clean, under this version.
pub(crate) fn set_homes(store: &mut Tablespaces, space: u32, version: u32, texts: &PageTexts)
    requires { (info : SpaceInfo) × (space_with_id store.old.spaces space ≡ Some info) × NameWithin texts.now info.pages }
    ensures { store.new ≡ homes_after_put space version texts.now store.old }
{
    for i in 0..texts.len() {
        let page = texts.get(i).number();
        store.set_home(space, page, written_home(page, version));
    }
}

/// Notes that the texts were written to their homes: their pages are clean, in memory and in what is known
/// of homes. It takes no memory.
pub(crate) fn note_written(
    pool: &mut Pool,
    store: &mut Tablespaces,
    space: u32,
    version: u32,
    texts: &PageTexts,
)
    requires within { (info : SpaceInfo) × (space_with_id store.old.spaces space ≡ Some info) × NameWithin texts.now info.pages }
    requires dirty { AreOfDirty space texts.now pool.old.dirty.entries }
    requires marks { AreMarked store.old pool.old.dirty }
    ensures cleaned { pool.new ≡ cleaned_all space texts.now pool.old }
    ensures homes { store.new ≡ homes_after_put space version texts.now store.old }
    ensures marks { AreMarked store.new pool.new.dirty }
    ensures typed { AreTyped pool.old → AreTyped pool.new }
    ensures held { (name : PageName) → (page : PlainPage) → held_page name pool.new ≡ Some page → held_page name pool.old ≡ Some page }
    ensures within { (log : LogState) → All (IsInRun log) pool.old.dirty.entries → All (IsInRun log) pool.new.dirty.entries }
    // Where no text has changes of blocks that aren't durable, a page that needs them is dirty still.
    ensures pending { (log : LogState) → need_log (durable log) texts.now ≡ false → HasPendingPage log pool.old.dirty.entries → HasPendingPage log pool.new.dirty.entries }
{
    let _listed = pool.dirty();
    let _spaces = store.spaces();
    clean_pages(pool, space, texts);
    set_homes(store, space, version, texts);
}
