// Which pages of a sealed batch are still as they were copied.
ghost use Rattle.std.specs.Prelude.{◌≡◌, ℕ, ◌<◌, ◌≤◌, ◌++◌, ◌∷◌, [], All, Option, length};
ghost use Rattle.std.specs.Str.{bytes_eq};
ghost use Rattle.std.specs.Vec.{vec_capacity};
ghost use Rattle.page_batch.specs.Batch.{IsTextOfPage};
ghost use Rattle.page_places.specs.Texts.{page_bytes};
ghost use Rattle.page_pool.specs.Changes.{is_dirty_at};
ghost use Rattle.page_pool.specs.Pages.{plain_page};
ghost use Rattle.page_text.specs.Text.{plain_of};
ghost use Rattle.page_text.specs.declared.key.PageKey.{PageKey};
ghost use Rattle.session_core.specs.Putting.{IsDirtyText, current_pages, is_current, is_same_page, texts_in};

use crate::fetching::copy_held;
use byte_list::fields::be16_at;
use doublewrite::{PageText, PageTexts};
use page_batch::{BatchParts, SealedPage};
use page_places::{PAGE_BODY_AT, PAGE_BYTES, PAGE_TYPE_AT};
use page_pool::{DirtyPage, PageName, Pool};

// How many bytes stand behind the body of a page.
const TRAILER_BYTES: usize = 8;

// The body of a page.
#[tactic(auto, unfolding(page_pool::specs::Pages::plain_page))]
fn body(page: &[u8]) -> &[u8]
    requires { length page.now ≡ page_bytes }
    ensures { result.now ≡ (plain_page page.now).body }
{
    let end = page.len() - TRAILER_BYTES;
    &page[PAGE_BODY_AT..end]
}

#[tactic(auto, unfolding(page_pool::specs::Pages::plain_page))]
fn kind(page: &[u8]) -> u16
    requires { length page.now ≡ page_bytes }
    ensures { result ≡ (plain_page page.now).kind }
{
    be16_at(page, PAGE_TYPE_AT)
}

fn are_equal(a: &[u8], b: &[u8]) -> bool
    ensures { result ≡ bytes_eq a.now b.now }
{
    a == b
}

// Whether two pages have the same type and body.
fn is_same(held: &[u8], copied: &[u8]) -> bool
    requires held { length held.now ≡ page_bytes }
    requires copied { length copied.now ≡ page_bytes }
    ensures { result ≡ is_same_page (plain_page held.now) (plain_of copied.now) }
{
    kind(held) == kind(copied) && are_equal(body(held), body(copied))
}

fn is_dirty_at(entries: &[DirtyPage], name: PageName, lsn: u64) -> bool
    ensures { result ≡ is_dirty_at name lsn entries.now }
{
    for entry in entries {
        if entry.space == name.space && entry.page == name.page {
            return entry.lsn == lsn;
        }
    }
    false
}

// Whether a page is dirty at the LSN of its copy, and holds what was copied.
fn is_current(pool: &mut Pool, space: u32, sealed: &SealedPage) -> bool
    ensures value { result ≡ is_current pool.old space sealed.now.copied }
    ensures pool { pool.new ≡ pool.old }
{
    let _kept = pool.dirty();
    let name = PageName {
        space,
        page: sealed.page(),
    };
    if !is_dirty_at(pool.dirty(), name, sealed.lsn()) {
        return false;
    }
    let mut bytes = [0; PAGE_BYTES];
    let true = copy_held(pool, name, &mut bytes) else {
        unreachable!();
    };
    is_same(&bytes, sealed.bytes())
}

// Adds the text of a page that is as it was copied.
fn keep_text(pool: &mut Pool, space: u32, sealed: SealedPage, texts: &mut Vec<PageText>)
    requires { length texts.old.items < vec_capacity texts.old }
    ensures texts { texts.new.items ≡ texts.old.items ++ texts_in (current_pages pool.old space (sealed ∷ [])) }
    ensures room { vec_capacity texts.old ≤ vec_capacity texts.new }
    ensures due { (version : ℕ) → (key : Option PageKey) → IsTextOfPage space version key sealed → All (IsDirtyText pool.old space version) texts.old.items → All (IsDirtyText pool.old space version) texts.new.items }
    ensures pool { pool.new ≡ pool.old }
{
    let _number = sealed.page();
    if is_current(pool, space, &sealed) {
        let text = sealed.into_text();
        let _bytes = text.bytes();
        let Ok(()) = texts.push(text) else {
            unreachable!();
        };
    }
}

/// The texts of those pages of a sealed batch that are still as they were copied, in order. It takes no
/// memory.
pub(crate) fn current_texts(pool: &mut Pool, space: u32, parts: BatchParts) -> PageTexts
    requires none { parts.texts.items ≡ [] }
    requires room { length parts.pages.items ≤ vec_capacity parts.texts }
    ensures texts { result ≡ texts_in (current_pages pool.old space parts.pages.items) }
    // Each is due: its page is dirty at its LSN, and its home is clean once it reads as the text.
    ensures due { (version : ℕ) → (key : Option PageKey) → All (IsTextOfPage space version key) parts.pages.items → All (IsDirtyText pool.old space version) result }
    ensures pool { pool.new ≡ pool.old }
{
    let BatchParts { pages, mut texts } = parts;
    for sealed in pages {
        keep_text(pool, space, sealed, &mut texts);
    }
    PageTexts::of(texts)
}
