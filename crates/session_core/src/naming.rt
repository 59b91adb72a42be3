// The pages that changes name.
ghost use Rattle.std.specs.Prelude.{◌≡◌};
ghost use Rattle.page_pool.specs.Changes.{fresh_pages, name_page, page_of_change};
ghost use Rattle.page_pool.specs.Pages.{is_dirty, is_name};

use page_pool::{PageName, Pool};
use redo_text::Change;

/// The page that a change names, page 0 for a change of the space itself.
pub(crate) fn name_of(change: &Change) -> PageName
    ensures { result ≡ page_of_change change.now }
{
    match change {
        Change::Put {
            space,
            page,
            at: _,
            bytes: _,
        } => PageName {
            space: *space,
            page: *page,
        },
        Change::Kind {
            space,
            page,
            kind: _,
        } => PageName {
            space: *space,
            page: *page,
        },
        Change::Touch { space, page } => PageName {
            space: *space,
            page: *page,
        },
        Change::Floor { space, version: _ } => PageName {
            space: *space,
            page: 0,
        },
        Change::Encrypt { space } => PageName {
            space: *space,
            page: 0,
        },
    }
}

fn is_name(one: PageName, other: PageName) -> bool
    ensures { result ≡ is_name one other }
{
    one.space == other.space && one.page == other.page
}

// Whether one of the changes names a page.
fn name_page(changes: &[Change], name: PageName) -> bool
    ensures { result ≡ name_page changes.now name }
{
    for change in changes {
        if is_name(name, name_of(change)) {
            return true;
        }
    }
    false
}

fn is_dirty(pool: &Pool, name: PageName) -> bool
    ensures { result ≡ is_dirty name pool.now.dirty }
{
    pool.dirty().iter().any(|dirty| dirty.space == name.space && dirty.page == name.page)
}

/// How many pages are named that aren't dirty.
pub(crate) fn count_fresh(pool: &Pool, changes: &[Change]) -> usize
    ensures { result ≡ fresh_pages changes.now pool.now.dirty }
{
    let mut fresh = 0;
    for i in 0..changes.len() {
        let name = name_of(&changes[i]);
        if !is_dirty(pool, name) && !name_page(&changes[i + 1..], name) {
            fresh += 1;
        }
    }
    fresh
}
