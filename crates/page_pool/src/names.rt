// Pages by name, and the order of dirty ones.

ghost use Rattle.std.specs.Prelude.{◌≡◌, ◌<◌, true, false, length, MatchOption};
ghost use Rattle.std.specs.List.{list_any};
ghost use Rattle.redo_text.specs.Changes.{change_of};
ghost use Rattle.page_pool.specs.Changes.{is_dirty_at, page_of_change};
ghost use Rattle.page_pool.specs.Pages.{comes_before, entry_place, is_named, place_of};

use redo_text::ChangeView;

/// A page of a space.
#[derive(Clone, Copy, Debug, PartialEq, Eq, Hash)]
pub struct PageName {
    /// The space's id.
    pub space: u32,
    /// The page's number in its space.
    pub page: u32,
}

/// A page that was changed since it was written.
#[derive(Clone, Copy, Debug, PartialEq, Eq)]
pub struct DirtyPage {
    /// The space's id.
    pub space: u32,
    /// The page's number in its space.
    pub page: u32,
    /// The first log block of the change that made the page dirty.
    pub first: u64,
    /// The LSN of its last change.
    pub lsn: u64,
}

// Whether the dirty page is this one.
pub(crate) fn is_named(name: PageName, dirty: &DirtyPage) -> bool
    ensures { result ≡ is_named name dirty.now }
{
    dirty.space == name.space && dirty.page == name.page
}

// Whether the one comes before the other: by first block, then by space, then by page.
pub(crate) fn comes_before(one: &DirtyPage, other: &DirtyPage) -> bool
    ensures { result ≡ comes_before one.now other.now }
{
    one.first < other.first
        || one.first == other.first
            && (one.space < other.space || one.space == other.space && one.page < other.page)
}

// The place of a page among dirty ones; their number where it isn't there.
fn place_of(name: PageName, dirty: &[DirtyPage]) -> usize
    ensures { result ≡ place_of name dirty.now }
{
    dirty.iter().take_while(|d| !is_named(name, d)).count()
}

// The place of a page that is among dirty ones.
pub(crate) fn entry_of(name: PageName, dirty: &[DirtyPage]) -> Option<usize>
    ensures { MatchOption result (list_any (is_named name) dirty.now ≡ false) (λ i. (i ≡ place_of name dirty.now) × (i < length dirty.now) × (list_any (is_named name) dirty.now ≡ true)) }
{
    let place = place_of(name, dirty);
    if place < dirty.len() {
        Some(place)
    } else {
        None
    }
}

// The place of a page that is dirty at this LSN.
pub(crate) fn entry_at(name: PageName, lsn: u64, dirty: &[DirtyPage]) -> Option<usize>
    ensures { MatchOption result (is_dirty_at name lsn dirty.now ≡ false) (λ i. (i ≡ place_of name dirty.now) × (i < length dirty.now) × (is_dirty_at name lsn dirty.now ≡ true)) }
{
    match entry_of(name, dirty) {
        Some(place) => {
            if dirty[place].lsn == lsn {
                Some(place)
            } else {
                None
            }
        }
        None => None,
    }
}

// The place at which a page has to be entered among dirty ones.
pub(crate) fn entry_place(entry: &DirtyPage, dirty: &[DirtyPage]) -> usize
    ensures { result ≡ entry_place entry.now dirty.now }
{
    dirty.iter().take_while(|d| comes_before(d, entry)).count()
}

// The page that a change names, page 0 for a change of the space itself.
pub(crate) fn name_of(change: &ChangeView) -> PageName
    ensures { result ≡ page_of_change (change_of change.now) }
{
    match *change {
        ChangeView::Put { space, page, .. } => PageName { space, page },
        ChangeView::Kind { space, page, .. } => PageName { space, page },
        ChangeView::Touch { space, page } => PageName { space, page },
        ChangeView::Floor { space, .. } => PageName { space, page: 0 },
        ChangeView::Encrypt { space } => PageName { space, page: 0 },
    }
}
