// The dirty pages of a pool, in the order in which they are listed.

ghost use Rattle.std.specs.Prelude.{◌≡◌, ◌<◌, ◌≤◌, true, false, length, slice_get, slice_set, slice_index_or, MatchOption, Some, IfOk, []};
ghost use Rattle.redo_text.specs.Changes.{change_of};
ghost use Rattle.redo_text.specs.Text.{IsAllowed};
ghost use Rattle.page_places.specs.Texts.{page_bytes};
ghost use Rattle.page_pool.specs.Changes.{changed_again};
ghost use Rattle.page_pool.specs.Pages.{IsDirtyList, entered, is_dirty, name_of_dirty, place_of, plain_page, without};

use crate::frame::Frame;
use crate::names::{DirtyPage, PageName, entry_of, entry_place};
use cause_core::OutOfMemory;
use redo_text::ChangeView;
use std::alloc::Global;
use std::marker::Model;

/// How many pages may be dirty.
pub const MOST_DIRTY: usize = 256;

// The dirty pages, in ascending order of first block, space and page. Room for all that there may
// be is taken once, so that entering a page and taking one out take no memory.
#[derive(Drop)]
pub(crate) struct DirtyPages {
    entries: Vec<DirtyPage>,
    // The i-th is what the i-th entry holds.
    frames: Vec<Frame>,
}

impl Model for DirtyPages {
    ghost use Rattle.std.specs.Prelude.{◌≤◌};
    ghost use Rattle.std.specs.Vec.{vec_capacity};
    ghost use Rattle.page_pool.specs.Pages.{DirtyList, IsDirtyList};

    ghost Value = { DirtyList };

    ghost view = { λ d. record { entries = d.entries.items; pages = d.frames.items } };

    ghost invariant = { λ d. IsDirtyList (record { entries = d.entries.items; pages = d.frames.items }) × (256 ≤ vec_capacity d.entries) × (256 ≤ vec_capacity d.frames) };
}

impl DirtyPages {
    pub(crate) fn new(alloc: Global) -> Result<DirtyPages, OutOfMemory>
        ensures { IfOk result (λ d. d ≡ record { entries = []; pages = [] }) }
    {
        let entries = Vec::with_capacity(alloc, MOST_DIRTY)?;
        let frames = Vec::with_capacity(alloc, MOST_DIRTY)?;
        Ok(DirtyPages { entries, frames })
    }

    pub(crate) fn entries(&self) -> &[DirtyPage]
        ensures entries { result.now ≡ self.now.entries }
        ensures kept { IsDirtyList self.now }
    {
        &self.entries
    }

    // The place of a page.
    pub(crate) fn place(&self, name: PageName) -> Option<usize>
        ensures kept { IsDirtyList self.now }
        ensures place { MatchOption result (is_dirty name self.now ≡ false) (λ i. (i ≡ place_of name self.now.entries) × (i < length self.now.entries) × (is_dirty name self.now ≡ true)) }
    {
        entry_of(name, &self.entries)
    }

    // The bytes of the page at a place.
    pub(crate) fn page(&self, i: usize) -> &[u8]
        requires { i < length self.now.entries }
        ensures page { slice_get self.now.pages i ≡ Some (plain_page result.now) }
        ensures whole { length result.now ≡ page_bytes }
    {
        self.frames[i].bytes()
    }

    // Makes a change of the page at its place.
    pub(crate) fn change(&mut self, i: usize, lsn: u64, name: PageName, change: &ChangeView)
        requires place { (i ≡ place_of name self.old.entries) × (i < length self.old.entries) }
        requires allowed { IsAllowed (change_of change.now) }
        ensures { self.new ≡ changed_again name lsn (change_of change.now) self.old }
    {
        self.entries[i].lsn = lsn;
        self.frames[i].change(change);
    }

    // Enters a page that isn't dirty at its place in the order.
    pub(crate) fn enter(&mut self, entry: DirtyPage, frame: Frame)
        requires room { length self.old.entries < 256 }
        requires clean { is_dirty (name_of_dirty entry) self.old ≡ false }
        ensures { self.new ≡ entered entry frame self.old }
    {
        let place = entry_place(&entry, &self.entries);
        self.entries.insert(place, entry).unwrap();
        self.frames.insert(place, frame).unwrap();
    }

    // Takes out the page at a place.
    pub(crate) fn remove(&mut self, i: usize) -> Frame
        requires { i < length self.old.entries }
        ensures page { slice_get self.old.pages i ≡ Some result }
        ensures rest { self.new ≡ without i self.old }
    {
        self.entries.remove(i);
        self.frames.remove(i)
    }
}
