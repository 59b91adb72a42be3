// Changes of pages, made whole or not at all.

ghost use Rattle.std.specs.Prelude.{◌≡◌, ◌+◌, ◌<◌, ◌∷◌, [], None, length, replicate, IfOk, IfErr, OnOk, OnErr};
ghost use Rattle.redo_text.specs.Changes.{change_of};
ghost use Rattle.redo_text.specs.Text.{AreAllowed, IsAllowed};
ghost use Rattle.page_pool.specs.declared.names.PageName.{PageName};
ghost use Rattle.page_pool.specs.Changes.{HasNamed, HasPoolRoom, IsFull, IsPoolRefusal, held_after, fresh_pages, name_page, page_of_change, pool_after, pool_changed, unused_pages};
ghost use Rattle.page_pool.specs.Contents.{FoldsPages};
ghost use Rattle.page_pool.specs.Pages.{IsDirtyList, held_page, is_dirty, is_held};
ghost use Rattle.store_model.specs.Fold.{used};

use crate::dirty::MOST_DIRTY;
use crate::fault::PoolFault;
use crate::frame::Frame;
use crate::names::{DirtyPage, PageName, name_of};
use crate::pool::Pool;
use cause_core::OutOfMemory;
use redo_text::{Change, ChangeView, Mtr};
use std::alloc::Global;

// The change with its bytes lent.
fn lent(change: &Change) -> ChangeView<'_>
    ensures { change_of result ≡ change.now }
{
    match change {
        Change::Put {
            space,
            page,
            at,
            bytes,
        } => ChangeView::Put {
            space: *space,
            page: *page,
            at: *at,
            bytes: bytes.bytes(),
        },
        Change::Kind { space, page, kind } => ChangeView::Kind {
            space: *space,
            page: *page,
            kind: *kind,
        },
        Change::Touch { space, page } => ChangeView::Touch {
            space: *space,
            page: *page,
        },
        Change::Floor { space, version } => ChangeView::Floor {
            space: *space,
            version: *version,
        },
        Change::Encrypt { space } => ChangeView::Encrypt { space: *space },
    }
}

// Whether one of the changes names a page.
fn name_page(changes: &[Change], name: PageName) -> bool
    ensures { result ≡ name_page changes.now name }
{
    for change in changes {
        if name == name_of(&lent(change)) {
            return true;
        }
    }
    false
}

fn zero_frames(alloc: Global, n: usize) -> Result<Vec<Frame>, OutOfMemory>
    ensures zero { IfOk result (λ frames. frames.items ≡ replicate n (used None)) }
    ensures refused { OnErr result (0 < n) }
{
    let mut frames = Vec::new(alloc);
    for _i in 0..n {
        frames.push(Frame::unused(alloc)?)?;
    }
    Ok(frames)
}

impl Pool {
    /// Makes the changes of a mini-transaction that the log has under this LSN from the block
    /// `first` on. A page that was clean or isn't held, as one that was never written, is dirty
    /// from then on, since `first`; one that was dirty keeps its first block. Each page named has
    /// this LSN. Page 0 of a space that is given a floor or made a ciphered one has to be held.
    ///
    /// # Errors
    /// [`PoolFault::Full`] exactly where the dirty pages and the pages named that aren't dirty are
    /// more than 256, then [`PoolFault::OutOfMemory`], only where a page is named that isn't held.
    /// The pool is as it was after both.
    pub fn change(&mut self, mtr: &Mtr, lsn: u64, first: u64) -> Result<(), PoolFault>
        requires { AreAllowed mtr.now }
        ensures changed { OnOk result (self.new ≡ pool_after lsn first mtr.now self.old) }
        // Of each page: the changes that name it are made, in order.
        ensures holds { OnOk result ((name : PageName) → held_page name self.new ≡ held_after mtr.now name (held_page name self.old)) }
        // That is what the fold of a journal does to the page, page 0 with the head of its space too.
        ensures folded { OnOk result (FoldsPages mtr.now self.old self.new) }
        ensures accepted { OnOk result (length self.old.dirty.entries + fresh_pages mtr.now self.old.dirty < 257) }
        // The conditions exclude one another, so each answer comes exactly where its own holds.
        ensures refused { IfErr result (IsPoolRefusal mtr.now self.old) }
        ensures unchanged { OnErr result (self.new ≡ self.old) }
    {
        let changes = mtr.changes();
        self.check_room(self.count_fresh(changes))?;
        let mut spare = zero_frames(self.alloc, self.count_unused(changes))?;
        self.change_all(changes, lsn, first, &mut spare);
        Ok(())
    }

    /// Does what [`Pool::change`] does for a mini-transaction of this one change, whose bytes are
    /// not copied before.
    ///
    /// # Errors
    /// Those of [`Pool::change`].
    pub fn apply(&mut self, change: &ChangeView, lsn: u64, first: u64) -> Result<(), PoolFault>
        requires { IsAllowed (change_of change.now) }
        ensures changed { OnOk result (self.new ≡ pool_after lsn first (change_of change.now ∷ []) self.old) }
        ensures holds { OnOk result ((name : PageName) → held_page name self.new ≡ held_after (change_of change.now ∷ []) name (held_page name self.old)) }
        ensures folded { OnOk result (FoldsPages (change_of change.now ∷ []) self.old self.new) }
        ensures accepted { OnOk result (length self.old.dirty.entries + fresh_pages (change_of change.now ∷ []) self.old.dirty < 257) }
        ensures refused { IfErr result (IsPoolRefusal (change_of change.now ∷ []) self.old) }
        ensures unchanged { OnErr result (self.new ≡ self.old) }
    {
        let name = name_of(change);
        let fresh = usize::from(!self.is_dirty(name));
        let unused = usize::from(!self.is_held(name));
        self.check_room(fresh)?;
        let mut spare = zero_frames(self.alloc, unused)?;
        self.change_page(change, lsn, first, &mut spare);
        Ok(())
    }

    // Whether so many pages more may be dirty.
    fn check_room(&self, fresh: usize) -> Result<(), PoolFault>
        ensures room { OnOk result (length self.now.dirty.entries + fresh < 257) }
        ensures full { IfErr result (IsFull fresh self.now.dirty) }
        ensures kept { IsDirtyList self.now.dirty }
    {
        let dirty = self.dirty.entries().len();
        if MOST_DIRTY - dirty < fresh {
            return Err(PoolFault::Full { dirty, fresh });
        }
        Ok(())
    }

    fn is_dirty(&self, name: PageName) -> bool
        ensures { result ≡ is_dirty name self.now.dirty }
    {
        self.dirty.place(name).is_some()
    }

    fn is_held(&self, name: PageName) -> bool
        ensures { result ≡ is_held name self.now }
    {
        self.is_dirty(name) || self.clean.has(name)
    }

    // How many pages are named that aren't dirty.
    fn count_fresh(&self, changes: &[Change]) -> usize
        ensures { result ≡ fresh_pages changes.now self.now.dirty }
    {
        let mut fresh = 0;
        for i in 0..changes.len() {
            let name = name_of(&lent(&changes[i]));
            if !self.is_dirty(name) && !name_page(&changes[i + 1..], name) {
                fresh += 1;
            }
        }
        fresh
    }

    // How many pages are named that aren't held.
    fn count_unused(&self, changes: &[Change]) -> usize
        ensures { result ≡ unused_pages changes.now self.now }
    {
        let mut unused = 0;
        for i in 0..changes.len() {
            let name = name_of(&lent(&changes[i]));
            if !self.is_held(name) && !name_page(&changes[i + 1..], name) {
                unused += 1;
            }
        }
        unused
    }

    // Makes changes for which there is room.
    fn change_all(&mut self, changes: &[Change], lsn: u64, first: u64, spare: &mut Vec<Frame>)
        requires allowed { AreAllowed changes.now }
        requires room { HasPoolRoom changes.now self.old (length spare.old.items) }
        requires zero { spare.old.items ≡ replicate (length spare.old.items) (used None) }
        ensures { self.new ≡ pool_after lsn first changes.now self.old }
    {
        for change in changes {
            self.change_page(&lent(change), lsn, first, spare);
        }
    }

    // Makes a change. A page that isn't held takes a spare frame of zero bytes.
    fn change_page(&mut self, change: &ChangeView, lsn: u64, first: u64, spare: &mut Vec<Frame>)
        requires allowed { IsAllowed (change_of change.now) }
        requires room { HasPoolRoom (change_of change.now ∷ []) self.old (length spare.old.items) }
        requires zero { spare.old.items ≡ replicate (length spare.old.items) (used None) }
        ensures changed { self.new ≡ pool_changed lsn first (change_of change.now) self.old }
        ensures zero { spare.new.items ≡ replicate (length spare.new.items) (used None) }
        ensures left { length spare.new.items + unused_pages (change_of change.now ∷ []) self.old ≡ length spare.old.items }
        ensures names { HasNamed (page_of_change (change_of change.now)) self.old self.new }
    {
        let name = name_of(change);
        if let Some(place) = self.dirty.place(name) {
            self.dirty.change(place, lsn, name, change);
            return;
        }
        // No name stands twice among the clean pages.
        self.clean.kept();
        let mut frame = match self.clean.take(name) {
            Some(frame) => frame,
            None => spare.pop().unwrap(),
        };
        frame.change(change);
        let entry = DirtyPage {
            space: name.space,
            page: name.page,
            first,
            lsn,
        };
        self.dirty.enter(entry, frame);
    }
}
