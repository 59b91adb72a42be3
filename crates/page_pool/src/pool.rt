// The pool.

ghost use Rattle.std.specs.Prelude.{◌≡◌, ◌<◌, ◌≤◌, ⊤, false, Some, [], is_some, length, slice_get, All, OnOk, OnErr, IfOk, IfSome};
ghost use Rattle.std.specs.Option.{option_map};
ghost use Rattle.page_places.specs.Texts.{page_bytes};
ghost use Rattle.page_pool.specs.Changes.{admitted, cleaned, found_page};
ghost use Rattle.page_pool.specs.Pages.{AreInOrder, AreNamedOnce, IsPool, held_page, is_held, place_of, plain_page, without};

use crate::clean::CleanPages;
use crate::dirty::DirtyPages;
use crate::frame::Frame;
use crate::names::{DirtyPage, PageName, entry_at};
use cause_core::OutOfMemory;
use std::alloc::Global;
use std::marker::Model;

/// Pages of the spaces of a store, dirty and clean.
#[derive(Drop)]
pub struct Pool {
    pub(crate) alloc: Global,
    pub(crate) dirty: DirtyPages,
    pub(crate) clean: CleanPages,
}

impl Model for Pool {
    ghost use Rattle.std.specs.Prelude.{◌≡◌};
    ghost use Rattle.page_pool.specs.Pages.{PoolState, AreClean};

    ghost Value = { PoolState };

    ghost view = { λ p. record { dirty = p.dirty; clean = p.clean } };

    ghost invariant = { λ p. AreClean p.dirty p.clean };
}

impl Pool {
    ghost use mathlib.Core.Option.{none};
    ghost use Rattle.std.specs.Borrow.{sem, follows_so};
    ghost use Rattle.page_pool.specs.contracts.pool.Pool.{the_row};

    /// A pool that holds no page.
    pub fn new(alloc: Global) -> Result<Pool, OutOfMemory>
        ensures { IfOk result (λ pool. pool ≡ record { dirty = record { entries = []; pages = [] }; clean = [] }) }
    {
        let dirty = DirtyPages::new(alloc)?;
        let clean = CleanPages::new(alloc)?;
        Ok(Pool {
            alloc,
            dirty,
            clean,
        })
    }

    /// The bytes of a held page: its type at byte 24 and its body from byte 38 on, what stands
    /// elsewhere is left open. None exactly where it isn't held. A clean page is then the one that
    /// was used last, and nothing else changes.
    pub fn find(&mut self, space: u32, page: u32) -> Option<&[u8]>
        ensures* used { sem 𝓛 (follows_so the_row the_row self.entry.ghost_name none (λ _ _. ⊤) (λ new. new ≡ found_page (record { space = space; page = page }) self.old)) }
        ensures page { option_map (λ bytes. plain_page bytes.now) result ≡ held_page (record { space = space; page = page }) self.old }
        ensures held { is_some result ≡ is_held (record { space = space; page = page }) self.old }
        ensures whole { IfSome result (λ bytes. length bytes.now ≡ page_bytes) }
    {
        let name = PageName { space, page };
        self.clean_to_front(name);
        self.held(name)
    }

    fn clean_to_front(&mut self, name: PageName)
        ensures used { self.new ≡ found_page name self.old }
        ensures page { held_page name self.new ≡ held_page name self.old }
        ensures held { is_held name self.new ≡ is_held name self.old }
    {
        self.clean.bring(name);
    }

    fn held(&self, name: PageName) -> Option<&[u8]>
        ensures page { option_map (λ bytes. plain_page bytes.now) result ≡ held_page name self.now }
        ensures held { is_some result ≡ is_held name self.now }
        ensures whole { IfSome result (λ bytes. length bytes.now ≡ page_bytes) }
    {
        match self.dirty.place(name) {
            Some(place) => Some(self.dirty.page(place)),
            None => self.clean.page(name),
        }
    }

    /// Holds a page that isn't held, of these 16384 bytes, as the first of the clean pages; where
    /// there were 64 the last one is dropped.
    ///
    /// # Errors
    /// [`OutOfMemory`], after which the pool is as it was.
    pub fn admit(&mut self, space: u32, page: u32, plain: &[u8]) -> Result<(), OutOfMemory>
        requires whole { length plain.now ≡ page_bytes }
        requires absent { is_held (record { space = space; page = page }) self.old ≡ false }
        ensures admitted { OnOk result (self.new ≡ record { dirty = self.old.dirty; clean = admitted (record { space = space; page = page }) (plain_page plain.now) self.old.clean }) }
        ensures unchanged { OnErr result (self.new ≡ self.old) }
    {
        let frame = Frame::copy_of(self.alloc, plain)?;
        self.hold_clean(PageName { space, page }, frame);
        Ok(())
    }

    // Holds a page that isn't held as the first of the clean ones.
    fn hold_clean(&mut self, name: PageName, frame: Frame)
        requires { is_held name self.old ≡ false }
        ensures { self.new ≡ record { dirty = self.old.dirty; clean = admitted name frame self.old.clean } }
    {
        self.clean.hold(name, frame);
    }

    /// Marks a dirty page clean where this is the LSN of its last change; else nothing changes. It
    /// is then the first of the clean pages, and the last of 64 is dropped. It takes no memory.
    pub fn clean(&mut self, space: u32, page: u32, lsn: u64)
        ensures { self.new ≡ cleaned (record { space = space; page = page }) lsn self.old }
    {
        let name = PageName { space, page };
        if let Some(place) = entry_at(name, lsn, self.dirty.entries()) {
            let frame = self.take_dirty(name, place);
            self.hold_clean(name, frame);
        }
    }

    // Takes out a dirty page, which isn't held then.
    fn take_dirty(&mut self, name: PageName, place: usize) -> Frame
        requires { (place ≡ place_of name self.old.dirty.entries) × (place < length self.old.dirty.entries) }
        ensures page { held_page name self.old ≡ Some result }
        ensures rest { self.new ≡ record { dirty = without place self.old.dirty; clean = self.old.clean } }
        ensures gone { is_held name self.new ≡ false }
    {
        let _kept = self.dirty.entries();
        self.dirty.remove(place)
    }

    /// The least first block of the dirty pages; None exactly where no page is dirty.
    pub fn oldest(&self) -> Option<u64>
        ensures value { result ≡ option_map (λ d. d.first) (slice_get self.now.dirty.entries 0) }
        ensures least { IfSome result (λ first. All (λ d. first ≤ d.first) self.now.dirty.entries) }
    {
        let entry = self.dirty.entries().first()?;
        Some(entry.first)
    }

    /// The dirty pages, at most 256, in ascending order of first block, space and page.
    pub fn dirty(&self) -> &[DirtyPage]
        ensures entries { result.now ≡ self.now.dirty.entries }
        ensures most { length self.now.dirty.entries ≤ 256 }
        ensures order { AreInOrder self.now.dirty.entries }
        ensures once { AreNamedOnce self.now.dirty.entries }
        // At most 64 pages are clean, each of them once, and none of them is dirty.
        ensures kept { IsPool self.now }
    {
        self.clean.kept();
        self.dirty.entries()
    }
}
