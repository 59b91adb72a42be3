// The clean pages of a pool, in the order of their last use.

ghost use Rattle.std.specs.Prelude.{◌≡◌, ◌+◌, ◌<◌, true, false, nat_eq, Some, [], is_some, length, IfOk, IfSome, OnOk};
ghost use Rattle.std.specs.Option.{option_map};
ghost use Rattle.std.specs.Map.{lookup, remove_entry};
ghost use Rattle.lru.specs.LruCache.{promoted};
ghost use Rattle.page_places.specs.Texts.{page_bytes};
ghost use Rattle.page_pool.specs.Changes.{admitted};
ghost use Rattle.page_pool.specs.Pages.{IsCleanList, is_name, plain_page};
ghost use Rattle.page_pool.specs.Slots.{AreSlots, emptied, empty_slots, held_in, slot_holding};

use crate::frame::Frame;
use crate::names::PageName;
use cause_core::OutOfMemory;
use lru::LruCache;
use std::alloc::Global;
use std::marker::Model;
use std::num::NonZeroUsize;

/// How many clean pages may be held.
pub const MOST_CLEAN: usize = 64;

// What a slot holds.
type SlotContents = Option<(PageName, Frame)>;

// The clean pages. Each of 64 slots has its entry in the cache from the beginning, those that hold a
// page before the others, so that no call but `new` takes memory.
#[derive(Drop)]
pub(crate) struct CleanPages {
    slots: LruCache<usize, SlotContents>,
}

impl Model for CleanPages {
    ghost use Rattle.std.specs.Prelude.{List};
    ghost use Rattle.store_model.specs.declared.contents.PlainPage.{PlainPage};
    ghost use Rattle.page_pool.specs.declared.names.PageName.{PageName};
    ghost use Rattle.page_pool.specs.Pages.{IsCleanList};
    ghost use Rattle.page_pool.specs.Slots.{AreSlots, held_in};

    ghost Value = { List (PageName × PlainPage) };

    ghost view = { λ c. held_in c.slots.entries };

    ghost invariant = { λ c. AreSlots c.slots.entries × IsCleanList (held_in c.slots.entries) };
}

// Adds a slot without a page.
fn add_slot(slots: &mut LruCache<usize, SlotContents>, slot: usize) -> Result<(), OutOfMemory>
    requires { (slots.old.entries ≡ empty_slots slot) × (slots.old.cap ≡ 64) × (slot < 64) }
    ensures { OnOk result ((slots.new.entries ≡ empty_slots (slot + 1)) × (slots.new.cap ≡ 64)) }
{
    match slots.put(slot, None) {
        Ok(_) => Ok(()),
        Err(_) => Err(OutOfMemory),
    }
}

// Slots without a page.
fn empty_slots(alloc: Global) -> Result<LruCache<usize, SlotContents>, OutOfMemory>
    ensures { IfOk result (λ slots. slots.entries ≡ empty_slots 64) }
{
    let mut slots = LruCache::new(alloc, NonZeroUsize::new(MOST_CLEAN).unwrap())?;
    for slot in 0..MOST_CLEAN {
        add_slot(&mut slots, slot)?;
    }
    Ok(slots)
}

// The slot that holds a page.
fn slot_of(slots: &LruCache<usize, SlotContents>, name: PageName) -> Option<usize>
    ensures { result ≡ slot_holding name slots.now.entries }
{
    for (slot, held) in slots.iter() {
        if let Some((page, _)) = held {
            if *page == name {
                return Some(*slot);
            }
        }
    }
    None
}

// The page of a name among those in slots.
fn page_in(slots: &LruCache<usize, SlotContents>, name: PageName) -> Option<&Frame>
    ensures { option_map (λ frame. frame.now) result ≡ lookup (is_name name) (held_in slots.now.entries) }
{
    for (_, held) in slots.iter() {
        if let Some((page, frame)) = held {
            if *page == name {
                return Some(frame);
            }
        }
    }
    None
}

// Takes out what a slot holds. The slot is then behind all others.
fn empty_slot(slots: &mut LruCache<usize, SlotContents>, slot: usize) -> SlotContents
    requires { is_some (lookup (nat_eq slot) slots.old.entries) ≡ true }
    ensures held { Some result ≡ lookup (nat_eq slot) slots.old.entries }
    ensures rest { slots.new.entries ≡ emptied slot slots.old.entries }
{
    let held = slots.put(slot, None).unwrap().unwrap();
    slots.demote(&slot);
    held
}

// Puts a page into the last slot, which is the first one then.
fn fill_slot(slots: &mut LruCache<usize, SlotContents>, name: PageName, frame: Frame)
    requires { AreSlots slots.old.entries }
    ensures slots { AreSlots slots.new.entries }
    ensures held { held_in slots.new.entries ≡ admitted name frame (held_in slots.old.entries) }
{
    // No number stands twice.
    let _count = slots.len();
    let slot = *slots.peek_lru().unwrap().0;
    let _last = slots.put(slot, Some((name, frame))).unwrap();
}

impl CleanPages {
    pub(crate) fn new(alloc: Global) -> Result<CleanPages, OutOfMemory>
        ensures { IfOk result (λ c. c ≡ []) }
    {
        let slots = empty_slots(alloc)?;
        Ok(CleanPages { slots })
    }

    // What holds of the pages, for a caller's proof.
    pub(crate) fn kept(&self)
        ensures { IsCleanList self.now }
    {
        let _slots = &self.slots;
    }

    pub(crate) fn has(&self, name: PageName) -> bool
        ensures { result ≡ is_some (lookup (is_name name) self.now) }
    {
        page_in(&self.slots, name).is_some()
    }

    // The bytes of a clean page.
    pub(crate) fn page(&self, name: PageName) -> Option<&[u8]>
        ensures page { option_map (λ bytes. plain_page bytes.now) result ≡ lookup (is_name name) self.now }
        ensures whole { IfSome result (λ bytes. length bytes.now ≡ page_bytes) }
    {
        match page_in(&self.slots, name) {
            Some(frame) => Some(frame.bytes()),
            None => None,
        }
    }

    // Brings a page to the front, if it is there.
    pub(crate) fn bring(&mut self, name: PageName)
        ensures { self.new ≡ promoted (is_name name) self.old }
    {
        // No number stands twice.
        let _count = self.slots.len();
        if let Some(slot) = slot_of(&self.slots, name) {
            self.slots.promote(&slot);
        }
    }

    // Takes out a page, if it is there.
    pub(crate) fn take(&mut self, name: PageName) -> Option<Frame>
        ensures page { result ≡ lookup (is_name name) self.old }
        ensures rest { self.new ≡ remove_entry (is_name name) self.old }
    {
        // No number stands twice.
        let _count = self.slots.len();
        match slot_of(&self.slots, name) {
            Some(slot) => match empty_slot(&mut self.slots, slot) {
                Some((_, frame)) => Some(frame),
                None => None,
            },
            None => None,
        }
    }

    // Holds a page that isn't there as the first one; where there were 64 the last one is dropped.
    pub(crate) fn hold(&mut self, name: PageName, frame: Frame)
        requires { is_some (lookup (is_name name) self.old) ≡ false }
        ensures { self.new ≡ admitted name frame self.old }
    {
        fill_slot(&mut self.slots, name, frame);
    }
}
